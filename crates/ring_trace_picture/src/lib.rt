//! A trace as a picture in SVG.
//!
//! Formats: The command line
#![tactic(auto)]

mod bands;
mod call_arcs;
mod canvas;
mod labels;
mod lane;
mod mark;
mod picture;
mod shapes;
mod trace_picture;

pub use mark::{LaneColour, PictureMark};
pub use picture::Picture;
pub use trace_picture::TracePicture;
