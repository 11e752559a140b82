//! A node: its ring core and its replica.
//!
//! Each of its steps follows the definition `node_step`.
//!
//! Rules: Rings and states 6, 12 and 13; The replicated log 1, 8, 13 to 15, 18 and 20; Refusals 4 to 6
#![tactic(auto)]

mod core_with_replica;
mod node;
mod outs;

pub use node::Node;
pub use outs::Outs;
pub use ring_core_spec::OutgoingFrame;
pub use ring_replica::Input;
