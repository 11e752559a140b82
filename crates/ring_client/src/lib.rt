//! A client that numbers its calls and submits each to one port after another, under one number, until a port answers
//! it.
//!
//! So a call survives nodes that refuse it, stop, or never answer, and it takes effect at most once. A [`Port`] is a
//! way to a node. The contracts of [`Client`] hold for every port.
//!
//! Rules: Clients 1 to 7
#![tactic(auto)]

mod client;
mod last_request;
mod port;
mod port_trials;

pub use client::Client;
pub use last_request::{Asked, Op};
pub use port::{Port, if_client_visible};
