//! A world: all nodes of a group, every frame that they sent and the history, in one value that one thread runs.
//!
//! Rules: The book and the threads 1 to 8
#![tactic(auto)]

mod answer_records;
mod copies;
mod effect_counts;
mod frame_store;
mod longest_committed;
mod memory_stops;
mod open_copies;
mod pump;
mod run_record;
mod spare_calls;
mod world;

pub use memory_stops::stopped_for_memory_law;
pub use open_copies::OpenCopy;
pub use pump::Pump;
pub use ring_node::Node;
pub use ring_node_spec::{Event, Item, Noise, Told};
pub use ring_order_proof::linear_laws::linear_law;
pub use world::World;
