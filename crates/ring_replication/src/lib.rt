//! A node's log and how it follows the outputs of the node's core.
//!
//! An output is a message of the newest ring, which advances the exchange and the log; a safe mark, which commits; or a
//! new ring. The owner of a `Replication` applies the committed calls to its sessions, and hands the due payloads to
//! the core.
//!
//! Rules: The replicated log 1 to 12 and 20
#![tactic(auto)]

mod delivery_context;
mod due_sends;
mod epoch_history;
mod exchange_stage;
mod held_log;
mod log_watermark;
mod message_effects;
mod replication;

pub use epoch_history::EpochHistory;
pub use held_log::HeldLog;
pub use replication::Replication;
pub use ring_node_spec::Input;
