//! Sequential objects: their interface, their laws, and the content after a list of operations.
//!
//! An object has one start content. An operation is any bytes; it yields a reply and the next content. Both are
//! functions of the content and the operation. A snapshot is the content as bytes, from which the same content is
//! restored.
//!
//! Rules: Objects 1 to 4
#![tactic(auto)]

mod object;
mod object_copies;
mod object_laws;
mod short_bytes;
mod sized_snapshot;
mod stateless_object;

pub use object::Object;
pub use object_copies::copy_by_snapshot;
pub use object_laws::object_law;
pub use short_bytes::{MAX_REPLY, Reply, ShortBytes};
pub use sized_snapshot::append_sized_snapshot;
pub use stateless_object::StatelessObject;
