//! How values are encoded in bytes: numbers, processors, sets, rings, counted lists, length-prefixed values.
//!
//! Every value has exactly one encoding. [`Encode`] writes a value into a buffer that has room for it; [`Decode`] reads
//! it from the front of bytes. [`Wire`] does the same with a buffer that grows: it appends the encoding or refuses, and
//! it reads a value together with the length of its encoding.
//!
//! Formats: Numbers and parts; Frames
#![tactic(auto)]

mod arrays;
mod codec;
mod encoded_numbers;
mod length_prefixed;
mod numbers;
mod processors;
mod reader;
mod rings;
mod value_lists;
mod wire;

pub use codec::{Decode, Encode};
pub use encoded_numbers::EncodedNumbers;
pub use length_prefixed::{decode_length_prefixed, encode_length_prefixed};
pub use reader::Reader;
pub use ring_base::{Fault, Ghost, MAX, PROCESSORS, Proc, ProcSet, RingId, WINDOW_SIZE, ghost_of};
pub use value_lists::{decode_list, decode_list_into, encode_list, list_encoded_len};
pub use wire::Wire;
