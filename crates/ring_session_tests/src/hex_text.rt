//! Comparison of bytes with hexadecimal text.

use std::alloc::Global;

/// Whether the text is the bytes in hexadecimal.
pub fn is_hex_of(alloc: Global, bytes: &[u8], text: &str) -> bool {
    match hex::encode(alloc, bytes) {
        Ok(hex_text) => hex_text.as_str() == text,
        Err(_) => false,
    }
}
