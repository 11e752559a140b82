//! Bytes that a word encodes in hex.
//!
//! Formats: Scripts

ghost use Rattle.std.specs.Char.{is_ascii_uppercase};
ghost use Rattle.std.specs.List.{list_any};
ghost use Rattle.std.specs.Prelude.{◌≡◌, ◌≤◌};
ghost use Rattle.ring_script.specs.HexWords.{decode_hex_word};
ghost use Rattle.ring_script.specs.Reading.{IsParseResultOrMemory};
ghost use Rattle.ring_base.specs.Numbers.{max_frame_bytes};

use ring_base::Fault;
use std::alloc::Allocator;

/// Decodes a word of lower-case hex, two digits a byte, to the 1 to `most` bytes that it encodes.
///
/// `most` must be at most 8,192.
///
/// Errors: `BadScript` if the word is empty, has more than 2 * `most` digits, or isn't such hex. `Memory` if an
/// allocation fails.
///
/// Formats: Scripts
#[tactic(auto, unfolding(crate::specs::HexWords::decode_hex_word))]
pub(crate) fn decode_hex_word<A: Allocator + Copy>(
    alloc: A,
    word: &[u8],
    most: usize,
) -> Result<Vec<u8, A>, Fault>
    requires { most ≤ max_frame_bytes }
    ensures { IsParseResultOrMemory (λ bytes. bytes.items) result (decode_hex_word most word.now) }
{
    if word.is_empty() || word.len() > 2 * most || has_upper_case(word) {
        return Err(Fault::BadScript);
    }
    match hex::decode(alloc, word) {
        Ok(bytes) => Ok(bytes),
        Err(hex::FromHexError::OutOfMemory) => Err(Fault::Memory),
        Err(_) => Err(Fault::BadScript),
    }
}

fn has_upper_case(word: &[u8]) -> bool
    ensures { result ≡ list_any is_ascii_uppercase word.now }
{
    word.iter().any(|byte| byte.is_ascii_uppercase())
}
