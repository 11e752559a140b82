//! The numbers of the messages that a token requests.
//!
//! Rules: Token and window 5
//! Formats: Frames

ghost use Rattle.std.specs.Prelude.{◌≡◌, ℕ, ◌+◌, ◌^◌, ◌<◌, ◌≤◌, List, [], ◌∷◌, ◌++◌, length, IfOk};
ghost use Rattle.ring_payload.specs.Codecs.{Appends, IsReadResult};

use arrayvec::ArrayVec;
use bytes::BytesMut;
use ring_payload::{Decode, Encode, EncodedNumbers, Fault, Reader, encode_list};
use std::alloc::{AllocError, Allocator};
use std::marker::Model;

/// The maximum number of messages that a token requests.
///
/// Rules: Limits 1
pub const MAX_REQUESTS: usize = 32;

/// The message numbers that a token requests: a list of at most 32, stored inline.
///
/// Contracts see the list.
///
/// Rules: Token and window 5
#[derive(Drop)]
pub struct Requests {
    numbers: ArrayVec<u64, MAX_REQUESTS>,
}

impl Model for Requests {
    ghost Value = { List ℕ };

    ghost view = { λ r. r.numbers.items };
}

impl Requests {
    /// Returns an empty list, which requests nothing.
    ///
    /// Does not allocate.
    pub fn new() -> Requests
        ensures { result ≡ [] }
    {
        Requests {
            numbers: ArrayVec::new(),
        }
    }

    /// Returns the numbers, at most 32, in the order in which they were appended.
    ///
    /// In a token they must ascend strictly.
    ///
    /// Rules: Token and window 5
    pub fn as_slice(&self) -> &[u64]
        ensures value { result.now ≡ self.now }
        ensures few { length result.now ≤ 32 }
    {
        self.numbers.as_slice()
    }

    /// Appends `number`.
    ///
    /// The list must have fewer than 32 numbers. Does not allocate.
    ///
    /// Rules: Token and window 5
    pub fn push(&mut self, number: u64)
        requires { length self.old < 32 }
        ensures { self.new ≡ self.old ++ number ∷ [] }
    {
        self.numbers.push(number);
    }

    /// Removes all numbers.
    pub fn clear(&mut self)
        ensures { self.new ≡ [] }
    {
        self.numbers.clear();
    }

    /// Replaces the numbers of the list by `numbers`, in order.
    ///
    /// They must be at most 32. Does not allocate.
    pub(crate) fn replace_with(&mut self, numbers: &EncodedNumbers<'_>)
        requires { length numbers.now ≤ 32 }
        ensures { self.new ≡ numbers.now }
    {
        self.numbers.clear();
        for index in 0..numbers.len() {
            self.numbers.push(numbers.number(index));
        }
    }

    /// Returns a copy of the list.
    ///
    /// Unlike `clone` it returns no `Result`. Does not allocate.
    pub fn copy_of_requests(&self) -> Requests
        ensures { result ≡ self.now }
    {
        let mut numbers = ArrayVec::new();
        numbers
            .try_extend_from_slice(self.numbers.as_slice())
            .unwrap();
        Requests { numbers }
    }
}

impl Clone for Requests {
    ghost is_clone = { λ requests copy. copy ≡ requests };

    ghost is_infallible = { λ _. Unit {0} };

    fn clone(&self) -> Result<Requests, AllocError> {
        Ok(self.copy_of_requests())
    }
}

impl Encode for Requests {
    ghost use Rattle.ring_wire.specs.Tokens.{requests_encoding, RequestsFit, requests_at, requests_format};

    ghost encoding = { requests_encoding };

    ghost max_encoded_len = { 257 };

    ghost is_within_limits = { RequestsFit };

    ghost decoding_at_front = { requests_at };

    ghost decoding_is_exact = { requests_format };

    fn encoded_len(&self) -> usize {
        1 + 8 * self.as_slice().len()
    }

    fn write<B: Allocator + Copy>(&self, out: &mut BytesMut<B>) {
        let numbers = self.as_slice();
        (numbers.len() as u8).write(out);
        encode_list(numbers, out);
    }
}

impl Requests {
    ghost use Rattle.ring_wire.specs.Tokens.{requests_at};

    /// Takes a count of one byte and that many numbers, at most 32, from the front of `from`.
    ///
    /// They stay borrowed from its bytes. That they ascend isn't checked.
    ///
    /// Errors: `BadFrame` if the count is above 32, or too few bytes are left. What is then left to read is
    /// unspecified.
    ///
    /// Formats: Frames
    #[tactic(auto, unfolding(crate::specs::Tokens::requests_at))]
    pub(crate) fn read_borrowed_requests<'a, A: Allocator + Copy>(
        alloc: A,
        from: &mut Reader<'a>,
    ) -> Result<EncodedNumbers<'a>, Fault>
        ensures read { IsReadResult result from.new (requests_at from.old) }
        ensures few { IfOk result (λ numbers. length numbers ≤ 32) }
    {
        let count: u8 = Decode::read(alloc, from)?;
        let count = count as usize;
        if count > MAX_REQUESTS {
            return Err(Fault::BadFrame);
        }
        EncodedNumbers::read(count, from)
    }
}

impl<A: Allocator + Copy> Decode<A> for Requests {
    fn read(alloc: A, from: &mut Reader<'_>) -> Result<Requests, Fault> {
        let numbers = Requests::read_borrowed_requests(alloc, from)?;
        let mut requests = Requests::new();
        requests.replace_with(&numbers);
        Ok(requests)
    }
}
