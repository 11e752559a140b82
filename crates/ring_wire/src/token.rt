//! The token of a running ring.
//!
//! Rules: Token and window 5
//! Formats: Frames

ghost use Rattle.std.specs.Prelude.{◌≡◌, ℕ, ◌+◌, ◌^◌, ◌<◌, ◌≤◌, List, [], ◌∷◌, ◌++◌, length};
ghost use Rattle.ring_payload.specs.Codecs.{Appends, IsReadResult, sized_at};
ghost use Rattle.ring_wire.specs.Ascending.{is_ascending_within as ascends_to};

use crate::requests::Requests;
use bytes::BytesMut;
use ring_payload::{Decode, Encode, EncodedNumbers, Fault, MAX, Proc, Reader, RingId};
use std::alloc::Allocator;
use std::marker::Model;

/// `Token`: the token of a running ring.
///
/// Only the member that it visits sends new messages.
///
/// Rules: Token and window 5
/// Formats: Frames
#[derive(Clone, Drop)]
pub struct Token {
    /// The running ring, whose number is at least 1.
    pub ring: RingId,
    /// The token's own number, 1 to `MAX`, which each visit raises by one.
    pub number: u64,
    /// The greatest message number given in the ring so far, 0 to `MAX`.
    pub seq: u64,
    /// The number up to which all members hold the ring's messages ("all received up to"), 0 to `seq`.
    pub aru: u64,
    /// The processor that holds `aru` back: `None` exactly if `aru` equals `seq`.
    pub aru_id: Option<Proc>,
    /// The numbers of the messages to be sent again, at most 32, strictly ascending, each 1 to `seq`.
    pub requests: Requests,
}

impl Token {
    /// Returns a blank token for [`BorrowedToken::write_to_token`] to overwrite.
    ///
    /// It isn't within the limits of its format.
    pub(crate) fn blank_token() -> Token {
        Token {
            ring: RingId {
                seq: 0,
                rep: Proc::new(1),
            },
            number: 0,
            seq: 0,
            aru: 0,
            aru_id: None,
            requests: Requests::new(),
        }
    }
}

/// A decoded token whose requests are borrowed from the bytes, so that nothing is copied before the whole token is
/// checked.
///
/// Contracts see the token.
///
/// Formats: Frames
#[derive(Drop)]
pub(crate) struct BorrowedToken<'a> {
    ring: RingId,
    number: u64,
    seq: u64,
    aru: u64,
    aru_id: Option<Proc>,
    requests: EncodedNumbers<'a>,
}

impl<'a> Model for BorrowedToken<'a> {
    ghost use Rattle.std.specs.Prelude.{◌≤◌, length};
    ghost use Rattle.ring_wire.specs.declared.token.Token.{Token as OneToken};

    ghost Value = { OneToken };

    ghost view = { λ t. record { ring = t.ring; number = t.number; seq = t.seq; aru = t.aru; aru_id = t.aru_id; requests = t.requests } };

    ghost invariant = { λ t. length t.requests ≤ 32 };
}

impl<'a> BorrowedToken<'a> {
    ghost use Rattle.std.specs.Prelude.{◌≡◌, ℕ, List, Some, None, if◌then◌else◌};
    ghost use Rattle.ring_payload.specs.Codecs.{IsReadResult, sized_at};
    ghost use Rattle.ring_wire.specs.Tokens.{aru_id_test, token_test, token_at};

    /// Decodes the token at the front of `from`.
    ///
    /// Errors: `BadFrame` if no token begins `from`. What is then left to read is unspecified.
    #[tactic(auto, unfolding(crate::specs::Tokens::token_at))]
    fn read<A: Allocator + Copy>(
        alloc: A,
        from: &mut Reader<'a>,
    ) -> Result<BorrowedToken<'a>, Fault>
        ensures { IsReadResult result from.new (token_at from.old) }
    {
        let token = BorrowedToken {
            ring: Decode::read(alloc, from)?,
            number: Decode::read(alloc, from)?,
            seq: Decode::read(alloc, from)?,
            aru: Decode::read(alloc, from)?,
            aru_id: Decode::read(alloc, from)?,
            requests: Requests::read_borrowed_requests(alloc, from)?,
        };
        let is_valid = token.is_valid_token();
        token.checked_token(is_valid)
    }

    /// Decodes a length in bytes, a big-endian `u32`, and then a token that takes exactly that many bytes.
    ///
    /// Does not allocate.
    ///
    /// Errors: `BadFrame` if `from` doesn't begin with such a token. What is then left to read is unspecified.
    ///
    /// Formats: Frames
    pub(crate) fn decode_length_prefixed<A: Allocator + Copy>(
        alloc: A,
        from: &mut Reader<'a>,
    ) -> Result<BorrowedToken<'a>, Fault>
        ensures { IsReadResult result from.new (sized_at token_at from.old) }
    {
        let len: u32 = Decode::read(alloc, from)?;
        let mut body = Reader::new(from.take_bytes(len as usize)?);
        let token = BorrowedToken::read(alloc, &mut body)?;
        token.checked_token(body.len() == 0)
    }

    /// Returns whether `aru_id` is `None` exactly if `aru` equals `seq`.
    fn is_aru_id_valid(&self) -> bool
        ensures { result ≡ aru_id_test self.now }
    {
        if self.aru == self.seq {
            self.aru_id.is_none()
        } else {
            self.aru_id.is_some()
        }
    }

    /// Returns whether the fields are within the limits of their format.
    fn is_valid_token(&self) -> bool
        ensures { result ≡ token_test self.now }
    {
        self.ring.seq >= 1
            && self.number >= 1
            && self.number <= MAX
            && self.aru <= self.seq
            && self.seq <= MAX
            && self.is_aru_id_valid()
            && requests_ascend(&self.requests, self.seq)
    }

    /// Returns the token if `holds` is true.
    ///
    /// Errors: `BadFrame` if it is false.
    #[inline(always)]
    fn checked_token(self, holds: bool) -> Result<BorrowedToken<'a>, Fault>
        ensures { (rest : List ℕ) → IsReadResult result rest (if holds then Some (self.entry, rest) else None) }
    {
        if holds {
            Ok(self)
        } else {
            Err(Fault::BadFrame)
        }
    }

    /// Overwrites all fields of `token` with those of this token.
    ///
    /// Does not allocate.
    pub(crate) fn write_to_token(&self, token: &mut Token)
        ensures { token.new ≡ self.now }
    {
        token.ring = self.ring;
        token.number = self.number;
        token.seq = self.seq;
        token.aru = self.aru;
        token.aru_id = self.aru_id;
        token.requests.replace_with(&self.requests);
    }
}

/// Returns whether the numbers ascend strictly and are all 1 to `greatest`.
fn requests_ascend(numbers: &EncodedNumbers<'_>, greatest: u64) -> bool
    ensures { result ≡ ascends_to 0 greatest numbers.now }
{
    let mut low = 0;
    for index in 0..numbers.len() {
        let number = numbers.number(index);
        if number <= low || number > greatest {
            return false;
        }
        low = number;
    }
    true
}

impl Encode for Token {
    ghost use Rattle.ring_wire.specs.Tokens.{token_encoding, TokenFits, token_at, token_format};

    ghost encoding = { token_encoding };

    ghost max_encoded_len = { 291 };

    ghost is_within_limits = { TokenFits };

    ghost decoding_at_front = { token_at };

    ghost decoding_is_exact = { token_format };

    fn encoded_len(&self) -> usize {
        34 + self.requests.encoded_len()
    }

    fn write<B: Allocator + Copy>(&self, out: &mut BytesMut<B>) {
        self.ring.write(out);
        self.number.write(out);
        self.seq.write(out);
        self.aru.write(out);
        self.aru_id.write(out);
        self.requests.write(out);
    }
}

impl<A: Allocator + Copy> Decode<A> for Token {
    fn read(alloc: A, from: &mut Reader<'_>) -> Result<Token, Fault> {
        let borrowed_token = BorrowedToken::read(alloc, from)?;
        let mut token = Token::blank_token();
        borrowed_token.write_to_token(&mut token);
        Ok(token)
    }
}
