//! Commit tokens on the heap.
//!
//! Rules: The commit token 1, 5 and 6

ghost use Rattle.std.specs.Prelude.{◌≡◌, ℕ, ◌+◌, ◌^◌, ◌<◌, ◌≤◌, List, [], ◌∷◌, ◌++◌, length, IfOk, IfErr};
ghost use Rattle.ring_payload.specs.Faults.{Memory};
ghost use Rattle.ring_payload.specs.Codecs.{Appends, IsReadResult};
ghost use Rattle.ring_wire.specs.declared.commit.CommitToken.{CommitToken as OneToken};

use crate::commit::CommitToken;
use crate::entries::CommitEntry;
use bytes::BytesMut;
use ring_payload::{Decode, Encode, Fault, Reader};
use std::alloc::{AllocError, Allocator, Global};
use std::marker::Model;

/// A commit token on the heap, which keeps frames small.
///
/// Contracts see the token.
///
/// Rules: The commit token 1
#[derive(Drop)]
pub struct BoxedCommitToken<A: Allocator + Copy = Global> {
    token: Box<CommitToken, A>,
}

impl<A: Allocator + Copy> Model for BoxedCommitToken<A> {
    ghost use Rattle.ring_wire.specs.declared.commit.CommitToken.{CommitToken as OneToken};

    ghost Value = { OneToken };

    ghost view = { λ b. b.token.value };
}

impl<A: Allocator + Copy> BoxedCommitToken<A> {
    /// Moves a commit token to the heap and returns the box that owns it.
    ///
    /// Errors: `Memory` if an allocation fails; the token is then dropped.
    ///
    /// Rules: The commit token 1
    pub fn new(alloc: A, token: CommitToken) -> Result<BoxedCommitToken<A>, Fault>
        ensures ok { IfOk result (λ boxed. boxed ≡ token) }
        ensures refused { IfErr result (λ fault. fault ≡ Memory) }
    {
        Ok(BoxedCommitToken {
            token: Box::new(alloc, token)?,
        })
    }

    /// Returns the commit token in the box.
    ///
    /// Rules: The commit token 1
    pub fn token(&self) -> &CommitToken
        ensures { result.now ≡ self.now }
    {
        &self.token
    }

    /// Raises the token's `hop` by one, as a member does before it forwards the token.
    ///
    /// `hop` must be below 255.
    ///
    /// Rules: The commit token 5 and 6
    pub fn advance_hop(&mut self)
        requires { self.old.hop < 255 }
        ensures { self.new ≡ record self.old { hop = self.old.hop + 1 } }
    {
        self.token.hop += 1;
    }

    /// Appends the next member's entry, in ascending order of members.
    ///
    /// The token must have fewer than 16 entries. Does not allocate.
    ///
    /// Rules: The commit token 5
    pub fn append_entry(&mut self, entry: CommitEntry)
        requires { length self.old.entries < 16 }
        ensures { self.new ≡ record self.old { entries = self.old.entries ++ entry ∷ [] } }
    {
        self.token.entries.push(entry);
    }
}

impl<A: Allocator + Copy> Clone for BoxedCommitToken<A> {
    ghost is_clone = { λ boxed copy. copy ≡ boxed };

    fn clone(&self) -> Result<BoxedCommitToken<A>, AllocError> {
        Ok(BoxedCommitToken {
            token: self.token.clone()?,
        })
    }
}

impl<A: Allocator + Copy> Encode for BoxedCommitToken<A> {
    ghost use Rattle.ring_wire.specs.Commits.{commit_encoding, CommitFits, commit_at, commit_format};

    ghost encoding = { commit_encoding };

    ghost max_encoded_len = { 924 };

    ghost is_within_limits = { CommitFits };

    ghost decoding_at_front = { commit_at };

    ghost decoding_is_exact = { commit_format };

    fn encoded_len(&self) -> usize {
        self.token().encoded_len()
    }

    fn write<B: Allocator + Copy>(&self, out: &mut BytesMut<B>) {
        self.token().write(out);
    }
}

impl<A: Allocator + Copy> Decode<A> for BoxedCommitToken<A> {
    fn read(alloc: A, from: &mut Reader<'_>) -> Result<BoxedCommitToken<A>, Fault> {
        let mut boxed = BoxedCommitToken::new(alloc, CommitToken::blank_commit_token())?;
        boxed.token.decode_commit_token(alloc, from)?;
        Ok(boxed)
    }
}
