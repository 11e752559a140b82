//! Commit tokens.
//!
//! Rules: The commit token 1
//! Formats: Frames; The commit entry

ghost use Rattle.std.specs.Prelude.{◌≡◌, ℕ, ◌+◌, ◌^◌, ◌<◌, ◌≤◌, Bool, ◌&&◌, ◌==◌, not, List, [], ◌∷◌, ◌++◌, length};
ghost use Rattle.ring_payload.specs.Codecs.{Appends, IsReadResult, IsReadResultBy};
ghost use Rattle.ring_payload.specs.Base.{elements, smallest, nobody};
ghost use Rattle.ring_wire.specs.Commits.{is_report_of_member as is_report_of, are_reports_of_members as are_reports_of};

use crate::entries::{CommitEntry, Entries};
use bytes::BytesMut;
use ring_payload::{Decode, Encode, Fault, Proc, ProcSet, Reader, RingId, encode_list};
use std::alloc::Allocator;

/// `CommitToken`: the token that goes round a proposed ring twice to form it.
///
/// Rules: The commit token 1
/// Formats: Frames
#[derive(Clone, Drop)]
pub struct CommitToken {
    /// The proposed ring, whose number is at least 1.
    pub ring: RingId,
    /// The members of the proposed ring, at least one, of which the smallest is the representative.
    pub members: ProcSet,
    /// The number of the token's hop, 1 to twice the number m of members.
    ///
    /// Hop h goes to the member at position h mod m.
    pub hop: u8,
    /// The entries of the first min(`hop`, m) of the m members, in ascending order of members.
    pub entries: Entries,
}

/// Returns whether the entry's old ring has a lower number than `ring` and, if that number is 0, is the opening ring of
/// `member`.
fn is_report_of_member(entry: &CommitEntry, ring: &RingId, member: Proc) -> bool
    ensures { result ≡ is_report_of ring.now member entry.now }
{
    entry.old.seq < ring.seq && (entry.old.seq != 0 || entry.old.rep == member)
}

/// Returns whether the entries may be those of the first members, in ascending order, one for each.
fn are_reports_of_members(entries: &[CommitEntry], ring: &RingId, members: ProcSet) -> bool
    ensures { result ≡ are_reports_of ring.now (elements members) entries.now }
{
    let mut left = members.iter();
    for entry in entries {
        let is_right = match left.next() {
            Some(member) => is_report_of_member(entry, ring, member),
            None => false,
        };
        if !is_right {
            return false;
        }
    }
    true
}

impl CommitToken {
    ghost use Rattle.ring_wire.specs.Commits.{commit_test};

    /// Returns whether there are members, and the smallest is the representative.
    fn is_representative_valid(&self) -> bool
        ensures { result ≡ (not (self.now.members == nobody)
            && (self.now.ring.rep == smallest self.now.members)) }
    {
        match self.members.smallest() {
            Some(smallest) => self.ring.rep == smallest,
            None => false,
        }
    }

    /// Returns whether the fields are within the limits of their format.
    fn is_valid_commit_token(&self) -> bool
        ensures { result ≡ commit_test self.now }
    {
        self.ring.seq >= 1
            && self.is_representative_valid()
            && self.hop >= 1
            && u32::from(self.hop) <= 2 * self.members.len()
            && are_reports_of_members(self.entries.as_slice(), &self.ring, self.members)
    }
}

impl Encode for CommitToken {
    ghost use Rattle.ring_wire.specs.Commits.{commit_encoding, CommitFits, commit_at, commit_format};

    ghost encoding = { commit_encoding };

    ghost max_encoded_len = { 924 };

    ghost is_within_limits = { CommitFits };

    ghost decoding_at_front = { commit_at };

    ghost decoding_is_exact = { commit_format };

    fn encoded_len(&self) -> usize {
        12 + 57 * self.entries.as_slice().len()
    }

    fn write<B: Allocator + Copy>(&self, out: &mut BytesMut<B>) {
        self.ring.write(out);
        self.members.write(out);
        self.hop.write(out);
        encode_list(self.entries.as_slice(), out);
    }
}

impl CommitToken {
    ghost use Rattle.ring_wire.specs.Commits.{commit_at};

    /// Returns a commit token without entries, for [`decode_commit_token`](CommitToken::decode_commit_token) to
    /// overwrite.
    ///
    /// It isn't within the limits of its format.
    pub(crate) fn blank_commit_token() -> CommitToken
        ensures { result.entries ≡ [] }
    {
        CommitToken {
            ring: RingId {
                seq: 0,
                rep: Proc::new(1),
            },
            members: ProcSet::new(),
            hop: 0,
            entries: Entries::new(),
        }
    }

    /// Decodes the commit token at the front of `from` into this one, and moves `from` past it.
    ///
    /// This one must have no entries.
    ///
    /// Errors: `BadFrame`, only if no commit token begins `from`. `Memory` if an allocation fails. The content of this
    /// token, and what is left to read, are then unspecified.
    ///
    /// Formats: Frames
    #[tactic(auto, unfolding(crate::specs::Commits::commit_at))]
    pub(crate) fn decode_commit_token<A: Allocator + Copy>(
        &mut self,
        alloc: A,
        from: &mut Reader<'_>,
    ) -> Result<(), Fault>
        requires { self.old.entries ≡ [] }
        ensures { IsReadResultBy (λ _. self.new) result from.new (commit_at from.old) }
    {
        self.ring = Decode::read(alloc, from)?;
        self.members = Decode::read(alloc, from)?;
        self.hop = Decode::read(alloc, from)?;
        let count = (self.hop as usize).min(self.members.len() as usize);
        self.entries.decode_entries(alloc, count, from)?;
        if !self.is_valid_commit_token() {
            return Err(Fault::BadFrame);
        }
        Ok(())
    }
}

impl<A: Allocator + Copy> Decode<A> for CommitToken {
    fn read(alloc: A, from: &mut Reader<'_>) -> Result<CommitToken, Fault> {
        let mut token = CommitToken::blank_commit_token();
        token.decode_commit_token(alloc, from)?;
        Ok(token)
    }
}
