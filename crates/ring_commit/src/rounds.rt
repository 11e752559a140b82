//! The two rounds of a commit token: when a node takes it, and what it forwards.
//!
//! Rules: The commit token 1, 2, 4 to 9 and 11; Recovery 1

ghost use Rattle.std.specs.Prelude.{◌≡◌, ℕ, suc, ◌+◌, ◌<◌, ◌≤◌, [], ◌∷◌, ◌++◌, length, slice_get, true};
ghost use Rattle.ring_wire.specs.Base.{size};
ghost use Rattle.ring_wire.specs.Commits.{entries_at};
ghost use Rattle.ring_commit.specs.Reports.{same_entry, reports_of, safe_of, none_behind, is_sound};
ghost use Rattle.ring_commit.specs.Rounds.{position_of_hop, receiver, hop_with_entries, proposal, is_of, is_own, is_first_round, is_second_round, is_start};
ghost use Rattle.ring_commit.specs.Outcomes.{is_at, after_proposal, fill_outcome, learn_outcome, start_outcome};

use crate::configuration::Configuration;
use crate::outcome::CommitOutcome;
use ring_wire::{CommitEntry, CommitToken, Entries, MAX, Proc, ProcSet, RingId, Token};

/// Returns the member to which the commit token goes.
///
/// Among m members, hop h goes to the member at position h mod m, counted from 0 in ascending order. The token must
/// name at least one member.
///
/// Rules: The commit token 1
pub fn receiver(token: &CommitToken) -> Proc
    requires { 0 < size token.now.members }
    ensures { result ≡ receiver token.now }
{
    let position = u32::from(token.hop) % token.members.len();
    token.members.at(position).unwrap()
}

/// Returns whether `me` is the member to which the commit token goes. It is false for a token without members.
///
/// Rules: The commit token 1
pub fn is_token_at(me: Proc, token: &CommitToken) -> bool
    ensures { result ≡ is_at me token.now }
{
    receiver_number(token) == me.number()
}

/// Returns whether a node in Gather takes this commit token in its first round, if the token is at this node
/// ([`is_token_at`]).
///
/// True if the hop is below the number of members, the members are exactly `candidates`, and the ring's number is above
/// `floor`. `candidates` must be the node's `proc_set` less `fail_set`, and `floor` the greatest number of a ring that
/// it has taken part in. Consensus isn't checked.
///
/// Rules: The commit token 5
pub fn is_first_round(floor: u64, candidates: ProcSet, token: &CommitToken) -> bool
    ensures { result ≡ is_first_round floor candidates token.now }
{
    u32::from(token.hop) < token.members.len()
        && token.members == candidates
        && floor < token.ring.seq
}

/// Returns whether a node in Commit takes this commit token in its second round, if the token is at this node
/// ([`is_token_at`]).
///
/// With m members, all of these must hold:
///
/// - The hop is m to 2m - 1.
/// - Ring and members are those of `running`.
/// - The node's entry in the token equals `own`, which must be the entry that the node would write now.
/// - No member from the node's old ring reports a front below the greatest safe mark that a member from it reports.
///
/// Rules: The commit token 6; Recovery 1
pub fn is_second_round(running: &Configuration, own: &CommitEntry, token: &CommitToken) -> bool
    ensures { result ≡ is_second_round running.now own.now token.now }
{
    let hop = u32::from(token.hop);
    let members = token.members.len();
    if hop < members {
        return false;
    }
    if 2 * members <= hop {
        return false;
    }
    if !is_for_ring(running, token) {
        return false;
    }
    has_own_entry(own, token) && has_no_front_below_safe(&own.old, token.entries.as_slice())
}

/// Returns whether the commit token has completed both rounds of the ring `running`.
///
/// True if its hop is 2m, with m members, and ring and members are those of `running`. Whether the token is at this
/// node isn't checked: see [`is_token_at`].
///
/// Rules: The commit token 7
pub fn is_start(running: &Configuration, token: &CommitToken) -> bool
    ensures { result ≡ is_start running.now token.now }
{
    u32::from(token.hop) == 2 * token.members.len() && is_for_ring(running, token)
}

/// Returns the greatest safe mark in the entries of members from the ring `old`, 0 if there is no such entry.
///
/// Rules: Recovery 1
pub fn greatest_reported_mark(old: &RingId, entries: &[CommitEntry]) -> u64
    ensures { result ≡ safe_of (reports_of old.now entries.now) }
{
    let mut safe = 0;
    for entry in entries {
        if entry.old == *old {
            safe = safe.max(entry.mark);
        }
    }
    safe
}

/// Returns the proposal of a ring of `members`, with the number after `greatest` and `me` as its representative.
///
/// It is `Pass` with the commit token of hop 1, whose only entry is `own`, or `Ignored` if the number would be above
/// `MAX`. Whether there is consensus isn't checked.
///
/// Rules: Gather 10; The commit token 4 and 11
pub fn propose(me: Proc, greatest: u64, members: ProcSet, own: CommitEntry) -> CommitOutcome
    ensures { result ≡ after_proposal me (suc greatest) members own }
{
    if greatest >= MAX {
        return CommitOutcome::Ignored;
    }
    let mut entries = Entries::new();
    entries.push(own);
    let ring = RingId {
        seq: greatest + 1,
        rep: me,
    };
    CommitOutcome::Pass(CommitToken {
        ring,
        members,
        hop: 1,
        entries,
    })
}

/// Performs the first round, in Gather: adds the node's entry, and returns the token to forward as `Pass`.
///
/// Returns `Ignored` if the token isn't at the node ([`is_token_at`]) or [`is_first_round`] is false. A token of hop h
/// with m members must have min(h, m) entries. The ring core tests `is_token_at` and `is_first_round` as it decides,
/// and adds the entry in place: `RunningCore::fill` of `ring_srp_transitions`.
///
/// Rules: The commit token 5 and 11
pub fn fill(
    me: Proc,
    floor: u64,
    candidates: ProcSet,
    own: CommitEntry,
    mut token: CommitToken,
) -> CommitOutcome
    requires { length token.entries ≡ entries_at token.hop (size token.members) }
    ensures { result ≡ fill_outcome me floor candidates own token }
{
    if !is_token_at(me, &token) {
        return CommitOutcome::Ignored;
    }
    if !is_first_round(floor, candidates, &token) {
        return CommitOutcome::Ignored;
    }
    token.hop += 1;
    token.entries.push(own);
    CommitOutcome::Pass(token)
}

/// Performs the second round, in Commit: returns the token to forward as `Recover`. Its entries are the node's plan.
///
/// Returns `Ignored` if the token isn't at the node ([`is_token_at`]) or [`is_second_round`] is false. The ring core
/// tests both as it decides, and forwards the token in place: `RunningCore::learn` of `ring_srp_transitions`.
///
/// Rules: The commit token 6 and 11
pub fn learn(
    me: Proc,
    running: &Configuration,
    own: &CommitEntry,
    mut token: CommitToken,
) -> CommitOutcome
    ensures { result ≡ learn_outcome me running.now own.now token }
{
    if !is_token_at(me, &token) {
        return CommitOutcome::Ignored;
    }
    if !is_second_round(running, own, &token) {
        return CommitOutcome::Ignored;
    }
    token.hop += 1;
    CommitOutcome::Recover(token)
}

/// Ends the second round, in Recovery: returns `Start` with `first`, the first token of the ring, for a visit.
///
/// Returns `Ignored` if the commit token isn't at the node ([`is_token_at`]) or [`is_start`] is false. Whether the node
/// accepts `first` isn't checked. The ring core makes all three tests as it decides: `RunningCore::decide` of
/// `ring_srp_transitions`.
///
/// Rules: The commit token 7 and 11
pub fn start(me: Proc, running: &Configuration, first: Token, token: &CommitToken) -> CommitOutcome
    ensures { result ≡ start_outcome me running.now first token.now }
{
    if is_token_at(me, token) && is_start(running, token) {
        CommitOutcome::Start(first)
    } else {
        CommitOutcome::Ignored
    }
}

/// Returns the number of the member to which a commit token goes, 0 if it names no member.
fn receiver_number(token: &CommitToken) -> u8
    ensures { result ≡ receiver token.now }
{
    if token.members.len() == 0 {
        return 0;
    }
    receiver(token).number()
}

/// Returns whether a commit token has exactly this ring and these members.
fn is_for_ring(running: &Configuration, token: &CommitToken) -> bool
    ensures { result ≡ is_of running.now token.now }
{
    token.ring == running.ring && token.members == running.members
}

/// Returns whether the entry of the member to which the token goes equals `own`. The token must name at least one
/// member.
fn has_own_entry(own: &CommitEntry, token: &CommitToken) -> bool
    requires { 0 < size token.now.members }
    ensures { result ≡ is_own own.now (slice_get token.now.entries (position_of_hop token.now)) }
{
    let position = u32::from(token.hop) % token.members.len();
    match token.entries.as_slice().get(position as usize) {
        Some(entry) => is_same_entry(entry, own),
        None => false,
    }
}

fn is_same_entry(a: &CommitEntry, b: &CommitEntry) -> bool
    ensures { result ≡ same_entry a.now b.now }
{
    a.old == b.old && a.front == b.front && a.mark == b.mark && a.held == b.held
}

/// Returns whether each member from the ring `old` reports a front of at least the greatest safe mark that one of them
/// reports.
fn has_no_front_below_safe(old: &RingId, entries: &[CommitEntry]) -> bool
    ensures { result ≡ is_sound old.now entries.now }
{
    all_fronts_reach(greatest_reported_mark(old, entries), old, entries)
}

/// Returns whether each member from the ring `old` reports a front of at least `safe`.
fn all_fronts_reach(safe: u64, old: &RingId, entries: &[CommitEntry]) -> bool
    ensures { result ≡ none_behind safe (reports_of old.now entries.now) }
{
    for entry in entries {
        if entry.old == *old && entry.front < safe {
            return false;
        }
    }
    true
}
