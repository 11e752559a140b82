//! What the reports of all members of one old ring say together.
//!
//! Rules: Recovery 1

ghost use Rattle.std.specs.Prelude.{◌≡◌, ℕ, ◌+◌, ◌<◌, ◌≤◌, true, map, length};
ghost use Rattle.std.specs.List.{list_any};
ghost use Rattle.ring_base.specs.Processors.{elements};
ghost use Rattle.ring_window.specs.Bits.{is_set};
ghost use Rattle.ring_commit.specs.Tokens.{CommitEntry as OneEntry};
ghost use Rattle.ring_commit.specs.Reports.{reports_of, safe_of, none_behind};
ghost use Rattle.ring_recover.specs.Plans.{is_reported, least, transitional_members_among};
ghost use Rattle.ring_base.specs.Numbers.{window_size};

use crate::offsets::Offsets;
use ring_base::{ProcSet, RingId, WINDOW_SIZE};
use ring_commit::{CommitEntry, Entries};

/// Returns the entries that name the ring `old`, in the order of `entries`, of which there must be at most 16.
pub(crate) fn reports_of(old: &RingId, entries: &[CommitEntry]) -> Entries
    requires { length entries.now ≤ 16 }
    ensures { result ≡ reports_of old.now entries.now }
{
    let mut reports = Entries::new();
    for entry in entries {
        if entry.old == *old {
            reports.push(*entry);
        }
    }
    reports
}

/// Returns the greatest reported safe mark, 0 if there is no report.
pub(crate) fn greatest_mark(reports: &[CommitEntry]) -> u64
    ensures { result ≡ safe_of reports.now }
{
    let mut greatest = 0;
    for report in reports {
        greatest = greatest.max(report.mark);
    }
    greatest
}

/// Returns whether every reported front is at least `safe`. It is true if there is no report.
pub(crate) fn all_fronts_reach(safe: u64, reports: &[CommitEntry]) -> bool
    ensures { result ≡ none_behind safe reports.now }
{
    reports.iter().all(|report| safe <= report.front)
}

/// Returns the least reported safe mark, 0 if there is no report.
pub(crate) fn least_mark(reports: &[CommitEntry]) -> u64
    ensures { result ≡ least (map (λ (e : OneEntry). e.mark) reports.now) }
{
    match reports {
        [] => 0,
        [first, rest @ ..] => {
            let mut least = first.mark;
            for report in rest {
                least = least.min(report.mark);
            }
            least
        }
    }
}

/// Returns the least reported front, 0 if there is no report.
pub(crate) fn least_front(reports: &[CommitEntry]) -> u64
    ensures { result ≡ least (map (λ (e : OneEntry). e.front) reports.now) }
{
    match reports {
        [] => 0,
        [first, rest @ ..] => {
            let mut least = first.front;
            for report in rest {
                least = least.min(report.front);
            }
            least
        }
    }
}

/// Returns which of the 256 numbers after `safe` some member reported as held, as offsets: j is the number `safe` + 1 +
/// j.
///
/// No reported front may be below `safe`.
pub(crate) fn reported_offsets_after(safe: u64, reports: &[CommitEntry]) -> Offsets
    requires { none_behind safe reports.now ≡ true }
    ensures { (j : ℕ) → j < window_size → is_set result.words j ≡ list_any (is_reported (safe + 1 + j)) reports.now }
{
    Offsets::from_test(|j| is_offset_reported(safe, j, reports))
}

/// Returns whether some report holds the number `safe + 1 + offset`, provided that no reported front is below `safe`.
fn is_offset_reported(safe: u64, offset: usize, reports: &[CommitEntry]) -> bool
    ensures { none_behind safe reports.now ≡ true → result ≡ list_any (is_reported (safe + 1 + offset)) reports.now }
{
    for report in reports {
        if reports_offset(safe, offset, report) {
            return true;
        }
    }
    false
}

/// Returns whether the report holds the number `safe + 1 + offset`, provided that its front is at least `safe`.
fn reports_offset(safe: u64, offset: usize, report: &CommitEntry) -> bool
    ensures { safe ≤ report.now.front → result ≡ is_reported (safe + 1 + offset) report.now }
{
    let ahead = report.front.saturating_sub(safe);
    let offset = offset as u64;
    offset < ahead
        || (offset - ahead < WINDOW_SIZE && report.is_held_bit((offset - ahead) as usize))
}

/// Returns the members whose entry names the ring `old`.
///
/// Entry k belongs to the member at position k of `members`. Members past the last entry are left out.
pub(crate) fn transitional_members_among(
    old: &RingId,
    members: ProcSet,
    entries: &[CommitEntry],
) -> ProcSet
    ensures { result ≡ transitional_members_among old.now (elements members) entries.now }
{
    let mut transitional_members = ProcSet::new();
    let mut left = members.iter();
    for entry in entries {
        let Some(member) = left.next() else {
            return transitional_members;
        };
        if entry.old == *old {
            transitional_members.insert(member);
        }
    }
    transitional_members
}
