//! The order of the calls that take effect.
//!
//! Rules: Sessions 6 and 10

ghost use Rattle.std.specs.Prelude.{◌≡◌, [], ◌++◌, List, OnOk, IfOk, IfErr, drop, slice_get};
ghost use Rattle.ring_base.specs.declared.fault.Fault.TheVariants.{Memory};
ghost use Rattle.ring_payload.specs.declared.call.Call.{Call as OneCall};
ghost use Rattle.ring_session.specs.Deduplicated.{deduplicated};
ghost use Rattle.ring_session.specs.Effects.{AreEffectsOf};
ghost use Rattle.ring_book_lines.specs.Logs.{calls_at, calls_on};

use crate::committed_segments::LogSegment;
use crate::line::Line;
use ring_base::Fault;
use ring_payload::Call;
use ring_session::Effects;
use std::alloc::Allocator;

/// Returns copies of the calls of these segments that take effect, in order, with repeats removed.
///
/// For the segments of the lines' longest committed log this is the order of their run. A segment adds nothing if its
/// line doesn't exist, or if `from` isn't less than the number of the line's committed calls.
///
/// Errors: `Memory` if an allocation fails.
///
/// Rules: Sessions 6 and 10
pub fn order_of_segments<A: Allocator + Copy + Drop>(
    alloc: A,
    lines: &[Line<A>],
    segments: &[LogSegment],
) -> Result<Vec<Call<A>, A>, Fault>
    ensures ok { IfOk result (λ order. order.items ≡ deduplicated (calls_at lines.now segments.now)) }
    ensures refused { IfErr result (λ fault. fault ≡ Memory) }
{
    let mut effects = Effects::new(alloc)?;
    for segment in segments {
        add_segment(&mut effects, lines, segment)?;
    }
    Ok(effects.into_calls())
}

/// Adds the calls of the segment.
fn add_segment<A: Allocator + Copy + Drop>(
    effects: &mut Effects<A>,
    lines: &[Line<A>],
    segment: &LogSegment,
) -> Result<(), Fault>
    ensures ok { (before : List (OneCall A)) → AreEffectsOf before effects.old →
        OnOk result (AreEffectsOf (before ++ calls_on segment.now.from (slice_get lines.now segment.now.line)) effects.new) }
    ensures refused { IfErr result (λ fault. fault ≡ Memory) }
{
    match lines.get(segment.line as usize) {
        Some(line) => add_from(effects, line.committed(), segment.from),
        None => Ok(()),
    }
}

/// Adds the calls from index `from` on.
fn add_from<A: Allocator + Copy + Drop>(
    effects: &mut Effects<A>,
    calls: &[Call<A>],
    from: usize,
) -> Result<(), Fault>
    ensures ok { (before : List (OneCall A)) → AreEffectsOf before effects.old →
        OnOk result (AreEffectsOf (before ++ drop from calls.now) effects.new) }
    ensures refused { IfErr result (λ fault. fault ≡ Memory) }
{
    if from >= calls.len() {
        return Ok(());
    }
    effects.add_all(&calls[from..])
}
