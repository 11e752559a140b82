//! Running all variants, on several threads.
//!
//! Formats: The command line

ghost use Rattle.std.specs.Prelude.{◌≡◌, ℕ, ◌-◌, ◌+◌, ◌<◌, ◌≤◌, IfOk, IfErr, max, vec_len, slice_index_or};
ghost use Rattle.ring_base.specs.declared.fault.Fault.TheVariants.{Memory};
ghost use Rattle.ring_script.specs.Fits.{AreFit};
ghost use Rattle.ring_failure.specs.Shares.{share_begin};
ghost use Rattle.ring_sweep.specs.Variants.{AreTried, AreTriedIn};

use crate::injection::Injection;
use crate::variant_range::{VariantRange, try_share};
use ring_base::Fault;
use ring_console::Script;
use ring_failure::{ProgressMeter, round_end};
use ring_object::Object;
use std::alloc::{AllocError, Global};
use std::io::Write;
use std::thread::{self, Threads};
use std::time::Clock;

/// The number of variants for each thread in the first round.
const FIRST_ROUND_VARIANTS: u64 = 4;

/// Runs the first `variants` variants on `threads` threads, or one if that is 0.
///
/// Returns the injection of the first variant that isn't legal, or `None` if all are legal. Writes its progress to
/// `progress`, if that is given.
///
/// Errors: `Memory` if an allocation fails.
///
/// Formats: The command line
pub(crate) fn try_by_threads<O: Object<Alloc = Global> + Send, R: Threads + Clock + Sync, P: Write>(
    rt: &R,
    alloc: Global,
    script: &Script<Global>,
    variants: u64,
    threads: u16,
    progress: Option<&mut P>,
) -> Result<Option<Injection>, Fault>
    requires { AreFit script.now.lines.items }
    ensures ok { IfOk result (AreTried O.sequential script.now.nodes script.now.lines.items variants) }
    ensures refused { IfErr result (λ fault. fault ≡ Memory) }
{
    let all = VariantRange {
        from: 0,
        upto: variants,
    };
    match progress {
        Some(out) => {
            let size = u64::from(threads).saturating_mul(FIRST_ROUND_VARIANTS);
            let mut meter = ProgressMeter::new(rt, variants, size);
            let illegal = try_rounds::<O, R, P>(rt, alloc, script, all, threads, &mut meter, out);
            meter.clear(out);
            illegal
        }
        None => try_range::<O, R>(rt, alloc, script, all, threads),
    }
}

/// Runs the variants of a range in rounds, and reports progress after each.
fn try_rounds<O: Object<Alloc = Global> + Send, R: Threads + Clock + Sync, P: Write>(
    rt: &R,
    alloc: Global,
    script: &Script<Global>,
    part: VariantRange,
    threads: u16,
    meter: &mut ProgressMeter,
    out: &mut P,
) -> Result<Option<Injection>, Fault>
    requires { AreFit script.now.lines.items }
    ensures ok { IfOk result (λ illegal. part.from ≤ part.upto
        → AreTriedIn O.sequential script.now.nodes script.now.lines.items part.from part.upto illegal) }
    ensures refused { IfErr result (λ fault. fault ≡ Memory) }
{
    let (begin, last) = (part.from, part.upto);
    if begin >= last {
        return Ok(None);
    }
    let end = round_end(begin, meter.next_round_items(), last);
    let round = VariantRange {
        from: begin,
        upto: end,
    };
    let found = try_range::<O, R>(rt, alloc, script, round, threads)?;
    meter.end_round(rt, out, end);
    let rest = VariantRange {
        from: end,
        upto: last,
    };
    let others = try_rounds::<O, R, P>(rt, alloc, script, rest, threads, meter, out)?;
    Ok(found.or(others))
}

/// Runs the variants of a range on several threads.
///
/// Returns the injection of the first one that isn't legal.
fn try_range<O: Object<Alloc = Global> + Send, R: Threads + Sync>(
    rt: &R,
    alloc: Global,
    script: &Script<Global>,
    part: VariantRange,
    threads: u16,
) -> Result<Option<Injection>, Fault>
    requires { AreFit script.now.lines.items }
    ensures ok { IfOk result (λ illegal. part.from ≤ part.upto
        → AreTriedIn O.sequential script.now.nodes script.now.lines.items part.from part.upto illegal) }
    ensures refused { IfErr result (λ fault. fault ≡ Memory) }
{
    let shares = try_shares::<O, R>(rt, alloc, script, part, threads)?;
    first_illegal_of_shares::<O>(script, part, threads, shares)
}

/// Runs a range in `shares` shares, each on a thread of its own if one can be started.
fn try_shares<O: Object<Alloc = Global> + Send, R: Threads + Sync>(
    rt: &R,
    alloc: Global,
    script: &Script<Global>,
    part: VariantRange,
    shares: u16,
) -> Result<Vec<Result<Option<Injection>, Fault>>, AllocError>
    requires { AreFit script.now.lines.items }
    ensures len { IfOk result (λ found. vec_len found ≡ max shares 1) }
    ensures each { let many = part.upto - part.from in
        IfOk result (λ found. (share : ℕ) (one : _) → share < max shares 1 → IfOk (slice_index_or found.items share one)
        (AreTriedIn O.sequential script.now.nodes script.now.lines.items
        (part.from + share_begin many shares share) (part.from + share_begin many shares (share + 1)))) }
    ensures refused { IfOk result (λ found.
        (share : ℕ) (one : _) → share < max shares 1 → IfErr (slice_index_or found.items share one) (λ fault. fault ≡ Memory)) }
{
    thread::map_indices(
        rt,
        alloc,
        usize::from(shares.max(1)),
        &|share| try_share::<O>(alloc, script, part, shares, share as u64),
    )
}

/// Returns the first illegal variant of all shares, given that of each share.
///
/// Errors: the first error of a share.
fn first_illegal_of_shares<O: Object<Alloc = Global>>(
    script: &Script<Global>,
    part: VariantRange,
    shares: u16,
    parts: Vec<Result<Option<Injection>, Fault>>,
) -> Result<Option<Injection>, Fault>
    requires len { vec_len parts ≡ max shares 1 }
    requires each { let many = part.upto - part.from in
        (share : ℕ) (one : _) → share < max shares 1 → IfOk (slice_index_or parts.items share one)
        (AreTriedIn O.sequential script.now.nodes script.now.lines.items
        (part.from + share_begin many shares share) (part.from + share_begin many shares (share + 1))) }
    requires refused { (share : ℕ) (one : _) → share < max shares 1 → IfErr (slice_index_or parts.items share one) (λ fault. fault ≡ Memory) }
    ensures ok { IfOk result (λ illegal. part.from ≤ part.upto
        → AreTriedIn O.sequential script.now.nodes script.now.lines.items part.from part.upto illegal) }
    ensures refused { IfErr result (λ fault. fault ≡ Memory) }
{
    // Only the contract uses these.
    let (_, _, _) = (script, part, shares);
    let mut illegal = None;
    for one in parts {
        let found = one?;
        illegal = illegal.or(found);
    }
    Ok(illegal)
}
