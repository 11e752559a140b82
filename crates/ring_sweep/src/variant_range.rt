//! Running a range of the variants.
//!
//! Formats: The command line

ghost use Rattle.std.specs.Prelude.{◌≡◌, ◌-◌, ◌+◌, IfOk, IfErr};
ghost use Rattle.ring_base.specs.Processors.{IsProc};
ghost use Rattle.ring_base.specs.declared.fault.Fault.TheVariants.{Memory};
ghost use Rattle.ring_script.specs.Fits.{AreFit};
ghost use Rattle.ring_console.specs.Running.{run_opening};
ghost use Rattle.ring_failure.specs.Shares.{share_begin};
ghost use Rattle.ring_sweep.specs.ScriptPositions.{HasReachedEvent, left_of};
ghost use Rattle.ring_sweep.specs.Variants.{AreTriedIn, IsDue, IsTried, injection_at, first_illegal};

use crate::base_run::BaseRun;
use crate::counted_run::CountedRun;
use crate::injection::Injection;
use crate::legal::is_legal;
use ring_base::Fault;
use ring_console::Script;
use ring_failure::share_begin;
use ring_object::Object;

/// A range of the variants of a sweep, by their indices, counted from 0.
///
/// It is empty if `upto` isn't above `from`.
#[derive(Clone, Copy)]
pub(crate) struct VariantRange {
    /// The index of the first variant.
    pub from: u64,
    /// One more than the index of the last variant.
    pub upto: u64,
}

impl VariantRange {
    /// Returns the number of variants.
    fn variant_count(&self) -> u64
        ensures { result ≡ self.now.upto - self.now.from }
    {
        self.upto.saturating_sub(self.from)
    }
}

/// Runs the variants of one of `shares` shares of this range, in order.
///
/// `share` is the share's index, counted from 0. 0 shares are treated as 1. Returns the injection of the first variant
/// that isn't legal, or `None` if all are legal. The script itself is run once, up to the event of the last variant,
/// and each variant as a copy of that run.
///
/// Errors: `Memory` if an allocation fails.
///
/// Rules: Sessions 10 and 11
/// Formats: The command line
pub(crate) fn try_share<O: Object>(
    alloc: O::Alloc,
    script: &Script<O::Alloc>,
    part: VariantRange,
    shares: u16,
    share: u64,
) -> Result<Option<Injection>, Fault>
    requires { AreFit script.now.lines.items }
    ensures ok { let many = part.upto - part.from in IfOk result (AreTriedIn O.sequential script.now.nodes script.now.lines.items
        (part.from + share_begin many shares share) (part.from + share_begin many shares (share + 1))) }
    ensures refused { IfErr result (λ fault. fault ≡ Memory) }
{
    match BaseRun::<O>::new(alloc, script.nodes) {
        Ok(mut base_run) => try_from_base(alloc, &mut base_run, script, part, shares, share),
        Err(fault) => Err(fault),
    }
}

/// Runs a share as [`try_share`] does, with a base run that must be at the script's opening.
fn try_from_base<O: Object>(
    alloc: O::Alloc,
    base_run: &mut BaseRun<O>,
    script: &Script<O::Alloc>,
    part: VariantRange,
    shares: u16,
    share: u64,
) -> Result<Option<Injection>, Fault>
    requires fit { AreFit script.now.lines.items }
    requires counted_run { (base_run.old.counted_run.run ≡ run_opening script.now.nodes) × (base_run.old.counted_run.events_done ≡ 0) }
    requires place { (base_run.old.lines ≡ 0) × (base_run.old.turns ≡ 0) }
    ensures ok { let many = part.upto - part.from in IfOk result (AreTriedIn O.sequential script.now.nodes script.now.lines.items
        (part.from + share_begin many shares share) (part.from + share_begin many shares (share + 1))) }
    ensures refused { IfErr result (λ fault. fault ≡ Memory) }
{
    let many = part.variant_count();
    let mut illegal = None;
    let begin = share_begin(many, shares, share);
    let end = share_begin(many, shares, share.saturating_add(1));
    for place in begin..end {
        let injection = Injection::of_variant(script.nodes.count(), part.from + place);
        base_run.go_to(script, injection.before)?;
        let is_legal = try_variant(alloc, base_run, script, injection)?;
        keep_first(
            &mut illegal,
            is_legal,
            script.nodes.count(),
            part.from + place,
        );
    }
    Ok(illegal)
}

/// Stores the injection of variant `place` in `first` if the variant isn't legal and none is stored yet.
fn keep_first(first: &mut Option<Injection>, is_legal: bool, count: u8, place: u64)
    requires { IsProc count }
    ensures { first.new ≡ first_illegal first.old is_legal (injection_at count place) }
{
    if !is_legal && first.is_none() {
        *first = Some(Injection::of_variant(count, place));
    }
}

/// Runs the variant with this injection from the base run, which must be at the injection's event.
///
/// Returns whether it is legal.
fn try_variant<O: Object>(
    alloc: O::Alloc,
    base_run: &BaseRun<O>,
    script: &Script<O::Alloc>,
    injection: Injection,
) -> Result<bool, Fault>
    requires fit { AreFit script.now.lines.items }
    requires come { HasReachedEvent O.sequential script.now.nodes script.now.lines.items base_run.now.lines base_run.now.turns base_run.now.counted_run.events_done base_run.now.counted_run.run }
    requires due { IsDue O.sequential (left_of script.now.lines.items base_run.now.lines base_run.now.turns) base_run.now.counted_run.events_done injection.before base_run.now.counted_run.run }
    ensures ok { IfOk result (IsTried O.sequential script.now.nodes script.now.lines.items injection) }
    ensures refused { IfErr result (λ fault. fault ≡ Memory) }
{
    match base_run.counted_run.copy() {
        Ok(mut copy) => try_variant_in_copy(alloc, base_run, &mut copy, script, injection),
        Err(fault) => Err(fault),
    }
}

/// Runs a variant as [`try_variant`] does, in a given copy of the base run.
fn try_variant_in_copy<O: Object>(
    alloc: O::Alloc,
    base_run: &BaseRun<O>,
    copy: &mut CountedRun<O>,
    script: &Script<O::Alloc>,
    injection: Injection,
) -> Result<bool, Fault>
    requires fit { AreFit script.now.lines.items }
    requires come { HasReachedEvent O.sequential script.now.nodes script.now.lines.items base_run.now.lines base_run.now.turns base_run.now.counted_run.events_done base_run.now.counted_run.run }
    requires due { IsDue O.sequential (left_of script.now.lines.items base_run.now.lines base_run.now.turns) base_run.now.counted_run.events_done injection.before base_run.now.counted_run.run }
    requires copy { (copy.old.run ≡ base_run.now.counted_run.run) × (copy.old.events_done ≡ base_run.now.counted_run.events_done) }
    ensures ok { IfOk result (IsTried O.sequential script.now.nodes script.now.lines.items injection) }
    ensures refused { IfErr result (λ fault. fault ≡ Memory) }
{
    base_run.run_variant(copy, script, injection)?;
    is_legal(alloc, copy.world())
}
