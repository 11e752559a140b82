//! Exploring many seeds, and printing the totals.
//!
//! Formats: The command line

ghost use Rattle.std.specs.Prelude.{◌≡◌, ℕ, ◌≤◌, ◌<◌, ◌+◌, ◌⊎◌, ◌↔◌, false, IsTrue, Some, None, max, vec_len};
ghost use Rattle.std.specs.Prelude.{OnOk, IfOk, IsErr, IfErr, slice_index_or};
ghost use Rattle.std.specs.Io.KnownBytes.{Appends};
ghost use Rattle.ring_base.specs.Group.{AreVotes};
ghost use Rattle.ring_console.specs.Running.{HasPrinted};
ghost use Rattle.ring_failure.specs.declared.failure.Failure.TheVariants.{Output};
ghost use Rattle.ring_script_generator.specs.Generated.{IsGeneratedBy, IsNotGenerated};
ghost use Rattle.ring_failure.specs.Shares.{share_begin};
ghost use Rattle.ring_explore.specs.Explored.{AreTried, seeds_in, totals_text, IsTotals, IsIllegal};
ghost use Rattle.ring_explore.specs.Tried.{IsTriedIn, IsNotTried, IsNotExplored};

use crate::explore_totals::ExploreTotals;
use crate::plan::ExplorePlan;
use crate::seed_run::try_seed;
use ring_base::Fault;
use ring_console::{Failure, ShelfVocabulary, StandardObjects, Vocabulary, report_failure};
use ring_failure::{NOT_LEGAL, ProgressMeter, round_end, share_begin};
use ring_object::Object;
use ring_script_generator::generate_script_by;
use std::alloc::{AllocError, Global};
use std::io::Write;
use std::thread::{self, Threads};
use std::time::Clock;

/// The number of seeds for each thread in the first round.
const FIRST_ROUND_SEEDS: u64 = 16;

/// Generates the script of each seed for the standard object, runs it, and checks that its run is legal.
///
/// A run is legal if the order of its world is legal for its history. Works with `threads` threads, or one if that is
/// 0, and waits for them. Prints the number of seeds, of events, of submitted calls, of answers and of installed rings,
/// and `legal yes`. The printed text doesn't depend on the number of threads. Returns the exit status: 0, or 1 after an
/// error.
///
/// Errors:
///
/// - A run isn't legal: a comment that says so and the script of the first such seed are printed, and nothing else.
/// - `Memory` if an allocation for a script or for a run itself fails: reported on `err`, and nothing is printed. A
///   node whose step fails to allocate has stopped, and its run goes on.
/// - `NotMember` unless there are 1 to 16 votes, each at least 1: reported on `err`, and nothing is printed.
/// - `BadScript` if a generated text isn't a script: reported on `err`, and nothing is printed.
/// - `out` fails: nothing is reported.
///
/// If the last seed is below the first, there are no seeds: the votes aren't checked, and the status is 0, with `seeds
/// 0`. At status 0, a script of nodes with these votes and of this number of lines was generated and run for each seed,
/// and each run is legal. No contract says which script a seed gives.
///
/// If there is a `progress`, it gets the progress from the first second on, and at the end the sequence that clears it
/// from a terminal. Errors of `progress` are ignored.
///
/// Rules: Sessions 10
/// Formats: The command line
pub fn explore<R: Threads + Clock + Sync, O: Write, E: Write, P: Write>(
    rt: &R,
    alloc: Global,
    plan: ExplorePlan<'_>,
    threads: u16,
    out: &mut O,
    err: &mut E,
    progress: Option<&mut P>,
) -> u8
    ensures status { result ≤ 1 }
    ensures quiet { result ≡ 0 → err.new ≡ err.old }
    ensures legal { let object = ⟦<StandardObjects<Global> as Object>⟧ in let words = ⟦<ShelfVocabulary as Vocabulary>⟧ in
        result ≡ 0 → AreTried (IsTriedIn object.sequential words.forms plan.entry) plan.entry.first (plan.entry.first + seeds_in plan.entry.first plan.entry.last) None }
    ensures printed { result ≡ 0 → HasPrinted (O.contents out.old) (O.contents out.new) (IsTotals (seeds_in plan.entry.first plan.entry.last)) }
    ensures kept { result ≡ 1 → (out.new ≡ out.old) ⊎ (err.new ≡ err.old) }
    ensures stranger { ¬ AreVotes plan.entry.votes.now → plan.entry.first ≤ plan.entry.last → (result ≡ 1) × (out.new ≡ out.old) }
{
    explore_of::<StandardObjects<Global>, ShelfVocabulary, R, O, E, P>(
        rt, alloc, plan, threads, out, err, progress,
    )
}

/// Explores seeds as [`explore`] does, with objects `T` and scripts in the vocabulary `V`.
///
/// Returns the exit status: 0, or 1 after an error.
///
/// Errors: as for [`explore`].
///
/// Rules: Sessions 10
/// Formats: The command line
pub fn explore_of<
    T: Object<Alloc = Global> + Send,
    V: Vocabulary + Send,
    R: Threads + Clock + Sync,
    O: Write,
    E: Write,
    P: Write,
>(
    rt: &R,
    alloc: Global,
    plan: ExplorePlan<'_>,
    threads: u16,
    out: &mut O,
    err: &mut E,
    progress: Option<&mut P>,
) -> u8
    ensures status { result ≤ 1 }
    ensures quiet { result ≡ 0 → err.new ≡ err.old }
    ensures legal { result ≡ 0 → AreTried (IsTriedIn T.sequential V.forms plan.entry) plan.entry.first (plan.entry.first + seeds_in plan.entry.first plan.entry.last) None }
    ensures printed { result ≡ 0 → HasPrinted (O.contents out.old) (O.contents out.new) (IsTotals (seeds_in plan.entry.first plan.entry.last)) }
    ensures kept { result ≡ 1 → (out.new ≡ out.old) ⊎ (err.new ≡ err.old) }
    ensures stranger { ¬ AreVotes plan.entry.votes.now → plan.entry.first ≤ plan.entry.last → (result ≡ 1) × (out.new ≡ out.old) }
{
    match explore_all::<T, V, R, O, P>(rt, alloc, &plan, threads, out, progress) {
        Ok(true) => 0,
        Ok(false) => NOT_LEGAL,
        Err(failure) => report_failure(err, failure),
    }
}

/// Tries all seeds, and prints the result.
///
/// Returns whether all runs are legal.
///
/// Errors: `Output` if `out` fails. A refusal of `try_seed`, with nothing printed.
fn explore_all<
    T: Object<Alloc = Global> + Send,
    V: Vocabulary + Send,
    R: Threads + Clock + Sync,
    O: Write,
    P: Write,
>(
    rt: &R,
    alloc: Global,
    plan: &ExplorePlan<'_>,
    threads: u16,
    out: &mut O,
    progress: Option<&mut P>,
) -> Result<bool, Failure>
    ensures legal { IfOk result (λ is_legal. IsTrue is_legal
        → AreTried (IsTriedIn T.sequential V.forms plan.now) plan.now.first (plan.now.first + seeds_in plan.now.first plan.now.last) None) }
    ensures printed { IfOk result (λ is_legal. IsTrue is_legal
        → HasPrinted (O.contents out.old) (O.contents out.new) (IsTotals (seeds_in plan.now.first plan.now.last))) }
    ensures illegal { IfOk result (λ is_legal. is_legal ≡ false → (first : ℕ)
        × AreTried (IsTriedIn T.sequential V.forms plan.now) plan.now.first (plan.now.first + seeds_in plan.now.first plan.now.last) (Some first)) }
    ensures named { IfOk result (λ is_legal. is_legal ≡ false
        → HasPrinted (O.contents out.old) (O.contents out.new) (IsIllegal (IsGeneratedBy V.forms plan.now.votes.now plan.now.lines))) }
    ensures failed { IfErr result (λ failure. (failure ≡ Output) ⊎ ((out.new ≡ out.old) × IsNotExplored plan.now.votes.now failure)) }
    ensures stranger { ¬ AreVotes plan.now.votes.now → plan.now.first ≤ plan.now.last → IsErr result × (out.new ≡ out.old) }
{
    let seed_totals = try_all::<T, V, R, P>(rt, alloc, plan, threads, progress)?;
    print_result::<T, V, O>(alloc, plan, &seed_totals, out)
}

/// Prints the totals, or the script of the first illegal seed.
///
/// Returns whether all runs are legal.
///
/// Errors: as for `explore_all`.
fn print_result<T: Object, V: Vocabulary, O: Write>(
    alloc: Global,
    plan: &ExplorePlan<'_>,
    seed_totals: &ExploreTotals,
    out: &mut O,
) -> Result<bool, Failure>
    requires { AreTried (IsTriedIn T.sequential V.forms plan.now) plan.now.first (plan.now.first + seeds_in plan.now.first plan.now.last) seed_totals.now.illegal }
    ensures legal { IfOk result (λ is_legal. IsTrue is_legal
        → AreTried (IsTriedIn T.sequential V.forms plan.now) plan.now.first (plan.now.first + seeds_in plan.now.first plan.now.last) None) }
    ensures printed { IfOk result (λ is_legal. IsTrue is_legal
        → HasPrinted (O.contents out.old) (O.contents out.new) (IsTotals (seeds_in plan.now.first plan.now.last))) }
    ensures verdict { IfOk result (λ is_legal. IsTrue is_legal ↔ (seed_totals.now.illegal ≡ None)) }
    ensures illegal { IfOk result (λ is_legal. is_legal ≡ false → (first : ℕ)
        × AreTried (IsTriedIn T.sequential V.forms plan.now) plan.now.first (plan.now.first + seeds_in plan.now.first plan.now.last) (Some first)) }
    ensures named { IfOk result (λ is_legal. is_legal ≡ false
        → HasPrinted (O.contents out.old) (O.contents out.new) (IsIllegal (IsGeneratedBy V.forms plan.now.votes.now plan.now.lines))) }
    ensures failed { IfErr result (λ failure. (failure ≡ Output) ⊎ ((out.new ≡ out.old) × IsNotExplored plan.now.votes.now failure)) }
{
    match seed_totals.illegal {
        Some(seed) => {
            print_illegal::<V, O>(alloc, plan, seed, out)?;
            Ok(false)
        }
        None => {
            print_totals(plan.seed_count(), seed_totals, out)?;
            Ok(true)
        }
    }
}

/// Prints the script of a seed whose run is not legal.
///
/// Errors: as for `explore_all`.
fn print_illegal<V: Vocabulary, O: Write>(
    alloc: Global,
    plan: &ExplorePlan<'_>,
    seed: u64,
    out: &mut O,
) -> Result<(), Failure>
    ensures printed { OnOk result (HasPrinted (O.contents out.old) (O.contents out.new) (IsIllegal (IsGeneratedBy V.forms plan.now.votes.now plan.now.lines))) }
    ensures failed { IfErr result (λ failure. (failure ≡ Output) ⊎ ((out.new ≡ out.old) × IsNotExplored plan.now.votes.now failure)) }
{
    let text = generate_script_by::<V, Global>(alloc, plan.votes, seed, plan.lines)?;
    write!(out, "# legal no\n{text}").map_err(|_| Failure::Output)
}

/// Prints the totals over `seeds` seeds, and `legal yes`.
///
/// Errors: `Output` if `out` fails.
fn print_totals<O: Write>(
    seeds: u64,
    seed_totals: &ExploreTotals,
    out: &mut O,
) -> Result<(), Failure>
    ensures printed { OnOk result (Appends (O.contents out.old) (O.contents out.new)
        (totals_text seeds seed_totals.now.events seed_totals.now.calls seed_totals.now.answered seed_totals.now.rings)) }
    ensures failed { IfErr result (λ failure. failure ≡ Output) }
{
    let (events, calls) = (seed_totals.events, seed_totals.calls);
    let (answered, rings) = (seed_totals.answered, seed_totals.rings);
    writeln!(
        out,
        "seeds {seeds}\nevents {events}\ncalls {calls}\nanswered {answered}\nrings {rings}\nlegal yes"
    )
    .map_err(|_| Failure::Output)
}

/// Tries all seeds with `threads` threads, or one if that is 0.
///
/// Reports its progress if `progress` is given.
fn try_all<
    O: Object<Alloc = Global> + Send,
    V: Vocabulary + Send,
    R: Threads + Clock + Sync,
    P: Write,
>(
    rt: &R,
    alloc: Global,
    plan: &ExplorePlan<'_>,
    threads: u16,
    progress: Option<&mut P>,
) -> Result<ExploreTotals, Fault>
    ensures ok { IfOk result (λ seed_totals.
        AreTried (IsTriedIn O.sequential V.forms plan.now) plan.now.first (plan.now.first + seeds_in plan.now.first plan.now.last) seed_totals.illegal) }
    ensures refused { IfErr result (IsNotTried plan.now.votes.now) }
{
    match progress {
        Some(out) => {
            let size = u64::from(threads).saturating_mul(FIRST_ROUND_SEEDS);
            let mut meter = ProgressMeter::new(rt, plan.seed_count(), size);
            let seed_totals = try_rounds::<O, V, R, P>(
                rt, alloc, plan, 0, threads, &mut meter, out,
            );
            meter.clear(out);
            seed_totals
        }
        None => try_round::<O, V, R>(rt, alloc, plan, threads),
    }
}

/// Tries the seeds from the index `from` on in rounds, and reports progress after each.
///
/// Ends after the first round with a run that isn't legal.
fn try_rounds<
    O: Object<Alloc = Global> + Send,
    V: Vocabulary + Send,
    R: Threads + Clock + Sync,
    P: Write,
>(
    rt: &R,
    alloc: Global,
    plan: &ExplorePlan<'_>,
    from: u64,
    threads: u16,
    meter: &mut ProgressMeter,
    out: &mut P,
) -> Result<ExploreTotals, Fault>
    ensures ok { let many = seeds_in plan.now.first plan.now.last in IfOk result (λ seed_totals. from ≤ many
        → AreTried (IsTriedIn O.sequential V.forms plan.now) (plan.now.first + from) (plan.now.first + many) seed_totals.illegal) }
    ensures refused { IfErr result (IsNotTried plan.now.votes.now) }
{
    let many = plan.seed_count();
    if from >= many {
        return Ok(ExploreTotals::new());
    }
    let upto = round_end(from, meter.next_round_items(), many);
    let round = plan.sub_plan(from, upto);
    let mut seed_totals = try_round::<O, V, R>(rt, alloc, &round, threads)?;
    if seed_totals.illegal.is_some() {
        return Ok(seed_totals);
    }
    meter.end_round(rt, out, upto);
    let others = try_rounds::<O, V, R, P>(rt, alloc, plan, upto, threads, meter, out)?;
    seed_totals.add(&others);
    Ok(seed_totals)
}

/// Tries the seeds of a plan in a single round.
fn try_round<O: Object<Alloc = Global> + Send, V: Vocabulary + Send, R: Threads + Sync>(
    rt: &R,
    alloc: Global,
    plan: &ExplorePlan<'_>,
    threads: u16,
) -> Result<ExploreTotals, Fault>
    ensures ok { IfOk result (λ seed_totals.
        AreTried (IsTriedIn O.sequential V.forms plan.now) plan.now.first (plan.now.first + seeds_in plan.now.first plan.now.last) seed_totals.illegal) }
    ensures refused { IfErr result (IsNotTried plan.now.votes.now) }
{
    let parts = try_shares::<O, V, R>(rt, alloc, plan, threads)?;
    joined_totals::<O, V>(plan, threads, parts)
}

/// Tries the seeds in `shares` shares, each in a thread of its own if one can be started.
fn try_shares<O: Object<Alloc = Global> + Send, V: Vocabulary + Send, R: Threads + Sync>(
    rt: &R,
    alloc: Global,
    plan: &ExplorePlan<'_>,
    shares: u16,
) -> Result<Vec<Result<ExploreTotals, Fault>>, AllocError>
    ensures len { IfOk result (λ parts. vec_len parts ≡ max shares 1) }
    ensures each { let many = seeds_in plan.now.first plan.now.last in
        IfOk result (λ parts. (share : ℕ) (part : _) → share < max shares 1 → IfOk (slice_index_or parts.items share part) (λ seed_totals.
        AreTried (IsTriedIn O.sequential V.forms plan.now) (plan.now.first + share_begin many shares share)
        (plan.now.first + share_begin many shares (share + 1)) seed_totals.illegal)) }
    ensures refused { IfOk result (λ parts. (share : ℕ) (part : _) → share < max shares 1
        → IfErr (slice_index_or parts.items share part) (IsNotGenerated plan.now.votes.now)) }
{
    thread::map_indices(
        rt,
        alloc,
        usize::from(shares.max(1)),
        &|share| { try_share::<O, V>(alloc, plan, shares, share as u64) },
    )
}

/// Returns the totals over all shares, given those of each.
fn joined_totals<O: Object<Alloc = Global>, V: Vocabulary>(
    plan: &ExplorePlan<'_>,
    shares: u16,
    parts: Vec<Result<ExploreTotals, Fault>>,
) -> Result<ExploreTotals, Fault>
    requires len { vec_len parts ≡ max shares 1 }
    requires each { let many = seeds_in plan.now.first plan.now.last in
        (share : ℕ) (part : _) → share < max shares 1 → IfOk (slice_index_or parts.items share part) (λ seed_totals.
        AreTried (IsTriedIn O.sequential V.forms plan.now) (plan.now.first + share_begin many shares share)
        (plan.now.first + share_begin many shares (share + 1)) seed_totals.illegal) }
    requires refused { (share : ℕ) (part : _) → share < max shares 1
        → IfErr (slice_index_or parts.items share part) (IsNotGenerated plan.now.votes.now) }
    ensures ok { IfOk result (λ seed_totals.
        AreTried (IsTriedIn O.sequential V.forms plan.now) plan.now.first (plan.now.first + seeds_in plan.now.first plan.now.last) seed_totals.illegal) }
    ensures refused { IfErr result (IsNotGenerated plan.now.votes.now) }
{
    // Only the contract uses these two.
    let (_, _) = (plan, shares);
    let mut all = ExploreTotals::new();
    for part in parts {
        let seed_totals = part?;
        all.add(&seed_totals);
    }
    Ok(all)
}

/// Tries the seeds of one of `shares` shares, in order, up to the first whose run is not legal.
fn try_share<O: Object<Alloc = Global>, V: Vocabulary>(
    alloc: Global,
    plan: &ExplorePlan<'_>,
    shares: u16,
    share: u64,
) -> Result<ExploreTotals, Fault>
    ensures ok { let many = seeds_in plan.now.first plan.now.last in
        IfOk result (λ seed_totals. AreTried (IsTriedIn O.sequential V.forms plan.now) (plan.now.first + share_begin many shares share)
        (plan.now.first + share_begin many shares (share + 1)) seed_totals.illegal) }
    ensures refused { IfErr result (IsNotGenerated plan.now.votes.now) }
{
    let many = plan.seed_count();
    let mut seed_totals = ExploreTotals::new();
    let begin = share_begin(many, shares, share);
    let end = share_begin(many, shares, share.saturating_add(1));
    for place in begin..end {
        let one = try_seed::<O, V>(alloc, plan.votes, plan.first + place, plan.lines)?;
        seed_totals.add(&one);
        if seed_totals.illegal.is_some() {
            return Ok(seed_totals);
        }
    }
    Ok(seed_totals)
}
