//! Sweeping a script, and printing the result.
//!
//! Formats: The command line

ghost use Rattle.std.specs.Prelude.{◌≡◌, ℕ, ◌+◌, ◌*◌, ◌≤◌, ◌⊎◌, ◌↔◌, true, false, List, Some, None, Ok, Err, IfOk, IfErr, OnOk};
ghost use Rattle.std.specs.Io.KnownBytes.{Appends, Keeps};
ghost use Rattle.std.specs.declared.alloc.Global.{Global as OneGlobal};
ghost use Rattle.ring_base.specs.declared.fault.Fault.TheVariants.{Memory};
ghost use Rattle.ring_script.specs.Fits.{AreFit};
ghost use Rattle.ring_script.specs.Scripts.{IsAllOf, IsScriptOfInputBy, IsScriptOfInput};
ghost use Rattle.ring_script.specs.ScriptTexts.{IsNoScript};
ghost use Rattle.ring_script.specs.ShelfVocabulary.{shelf_operation_forms};
ghost use Rattle.ring_script.specs.declared.scripts.Script.{Script};
ghost use Rattle.ring_failure.specs.declared.failure.Failure.TheVariants.{Output, Refused};
ghost use Rattle.ring_console.specs.Running.{HasPrinted, run_opening};
ghost use Rattle.ring_failure.specs.Texts.{line_of};
ghost use Rattle.ring_sweep.specs.SweepResult.{sweep_text, injection_text, AllLegal, IsSweepResult, IsSweepText};
ghost use Rattle.ring_sweep.specs.Variants.{HasEvents, AreTried};

use crate::counted_run::CountedRun;
use crate::injection::{Injection, InjectionText};
use crate::rounds::try_by_threads;
use crate::variant_range::{VariantRange, try_share};
use ring_base::Fault;
use ring_console::{Failure, Script, ShelfVocabulary, StandardObjects, Vocabulary, report_failure};
use ring_failure::{NOT_LEGAL, output_result};
use ring_object::Object;
use std::alloc::{Allocator, Global};
use std::io;
use std::io::{Read, Write};
use std::thread::Threads;
use std::time::Clock;

/// The result of a complete sweep of a script.
///
/// Formats: The command line
#[derive(Clone, Copy, Debug, PartialEq, Eq)]
pub struct SweepResult {
    /// The number of the script's events.
    ///
    /// Each turn of a pump that delivers a copy is one event.
    pub events: u64,
    /// The number of variants that were run: 2 * (M + 1) * N for M events and N nodes.
    pub variants: u64,
    /// The injection of the first variant that isn't legal, or `None` if all are legal.
    pub illegal: Option<Injection>,
}

/// Reads a script for the standard object, and runs it again with each injection before each of its events and at its
/// end.
///
/// An injection stops a node, or cuts it off from all others.
///
/// A variant is legal if the order of its world is legal for its history, and each node's committed calls, duplicates
/// removed, are a prefix of the order. Prints the number of events, the number of variants, and whether all are legal.
/// Returns the exit status: 0 if all variants are legal, otherwise 1.
///
/// Errors:
///
/// - A variant isn't legal: `legal no` is printed, and the first such variant is reported on `err`.
/// - `BadScript` if the input isn't a script: reported on `err`, and nothing is printed.
/// - `Memory` if an allocation for the reading or for a run itself fails, or if there were 2^64 variants or more:
///   reported on `err`, and nothing is printed.
/// - `out` fails: nothing is reported.
///
/// So if both `out` and `err` change, the text of the sweep is on `out`, with `legal no`.
///
/// Rules: Sessions 10 and 11
/// Formats: The command line
pub fn sweep<A: Allocator + Copy + Drop, R: Read, O: Write, E: Write>(
    alloc: A,
    input: &mut R,
    out: &mut O,
    err: &mut E,
) -> u8
    ensures status { result ≤ 1 }
    ensures quiet { result ≡ 0 → Keeps (E.contents err.old) (E.contents err.new) }
    ensures printed { let object = ⟦<StandardObjects<A> as Object>⟧ in
        result ≡ 0 → (script : Script A) × (bytes : List ℕ) × IsAllOf (R.remaining input.old) bytes × IsScriptOfInput (Ok script) bytes
        × HasPrinted (O.contents out.old) (O.contents out.new) (IsSweepText object.sequential script.nodes script.lines.items true) }
    ensures kept { let object = ⟦<StandardObjects<A> as Object>⟧ in
        result ≡ 1 → (err.new ≡ err.old) ⊎ ((out.new ≡ out.old)
        ⊎ ((script : Script A) × (bytes : List ℕ) × IsAllOf (R.remaining input.old) bytes × IsScriptOfInput (Ok script) bytes
        × HasPrinted (O.contents out.old) (O.contents out.new) (IsSweepText object.sequential script.nodes script.lines.items false))) }
    ensures no_script { (bytes : List ℕ) → R.remaining input.old ≡ Some bytes → IsNoScript shelf_operation_forms bytes → (result ≡ 1) × (out.new ≡ out.old) }
{
    sweep_of::<StandardObjects<A>, ShelfVocabulary, R, O, E>(alloc, input, out, err)
}

/// Sweeps a script as [`sweep`] does, for objects `T` with the vocabulary `V`.
///
/// Returns the exit status: 0 if all variants are legal, otherwise 1.
///
/// Errors: as for [`sweep`].
///
/// Rules: Sessions 10 and 11
/// Formats: The command line
pub fn sweep_of<T: Object, V: Vocabulary, R: Read, O: Write, E: Write>(
    alloc: T::Alloc,
    input: &mut R,
    out: &mut O,
    err: &mut E,
) -> u8
    ensures status { result ≤ 1 }
    ensures quiet { result ≡ 0 → Keeps (E.contents err.old) (E.contents err.new) }
    ensures printed { result ≡ 0 → (script : Script T.Alloc) × (bytes : List ℕ) × IsAllOf (R.remaining input.old) bytes
        × IsScriptOfInputBy V.forms (Ok script) bytes × HasPrinted (O.contents out.old) (O.contents out.new) (IsSweepText T.sequential script.nodes script.lines.items true) }
    ensures kept { result ≡ 1 → (err.new ≡ err.old) ⊎ ((out.new ≡ out.old)
        ⊎ ((script : Script T.Alloc) × (bytes : List ℕ) × IsAllOf (R.remaining input.old) bytes × IsScriptOfInputBy V.forms (Ok script) bytes
        × HasPrinted (O.contents out.old) (O.contents out.new) (IsSweepText T.sequential script.nodes script.lines.items false))) }
    ensures no_script { (bytes : List ℕ) → R.remaining input.old ≡ Some bytes → IsNoScript V.forms bytes → (result ≡ 1) × (out.new ≡ out.old) }
{
    match Script::read_by::<V, R>(alloc, input) {
        Ok(script) => sweep_script::<T, O, E>(alloc, &script, out, err),
        Err(fault) => report_failure(err, Failure::from(fault)),
    }
}

/// Sweeps a parsed script as [`sweep_of`] does.
fn sweep_script<T: Object, O: Write, E: Write>(
    alloc: T::Alloc,
    script: &Script<T::Alloc>,
    out: &mut O,
    err: &mut E,
) -> u8
    requires { AreFit script.now.lines.items }
    ensures status { result ≤ 1 }
    ensures quiet { result ≡ 0 → Keeps (E.contents err.old) (E.contents err.new) }
    ensures printed { result ≡ 0 → HasPrinted (O.contents out.old) (O.contents out.new) (IsSweepText T.sequential script.now.nodes script.now.lines.items true) }
    ensures kept { result ≡ 1 → (err.new ≡ err.old) ⊎ ((out.new ≡ out.old)
        ⊎ HasPrinted (O.contents out.old) (O.contents out.new) (IsSweepText T.sequential script.now.nodes script.now.lines.items false)) }
{
    let swept = run_all::<T>(alloc, script);
    let done = print_all::<T, O>(script, swept, out);
    verdict_status(err, done)
}

/// Sweeps a script as [`sweep`] does, on `threads` threads, or one if that is 0.
///
/// Neither output depends on that number. Waits for the threads. If there is a `progress`, it gets the progress from
/// the first second on, and at the end the sequence that clears it from a terminal. Returns the exit status: 0 if all
/// variants are legal, otherwise 1.
///
/// Errors: as for [`sweep`]. Errors of `progress` are ignored.
///
/// Rules: Sessions 10 and 11
/// Formats: The command line
pub fn sweep_by_threads<R: Threads + Clock + Sync, I: Read, O: Write, E: Write, P: Write>(
    rt: &R,
    alloc: Global,
    input: &mut I,
    threads: u16,
    out: &mut O,
    err: &mut E,
    progress: Option<&mut P>,
) -> u8
    ensures status { result ≤ 1 }
    ensures quiet { result ≡ 0 → Keeps (E.contents err.old) (E.contents err.new) }
    ensures printed { let object = ⟦<StandardObjects<Global> as Object>⟧ in
        result ≡ 0 → (script : Script OneGlobal) × (bytes : List ℕ) × IsAllOf (I.remaining input.old) bytes × IsScriptOfInput (Ok script) bytes
        × HasPrinted (O.contents out.old) (O.contents out.new) (IsSweepText object.sequential script.nodes script.lines.items true) }
    ensures kept { let object = ⟦<StandardObjects<Global> as Object>⟧ in
        result ≡ 1 → (err.new ≡ err.old) ⊎ ((out.new ≡ out.old)
        ⊎ ((script : Script OneGlobal) × (bytes : List ℕ) × IsAllOf (I.remaining input.old) bytes × IsScriptOfInput (Ok script) bytes
        × HasPrinted (O.contents out.old) (O.contents out.new) (IsSweepText object.sequential script.nodes script.lines.items false))) }
    ensures no_script { (bytes : List ℕ) → I.remaining input.old ≡ Some bytes → IsNoScript shelf_operation_forms bytes → (result ≡ 1) × (out.new ≡ out.old) }
{
    sweep_of_by_threads::<StandardObjects<Global>, ShelfVocabulary, R, I, O, E, P>(
        rt, alloc, input, threads, out, err, progress,
    )
}

/// Sweeps a script as [`sweep_by_threads`] does, for objects `T` with the vocabulary `V`.
///
/// Returns the exit status: 0 if all variants are legal, otherwise 1.
///
/// Errors: as for [`sweep_by_threads`].
///
/// Rules: Sessions 10 and 11
/// Formats: The command line
pub fn sweep_of_by_threads<
    T: Object<Alloc = Global> + Send,
    V: Vocabulary,
    R: Threads + Clock + Sync,
    I: Read,
    O: Write,
    E: Write,
    P: Write,
>(
    rt: &R,
    alloc: Global,
    input: &mut I,
    threads: u16,
    out: &mut O,
    err: &mut E,
    progress: Option<&mut P>,
) -> u8
    ensures status { result ≤ 1 }
    ensures quiet { result ≡ 0 → Keeps (E.contents err.old) (E.contents err.new) }
    ensures printed { result ≡ 0 → (script : Script OneGlobal) × (bytes : List ℕ) × IsAllOf (I.remaining input.old) bytes
        × IsScriptOfInputBy V.forms (Ok script) bytes × HasPrinted (O.contents out.old) (O.contents out.new) (IsSweepText T.sequential script.nodes script.lines.items true) }
    ensures kept { result ≡ 1 → (err.new ≡ err.old) ⊎ ((out.new ≡ out.old)
        ⊎ ((script : Script OneGlobal) × (bytes : List ℕ) × IsAllOf (I.remaining input.old) bytes × IsScriptOfInputBy V.forms (Ok script) bytes
        × HasPrinted (O.contents out.old) (O.contents out.new) (IsSweepText T.sequential script.nodes script.lines.items false))) }
    ensures no_script { (bytes : List ℕ) → I.remaining input.old ≡ Some bytes → IsNoScript V.forms bytes → (result ≡ 1) × (out.new ≡ out.old) }
{
    let script = match Script::read_by::<V, I>(alloc, input) {
        Ok(script) => script,
        Err(fault) => return report_failure(err, Failure::from(fault)),
    };
    let swept = run_all_by_threads::<T, R, P>(rt, alloc, &script, threads, progress);
    let done = print_all::<T, O>(&script, swept, out);
    verdict_status(err, done)
}

/// Prints the result of a sweep.
///
/// Errors: `Output` if `out` fails; otherwise the fault of the sweep, as `Refused` with `Memory`.
fn print_all<T: Object, O: Write>(
    script: &Script<T::Alloc>,
    swept: Result<SweepResult, Fault>,
    out: &mut O,
) -> Result<SweepResult, Failure>
    requires swept { IfOk swept (IsSweepResult T.sequential script.now.nodes script.now.lines.items) }
    requires refused { IfErr swept (λ fault. fault ≡ Memory) }
    ensures swept { IfOk result (IsSweepResult T.sequential script.now.nodes script.now.lines.items) }
    ensures printed { IfOk result (λ swept. Appends (O.contents out.old) (O.contents out.new) (sweep_text swept)) }
    ensures failed { IfErr result (λ failure. (failure ≡ Output) ⊎ ((failure ≡ Refused Memory) × (out.new ≡ out.old))) }
{
    // Only the contract uses it.
    let _ = script;
    let swept = swept?;
    print_result(&swept, out)?;
    Ok(swept)
}

/// Returns the exit status of a sweep: 0 exactly if all variants are legal, otherwise 1.
///
/// Reports the first variant that isn't legal, or the failure, on `err`. A failed output isn't reported. Errors of
/// `err` itself are ignored.
///
/// Formats: The command line
pub fn verdict_status<E: Write>(err: &mut E, done: Result<SweepResult, Failure>) -> u8
    ensures status { result ≤ 1 }
    ensures ok { result ≡ 0 ↔ AllLegal done }
    ensures quiet { result ≡ 0 → err.new ≡ err.old }
    ensures output { done ≡ Err Output → err.new ≡ err.old }
{
    match done {
        Ok(swept) => sweep_result_status(err, &swept),
        Err(failure) => report_failure(err, failure),
    }
}

/// Returns the exit status of a complete sweep, and reports the first variant that is not legal on `err`.
fn sweep_result_status<E: Write>(err: &mut E, swept: &SweepResult) -> u8
    ensures status { result ≤ 1 }
    ensures ok { result ≡ 0 ↔ swept.now.illegal ≡ None }
    ensures quiet { result ≡ 0 → err.new ≡ err.old }
{
    match &swept.illegal {
        None => 0,
        Some(injection) => {
            let _ = report_illegal(err, injection, swept.events);
            NOT_LEGAL
        }
    }
}

/// Writes a line that names a variant by its injection, for a script with `events` events.
fn report_illegal<E: Write>(err: &mut E, injection: &Injection, events: u64) -> io::Result<()>
    ensures { OnOk result (Appends (E.contents err.old) (E.contents err.new) (line_of (injection_text events injection.now))) }
{
    let told = InjectionText { injection, events };
    writeln!(err, "{told}")
}

/// Prints the result of a sweep.
///
/// Errors: `Output` if writing fails.
fn print_result<O: Write>(swept: &SweepResult, out: &mut O) -> Result<(), Failure>
    ensures lines { OnOk result (Appends (O.contents out.old) (O.contents out.new) (sweep_text swept.now)) }
    ensures failed { IfErr result (λ failure. failure ≡ Output) }
{
    let (events, variants) = (swept.events, swept.variants);
    let word = if swept.illegal.is_none() { "yes" } else { "no" };
    output_result(writeln!(out, "events {events}\nvariants {variants}\nlegal {word}"))
}

/// Runs the script unchanged, and then each of its variants.
fn run_all<O: Object>(alloc: O::Alloc, script: &Script<O::Alloc>) -> Result<SweepResult, Fault>
    requires { AreFit script.now.lines.items }
    ensures ok { IfOk result (IsSweepResult O.sequential script.now.nodes script.now.lines.items) }
    ensures refused { IfErr result (λ fault. fault ≡ Memory) }
{
    let events = count_events::<O>(alloc, script)?;
    let variants = count_variants(events, script.nodes.count())?;
    let illegal = try_on_this_thread::<O>(alloc, script, variants)?;
    Ok(SweepResult {
        events,
        variants,
        illegal,
    })
}

/// Runs the script and its variants as `run_all` does, on `threads` threads, or one if that is 0.
fn run_all_by_threads<O: Object<Alloc = Global> + Send, R: Threads + Clock + Sync, P: Write>(
    rt: &R,
    alloc: Global,
    script: &Script<Global>,
    threads: u16,
    progress: Option<&mut P>,
) -> Result<SweepResult, Fault>
    requires { AreFit script.now.lines.items }
    ensures ok { IfOk result (IsSweepResult O.sequential script.now.nodes script.now.lines.items) }
    ensures refused { IfErr result (λ fault. fault ≡ Memory) }
{
    let events = count_events::<O>(alloc, script)?;
    let variants = count_variants(events, script.nodes.count())?;
    let illegal = try_by_threads::<O, R, P>(rt, alloc, script, variants, threads, progress)?;
    Ok(SweepResult {
        events,
        variants,
        illegal,
    })
}

/// Returns the number of the script's events.
fn count_events<O: Object>(alloc: O::Alloc, script: &Script<O::Alloc>) -> Result<u64, Fault>
    requires { AreFit script.now.lines.items }
    ensures ok { IfOk result (HasEvents O.sequential script.now.nodes script.now.lines.items) }
    ensures refused { IfErr result (λ fault. fault ≡ Memory) }
{
    match CountedRun::<O>::new(alloc, script.nodes) {
        Ok(mut whole) => count_from(&mut whole, script),
        Err(fault) => Err(fault),
    }
}

/// Returns the number of the script's events.
///
/// `whole` must be a run at its opening.
fn count_from<O: Object>(whole: &mut CountedRun<O>, script: &Script<O::Alloc>) -> Result<u64, Fault>
    requires fit { AreFit script.now.lines.items }
    requires opening { (whole.old.run ≡ run_opening script.now.nodes) × (whole.old.events_done ≡ 0) }
    ensures ok { IfOk result (HasEvents O.sequential script.now.nodes script.now.lines.items) }
    ensures refused { IfErr result (λ fault. fault ≡ Memory) }
{
    whole.run_lines(script.lines.as_slice())?;
    Ok(whole.done())
}

/// Returns the number of variants of a script with `events` events and `count` nodes.
///
/// Errors: `Memory` if the number exceeds a u64, which no world reaches.
fn count_variants(events: u64, count: u8) -> Result<u64, Fault>
    ensures ok { IfOk result (λ variants. variants ≡ 2 * (events + 1) * count) }
    ensures refused { IfErr result (λ fault. fault ≡ Memory) }
{
    let places = events.checked_add(1).ok_or(Fault::Memory)?;
    let each = 2 * u64::from(count);
    places.checked_mul(each).ok_or(Fault::Memory)
}

/// Runs the first `variants` variants on this thread.
///
/// Returns the injection of the first one that isn't legal, or `None` if all are.
fn try_on_this_thread<O: Object>(
    alloc: O::Alloc,
    script: &Script<O::Alloc>,
    variants: u64,
) -> Result<Option<Injection>, Fault>
    requires { AreFit script.now.lines.items }
    ensures ok { IfOk result (AreTried O.sequential script.now.nodes script.now.lines.items variants) }
    ensures refused { IfErr result (λ fault. fault ≡ Memory) }
{
    let all = VariantRange {
        from: 0,
        upto: variants,
    };
    try_share::<O>(alloc, script, all, 1, 0)
}
