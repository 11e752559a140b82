//! The command `script`: running a script, and checking that its order is legal.
//!
//! Rules: Sessions 10
//! Formats: What a script prints; The command line

ghost use Rattle.std.specs.Prelude.{◌≡◌, ℕ, ◌≤◌, ◌⊎◌, ◌↔◌, List, [], Some, Ok, Err, IsOk, OnOk, IfOk, IfErr, true, false, IsTrue};
ghost use Rattle.std.specs.Io.Buffered.{writer_buffer, writer_contents};
ghost use Rattle.std.specs.Io.KnownBytes.{Appends, Keeps};
ghost use Rattle.ring_base.specs.declared.fault.Fault.TheVariants.{Memory};
ghost use Rattle.ring_script.specs.Fits.{AreFit};
ghost use Rattle.ring_script.specs.Scripts.{IsAllOf, IsScriptOfInputBy, IsScriptOfInput};
ghost use Rattle.ring_script.specs.ScriptTexts.{IsNoScript};
ghost use Rattle.ring_script.specs.ShelfVocabulary.{shelf_operation_forms};
ghost use Rattle.ring_script.specs.declared.scripts.Script.{Script};
ghost use Rattle.ring_failure.specs.Failures.{IsOutputOrMemory};
ghost use Rattle.ring_failure.specs.declared.failure.Failure.TheVariants.{Output};
ghost use Rattle.ring_console.specs.Running.{HasPrinted, run_opening, IsTextOf, IsCutTextOf, IsBrokenOff, IsLegal, IsVerdict, legal_line};

use crate::printed_lines::print_legal;
use crate::script_run::ScriptRun;
use ring_base::Fault;
use ring_checker::is_linearization;
use ring_failure::{Failure, NOT_LEGAL, WriterSlot, exit_status, fill_slot, report_failure};
use ring_object::Object;
use ring_script::{Script, ShelfVocabulary, Vocabulary};
use ring_things::StandardObjects;
use std::alloc::Allocator;
use std::io::{BufWriter, Read, Write};

/// Reads a whole script for the standard object, checks it, runs it, and prints the outputs of its events on `out`.
///
/// Returns the exit status: 0 at the script's end, otherwise 1.
///
/// Errors, each reported on `err` unless stated otherwise:
/// - `BadScript` if the input isn't a script: nothing is printed;
/// - `Memory` if an allocation for the reading or for the run itself fails;
/// - `out` fails: nothing is reported.
///
/// If an error is reported, either nothing is printed, or the whole input was a script and the printed text is that of a
/// run of it until an allocation fails: the lines of all earlier events. At status 0 the whole input was a script, and
/// the printed text is that of a run of it.
///
/// Formats: What a script prints; The command line
pub fn script<A: Allocator + Copy + Drop, R: Read, O: Write, E: Write>(
    alloc: A,
    input: &mut R,
    out: &mut O,
    err: &mut E,
) -> u8
    ensures status { result ≤ 1 }
    ensures quiet { result ≡ 0 → Keeps (E.contents err.old) (E.contents err.new) }
    ensures printed { let object = ⟦<StandardObjects<A> as Object>⟧ in
        result ≡ 0 → (script : Script A) × (bytes : List ℕ) × IsAllOf (R.remaining input.old) bytes × IsScriptOfInput (Ok script) bytes
        × HasPrinted (O.contents out.old) (O.contents out.new) (IsTextOf object.sequential script.nodes false script.lines.items true) }
    ensures cut { let object = ⟦<StandardObjects<A> as Object>⟧ in
        result ≡ 1 → (err.new ≡ err.old) ⊎ ((out.new ≡ out.old)
        ⊎ IsBrokenOff object.sequential A shelf_operation_forms false (R.remaining input.old) (O.contents out.old) (O.contents out.new)) }
    ensures no_script { (bytes : List ℕ) → R.remaining input.old ≡ Some bytes → IsNoScript shelf_operation_forms bytes → (result ≡ 1) × (out.new ≡ out.old) }
{
    script_of::<StandardObjects<A>, ShelfVocabulary, R, O, E>(alloc, input, false, out, err)
}

/// Runs a script as [`script`] does, and then prints `legal yes` or `legal no`: whether the order of the run's world is
/// legal for its history.
///
/// The checker has only the order and the history. The exit status is 1 after `legal no` too, but nothing is reported.
///
/// Errors: as for [`script`].
///
/// Rules: Sessions 10
/// Formats: The command line
pub fn script_check<A: Allocator + Copy + Drop, R: Read, O: Write, E: Write>(
    alloc: A,
    input: &mut R,
    out: &mut O,
    err: &mut E,
) -> u8
    ensures status { result ≤ 1 }
    ensures quiet { result ≡ 0 → Keeps (E.contents err.old) (E.contents err.new) }
    ensures printed { let object = ⟦<StandardObjects<A> as Object>⟧ in
        result ≡ 0 → (script : Script A) × (bytes : List ℕ) × IsAllOf (R.remaining input.old) bytes × IsScriptOfInput (Ok script) bytes
        × HasPrinted (O.contents out.old) (O.contents out.new) (IsTextOf object.sequential script.nodes true script.lines.items true) }
    ensures cut { let object = ⟦<StandardObjects<A> as Object>⟧ in
        result ≡ 1 → (err.new ≡ err.old) ⊎ ((out.new ≡ out.old)
        ⊎ IsBrokenOff object.sequential A shelf_operation_forms true (R.remaining input.old) (O.contents out.old) (O.contents out.new)) }
    ensures no_script { (bytes : List ℕ) → R.remaining input.old ≡ Some bytes → IsNoScript shelf_operation_forms bytes → (result ≡ 1) × (out.new ≡ out.old) }
{
    script_of::<StandardObjects<A>, ShelfVocabulary, R, O, E>(alloc, input, true, out, err)
}

/// Runs a script for objects `T` with the vocabulary `V`, as [`script`] does, or as [`script_check`] does if
/// `is_checked`.
///
/// Errors: as for [`script`].
///
/// Rules: Sessions 10
/// Formats: The command line
pub fn script_of<T: Object, V: Vocabulary, R: Read, O: Write, E: Write>(
    alloc: T::Alloc,
    input: &mut R,
    is_checked: bool,
    out: &mut O,
    err: &mut E,
) -> u8
    ensures status { result ≤ 1 }
    ensures quiet { result ≡ 0 → Keeps (E.contents err.old) (E.contents err.new) }
    ensures printed { result ≡ 0 → (script : Script T.Alloc) × (bytes : List ℕ) × IsAllOf (R.remaining input.old) bytes
        × IsScriptOfInputBy V.forms (Ok script) bytes
        × HasPrinted (O.contents out.old) (O.contents out.new) (IsTextOf T.sequential script.nodes is_checked script.lines.items true) }
    ensures cut { result ≡ 1 → (err.new ≡ err.old) ⊎ ((out.new ≡ out.old)
        ⊎ IsBrokenOff T.sequential T.Alloc V.forms is_checked (R.remaining input.old) (O.contents out.old) (O.contents out.new)) }
    ensures no_script { (bytes : List ℕ) → R.remaining input.old ≡ Some bytes → IsNoScript V.forms bytes → (result ≡ 1) × (out.new ≡ out.old) }
{
    match Script::read_by::<V, R>(alloc, input) {
        Ok(script) => print_run::<T, O, E>(alloc, script, is_checked, out, err),
        Err(fault) => report_failure(err, Failure::from(fault)),
    }
}

/// Runs a parsed script, for [`script_of`].
fn print_run<T: Object, O: Write, E: Write>(
    alloc: T::Alloc,
    script: Script<T::Alloc>,
    is_checked: bool,
    out: &mut O,
    err: &mut E,
) -> u8
    requires { AreFit script.lines.items }
    ensures status { result ≤ 1 }
    ensures quiet { result ≡ 0 → Keeps (E.contents err.old) (E.contents err.new) }
    ensures printed { result ≡ 0 → HasPrinted (O.contents out.old) (O.contents out.new) (IsTextOf T.sequential script.nodes is_checked script.lines.items true) }
    ensures cut { result ≡ 1 → (err.new ≡ err.old)
        ⊎ HasPrinted (O.contents out.old) (O.contents out.new) (IsCutTextOf T.sequential script.nodes is_checked script.lines.items) }
{
    match BufWriter::new(alloc, WriterSlot { writer: None }) {
        Ok(mut buffer) => {
            fill_slot(&mut buffer, out);
            let done = ScriptRun::<T>::print_script(alloc, script, is_checked, &mut buffer);
            let status = verdict_status(&mut buffer, err, done);
            let (WriterSlot { writer }, _) = buffer.into_parts();
            // No effect at run time. The proof reads the contents of `out` from this use.
            if let Some(writer) = writer {
                let _ = &*writer;
            }
            status
        }
        Err(_) => report_failure(err, Failure::Refused(Fault::Memory)),
    }
}

// These are functions of the type, not free functions: here the type parameters have the same positions as in
// `ScriptRun::take`. With other positions, the checker compares the types of that call down to their last field, and
// runs out of steps.
impl<O: Object> ScriptRun<O> {
    /// Runs the script from the opening of its nodes, and then, if `is_checked`, prints whether the run is legal.
    ///
    /// Returns the printed verdict, or true without a check.
    ///
    /// Errors: `Output` if `out` fails; `Refused` with `Memory` if an allocation fails.
    fn print_script<W: Write>(
        alloc: O::Alloc,
        script: Script<O::Alloc>,
        is_checked: bool,
        out: &mut W,
    ) -> Result<bool, Failure>
        requires { AreFit script.lines.items }
        ensures ok { IfOk result (λ is_legal. HasPrinted (W.contents out.old) (W.contents out.new)
            (IsTextOf O.sequential script.nodes is_checked script.lines.items is_legal)) }
        ensures cut { IfErr result (λ failure. (failure ≡ Output) ⊎ HasPrinted (W.contents out.old) (W.contents out.new)
            (IsCutTextOf O.sequential script.nodes is_checked script.lines.items)) }
        ensures failed { IfErr result IsOutputOrMemory }
    {
        match ScriptRun::<O>::new(alloc, script.nodes) {
            Ok(mut run) => run.print_whole(alloc, script, is_checked, out),
            Err(fault) => Err(Failure::Refused(fault)),
        }
    }

    /// Runs the script as `print_script` does, in this run, which must be at its opening.
    fn print_whole<W: Write>(
        &mut self,
        alloc: O::Alloc,
        script: Script<O::Alloc>,
        is_checked: bool,
        out: &mut W,
    ) -> Result<bool, Failure>
        requires opening { self.old ≡ run_opening script.nodes }
        requires fit { AreFit script.lines.items }
        ensures ok { IfOk result (λ is_legal. HasPrinted (W.contents out.old) (W.contents out.new)
            (IsTextOf O.sequential script.nodes is_checked script.lines.items is_legal)) }
        ensures cut { IfErr result (λ failure. (failure ≡ Output) ⊎ HasPrinted (W.contents out.old) (W.contents out.new)
            (IsCutTextOf O.sequential script.nodes is_checked script.lines.items)) }
        ensures failed { IfErr result IsOutputOrMemory }
    {
        self.run_and_print_lines(script, out)?;
        self.print_verdict(alloc, is_checked, out)
    }

    /// Prints, if `is_checked`, whether the run is legal.
    ///
    /// Returns the printed verdict, or true without a check.
    ///
    /// Errors: `Output` if `out` fails; `Refused` with `Memory` if an allocation fails.
    fn print_verdict<W: Write>(
        &self,
        alloc: O::Alloc,
        is_checked: bool,
        out: &mut W,
    ) -> Result<bool, Failure>
        ensures line { IfOk result (λ is_legal. Appends (W.contents out.old) (W.contents out.new) (legal_line is_checked is_legal)) }
        ensures verdict { IfOk result (λ is_legal. IsVerdict O.sequential is_checked is_legal self.now.world_view) }
        ensures cut { IfErr result (λ failure. (failure ≡ Output)
            ⊎ ((is_checked ≡ true) × (W.contents out.new ≡ W.contents out.old))) }
        ensures failed { IfErr result IsOutputOrMemory }
    {
        if !is_checked {
            return Ok(true);
        }
        let is_legal = is_legal(alloc, self)?;
        print_legal(out, is_legal)?;
        Ok(is_legal)
    }
}

/// Returns whether the order of the run's world is legal for its history.
///
/// The history has the calls and replies of the events run so far. The run is unchanged.
///
/// Errors: `Memory` if an allocation fails.
///
/// Rules: Sessions 10
pub fn is_legal<O: Object>(alloc: O::Alloc, run: &ScriptRun<O>) -> Result<bool, Fault>
    ensures ok { IfOk result (λ is_legal. IsTrue is_legal ↔ IsLegal O.sequential run.now.world_view) }
    ensures refused { IfErr result (λ fault. fault ≡ Memory) }
{
    let order = run.world().order()?;
    is_linearization::<O>(alloc, order.as_slice(), run.world().history())
}

/// Flushes the buffer as [`exit_status`] does, and returns the exit status, which is also 1 if the run isn't legal.
fn verdict_status<O: Write + Drop, A: Allocator, E: Write>(
    out: &mut BufWriter<O, A>,
    err: &mut E,
    done: Result<bool, Failure>,
) -> u8
    ensures status { result ≤ 1 }
    ensures ok { result ≡ 0 → done ≡ Ok true }
    ensures quiet { result ≡ 0 → err.new ≡ err.old }
    ensures kept { Keeps (writer_contents O.contents out.old) (writer_contents O.contents out.new) }
    ensures flushed { result ≡ 0 → writer_buffer out.new ≡ [] }
    ensures output { done ≡ Err Output → err.new ≡ err.old }
    ensures well { IsOk done → err.new ≡ err.old }
    ensures stands { (err.new ≡ err.old) ⊎ (writer_buffer out.new ≡ []) }
{
    match done {
        Ok(true) => exit_status(out, err, Ok(())),
        Ok(false) => {
            // The result of flushing makes no difference: the status is 1 in any case.
            let _ = exit_status(out, err, Ok(()));
            NOT_LEGAL
        }
        Err(failure) => exit_status(out, err, Err(failure)),
    }
}
