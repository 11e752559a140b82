//! The run of the script itself, of which the runs of its variants are copies.
//!
//! Formats: The command line

ghost use Rattle.std.specs.Prelude.{◌≡◌, ◌≤◌, IfOk, IfErr, OnOk};
ghost use Rattle.ring_base.specs.declared.fault.Fault.TheVariants.{Memory};
ghost use Rattle.ring_script.specs.Fits.{AreFit};
ghost use Rattle.ring_console.specs.Running.{run_opening};
ghost use Rattle.ring_sweep.specs.ScriptPositions.{HasReachedEvent, IsBeforeStep, left_of};
ghost use Rattle.ring_sweep.specs.Variants.{steps_of, IsDue, IsVariant, AreStepsDone};

use crate::counted_run::CountedRun;
use crate::injection::Injection;
use ring_base::{Fault, Fixed};
use ring_console::{NumberedLine, Script};
use ring_object::Object;

/// The run of the script itself, up to one of its events.
///
/// The run of each variant with an injection before that event is a copy of it that goes on with the injection.
///
/// Formats: The command line
#[derive(Drop)]
pub(crate) struct BaseRun<O: Object> {
    /// The run so far, with the number of its events.
    pub counted_run: CountedRun<O>,
    /// The number of lines that are carried out completely.
    pub lines: usize,
    /// The number of turns taken of the next line, if that is a pump; otherwise 0.
    pub turns: u32,
}

impl<O: Object> BaseRun<O> {
    /// Creates a run with all nodes at their opening, before the first line.
    ///
    /// Errors: `Memory` if an allocation fails.
    pub fn new(alloc: O::Alloc, nodes: Fixed) -> Result<BaseRun<O>, Fault>
        ensures counted_run { IfOk result (λ base_run. (base_run.counted_run.run ≡ run_opening nodes) × (base_run.counted_run.events_done ≡ 0)) }
        ensures place { IfOk result (λ base_run. (base_run.lines ≡ 0) × (base_run.turns ≡ 0)) }
        ensures refused { IfErr result (λ fault. fault ≡ Memory) }
    {
        let counted_run = CountedRun::new(alloc, nodes)?;
        Ok(BaseRun {
            counted_run,
            lines: 0,
            turns: 0,
        })
    }

    /// Continues until `before` events have been run and the next step is an event, or to the end of the script.
    ///
    /// The next line then has a step left, if there is a next line.
    ///
    /// At most `before` events may have been run so far.
    ///
    /// Errors: `Memory` if an allocation fails; the run is then unspecified.
    ///
    /// Formats: The command line
    pub fn go_to(&mut self, script: &Script<O::Alloc>, before: u64) -> Result<(), Fault>
        requires fit { AreFit script.now.lines.items }
        requires come { HasReachedEvent O.sequential script.now.nodes script.now.lines.items self.old.lines self.old.turns self.old.counted_run.events_done self.old.counted_run.run }
        requires most { self.old.counted_run.events_done ≤ before }
        ensures come { OnOk result
            (HasReachedEvent O.sequential script.now.nodes script.now.lines.items self.new.lines self.new.turns self.new.counted_run.events_done self.new.counted_run.run) }
        ensures due { OnOk result
            (IsDue O.sequential (left_of script.now.lines.items self.new.lines self.new.turns) self.new.counted_run.events_done before self.new.counted_run.run) }
        ensures step { OnOk result (IsBeforeStep script.now.lines.items self.new.lines self.new.turns) }
        ensures refused { IfErr result (λ fault. fault ≡ Memory) }
    {
        for index in self.lines..script.lines.len() {
            let line = &script.lines[index].line;
            if let Some(turns) = self.counted_run.take_line_until(line, self.turns, before)? {
                self.turns = turns;
                return Ok(());
            }
            self.lines = index + 1;
            self.turns = 0;
        }
        Ok(())
    }

    /// Runs the variant with this injection to the end of the script, in `copy`.
    ///
    /// This run must be at the injection's event, and `copy` must be a copy of it.
    ///
    /// Errors: `Memory` if an allocation fails; the copy is then unspecified.
    ///
    /// Formats: The command line
    pub fn run_variant(
        &self,
        copy: &mut CountedRun<O>,
        script: &Script<O::Alloc>,
        injection: Injection,
    ) -> Result<(), Fault>
        requires fit { AreFit script.now.lines.items }
        requires come { HasReachedEvent O.sequential script.now.nodes script.now.lines.items self.now.lines self.now.turns self.now.counted_run.events_done self.now.counted_run.run }
        requires due { IsDue O.sequential (left_of script.now.lines.items self.now.lines self.now.turns) self.now.counted_run.events_done injection.before self.now.counted_run.run }
        requires copy { (copy.old.run ≡ self.now.counted_run.run) × (copy.old.events_done ≡ self.now.counted_run.events_done) }
        ensures ok { OnOk result (IsVariant O.sequential (steps_of script.now.lines.items) injection 0 (run_opening script.now.nodes) copy.new.run) }
        ensures refused { IfErr result (λ fault. fault ≡ Memory) }
    {
        copy.carry_out_injection(injection)?;
        self.finish(copy, script.lines.as_slice())
    }

    /// Carries out the rest of the lines in a copy.
    ///
    /// Errors: `Memory` if an allocation fails.
    fn finish(
        &self,
        copy: &mut CountedRun<O>,
        lines: &[NumberedLine<O::Alloc>],
    ) -> Result<(), Fault>
        requires { AreFit lines.now }
        ensures ok { OnOk result (AreStepsDone O.sequential (left_of lines.now self.now.lines self.now.turns) copy.old.events_done copy.new.events_done copy.old.run copy.new.run) }
        ensures refused { IfErr result (λ fault. fault ≡ Memory) }
    {
        match lines.get(self.lines) {
            Some(next) => {
                copy.take_line(&next.line, self.turns)?;
                copy.run_lines(&lines[self.lines + 1..])
            }
            None => Ok(()),
        }
    }
}
