//! The position of an injection among the lines of a script.
//!
//! Formats: The command line

ghost use Rattle.std.specs.Prelude.{◌≡◌, IfOk, IfErr};
ghost use Rattle.ring_base.specs.declared.fault.Fault.TheVariants.{Memory};
ghost use Rattle.ring_script.specs.Fits.{AreFit};
ghost use Rattle.ring_console.specs.Running.{run_opening};
ghost use Rattle.ring_sweep.specs.ScriptPositions.{IsScriptPosition};

use crate::base_run::BaseRun;
use ring_base::Fault;
use ring_console::Script;
use ring_object::Object;

/// A position among the steps of a script: after `lines` lines, and after `turns` turns of the next line.
#[derive(Clone, Copy, Debug, PartialEq, Eq)]
pub(crate) struct ScriptPosition {
    /// The number of effective lines before it, without `nodes` and `votes`.
    pub lines: usize,
    /// The number of turns of the next line before it if that line is a pump, otherwise 0.
    pub turns: u32,
    /// The number of events before it.
    pub events: u64,
}

/// Returns the position directly before the event after `before` others.
///
/// If the script has no such event, returns the position after all lines. Runs the script up to the position.
///
/// Errors: `Memory` if an allocation fails.
///
/// Formats: The command line
pub(crate) fn position_of<O: Object>(
    alloc: O::Alloc,
    script: &Script<O::Alloc>,
    before: u64,
) -> Result<ScriptPosition, Fault>
    requires { AreFit script.now.lines.items }
    ensures ok { IfOk result (IsScriptPosition O.sequential script.now.nodes script.now.lines.items before) }
    ensures refused { IfErr result (λ fault. fault ≡ Memory) }
{
    match BaseRun::<O>::new(alloc, script.nodes) {
        Ok(mut base_run) => position_from(&mut base_run, script, before),
        Err(fault) => Err(fault),
    }
}

/// Finds a position as [`position_of`] does, with a base run that must be at the script's opening.
fn position_from<O: Object>(
    base_run: &mut BaseRun<O>,
    script: &Script<O::Alloc>,
    before: u64,
) -> Result<ScriptPosition, Fault>
    requires fit { AreFit script.now.lines.items }
    requires counted_run { (base_run.old.counted_run.run ≡ run_opening script.now.nodes) × (base_run.old.counted_run.events_done ≡ 0) }
    requires place { (base_run.old.lines ≡ 0) × (base_run.old.turns ≡ 0) }
    ensures ok { IfOk result (IsScriptPosition O.sequential script.now.nodes script.now.lines.items before) }
    ensures refused { IfErr result (λ fault. fault ≡ Memory) }
{
    base_run.go_to(script, before)?;
    Ok(ScriptPosition {
        lines: base_run.lines,
        turns: base_run.turns,
        events: base_run.counted_run.done(),
    })
}
