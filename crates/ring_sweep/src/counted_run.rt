//! A running script with a count of its events.
//!
//! Formats: The command line

ghost use Rattle.std.specs.Prelude.{◌≡◌, ◌+◌, ◌≤◌, ◌&&◌, ◌==◌, [], ◌∷◌, replicate, IfOk, IfErr, OnOk};
ghost use Rattle.ring_base.specs.declared.fault.Fault.TheVariants.{Memory};
ghost use Rattle.ring_script.specs.Fits.{IsFit, AreFit};
ghost use Rattle.ring_script.specs.declared.line.ScriptLine.TheVariants.{Pump};
ghost use Rattle.ring_console.specs.Running.{run_opening, IsLineDone};
ghost use Rattle.ring_sweep.specs.Copies.{IsCopyOf};
ghost use Rattle.ring_sweep.specs.ScriptPositions.{IsWithin, IsUntil, IsStepUntil, left_in};
ghost use Rattle.ring_sweep.specs.Variants.{turn, steps_of, is_event, bit, line_of_injection, AreStepsDone};

use crate::injection::Injection;
use ring_base::{Fault, Fixed};
use ring_console::{NumberedLine, ScriptLine, ScriptRun, World};
use ring_object::Object;
use ring_session::copy_of;
use std::alloc::Allocator;

/// A running script with the number of its events that were run.
///
/// An injected event isn't counted.
///
/// Formats: The command line
#[derive(Drop)]
pub(crate) struct CountedRun<O: Object> {
    /// The run of the script.
    pub run: ScriptRun<O>,
    /// The number of the script's events run so far.
    pub events_done: u64,
}

impl<O: Object> CountedRun<O> {
    /// Creates a run with all nodes at their opening, before the first event.
    ///
    /// Errors: `Memory` if an allocation fails.
    pub fn new(alloc: O::Alloc, nodes: Fixed) -> Result<CountedRun<O>, Fault>
        ensures ok { IfOk result (λ counted_run. (counted_run.run ≡ run_opening nodes) × (counted_run.events_done ≡ 0)) }
        ensures refused { IfErr result (λ fault. fault ≡ Memory) }
    {
        let run = ScriptRun::new(alloc, nodes)?;
        Ok(CountedRun {
            run,
            events_done: 0,
        })
    }

    /// Returns a copy of this run.
    ///
    /// From then on the two are independent.
    ///
    /// Errors: `Memory` if an allocation fails; this run is unchanged.
    pub fn copy(&self) -> Result<CountedRun<O>, Fault>
        ensures run { IfOk result (λ copy. copy.run ≡ self.now.run) }
        ensures done { IfOk result (λ copy. copy.events_done ≡ self.now.events_done) }
        ensures refused { IfErr result (λ fault. fault ≡ Memory) }
    {
        let run = self.run.copy()?;
        Ok(CountedRun {
            run,
            events_done: self.events_done,
        })
    }

    /// Returns the world of the nodes, after all events run so far.
    pub fn world(&self) -> &World<O>
        ensures { result.now ≡ self.now.run.world_view }
    {
        self.run.world()
    }

    /// Returns the number of the script's events run so far, without injected events.
    pub fn done(&self) -> u64
        ensures { result ≡ self.now.events_done }
    {
        self.events_done
    }

    /// Carries out the requests of the lines in order, and counts their events.
    ///
    /// Each call in them must be within the limits of a call, as in every parsed script.
    ///
    /// Errors: `Memory` if an allocation fails; the run is then unspecified.
    ///
    /// Formats: The command line
    pub fn run_lines(&mut self, lines: &[NumberedLine<O::Alloc>]) -> Result<(), Fault>
        requires { AreFit lines.now }
        ensures ok { OnOk result (AreStepsDone O.sequential (steps_of lines.now) self.old.events_done self.new.events_done self.old.run self.new.run) }
        ensures refused { IfErr result (λ fault. fault ≡ Memory) }
    {
        for numbered in lines {
            self.take_line(&numbered.line, 0)?;
        }
        Ok(())
    }

    /// Carries out the request of a line, and counts its events.
    ///
    /// The first `taken` turns of a pump are left out; if it has fewer, nothing is done. For other lines `taken` is
    /// ignored. A call must be within the limits of a call, as in every parsed script.
    ///
    /// Errors: `Memory` if an allocation fails; the run is then unspecified.
    ///
    /// Formats: The command line
    pub fn take_line(&mut self, line: &ScriptLine<O::Alloc>, taken: u32) -> Result<(), Fault>
        requires { IsFit line.now }
        ensures ok { OnOk result (AreStepsDone O.sequential (left_in line.now taken) self.old.events_done self.new.events_done self.old.run self.new.run) }
        ensures refused { IfErr result (λ fault. fault ≡ Memory) }
    {
        match line {
            ScriptLine::Pump { turns } => self.take_turns(turns.saturating_sub(taken)),
            _ => self.step(line),
        }
    }

    /// Carries out the request of a line from its turn `taken` on, counted from 0, but stops before the event after
    /// `before` others.
    ///
    /// Returns the number of the line's turns before that event, or `None` if the event isn't in this line and the
    /// whole line is done.
    ///
    /// `taken` must be at most the number of turns of a pump, and 0 for other lines. A call must be within the limits
    /// of a call, as in every parsed script.
    ///
    /// Errors: `Memory` if an allocation fails; the run is then unspecified.
    ///
    /// Formats: The command line
    pub fn take_line_until(
        &mut self,
        line: &ScriptLine<O::Alloc>,
        taken: u32,
        before: u64,
    ) -> Result<Option<u32>, Fault>
        requires fit { IsFit line.now }
        requires within { IsWithin line.now taken }
        ensures ok { IfOk result (λ turns. IsUntil O.sequential line.now taken before turns self.old.events_done self.new.events_done self.old.run self.new.run) }
        ensures refused { IfErr result (λ fault. fault ≡ Memory) }
    {
        match line {
            ScriptLine::Pump { turns } => self.take_turns_until(*turns, taken, before),
            _ => self.step_until(line, before),
        }
    }

    /// Carries out an injection: the node stops, or is cut off.
    ///
    /// The injected event isn't counted.
    ///
    /// Errors: `Memory` if an allocation fails; the run is then unspecified.
    ///
    /// Formats: The command line
    pub fn carry_out_injection(&mut self, injection: Injection) -> Result<(), Fault>
        ensures ok { OnOk result (IsLineDone O.sequential (line_of_injection injection) self.old.run self.new.run) }
        ensures done { self.new.events_done ≡ self.old.events_done }
        ensures refused { IfErr result (λ fault. fault ≡ Memory) }
    {
        self.run.run_line_silently(injection.injected_request())
    }

    /// Takes `turns` turns of a pump.
    ///
    /// If no copy is open any more, the remaining ones do nothing.
    fn take_turns(&mut self, turns: u32) -> Result<(), Fault>
        ensures ok { OnOk result (AreStepsDone O.sequential (replicate turns turn) self.old.events_done self.new.events_done self.old.run self.new.run) }
        ensures refused { IfErr result (λ fault. fault ≡ Memory) }
    {
        for _ in 0..turns {
            let Some(_) = self.run.first_open_copy() else {
                return Ok(());
            };
            self.take_turn()?;
        }
        Ok(())
    }

    /// Takes a turn of a pump.
    fn take_turn(&mut self) -> Result<(), Fault>
        ensures ok { OnOk result (AreStepsDone O.sequential (turn ∷ []) self.old.events_done self.new.events_done self.old.run self.new.run) }
        ensures refused { IfErr result (λ fault. fault ≡ Memory) }
    {
        self.step(&ScriptLine::Pump { turns: 1 })
    }

    /// Takes the turns of a pump after the first `from`, up to the event after `before` others.
    ///
    /// Returns the number of turns before that event, or `None` if it isn't in this pump.
    fn take_turns_until(&mut self, turns: u32, from: u32, before: u64) -> Result<Option<u32>, Fault>
        requires { from ≤ turns }
        ensures ok { IfOk result (λ taken. IsUntil O.sequential (Pump turns) from before taken self.old.events_done self.new.events_done self.old.run self.new.run) }
        ensures refused { IfErr result (λ fault. fault ≡ Memory) }
    {
        for taken in from..turns {
            let Some(_) = self.run.first_open_copy() else {
                return Ok(None);
            };
            if self.is_turn_due(before) {
                return Ok(Some(taken));
            }
            self.take_turn()?;
        }
        Ok(None)
    }

    /// Returns whether the next turn of a pump is the event after `before` others.
    fn is_turn_due(&self, before: u64) -> bool
        ensures { result ≡ (is_event self.now.run turn && self.now.events_done == before) }
    {
        self.is_event_due(&ScriptLine::Pump { turns: 1 }, before)
    }

    /// Carries out a step, unless it is the event after `before` others.
    fn step_until(&mut self, line: &ScriptLine<O::Alloc>, before: u64) -> Result<Option<u32>, Fault>
        requires { IsFit line.now }
        ensures ok { IfOk result (λ turns. IsStepUntil O.sequential line.now before turns self.old.events_done self.new.events_done self.old.run self.new.run) }
        ensures refused { IfErr result (λ fault. fault ≡ Memory) }
    {
        if self.is_event_due(line, before) {
            return Ok(Some(0));
        }
        self.step(line)?;
        Ok(None)
    }

    /// Returns whether the step is the event after `before` others.
    fn is_event_due(&self, line: &ScriptLine<O::Alloc>, before: u64) -> bool
        ensures { result ≡ (is_event self.now.run line.now && self.now.events_done == before) }
    {
        self.is_event(line) && self.events_done == before
    }

    /// Carries out a step of the script.
    fn step(&mut self, line: &ScriptLine<O::Alloc>) -> Result<(), Fault>
        requires { IsFit line.now }
        ensures ok { OnOk result (AreStepsDone O.sequential (line.now ∷ []) self.old.events_done self.new.events_done self.old.run self.new.run) }
        ensures refused { IfErr result (λ fault. fault ≡ Memory) }
    {
        let is_event = self.is_event(line);
        self.count_if_event(is_event)?;
        self.perform(line)
    }

    /// Counts the step if it is an event.
    ///
    /// Errors: `Memory` if the count exceeds a u64, which no world reaches.
    fn count_if_event(&mut self, is_event: bool) -> Result<(), Fault>
        ensures ok { OnOk result (self.new.events_done ≡ self.old.events_done + bit is_event) }
        ensures run { self.new.run ≡ self.old.run }
        ensures refused { IfErr result (λ fault. fault ≡ Memory) }
    {
        if is_event {
            self.events_done = self.events_done.checked_add(1).ok_or(Fault::Memory)?;
        }
        Ok(())
    }

    /// Carries out the request of a line.
    fn perform(&mut self, line: &ScriptLine<O::Alloc>) -> Result<(), Fault>
        requires { IsFit line.now }
        ensures ok { OnOk result (IsLineDone O.sequential line.now self.old.run self.new.run) }
        ensures done { self.new.events_done ≡ self.old.events_done }
        ensures refused { IfErr result (λ fault. fault ≡ Memory) }
    {
        let copy = copy_line(line)?;
        self.run.run_line_silently(copy)
    }

    /// Returns whether the step is an event of the script.
    ///
    /// A turn is one if it delivers a copy.
    fn is_event(&self, line: &ScriptLine<O::Alloc>) -> bool
        ensures { result ≡ is_event self.now.run line.now }
    {
        match line {
            ScriptLine::Cut(_) | ScriptLine::Heal | ScriptLine::Show => false,
            ScriptLine::Pump { turns: _ } => match self.run.first_open_copy() {
                Some(pair) => self.run.is_connected(pair.sender, pair.receiver),
                None => false,
            },
            _ => true,
        }
    }
}

fn copy_bytes<A: Allocator + Copy>(bytes: &Vec<u8, A>) -> Result<Vec<u8, A>, Fault>
    ensures ok { IfOk result (λ copy. copy.items ≡ bytes.now.items) }
    ensures refused { IfErr result (λ fault. fault ≡ Memory) }
{
    let copy = bytes.clone()?;
    Ok(copy)
}

fn copy_line<A: Allocator + Copy>(line: &ScriptLine<A>) -> Result<ScriptLine<A>, Fault>
    ensures ok { IfOk result (λ copy. IsCopyOf line.now copy) }
    ensures refused { IfErr result (λ fault. fault ≡ Memory) }
{
    match line {
        ScriptLine::Call { node, call } => {
            let call = copy_of(call)?;
            Ok(ScriptLine::Call { node: *node, call })
        }
        ScriptLine::Noise { node, bytes } => {
            let copy = copy_bytes(bytes)?;
            Ok(ScriptLine::Noise {
                node: *node,
                bytes: copy,
            })
        }
        ScriptLine::Deliver { node, frame } => Ok(ScriptLine::Deliver {
            node: *node,
            frame: *frame,
        }),
        ScriptLine::Timeout { node, kind } => Ok(ScriptLine::Timeout {
            node: *node,
            kind: *kind,
        }),
        ScriptLine::Stop { node } => Ok(ScriptLine::Stop { node: *node }),
        ScriptLine::Cut(groups) => Ok(ScriptLine::Cut(*groups)),
        ScriptLine::Heal => Ok(ScriptLine::Heal),
        ScriptLine::Pump { turns } => Ok(ScriptLine::Pump { turns: *turns }),
        ScriptLine::Show => Ok(ScriptLine::Show),
    }
}
