//! The run of a script: the requests of its lines are carried out in a world, one event after another.
//!
//! Formats: Scripts; Pump; What a script prints

ghost use Rattle.std.specs.Prelude.{◌≡◌, ◌≤◌, true, false, [], Some, None, length, drop, slice_get, IfOk, IfErr, OnOk, OnErr, IsTrue};
ghost use Rattle.std.specs.Io.KnownBytes.{Appends};
ghost use Rattle.ring_base.specs.declared.fault.Fault.TheVariants.{Memory};
ghost use Rattle.ring_world.specs.Rules.{EventFits};
ghost use Rattle.ring_world.specs.OpenCopies.{IsFirstCopyTaken};
ghost use Rattle.ring_failure.specs.Failures.{IsOutputOrMemory};
ghost use Rattle.ring_failure.specs.declared.failure.Failure.TheVariants.{Output};
ghost use Rattle.ring_script.specs.Fits.{IsFit, AreFit};
ghost use Rattle.ring_console.specs.OutputLines.{told_text};
ghost use Rattle.ring_console.specs.Running.{run_opening, is_connected, HasPrinted, UnlessOutputFailed, IsUnchanged, HasRunEvent, IsTurnDone, IsTurnInterrupted, IsCopyHandled, IsPumpDone, IsPumpInterrupted};
ghost use Rattle.ring_console.specs.Running.{IsLineEnded, AreLinesEnded, text_of, show_text};

use crate::printed_lines::{print_node, print_order, print_told};
use ring_base::{Fault, Fixed, Proc};
use ring_failure::Failure;
use ring_object::Object;
use ring_script::{Groups, Script, ScriptLine};
use ring_world::{Event, Noise, OpenCopy, Pump, World};
use std::io::Write;
use std::marker::Model;

/// A running script: the world of its nodes, the open copies of the frames that were sent, and the cut.
///
/// A copy is for a single receiver, and is open until a turn of a pump takes it. Contracts see the run as a `RunView`.
///
/// Formats: Scripts; Pump
#[derive(Drop)]
pub struct ScriptRun<O: Object> {
    pump: Pump<O>,
    /// The groups of the cut, if there is one.
    groups: Option<Groups>,
}

impl<O: Object> Model for ScriptRun<O> {
    ghost use Rattle.ring_console.specs.Running.{RunView};

    ghost Value = { RunView O.Alloc };

    ghost view = { λ r. record { world_view = r.pump.world_view; open_copies = r.pump.open_copies; groups = r.groups } };
}

impl<O: Object> ScriptRun<O> {
    /// Creates a run of these nodes, all at their opening, without a cut and without frames.
    ///
    /// Errors: `Memory` if an allocation fails.
    pub fn new(alloc: O::Alloc, nodes: Fixed) -> Result<ScriptRun<O>, Fault>
        ensures ok { IfOk result (λ run. run ≡ run_opening nodes) }
        ensures refused { IfErr result (λ fault. fault ≡ Memory) }
    {
        let world = World::new(alloc, nodes)?;
        Ok(ScriptRun {
            pump: Pump::new(world),
            groups: None,
        })
    }

    /// Returns a copy of this run.
    ///
    /// From then on the two are independent.
    ///
    /// Errors: `Memory` if an allocation fails; this run is unchanged.
    pub fn copy(&self) -> Result<ScriptRun<O>, Fault>
        ensures ok { IfOk result (λ copy. copy ≡ self.now) }
        ensures refused { IfErr result (λ fault. fault ≡ Memory) }
    {
        let pump = self.pump.copy()?;
        Ok(ScriptRun {
            pump,
            groups: self.groups,
        })
    }

    /// Returns the world of the nodes, after all events run so far.
    pub fn world(&self) -> &World<O>
        ensures { result.now ≡ self.now.world_view }
    {
        self.pump.world()
    }

    /// Carries out the requests of the lines in order, and prints their outputs on `out`.
    ///
    /// Each call in them must be within the limits of a call, as in every parsed script. `out` isn't flushed.
    ///
    /// Errors: `Output` if `out` fails; `Refused` with `Memory` if an allocation of the world itself fails. All earlier
    /// events stay done; with `Memory` they are printed, too.
    ///
    /// Formats: Scripts; Pump; What a script prints
    pub fn run_and_print_lines<W: Write>(
        &mut self,
        script: Script<O::Alloc>,
        out: &mut W,
    ) -> Result<(), Failure>
        requires { AreFit script.lines.items }
        ensures ends { UnlessOutputFailed result (HasPrinted (W.contents out.old) (W.contents out.new)
            (λ text. AreLinesEnded O.sequential result script.lines.items self.old self.new text)) }
        ensures failed { IfErr result IsOutputOrMemory }
    {
        for numbered in script.lines {
            self.run_and_print_line(numbered.line, out)?;
        }
        Ok(())
    }

    /// Carries out the request of a line, and prints its outputs.
    fn run_and_print_line<W: Write>(
        &mut self,
        line: ScriptLine<O::Alloc>,
        out: &mut W,
    ) -> Result<(), Failure>
        requires { IsFit line }
        ensures ends { UnlessOutputFailed result (IsLineEnded O.sequential result line self.old self.new) }
        ensures prints { UnlessOutputFailed result (Appends (W.contents out.old) (W.contents out.new) (text_of O.sequential line self.old.world_view self.new.world_view)) }
        ensures failed { IfErr result IsOutputOrMemory }
    {
        if let ScriptLine::Show = &line {
            return self.print_node_states(out);
        }
        let before = self.world().told().len();
        let done = self.run_line_silently(line);
        self.print_since(before, out)?;
        match done {
            Ok(()) => Ok(()),
            Err(fault) => Err(Failure::Refused(fault)),
        }
    }

    /// Prints the reports from the index `before` on.
    ///
    /// Errors: `Output` if writing fails.
    fn print_since<W: Write>(&self, before: usize, out: &mut W) -> Result<(), Failure>
        requires { before ≤ length self.now.world_view.told }
        ensures lines { OnOk result (Appends (W.contents out.old) (W.contents out.new) (told_text (drop before self.now.world_view.told))) }
        ensures failed { IfErr result (λ failure. failure ≡ Output) }
    {
        let told = self.world().told();
        print_told(out, &told[before..])
    }

    /// Carries out the request of a line, and prints nothing.
    ///
    /// The line `show` does nothing. A call must be within the limits of a call, as in every parsed script.
    ///
    /// Errors: `Memory` if an allocation of the world itself fails. Nothing is then done, except in a pump: the earlier
    /// turns are done, and the copy of the failed turn is closed and not delivered.
    ///
    /// Formats: Scripts; Pump
    pub fn run_line_silently(&mut self, line: ScriptLine<O::Alloc>) -> Result<(), Fault>
        requires { IsFit line }
        ensures ends { IsLineEnded O.sequential result line self.old self.new }
        ensures refused { IfErr result (λ fault. fault ≡ Memory) }
    {
        match line {
            ScriptLine::Call { node, call } => self.run_event(Event::Issue(node, call)),
            ScriptLine::Deliver { node, frame } => self.run_event(Event::Deliver(
                node,
                frame.unwrap_or(0),
            )),
            ScriptLine::Timeout { node, kind } => self.run_event(Event::Timeout(node, kind)),
            ScriptLine::Noise { node, bytes } => {
                self.run_event(Event::Noise(node, Noise::from_vec(bytes)))
            }
            ScriptLine::Stop { node } => self.run_event(Event::Stop(node)),
            ScriptLine::Cut(groups) => {
                self.cut(groups);
                Ok(())
            }
            ScriptLine::Heal => {
                self.heal();
                Ok(())
            }
            ScriptLine::Pump { turns } => self.pump(turns),
            ScriptLine::Show => Ok(()),
        }
    }

    /// Cuts the nodes into these groups, in place of an earlier cut.
    ///
    /// From then on, nodes of different groups don't hear each other. No copy is closed: a copy is lost to the cut only
    /// when a turn of a pump takes it. Does not allocate.
    ///
    /// Formats: Scripts; Pump
    pub fn cut(&mut self, groups: Groups)
        ensures { self.new ≡ record self.old { groups = Some groups } }
    {
        self.groups = Some(groups);
    }

    /// Removes the cut, if there is one.
    ///
    /// From then on, all nodes hear each other. Copies that the cut has lost stay closed. Does not allocate.
    ///
    /// Formats: Scripts; Pump
    pub fn heal(&mut self)
        ensures { self.new ≡ record self.old { groups = None } }
    {
        self.groups = None;
    }

    /// Runs an event on the world, and opens a copy of each frame that the event sends for each of its receivers.
    ///
    /// A call must be within the limits of a call. The cut isn't consulted.
    ///
    /// Errors: `Memory` if an allocation of the world itself fails; nothing is done. A node whose allocation fails
    /// stops, which isn't an error.
    ///
    /// Formats: Scripts; Pump
    pub fn run_event(&mut self, event: Event<O::Alloc>) -> Result<(), Fault>
        requires { EventFits event }
        ensures done { OnOk result (HasRunEvent O.sequential event self.old self.new) }
        ensures rests { OnErr result (IsUnchanged self.old self.new) }
        ensures refused { IfErr result (λ fault. fault ≡ Memory) }
    {
        self.pump.run_event(event)
    }

    /// Takes `turns` turns, or fewer if no copy is open any more.
    ///
    /// Errors: as for [`run_event`](ScriptRun::run_event).
    ///
    /// Formats: Pump
    fn pump(&mut self, turns: u32) -> Result<(), Fault>
        ensures done { OnOk result (IsPumpDone O.sequential turns self.old self.new) }
        ensures breaks { OnErr result (IsPumpInterrupted O.sequential turns self.old self.new) }
        ensures refused { IfErr result (λ fault. fault ≡ Memory) }
    {
        for _ in 0..turns {
            let Some(pair) = self.close_first_copy() else {
                return Ok(());
            };
            self.deliver_copy(pair)?;
        }
        Ok(())
    }

    /// Returns the open copy that the next turn takes, or `None` if none is open.
    ///
    /// It is a copy of the frame with the smallest number that has open copies, and of these the one for the smallest
    /// receiver. Nothing changes.
    ///
    /// Formats: Pump
    pub fn first_open_copy(&self) -> Option<OpenCopy>
        ensures { result ≡ slice_get self.now.open_copies 0 }
    {
        self.pump.first_open_copy()
    }

    /// Closes the open copy that the next turn takes, without delivering it, and returns it.
    ///
    /// Returns `None`, and changes nothing, if none is open. The world and the cut are unchanged.
    ///
    /// Formats: Pump
    pub fn close_first_copy(&mut self) -> Option<OpenCopy>
        ensures takes { IsFirstCopyTaken self.old.open_copies result self.new.open_copies }
        ensures same { self.new ≡ record self.old { open_copies = self.new.open_copies } }
    {
        self.pump.close_first_copy()
    }

    /// Delivers a closed copy to its receiver, unless the cut loses it.
    ///
    /// Errors: as for [`run_event`](ScriptRun::run_event).
    fn deliver_copy(&mut self, pair: OpenCopy) -> Result<(), Fault>
        ensures done { OnOk result (IsCopyHandled O.sequential (is_connected self.old.groups pair.sender pair.receiver) pair self.old self.new) }
        ensures rests { OnErr result (IsUnchanged self.old self.new) }
        ensures refused { IfErr result (λ fault. fault ≡ Memory) }
    {
        if !self.is_connected(pair.sender, pair.receiver) {
            return Ok(());
        }
        self.run_event(Event::Deliver(pair.receiver, pair.frame))
    }

    /// Returns whether the receiver hears the sender now: there is no cut, or the two nodes are in one group.
    ///
    /// Formats: Pump
    pub fn is_connected(&self, sender: Proc, receiver: Proc) -> bool
        ensures { result ≡ is_connected self.now.groups sender receiver }
    {
        match &self.groups {
            None => true,
            Some(groups) => groups.are_connected(sender, receiver),
        }
    }

    /// Prints the state of all nodes.
    ///
    /// Errors: `Output` if writing fails.
    fn print_node_states<W: Write>(&self, out: &mut W) -> Result<(), Failure>
        ensures prints { OnOk result (Appends (W.contents out.old) (W.contents out.new) (show_text O.sequential self.now.world_view)) }
        ensures failed { IfErr result (λ failure. failure ≡ Output) }
    {
        let world = self.world();
        for before in 0..world.fixed().count() {
            let proc = Proc::new(before + 1);
            let node = world.node(proc);
            print_node(
                out,
                proc,
                node.state(),
                node.ring(),
                node.committed_len(),
                node.log_len(),
                node.trimmed(),
            )?;
        }
        print_order(out, world.order_len())
    }
}
