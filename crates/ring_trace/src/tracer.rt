//! A running script with a report of each event.
//!
//! Formats: The command line

ghost use Rattle.std.specs.Prelude.{◌≡◌, ℕ, List, drop, Some, None, OnOk, IfOk, slice_get};
ghost use Rattle.std.specs.Io.KnownBytes.{Appends};
ghost use Rattle.ring_console.specs.Worlds.{text_of, world_of};
ghost use Rattle.ring_script.specs.Fits.{IsFit, AreFit};
ghost use Rattle.ring_console.specs.Running.{run_opening, IsLineDone, IsPumpDone, IsTurnDone, AreLinesDone};

use crate::counting::{CountedEvent, count_event};
use crate::details::{input_of_line, input_of_turn, send_values};
use crate::event_subject::{EventSubject, event_subject_of, write_event_description, write_turn};
use crate::node_view::NodeView;
use crate::places::print_places;
use crate::restoring::restored_in;
use crate::selection::{Selection, SelectionFault};
use crate::sent_calls::{are_calls_sent, write_frames};
use crate::sent_frames::{SentFrame, SentFrames, add_sent_frames};
use crate::sides::sides_of;
use ring_base::{Fault, Fixed, PROCESSORS, Proc, ProcSet, State};
use ring_console::{Failure, Groups, OpenCopy, Script, ScriptLine, ScriptRun};
use ring_counts::{CountedInput, NodeCounts, NodeGauges};
use ring_object::Object;
use ring_trace_formats::{
    Change, DeliveryKind, EventDetails, Fold, InputValue, NodeTotals, RunCounts, SendValue, Told,
    TraceFormat, TracePicture, TracePrinter, TraceVocabulary, TracedEvent, TurnValue, WaitReason,
    WaitingCall, WaitingCalls,
};
use std::alloc::Allocator;
use std::io::Write;
use std::mem;

/// A running script, and the state of its trace: what was reported so far, and the picture.
///
/// Formats: The command line
#[derive(Drop)]
pub(crate) struct Tracer<O: Object> {
    alloc: O::Alloc,
    run: ScriptRun<O>,
    printer: TracePrinter,
    trace_vocabulary: TraceVocabulary,
    trace_picture: TracePicture<O::Alloc>,
    nodes: Fixed,
    /// The sides of the cut, if there is one.
    sides: Vec<ProcSet, O::Alloc>,
    selection: Selection,
    node_views: Vec<NodeView, O::Alloc>,
    /// The counts of each node's steps.
    counts: Vec<NodeCounts, O::Alloc>,
    /// The number of places that the snapshot replaces that the current event's step restores, if it restores one.
    restored_places: Option<u64>,
    sent: SentFrames<O::Alloc>,
    waiting_calls: WaitingCalls<O::Alloc>,
    changes: Vec<Change, O::Alloc>,
    /// Whether the current event's node installed a ring in it.
    has_installed: bool,
    /// The number of the world's reports already handled.
    handled_reports: usize,
    /// The number of events so far.
    events: u64,
    fold: Fold,
    /// The description of the current event.
    event_description: String<O::Alloc>,
    /// The input of the current event, unless it is a turn.
    input: Option<InputValue>,
    /// The length of the log of the event's node, if the event changed it.
    changed_log_len: Option<u64>,
    /// The frames that the current event sent.
    ///
    /// It is empty in formats without details, as are the input and the turns.
    sends: Vec<SendValue>,
    /// The turns of the fold.
    fold_turns: Vec<TurnValue>,
}

impl<O: Object> Tracer<O> {
    /// Creates the trace of a script, with all nodes at their opening and nothing reported.
    ///
    /// Only the group of `script` is read: pass the same script to [`trace_run`](Tracer::trace_run), which carries out
    /// its lines. `printer` sets the format, `trace_vocabulary` the words for operations and replies, and `selection`
    /// the events to report. `Selection::fault_of` must find no fault in the selection; this isn't checked.
    ///
    /// Errors: `Memory` if an allocation fails.
    ///
    /// Formats: The command line
    pub fn new(
        alloc: O::Alloc,
        printer: TracePrinter,
        trace_vocabulary: TraceVocabulary,
        script: &Script<O::Alloc>,
        selection: Selection,
    ) -> Result<Tracer<O>, Fault>
        ensures { IfOk result (λ tracer. tracer.run ≡ run_opening script.now.nodes) }
    {
        let mut node_views = Vec::new(alloc);
        let mut counts = Vec::new(alloc);
        for before in 0..script.nodes.count() {
            let node = script.nodes.proc(before.saturating_add(1))?;
            node_views.push(NodeView::opening(node))?;
            counts.push(NodeCounts::new())?;
        }
        Ok(Tracer {
            alloc,
            run: ScriptRun::new(alloc, script.nodes)?,
            printer,
            trace_vocabulary,
            trace_picture: TracePicture::new(alloc, script.nodes, selection.node),
            nodes: script.nodes,
            sides: Vec::new(alloc),
            selection,
            node_views,
            counts,
            restored_places: None,
            sent: SentFrames::new(alloc),
            waiting_calls: WaitingCalls::new(alloc),
            changes: Vec::new(alloc),
            has_installed: false,
            handled_reports: 0,
            events: 0,
            fold: Fold::new(),
            event_description: String::new(alloc),
            input: None,
            changed_log_len: None,
            sends: Vec::new(printer.alloc),
            fold_turns: Vec::new(printer.alloc),
        })
    }

    /// Carries out all lines, and reports the selected events on `out`.
    ///
    /// Then prints the counts, the waiting calls and the picture, as far as the format has them. At the end it writes
    /// the frames that were sent to `frames`.
    ///
    /// Errors: `Refused` with `Memory` if an allocation fails; `Output` if `out` or `frames` fails, or if the selection
    /// begins after the last event, which is then stored in `fault`. The earlier reports are then on `out`, and perhaps
    /// a part of the next one.
    ///
    /// Formats: The command line
    pub fn trace_run<W: Write, F: Write>(
        &mut self,
        script: Script<O::Alloc>,
        out: &mut W,
        frames: &mut F,
        fault: &mut Option<SelectionFault>,
    ) -> Result<(), Failure>
        requires { AreFit script.lines.items }
        ensures runs { OnOk result ((text : List ℕ) × AreLinesDone O.sequential script.lines.items self.old.run self.new.run text) }
        ensures sends { OnOk result (Appends (F.contents frames.old) (F.contents frames.new)
            (text_of (world_of O.sequential self.new.run.world_view).frames)) }
    {
        self.printer.print_opening(out, self.nodes)?;
        self.trace_lines(script, out)?;
        self.print_fold_end(out)?;
        *fault = self.selection.fault_after_events(self.events);
        if fault.is_some() {
            return Err(Failure::Output);
        }
        self.print_end(out)?;
        write_frames(self.run.world(), frames)
    }

    /// Carries out all lines and reports their events.
    ///
    /// The run is that of the script.
    fn trace_lines<W: Write>(
        &mut self,
        script: Script<O::Alloc>,
        out: &mut W,
    ) -> Result<(), Failure>
        requires { AreFit script.lines.items }
        ensures { OnOk result ((text : List ℕ) × AreLinesDone O.sequential script.lines.items self.old.run self.new.run text) }
    {
        for numbered in script.lines {
            self.trace_line(numbered.line, out)?;
        }
        Ok(())
    }

    /// Carries out a line and reports its events.
    fn trace_line<W: Write>(
        &mut self,
        line: ScriptLine<O::Alloc>,
        out: &mut W,
    ) -> Result<(), Failure>
        requires { IsFit line }
        ensures { OnOk result (IsLineDone O.sequential line self.old.run self.new.run) }
    {
        match line {
            ScriptLine::Pump { turns } => self.pump(turns, out),
            ScriptLine::Cut(groups) => self.cut(groups, out),
            ScriptLine::Heal => self.heal(out),
            line => self.run_event(line, out),
        }
    }

    /// Cuts the nodes into these groups.
    fn cut<W: Write>(&mut self, groups: Groups, out: &mut W) -> Result<(), Failure>
        ensures { self.new.run ≡ record self.old.run { groups = Some groups } }
    {
        self.run.cut(groups);
        self.print_fold_end(out)?;
        self.sides = sides_of(self.alloc, self.run.world().fixed(), groups)?;
        if self.selection.selects_event(self.events, None) {
            self.printer.print_cut(out, self.sides.as_slice())?;
            if self.printer.format.has_picture() {
                self.trace_picture
                    .add_cut(self.events, self.sides.as_slice())?;
            }
        }
        Ok(())
    }

    /// Removes the cut.
    fn heal<W: Write>(&mut self, out: &mut W) -> Result<(), Failure>
        ensures { self.new.run ≡ record self.old.run { groups = None } }
    {
        self.run.heal();
        let is_cut = self.sides.len() > 1;
        self.sides.clear();
        self.print_fold_end(out)?;
        if self.selection.selects_event(self.events, None) {
            self.printer.print_heal(out)?;
            if self.printer.format.has_picture() {
                self.draw_heal(is_cut)?;
            }
        }
        Ok(())
    }

    /// Draws a heal: a wall if there was a cut, otherwise an empty column.
    fn draw_heal(&mut self, is_cut: bool) -> Result<(), Fault>
        ensures { self.new.run ≡ self.old.run }
    {
        if is_cut {
            self.trace_picture.add_heal(self.events)
        } else {
            self.trace_picture.begin_empty_column(self.events);
            Ok(())
        }
    }

    /// Runs the event of a line.
    fn run_event<W: Write>(
        &mut self,
        line: ScriptLine<O::Alloc>,
        out: &mut W,
    ) -> Result<(), Failure>
        requires { IsFit line }
        ensures { OnOk result (IsLineDone O.sequential line self.old.run self.new.run) }
    {
        let event_subject = event_subject_of(&line);
        let kind = self.delivery_kind_of(&event_subject);
        self.store_description(&line, kind)?;
        self.foresee_line(&event_subject)?;
        self.run.run_line_silently(line)?;
        match event_subject {
            Some(event_subject) => self.trace_event(&event_subject, out),
            None => Ok(()),
        }
    }

    /// Returns the kind of delivery of an event's frame by a line `deliver`.
    fn delivery_kind_of(&self, event_subject: &Option<EventSubject>) -> DeliveryKind {
        match event_subject {
            Some(event_subject) => {
                self.sent
                    .delivery_kind_of(event_subject.frame, event_subject.node)
            }
            None => DeliveryKind::First,
        }
    }

    /// Stores the description of a line's event, and its input if the format has details.
    fn store_description(
        &mut self,
        line: &ScriptLine<O::Alloc>,
        kind: DeliveryKind,
    ) -> Result<(), Fault>
        ensures { self.new.run ≡ self.old.run }
    {
        self.event_description.clear();
        write_event_description(
            &mut self.event_description,
            &self.trace_vocabulary,
            line,
            kind,
        )?;
        if self.printer.format.has_details() {
            self.input = input_of_line(self.printer.alloc, &self.trace_vocabulary, line, kind)?;
        }
        Ok(())
    }

    /// Takes `turns` turns, or fewer if no copy is open any more.
    fn pump<W: Write>(&mut self, turns: u32, out: &mut W) -> Result<(), Failure>
        ensures { OnOk result (IsPumpDone O.sequential turns self.old.run self.new.run) }
    {
        for _ in 0..turns {
            let Some(open_copy) = self.run.first_open_copy() else {
                return Ok(());
            };
            self.make_turn(open_copy, out)?;
        }
        Ok(())
    }

    /// Returns whether these nodes hear each other.
    fn is_connected(&self, sender: Proc, receiver: Proc) -> bool {
        self.run.is_connected(sender, receiver)
    }

    /// Finds what the step of a turn restores, before it is made.
    ///
    /// A copy that is lost makes none.
    fn foresee_turn(&mut self, receiver: Proc, number: u64, is_delivered: bool) -> Result<(), Fault>
        ensures { self.new.run ≡ self.old.run }
    {
        if is_delivered {
            self.find_restored_places(receiver, number)
        } else {
            Ok(())
        }
    }

    /// Finds what the step of a line's event restores, before it is made.
    fn foresee_line(&mut self, event_subject: &Option<EventSubject>) -> Result<(), Fault>
        ensures { self.new.run ≡ self.old.run }
    {
        self.restored_places = None;
        match event_subject {
            Some(event_subject) => match event_subject.frame {
                Some(number) => self.find_restored_places(event_subject.node, number),
                None => Ok(()),
            },
            None => Ok(()),
        }
    }

    /// Finds what the node's step on the frame of this number restores, before it is made.
    ///
    /// A node restores a snapshot only of more places than it has committed, and only if it received all pieces of it.
    /// So a node that received none isn't asked.
    fn find_restored_places(&mut self, node: Proc, number: u64) -> Result<(), Fault>
        ensures { self.new.run ≡ self.old.run }
    {
        self.restored_places = None;
        if let Some(frame) = self.offer_of(node, number) {
            self.restored_places = restored_in(self.alloc, self.run.world(), node, frame)?;
        }
        Ok(())
    }

    /// Notes how many places the frame's snapshot offers the node, if it has one.
    ///
    /// Returns the frame if the node's step on it may restore a snapshot.
    fn offer_of(&mut self, node: Proc, number: u64) -> Option<SentFrame>
        ensures { self.new.run ≡ self.old.run }
    {
        let frame = self.sent.frame(number)?;
        let node_index = usize::from(node.number()) - 1;
        let node_view = self.node_views.get_mut(node_index)?;
        if !frame.to.contains(node) {
            return None;
        }
        node_view.offered = node_view.offered.max(frame.snapshot.unwrap_or(0));
        if node_view.committed < node_view.offered {
            Some(frame)
        } else {
            None
        }
    }

    /// Makes a turn with this copy, the first that is open, and reports its effect.
    fn make_turn<W: Write>(&mut self, open_copy: OpenCopy, out: &mut W) -> Result<(), Failure>
        requires { slice_get self.now.run.open_copies 0 ≡ Some open_copy }
        ensures { OnOk result (IsTurnDone O.sequential self.old.run self.new.run) }
    {
        let is_delivered = self.is_connected(open_copy.sender, open_copy.receiver);
        self.foresee_turn(open_copy.receiver, open_copy.frame, is_delivered)?;
        self.run.run_line_silently(ScriptLine::Pump { turns: 1 })?;
        self.report_copy(open_copy, is_delivered, out)?;
        Ok(())
    }

    /// Reports the effect of a turn, in which a copy was delivered or lost.
    fn report_copy<W: Write>(
        &mut self,
        open_copy: OpenCopy,
        is_delivered: bool,
        out: &mut W,
    ) -> Result<(), Failure>
        ensures { self.new.run ≡ self.old.run }
    {
        if is_delivered {
            let event_subject = EventSubject {
                node: open_copy.receiver,
                frame: Some(open_copy.frame),
                counted: None,
                open_copy: Some(open_copy),
                call: None,
            };
            return self.trace_event(&event_subject, out);
        }
        if self
            .selection
            .selects_event(self.events, Some(open_copy.receiver))
        {
            self.fold.count_lost_copy();
            self.add_turn(open_copy, None)?;
        }
        Ok(())
    }

    /// Adds a turn to those of the fold if the format has details.
    ///
    /// `event` is the number of its event, if the copy was delivered.
    fn add_turn(&mut self, open_copy: OpenCopy, event: Option<u64>) -> Result<(), Fault>
        ensures { self.new.run ≡ self.old.run }
    {
        if !self.printer.format.has_details() {
            return Ok(());
        }
        let details = self.take_details(event.is_some());
        self.fold_turns.push(TurnValue {
            event,
            node: open_copy.receiver.number(),
            frame: open_copy.frame,
            from: open_copy.sender.number(),
            log: details.changed_log_len,
            sends: details.sent_frames,
        })?;
        Ok(())
    }

    /// Returns the details of the current event, if there is one, and clears them.
    fn take_details(&mut self, is_event: bool) -> EventDetails
        ensures { self.new.run ≡ self.old.run }
    {
        let input = mem::replace(&mut self.input, None);
        let sends = mem::replace(&mut self.sends, Vec::new(self.printer.alloc));
        EventDetails {
            input,
            changed_log_len: if is_event { self.changed_log_len } else { None },
            sent_frames: sends,
        }
    }

    /// Reports the effect of an event.
    fn trace_event<W: Write>(
        &mut self,
        event_subject: &EventSubject,
        out: &mut W,
    ) -> Result<(), Failure>
        ensures { self.new.run ≡ self.old.run }
    {
        self.begin_picture()?;
        self.events = self.events.saturating_add(1);
        if let Some(call) = &event_subject.call {
            self.waiting_calls
                .push_waiting_call(call.resubmitted_after(self.sent.count()))?;
        }
        self.note_receipt(event_subject);
        let counted_event = self.counted_event(event_subject);
        let before = self.sent.count();
        self.note_sent()?;
        self.find_changes(event_subject)?;
        let first_report = self.handled_reports;
        self.remove_answered()?;
        self.count_event(event_subject, counted_event, before, first_report);
        if !self
            .selection
            .selects_event(self.events, Some(event_subject.node))
        {
            return Ok(());
        }
        let is_quiet = self.changes.is_empty() && self.handled_reports == first_report;
        match event_subject.open_copy {
            Some(open_copy) if is_quiet => {
                self.fold.add_frame(self.events, event_subject.node);
                self.add_turn(open_copy, Some(self.events))?;
                Ok(())
            }
            _ => self.report_event(event_subject, first_report, out),
        }
    }

    /// Draws and prints an event, with the reports from the index `first_report` on.
    fn report_event<W: Write>(
        &mut self,
        event_subject: &EventSubject,
        first_report: usize,
        out: &mut W,
    ) -> Result<(), Failure>
        ensures { self.new.run ≡ self.old.run }
    {
        self.print_fold_end(out)?;
        if self.printer.format.has_picture() {
            self.draw_event(event_subject, first_report)?;
        }
        self.print_event(event_subject, first_report, out)
    }

    /// Records that the event's node received the frame.
    fn note_receipt(&mut self, event_subject: &EventSubject)
        ensures { self.new.run ≡ self.old.run }
    {
        if let Some(number) = event_subject.frame {
            self.sent.note_receipt(number, event_subject.node);
        }
    }

    /// Returns what the event's node received.
    ///
    /// It is to be called before the view of the node is renewed.
    fn counted_event(&self, event_subject: &EventSubject) -> CountedEvent {
        if event_subject.call.is_some() {
            return CountedEvent::Call;
        }
        let Some(input) = self.counted_input(event_subject) else {
            return CountedEvent::Nothing;
        };
        let node_index = usize::from(event_subject.node.number()) - 1;
        match self.node_views.get(node_index) {
            Some(node_view) if node_view.state != State::Stopped => CountedEvent::Input(input),
            _ => CountedEvent::Refused,
        }
    }

    /// Returns the input of the event's node, or `None` if a line gives a frame that wasn't sent, or not to the node.
    fn counted_input(&self, event_subject: &EventSubject) -> Option<CountedInput> {
        if event_subject.counted.is_some() {
            return event_subject.counted;
        }
        let number = event_subject.frame?;
        let frame = self.sent.frame(number)?;
        let counted = frame.counted?;
        if frame.to.contains(event_subject.node) {
            Some(CountedInput::Frame(counted))
        } else {
            None
        }
    }

    /// Counts the event, which sent the frames with numbers above `before`, with the reports from the index `first_report` on.
    fn count_event(
        &mut self,
        event_subject: &EventSubject,
        event: CountedEvent,
        before: u64,
        first_report: usize,
    )
        ensures { self.new.run ≡ self.old.run }
    {
        let node_index = usize::from(event_subject.node.number()) - 1;
        let told = told_since(self.run.world().told(), first_report);
        if let Some(counts) = self.counts.get_mut(node_index) {
            count_event(
                counts,
                event,
                self.sent.since(before),
                told,
                self.has_installed,
            );
        }
    }

    /// Records the frames that the event sent.
    fn note_sent(&mut self) -> Result<(), Fault>
        ensures { self.new.run ≡ self.old.run }
    {
        let before = self.sent.count();
        add_sent_frames(self.alloc, self.run.world(), &mut self.sent)?;
        if self.printer.format.has_details() {
            self.sends = send_values(self.printer.alloc, self.run.world(), &self.sent, before)?;
        }
        Ok(())
    }

    /// Draws the state of the run if the picture begins with the next event and that isn't the first event.
    fn begin_picture(&mut self) -> Result<(), Fault>
        ensures { self.new.run ≡ self.old.run }
    {
        let next = self.events.saturating_add(1);
        if !self.printer.format.has_picture() || next == 1 || next != self.selection.from {
            return Ok(());
        }
        self.draw_node_views(next)?;
        self.draw_waiting(next)?;
        if self.sides.is_empty() {
            Ok(())
        } else {
            self.trace_picture
                .add_cut(self.events, self.sides.as_slice())
        }
    }

    /// Draws the views of the selected nodes before this event.
    fn draw_node_views(&mut self, event: u64) -> Result<(), Fault>
        ensures { self.new.run ≡ self.old.run }
    {
        for (before, node_view) in self.node_views.iter().enumerate() {
            if before < PROCESSORS
                && self
                    .selection
                    .selects_event(event, Some(Proc::new(before as u8 + 1)))
            {
                let changes = node_view.changes(self.nodes);
                self.trace_picture
                    .add_node_view(Proc::new(before as u8 + 1), changes.as_slice())?;
            }
        }
        Ok(())
    }

    /// Draws the calls that wait at the selected nodes before this event.
    fn draw_waiting(&mut self, event: u64) -> Result<(), Fault>
        ensures { self.new.run ≡ self.old.run }
    {
        for call in self.waiting_calls.calls() {
            if self.selection.selects_event(event, Some(call.node)) {
                self.trace_picture.add_call(call, "a call that waits")?;
            }
        }
        Ok(())
    }

    /// Draws an event, with the reports from the index `first_report` on.
    fn draw_event(&mut self, event_subject: &EventSubject, first_report: usize) -> Result<(), Fault>
        ensures { self.new.run ≡ self.old.run }
    {
        let told = told_since(self.run.world().told(), first_report);
        let traced_event = TracedEvent {
            event: self.events,
            node: event_subject.node,
            description: self.event_description.as_str(),
        };
        self.trace_picture.add_event(
            &self.trace_vocabulary,
            &traced_event,
            self.changes.as_slice(),
            &event_subject.call,
            told,
        )
    }

    /// Finds the changes of the event's node, and stores the node's new view.
    fn find_changes(&mut self, event_subject: &EventSubject) -> Result<(), Fault>
        ensures { self.new.run ≡ self.old.run }
    {
        self.changes.clear();
        let node_index = usize::from(event_subject.node.number()) - 1;
        let Some(node_view) = self.node_views.get_mut(node_index) else {
            return Ok(());
        };
        let world = self.run.world();
        let node = world.node(world.fixed().proc(event_subject.node.number())?);
        let now = NodeView {
            state: node.state(),
            ring: node.ring(),
            members: node.members(),
            committed: node.committed_len(),
            trimmed: node.trimmed(),
            log: node.log_len(),
            offered: node_view.offered,
            restored: self.restored_places,
        };
        let before = mem::replace(node_view, now);
        self.has_installed = now.ring != before.ring;
        self.changed_log_len = if now.log == before.log {
            None
        } else {
            Some(now.log)
        };
        now.add_changes(&before, self.nodes, &mut self.changes)
    }

    /// Removes the calls that were answered or refused from the waiting calls.
    fn remove_answered(&mut self) -> Result<(), Fault>
        ensures { self.new.run ≡ self.old.run }
    {
        let told = self.run.world().told();
        for one in told.iter().skip(self.handled_reports) {
            match one {
                Told::Answer(node, call, _) => {
                    self.waiting_calls
                        .remove_oldest_match(WaitingCall::of(*node, call, 0))
                }
                // Only the call that was just submitted can be refused.
                Told::Refused(_, _, _) => self.waiting_calls.remove_newest(),
            }
        }
        self.handled_reports = told.len();
        Ok(())
    }

    /// Prints an event, with the reports from the index `first_report` on.
    fn print_event<W: Write>(
        &mut self,
        event_subject: &EventSubject,
        first_report: usize,
        out: &mut W,
    ) -> Result<(), Failure>
        ensures { self.new.run ≡ self.old.run }
    {
        if event_subject.open_copy.is_some() {
            self.input = input_of_turn(event_subject);
        }
        if let Some(open_copy) = event_subject.open_copy {
            self.event_description.clear();
            write_turn(&mut self.event_description, open_copy).map_err(|_| Failure::Refused(
                Fault::Memory,
            ))?;
        }
        let details = self.take_details(true);
        let traced_event = TracedEvent {
            event: self.events,
            node: event_subject.node,
            description: self.event_description.as_str(),
        };
        let told = told_since(self.run.world().told(), first_report);
        let changes = self.changes.as_slice();
        self.printer.print_event(
            out,
            &self.trace_vocabulary,
            &traced_event,
            changes,
            told,
            details,
        )
    }

    /// Prints the fold of events in which nothing changed, if it has any.
    fn print_fold_end<W: Write>(&mut self, out: &mut W) -> Result<(), Failure>
        ensures { self.new.run ≡ self.old.run }
    {
        let fold = self.fold;
        let turns = mem::replace(&mut self.fold_turns, Vec::new(self.printer.alloc));
        self.fold = Fold::new();
        if fold.is_empty() {
            return Ok(());
        }
        if self.printer.format.has_picture() {
            self.trace_picture.add_fold(&fold)?;
        }
        self.printer.print_fold(out, &fold, turns)
    }

    /// Prints what follows the events: the lines of the whole run, the picture, and the parts of a page around it.
    fn print_end<W: Write>(&self, out: &mut W) -> Result<(), Failure> {
        self.print_last_lines(out)?;
        self.printer.print_page_after_lines(out)?;
        if self.printer.format.has_picture() {
            self.trace_picture
                .print(out, self.events.min(self.selection.to))?;
        }
        self.printer.print_page_after_picture(out)
    }

    /// Prints the lines of the whole run: the counts, those of each node, the waiting calls, and for programs the
    /// committed places.
    fn print_last_lines<W: Write>(&self, out: &mut W) -> Result<(), Failure> {
        if self.printer.format == TraceFormat::Svg {
            return Ok(());
        }
        let counts = RunCounts {
            events: self.events,
            frames: self.sent.count(),
        };
        self.printer.print_run_counts(out, counts)?;
        self.print_node_counts(out)?;
        self.print_waiting(out)?;
        if self.printer.format.has_details() {
            print_places(
                self.alloc,
                self.printer,
                &self.trace_vocabulary,
                self.run.world(),
                out,
            )?;
        }
        Ok(())
    }

    /// Prints the counts of each node.
    fn print_node_counts<W: Write>(&self, out: &mut W) -> Result<(), Failure> {
        let world = self.run.world();
        for (before, counts) in self.counts.iter().enumerate() {
            if before < PROCESSORS {
                let node = world.fixed().proc(before as u8 + 1)?;
                let node_state = world.node(node);
                let gauges = NodeGauges {
                    waiting: node_state.waiting() as u64,
                    committed: node_state.committed_len(),
                    dropped: node_state.trimmed(),
                };
                self.printer.print_node_counts(
                    out,
                    &NodeTotals {
                        node,
                        counts: *counts,
                        gauges,
                    },
                )?;
            }
        }
        Ok(())
    }

    /// Prints the waiting calls, and why they wait.
    fn print_waiting<W: Write>(&self, out: &mut W) -> Result<(), Failure> {
        let calls = self.waiting_calls.calls();
        if calls.is_empty() {
            return Ok(());
        }
        let are_sent = are_calls_sent(self.alloc, self.run.world(), calls)?;
        for (place, (waiting, is_sent)) in calls.iter().zip(are_sent.iter()).enumerate() {
            let is_logged = self.is_logged(waiting.node, calls.get(..place).unwrap_or(&[]))?;
            let why = self.reason(waiting.node, *is_sent, is_logged);
            self.printer.print_waiting(out, waiting, &why)?;
        }
        Ok(())
    }

    /// Returns whether a waiting call is in the log of its node, if the node is alone in its ring.
    ///
    /// `before` are the waiting calls submitted earlier. The uncommitted places of such a node are its own calls, in
    /// the order of submission.
    fn is_logged(&self, node: Proc, before: &[WaitingCall]) -> Result<bool, Fault> {
        let world = self.run.world();
        let node_state = world.node(world.fixed().proc(node.number())?);
        let open = node_state
            .log_len()
            .saturating_sub(node_state.committed_len());
        let mut many = 0u64;
        for waiting in before {
            if waiting.node == node {
                many = many.saturating_add(1);
            }
        }
        Ok(many < open)
    }

    /// Returns the reason why a call waits at a node.
    ///
    /// `is_sent` says whether the node has sent it, and `is_logged` whether it is in the log of a node that is alone in
    /// its ring.
    fn reason(&self, node: Proc, is_sent: bool, is_logged: bool) -> WaitReason {
        let node_index = usize::from(node.number()) - 1;
        match self.node_views.get(node_index) {
            Some(node_view) => node_view.wait_reason(
                self.nodes,
                is_sent || (node_view.is_alone() && is_logged),
            ),
            None => WaitReason::NotSent,
        }
    }
}

/// Returns the reports from the index `before` on.
fn told_since<A: Allocator + Copy>(told: &[Told<A>], before: usize) -> &[Told<A>]
    ensures { result.now ≡ drop before told.now }
{
    match told.get(before..) {
        Some(behind) => behind,
        None => &[],
    }
}
