//! The marks that a trace puts into a picture.
//!
//! Formats: The command line

ghost use Rattle.std.specs.Prelude.{◌≡◌, IfErr, OnOk, OnErr, fold, flat_map, map};
ghost use Rattle.ring_base.specs.declared.fault.Fault.TheVariants.{Memory};
ghost use Rattle.ring_trace_picture.specs.declared.mark.PictureMark.TheVariants.{Heal, Lost, Rounds, LaneColour as ShadeMark};
ghost use Rattle.ring_trace_picture.specs.PictureModels.{opening_picture, column_begun, mark_added};
ghost use Rattle.ring_trace_picture.specs.TracePictures.{submit_mark, change_marks, outcome_mark, event_marks};
ghost use Rattle.ring_trace_picture.specs.PictureTexts.{HasPicture};
ghost use Rattle.ring_failure.specs.Failures.{IsOutputOrMemory};

use crate::bands::set_text_width;
use crate::call_arcs::ArcEnd;
use crate::mark::{LaneColour, PictureMark};
use crate::picture::Picture;
use ring_base::{Fault, Fixed, Proc, ProcSet, State};
use ring_failure::Failure;
use ring_session::Answer;
use ring_trace_words::{Change, Fold, Told, ToldWords, TraceVocabulary, TracedEvent, WaitingCall};
use std::alloc::Allocator;
use std::io::{ErrorKind, Write};

/// A picture of a trace under construction, which turns the trace's reports into marks.
///
/// Formats: The command line
#[derive(Drop)]
pub struct TracePicture<A: Allocator> {
    alloc: A,
    picture: Picture<A>,
}

impl<A: Allocator + Copy> TracePicture<A> {
    /// Creates the picture of these nodes at their opening, with a lane for each, or only for `only` if that is given.
    ///
    /// Does not allocate.
    ///
    /// Formats: The command line
    pub fn new(alloc: A, nodes: Fixed, only: Option<Proc>) -> TracePicture<A>
        ensures { result.picture ≡ opening_picture nodes only }
    {
        TracePicture {
            alloc,
            picture: Picture::new(alloc, nodes, only),
        }
    }

    /// Draws changes of a node into the last column, in order.
    ///
    /// If a picture begins later than the run, these are the changes since the node's opening.
    ///
    /// Errors: `Memory` if an allocation fails; a part may then have been drawn.
    ///
    /// Formats: The command line
    pub fn add_node_view(&mut self, node: Proc, standing: &[Change]) -> Result<(), Fault>
        ensures ok { OnOk result (self.new.picture ≡ fold mark_added self.old.picture (flat_map (change_marks node) standing.now)) }
        ensures refused { IfErr result (λ fault. fault ≡ Memory) }
    {
        for change in standing {
            self.add_change(node, change)?;
        }
        Ok(())
    }

    /// Draws a call into the last column: it is submitted there, or waits there at the beginning of the picture.
    ///
    /// `what` is the text shown for it until it is answered.
    ///
    /// Errors: `Memory` if an allocation fails; the call's arc may then have been begun, without its mark.
    ///
    /// Formats: The command line
    pub fn add_call(&mut self, call: &WaitingCall, what: &str) -> Result<(), Fault>
        ensures ok { OnOk result (self.new.picture ≡ mark_added self.old.picture (submit_mark call.now)) }
        ensures err { OnErr result (self.new.picture ≡ self.old.picture) }
        ensures refused { IfErr result (λ fault. fault ≡ Memory) }
    {
        self.picture.begin_arc(call, what)?;
        self.picture.add_mark(PictureMark::Submit {
            node: call.node,
            client: call.client,
            number: call.number,
        })
    }

    /// Draws an event into a column of its own.
    ///
    /// The column has the event's number, the call that it submits, its changes to the node, and the node's reports, in
    /// the words of the object. The event's description is the text shown for the call until it is answered.
    ///
    /// Errors: `Memory` if an allocation fails; a part may then have been drawn.
    ///
    /// Formats: The command line
    pub fn add_event(
        &mut self,
        trace_vocabulary: &TraceVocabulary,
        traced_event: &TracedEvent<'_>,
        changes: &[Change],
        submitted: &Option<WaitingCall>,
        told: &[Told<A>],
    ) -> Result<(), Fault>
        ensures ok { OnOk result (self.new.picture ≡
            fold mark_added (column_begun self.old.picture traced_event.now.event)
            (event_marks traced_event.now.event traced_event.now.node submitted.now changes.now told.now)) }
        ensures refused { IfErr result (λ fault. fault ≡ Memory) }
    {
        self.picture.begin_column(traced_event.event);
        self.picture
            .add_mark(PictureMark::Event(traced_event.event))?;
        if let Some(call) = submitted {
            self.add_call(call, traced_event.description)?;
        }
        self.add_node_view(traced_event.node, changes)?;
        self.add_outcomes(trace_vocabulary, told)
    }

    /// Draws a node's reports on calls.
    ///
    /// Errors: `Memory` if an allocation fails.
    fn add_outcomes(
        &mut self,
        trace_vocabulary: &TraceVocabulary,
        told: &[Told<A>],
    ) -> Result<(), Fault>
        ensures ok { OnOk result (self.new.picture ≡ fold mark_added self.old.picture (map outcome_mark told.now)) }
        ensures refused { IfErr result (λ fault. fault ≡ Memory) }
    {
        for one in told {
            self.add_outcome(trace_vocabulary, one)?;
        }
        Ok(())
    }

    /// Draws a change of a node.
    fn add_change(&mut self, node: Proc, change: &Change) -> Result<(), Fault>
        ensures ok { OnOk result (self.new.picture ≡ fold mark_added self.old.picture (change_marks node change.now)) }
        ensures refused { IfErr result (λ fault. fault ≡ Memory) }
    {
        match change {
            Change::State(state) => self.mark_lane_colour(node, LaneColour::State(*state)),
            Change::Ring {
                ring,
                members,
                share,
            } => {
                let colour = if share.is_primary {
                    LaneColour::State(State::Operational)
                } else {
                    LaneColour::Minority
                };
                self.mark_lane_colour(node, colour)?;
                self.picture.add_mark(PictureMark::Ring {
                    node,
                    ring: *ring,
                    members: *members,
                })
            }
            Change::Committed(length) => self.picture.add_mark(PictureMark::Committed {
                node,
                length: *length,
            }),
            Change::Trimmed(0) => Ok(()),
            Change::Trimmed(_) | Change::Restored(_) => self
                .picture
                .add_mark(PictureMark::Trimmed(node)),
        }
    }

    /// Gives the node's lane this colour from the last column on.
    fn mark_lane_colour(&mut self, node: Proc, colour: LaneColour) -> Result<(), Fault>
        ensures ok { OnOk result (self.new.picture ≡ mark_added self.old.picture (ShadeMark node colour)) }
        ensures refused { IfErr result (λ fault. fault ≡ Memory) }
    {
        let mark = PictureMark::LaneColour { node, colour };
        self.picture.add_mark(mark)
    }

    /// Draws a node's report on a call, which no longer waits.
    fn add_outcome(
        &mut self,
        trace_vocabulary: &TraceVocabulary,
        told: &Told<A>,
    ) -> Result<(), Fault>
        ensures ok { OnOk result (self.new.picture ≡ mark_added self.old.picture (outcome_mark told.now)) }
        ensures refused { IfErr result (λ fault. fault ≡ Memory) }
    {
        let words = ToldWords {
            trace_vocabulary,
            told,
        };
        let title = format!(in self.alloc; "{words}")?;
        self.picture
            .end_arc(reported_call(told), arc_end_of(told), title);
        match told {
            Told::Answer(node, call, _) => self.picture.add_mark(PictureMark::Answer {
                node: *node,
                client: call.client,
                number: call.number,
            }),
            Told::Refused(node, call, _) => self.picture.add_mark(PictureMark::Answer {
                node: *node,
                client: call.client,
                number: call.number,
            }),
        }
    }

    /// Draws a fold into one column: events that deliver frames and change nothing that a trace shows, with the copies
    /// lost between them.
    ///
    /// Errors: `Memory` if an allocation fails; a part may then have been drawn.
    ///
    /// Formats: The command line
    pub fn add_fold(&mut self, fold: &Fold) -> Result<(), Fault>
        ensures ok { OnOk result (self.new.picture ≡
            mark_added (mark_added (column_begun self.old.picture fold.now.first) (Rounds fold.now.rounds)) (Lost fold.now.lost)) }
        ensures refused { IfErr result (λ fault. fault ≡ Memory) }
    {
        self.picture.begin_column(fold.first);
        self.picture.add_mark(PictureMark::Rounds(fold.rounds))?;
        self.picture.add_mark(PictureMark::Lost(fold.lost))
    }

    /// Draws a cut into these groups into a column of its own.
    ///
    /// `events` is the number of events before it. The column of a cut into a single group stays empty, as does that of
    /// a heal without a cut.
    ///
    /// Errors: `Memory` if an allocation fails; a part may then have been drawn.
    ///
    /// Formats: The command line
    pub fn add_cut(&mut self, events: u64, groups: &[ProcSet]) -> Result<(), Fault>
        ensures { IfErr result (λ fault. fault ≡ Memory) }
    {
        self.picture.begin_column(events);
        if groups.len() < 2 {
            return Ok(());
        }
        self.picture.add_mark(PictureMark::Cut)?;
        let mut before = 0u64;
        for group in groups {
            self.picture.add_mark(PictureMark::Side {
                members: *group,
                before,
            })?;
            before = before.saturating_add(set_text_width(*group));
        }
        Ok(())
    }

    /// Draws into a column of its own that a cut has healed.
    ///
    /// `events` is the number of events before it.
    ///
    /// Errors: `Memory` if an allocation fails; the column is begun and stays empty.
    ///
    /// Formats: The command line
    pub fn add_heal(&mut self, events: u64) -> Result<(), Fault>
        ensures ok { OnOk result (self.new.picture ≡ mark_added (column_begun self.old.picture events) Heal) }
        ensures refused { IfErr result (λ fault. fault ≡ Memory) }
    {
        self.picture.begin_column(events);
        self.picture.add_mark(PictureMark::Heal)
    }

    /// Begins an empty column.
    ///
    /// `events` is the number of events before it. Does not allocate.
    ///
    /// Formats: The command line
    pub fn begin_empty_column(&mut self, events: u64)
        ensures { self.new.picture ≡ column_begun self.old.picture events }
    {
        self.picture.begin_column(events);
    }

    /// Writes the picture as SVG: one element `svg`, and a line feed.
    ///
    /// `last` is the number of the last requested event.
    ///
    /// Errors: `Output` if `out` fails; `Refused` with `Memory` if it fails because an allocation failed. How much has
    /// been written is then unspecified.
    ///
    /// Formats: The command line
    pub fn print<W: Write>(&self, out: &mut W, last: u64) -> Result<(), Failure>
        ensures printed { OnOk result (HasPicture self.now.picture (W.contents out.old) (W.contents out.new)) }
        ensures failed { IfErr result IsOutputOrMemory }
    {
        match self.picture.write(out, last) {
            Ok(()) => Ok(()),
            Err(error) if error.kind() == ErrorKind::OutOfMemory => {
                Err(Failure::Refused(Fault::Memory))
            }
            Err(_) => Err(Failure::Output),
        }
    }
}

/// Returns the node and the call of a report.
fn reported_call<A: Allocator + Copy>(told: &Told<A>) -> (Proc, u32, u64) {
    match told {
        Told::Answer(node, call, _) => (*node, call.client, call.number),
        Told::Refused(node, call, _) => (*node, call.client, call.number),
    }
}

/// Returns the end of the arc of a call with this report.
fn arc_end_of<A: Allocator + Copy>(told: &Told<A>) -> ArcEnd {
    match told {
        Told::Answer(_, _, Answer::Done(_)) => ArcEnd::Done,
        Told::Answer(_, _, Answer::Kept(_)) => ArcEnd::Kept,
        Told::Answer(_, _, Answer::Refused(_)) => ArcEnd::Refused,
        Told::Refused(_, _, _) => ArcEnd::Refused,
    }
}
