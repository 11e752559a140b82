//! A node that takes records.
//!
//! Rules: Nodes that records drive 1 to 4, 7 and 8; Refusals 4 and 6

ghost use Rattle.std.specs.Prelude.{◌≡◌, ◌≤◌, false, None, Some, ℕ, List, length, drop, ◌++◌, IsTrue, IsOk, OnOk, OnErr, IfOk, IfErr};
ghost use Rattle.std.specs.Io.KnownBytes.{Appends};
ghost use Rattle.ring_base.specs.Group.{IsInGroup};
ghost use Rattle.ring_failure.specs.declared.failure.Failure.TheVariants.{Output};
ghost use Rattle.ring_timers.specs.Periods.{default_periods};
ghost use Rattle.ring_node_spec.specs.NodeLimits.{InputFits};
ghost use Rattle.ring_node_spec.specs.Stepping.{node_step};
ghost use Rattle.ring_node.specs.Restores.{node_restored};
ghost use Rattle.ring_clock.specs.StepOutcomes.{installs};
ghost use Rattle.ring_records.specs.NodeRecords.{answers_text, restored_text, all_committed_text, ticket_record, refusal_record};
ghost use Rattle.ring_records.specs.declared.token_outcome.TokenOutcome.TheVariants.{NoToken};
ghost use Rattle.ring_record_node.specs.NodeOutputs.{record_node_opening, sends_text, is_idle, has_brought, end_text, timed_end_of, told_membership, members_text, status_text, gauges_of, counts_text};
ghost use Rattle.ring_records.specs.declared.record_requests.RecordRequest.{RecordRequest};
ghost use Rattle.ring_record_node.specs.RecordNodes.{IsStepNoted, IsSubmission, Steps, IsStoppedForMemory, IsReceived, IsSubmitted, TimesOut, IsTimeBrought};
ghost use Rattle.ring_record_node.specs.RecordNodes.{IsRequestDone, IsRecordTaken, IsNoRequest, IsOpeningRefused, HasWrittenUnlessFailed, HasWritten};

use crate::encoded::{EncodedStep, write_encoded};
use crate::encoding_node::EncodingNode;
use crate::frame_inputs::input_of;
use ring_base::{Fault, Fixed, Kind, State};
use ring_clock::{
    NodeClock, Periods, has_sent_frame, is_token_or_commit_token, step_outcome, timeout_in,
};
use ring_counts::{CountedInput, NodeCounts, NodeGauges};
use ring_failure::Failure;
use ring_node::Input;
use ring_object::Object;
use ring_records::{
    Membership, RecordRequest, TimedEnd, TokenOutcome, operation_in, record_request, write_counts,
    write_end, write_members, write_refusal, write_status_record, write_ticket,
};
use ring_session::Ticket;
use std::io::{self, Write};
use std::marker::Model;

/// A node that takes records, and writes the output records of each at once.
///
/// It keeps a clock from the first record of time on, and counts its steps, its calls and their refusals.
///
/// Rules: Nodes that records drive 1, 7 and 8
#[derive(Drop)]
pub struct RecordNode<O: Object> {
    group: Fixed,
    node: EncodingNode<O>,
    clock: NodeClock,
    counts: NodeCounts,
}

impl<O: Object> Model for RecordNode<O> {
    ghost use Rattle.ring_record_node.specs.NodeOutputs.{RecordNodeView};

    ghost Value = { RecordNodeView O.Alloc };

    ghost view = { λ r. record { group = r.group; node = r.node; clock = r.clock; counts = r.counts } };
}

impl<O: Object> RecordNode<O> {
    /// Creates the node of processor `me` of the group `fixed`, at its opening, with the default periods.
    ///
    /// It has no time yet, and all its counts are 0.
    ///
    /// Errors, in this order: `NotMember` unless `me` is 1 to N; `Memory` if an allocation fails.
    ///
    /// Rules: Nodes that records drive 1 and 7
    pub fn new(alloc: O::Alloc, fixed: Fixed, me: u8) -> Result<RecordNode<O>, Fault>
        ensures ok { IfOk result (λ record_node. record_node ≡ record_node_opening fixed me default_periods) }
        ensures member { OnOk result (IsInGroup fixed me) }
        ensures refused { IfErr result (IsOpeningRefused (IsInGroup fixed me)) }
    {
        RecordNode::with_periods(alloc, fixed, me, Periods::default())
    }

    /// Creates the node of processor `me` of the group `fixed`, at its opening, with these periods of its timeouts.
    ///
    /// It has no time yet, and all its counts are 0. The periods count only once a record brings the time.
    ///
    /// Errors, in this order: `NotMember` unless `me` is 1 to N; `Memory` if an allocation fails.
    ///
    /// Rules: Nodes that records drive 1 and 7
    pub fn with_periods(
        alloc: O::Alloc,
        fixed: Fixed,
        me: u8,
        periods: Periods,
    ) -> Result<RecordNode<O>, Fault>
        ensures ok { IfOk result (λ record_node. record_node ≡ record_node_opening fixed me periods) }
        ensures member { OnOk result (IsInGroup fixed me) }
        ensures refused { IfErr result (IsOpeningRefused (IsInGroup fixed me)) }
    {
        let node = EncodingNode::new(alloc, fixed, me)?;
        Ok(RecordNode {
            group: fixed,
            node,
            clock: NodeClock::new(periods),
            counts: NodeCounts::new(),
        })
    }

    /// Takes the record of this kind and these bytes: carries out its request, and writes the node's output to `out`.
    ///
    /// Returns whether the record is a request. If it isn't, nothing is done and nothing is written.
    ///
    /// What the node itself refuses is written to `out` and isn't an error. If an allocation fails in a step, the node
    /// has stopped for good, and `Memory` is written instead of the step's outputs. `out` isn't flushed.
    ///
    /// Errors: `Output` if `out` fails. The request is carried out all the same, and a part of the output may be
    /// missing.
    ///
    /// Rules: Nodes that records drive 1 to 4, 7 and 8
    pub fn take<W: Write>(&mut self, kind: u8, bytes: &[u8], out: &mut W) -> Result<bool, Failure>
        ensures taken { IfOk result (λ is_taken. IsTrue is_taken
            → HasWritten (W.contents out.old) (W.contents out.new) (IsRecordTaken O.sequential self.old kind bytes.now self.new)) }
        ensures left { IfOk result (λ is_taken. is_taken ≡ false → IsNoRequest kind bytes.now × (self.new ≡ self.old) × (out.new ≡ out.old)) }
        ensures failed { IfErr result (λ failure. failure ≡ Output) }
        ensures done { OnErr result ((text : List ℕ) × IsRecordTaken O.sequential self.old kind bytes.now self.new text) }
    {
        let Some(asked) = record_request(kind, bytes) else {
            return Ok(false);
        };
        match self.handle_request(asked, bytes, out) {
            Ok(()) => Ok(true),
            Err(_) => Err(Failure::Output),
        }
    }

    /// Carries out the request, and writes the node's output.
    fn handle_request<W: Write>(
        &mut self,
        asked: RecordRequest,
        bytes: &[u8],
        out: &mut W,
    ) -> io::Result<()>
        requires { (client number : ℕ) → asked ≡ RecordRequest.Call client number → 12 ≤ length bytes.now }
        ensures { HasWrittenUnlessFailed result (W.contents out.old) (W.contents out.new) (IsRequestDone O.sequential self.old bytes.now asked self.new) }
    {
        match asked {
            RecordRequest::Frame => self.receive_frame(bytes, out),
            RecordRequest::Timeout(kind) => self.step_and_write(Input::Timeout(kind), out),
            RecordRequest::Call { client, number } => {
                self.submit_call(client, number, operation_in(bytes), out)
            }
            RecordRequest::Stop => self.step_and_write(Input::Stop, out),
            RecordRequest::Status => self.write_status(out),
            RecordRequest::Counts => self.write_counts(out),
            RecordRequest::Time(now) => self.bring_time(now, out),
        }
    }

    /// Handles a frame that arrived, or bytes that are none.
    fn receive_frame<W: Write>(&mut self, bytes: &[u8], out: &mut W) -> io::Result<()>
        ensures { HasWrittenUnlessFailed result (W.contents out.old) (W.contents out.new) (IsReceived O.sequential self.old bytes.now self.new) }
    {
        match input_of(self.node.alloc(), bytes) {
            Some(input) => self.step_and_write(input, out),
            None => self.stop_without_memory(out),
        }
    }

    /// Makes a step, and writes its outputs or its refusal, and the end.
    fn step_and_write<W: Write>(&mut self, input: Input<O::Alloc>, out: &mut W) -> io::Result<()>
        requires { InputFits input }
        ensures { HasWrittenUnlessFailed result (W.contents out.old) (W.contents out.new) (Steps O.sequential self.old input self.new) }
    {
        let is_token = is_token_or_commit_token(&input);
        match self.step(input) {
            Ok(encoded) => {
                let is_taken = has_sent_frame(encoded.outs.sends.as_slice());
                self.write_step_and_end(&encoded, TokenOutcome::new(is_token, is_taken), out)
            }
            Err(fault) => self.write_refusal_and_end(
                fault,
                TokenOutcome::new(is_token, false),
                out,
            ),
        }
    }

    /// Makes a step of the node, encodes its frames, and notes it at the clock and in the counts.
    ///
    /// The counts note a refusal, too.
    ///
    /// Errors: `Stopped` if the node has stopped; `Memory` if an allocation fails. The node has then stopped, and the
    /// step's outputs are lost.
    fn step(&mut self, input: Input<O::Alloc>) -> Result<EncodedStep<O::Alloc>, Fault>
        requires { InputFits input }
        ensures acts { OnOk result (IsStepNoted O.sequential self.old input None self.new) }
        ensures refused { IfErr result (λ fault. IsStepNoted O.sequential self.old input (Some fault) self.new) }
        ensures sends { IfOk result (λ encoded. encoded.outs.sends.items ≡ (node_step O.sequential self.old.node input).sends) }
        ensures answers { IfOk result (λ encoded. encoded.outs.answers.items ≡ (node_step O.sequential self.old.node input).answers) }
        ensures restored { IfOk result (λ encoded. encoded.outs.restored ≡ node_restored self.old.node (node_step O.sequential self.old.node input).node) }
        ensures committed { IfOk result (λ encoded. encoded.outs.committed.items ≡ (node_step O.sequential self.old.node input).committed) }
        ensures records { IfOk result (λ encoded. encoded.records.items ≡ sends_text (node_step O.sequential self.old.node input).sends) }
        ensures installed { IfOk result (λ encoded. encoded.has_installed ≡ installs self.old.node.core self.new.node.core) }
    {
        let timeout = timeout_in(&input);
        let is_token = is_token_or_commit_token(&input);
        let counted = CountedInput::of(&input);
        match self.node.step(input) {
            Ok(encoded) => {
                let sends = encoded.outs.sends.as_slice();
                let answers = encoded.outs.answers.len() as u64;
                self.clock.note_step(step_outcome(timeout, is_token, sends));
                self.counts
                    .note_step(counted, sends, answers, encoded.has_installed);
                Ok(encoded)
            }
            Err(fault) => {
                self.counts.note_refusal();
                Err(fault)
            }
        }
    }

    /// Stops the node, since memory for a frame that arrived was refused, and writes that.
    fn stop_without_memory<W: Write>(&mut self, out: &mut W) -> io::Result<()>
        ensures { HasWrittenUnlessFailed result (W.contents out.old) (W.contents out.new) (IsStoppedForMemory O.sequential self.old self.new) }
    {
        let fault = self.node.stop_node();
        self.counts.note_refusal();
        self.write_refusal_and_end(fault, TokenOutcome::NoToken, out)
    }

    /// Handles a client's call.
    fn submit_call<W: Write>(
        &mut self,
        client: u32,
        number: u64,
        operation: &[u8],
        out: &mut W,
    ) -> io::Result<()>
        ensures { HasWrittenUnlessFailed result (W.contents out.old) (W.contents out.new)
            (IsSubmitted O.sequential self.old client number operation.now self.new) }
    {
        match self.node.submit(client, number, operation) {
            Ok(ticket) => {
                self.counts.note_submit();
                self.write_ticket_and_end(ticket, out)
            }
            Err(fault) => {
                self.counts.note_refusal();
                self.write_refusal_and_end(fault, TokenOutcome::NoToken, out)
            }
        }
    }

    /// Brings a time: makes a step on each timeout that is due at it, in order, and writes the outputs of all and the
    /// end. Where the output fails, the remaining steps are made nevertheless.
    fn bring_time<W: Write>(&mut self, now: u64, out: &mut W) -> io::Result<()>
        ensures { HasWrittenUnlessFailed result (W.contents out.old) (W.contents out.new) (IsTimeBrought O.sequential now self.old self.new) }
    {
        let mut written = Ok(());
        while let Some(kind) = self.clock.next_due(now) {
            written = self.time_out(kind, written, out);
        }
        self.write_end_after(written, out)
    }

    /// Makes a step on a timeout, and writes its outputs or its refusal, unless writing what came before failed.
    fn time_out<W: Write>(
        &mut self,
        kind: Kind,
        written: io::Result<()>,
        out: &mut W,
    ) -> io::Result<()>
        ensures timed { HasWrittenUnlessFailed result (W.contents out.old) (W.contents out.new) (TimesOut O.sequential kind self.old self.new) }
        ensures before { OnOk result (IsOk written) }
    {
        match self.step(Input::Timeout(kind)) {
            Ok(encoded) => {
                written?;
                self.write_step(&encoded, out)
            }
            Err(fault) => {
                written?;
                write_refusal(fault, out)
            }
        }
    }

    /// Writes the end of the outputs, unless writing what came before failed.
    fn write_end_after<W: Write>(&self, written: io::Result<()>, out: &mut W) -> io::Result<()>
        ensures ended { OnOk result (Appends (W.contents out.old) (W.contents out.new) (end_text self.now NoToken false)) }
        ensures before { OnOk result (IsOk written) }
    {
        written?;
        self.write_end(TokenOutcome::NoToken, false, out)
    }

    /// Writes the node's status and the end of the outputs.
    fn write_status<W: Write>(&self, out: &mut W) -> io::Result<()>
        ensures { OnOk result (Appends (W.contents out.old) (W.contents out.new) (status_text self.now ++ end_text self.now NoToken false)) }
    {
        let node = self.node.node();
        write_status_record(
            node.state(),
            node.ring(),
            node.committed_len(),
            node.log_len(),
            node.trimmed(),
            self.told_membership(),
            out,
        )?;
        self.write_end(TokenOutcome::NoToken, false, out)
    }

    /// Writes the node's counts and the end of the outputs.
    fn write_counts<W: Write>(&self, out: &mut W) -> io::Result<()>
        ensures { OnOk result (Appends (W.contents out.old) (W.contents out.new) (counts_text self.now ++ end_text self.now NoToken false)) }
    {
        write_counts(&self.counts.numbers(self.gauges()), out)?;
        self.write_end(TokenOutcome::NoToken, false, out)
    }

    /// Returns what is read of the node beside its counts.
    fn gauges(&self) -> NodeGauges
        ensures { result ≡ gauges_of self.now.node }
    {
        let node = self.node.node();
        NodeGauges {
            waiting: node.waiting() as u64,
            committed: node.committed_len(),
            dropped: node.trimmed(),
        }
    }

    /// Writes the ticket of a call and the end of the outputs.
    fn write_ticket_and_end<W: Write>(&self, ticket: Ticket, out: &mut W) -> io::Result<()>
        ensures { OnOk result (Appends (W.contents out.old) (W.contents out.new) (ticket_record ticket ++ end_text self.now NoToken false)) }
    {
        write_ticket(ticket, out)?;
        self.write_end(TokenOutcome::NoToken, false, out)
    }

    /// Writes the outputs of a step and their end.
    fn write_step_and_end<W: Write>(
        &self,
        encoded: &EncodedStep<O::Alloc>,
        token: TokenOutcome,
        out: &mut W,
    ) -> io::Result<()>
        ensures { OnOk result (Appends (W.contents out.old) (W.contents out.new)
            (((encoded.now.records.items ++ answers_text encoded.now.outs.answers.items ++ restored_text encoded.now.outs.restored
            ++ all_committed_text encoded.now.outs.committed.items)
            ++ members_text encoded.now.has_installed self.now.node.core.installed.ring (told_membership self.now))
            ++ end_text self.now token (has_brought token self.now.node encoded.now.outs.sends.items encoded.now.outs.answers.items
            encoded.now.outs.restored encoded.now.outs.committed.items encoded.now.has_installed))) }
    {
        self.write_step(encoded, out)?;
        let has_brought = self.has_brought(token, encoded);
        self.write_end(token, has_brought, out)
    }

    /// Writes the outputs of a step, and the ring that it installed.
    fn write_step<W: Write>(&self, encoded: &EncodedStep<O::Alloc>, out: &mut W) -> io::Result<()>
        ensures { OnOk result (Appends (W.contents out.old) (W.contents out.new)
            ((encoded.now.records.items ++ answers_text encoded.now.outs.answers.items ++ restored_text encoded.now.outs.restored
            ++ all_committed_text encoded.now.outs.committed.items)
            ++ members_text encoded.now.has_installed self.now.node.core.installed.ring (told_membership self.now))) }
    {
        write_encoded(encoded, out)?;
        self.write_installed(encoded.has_installed, out)
    }

    /// Writes the installed ring with its members if a step installed it and the node has a clock.
    fn write_installed<W: Write>(&self, has_installed: bool, out: &mut W) -> io::Result<()>
        ensures { OnOk result (Appends (W.contents out.old) (W.contents out.new)
            (members_text has_installed self.now.node.core.installed.ring (told_membership self.now))) }
    {
        if !has_installed {
            return Ok(());
        }
        match self.told_membership() {
            Some(members) => write_members(self.node.node().ring(), members, out),
            None => Ok(()),
        }
    }

    /// Writes why an input was refused and the end of the outputs.
    fn write_refusal_and_end<W: Write>(
        &self,
        fault: Fault,
        token: TokenOutcome,
        out: &mut W,
    ) -> io::Result<()>
        ensures { OnOk result (Appends (W.contents out.old) (W.contents out.new) (refusal_record fault ++ end_text self.now token false)) }
    {
        write_refusal(fault, out)?;
        self.write_end(token, false, out)
    }

    /// Writes the end of an input's outputs.
    fn write_end<W: Write>(
        &self,
        token: TokenOutcome,
        has_brought: bool,
        out: &mut W,
    ) -> io::Result<()>
        ensures { OnOk result (Appends (W.contents out.old) (W.contents out.new) (end_text self.now token has_brought)) }
    {
        write_end(
            self.node.node().state(),
            token,
            self.timed_end(has_brought),
            out,
        )
    }

    /// Returns what a node with a clock adds to the end.
    fn timed_end(&self, has_brought: bool) -> Option<TimedEnd>
        ensures { result ≡ timed_end_of self.now has_brought }
    {
        let next_time = self.clock.next_time()?;
        Some(TimedEnd {
            has_progressed: has_brought,
            next_time,
        })
    }

    /// Returns the members of the last installed ring, or `None` if no time was brought.
    fn told_membership(&self) -> Option<Membership>
        ensures { result ≡ told_membership self.now }
    {
        let _ = self.clock.next_time()?;
        let members = self.node.node().members();
        Some(Membership {
            members,
            is_primary: self.group.is_primary(members),
        })
    }

    /// Returns whether a token brought anything: the node took it, and the step didn't leave the node idle.
    fn has_brought(&self, token: TokenOutcome, encoded: &EncodedStep<O::Alloc>) -> bool
        ensures { result ≡ has_brought token self.now.node encoded.now.outs.sends.items encoded.now.outs.answers.items encoded.now.outs.restored
            encoded.now.outs.committed.items encoded.now.has_installed }
    {
        match token {
            TokenOutcome::Taken => !self.is_idle(encoded),
            TokenOutcome::NoToken | TokenOutcome::Ignored => false,
        }
    }

    /// Returns whether a step gave one frame at most and nothing else, and left the node with its ring installed and
    /// all of its log committed.
    fn is_idle(&self, encoded: &EncodedStep<O::Alloc>) -> bool
        ensures { result ≡ is_idle self.now.node encoded.now.outs.sends.items encoded.now.outs.answers.items encoded.now.outs.restored
            encoded.now.outs.committed.items encoded.now.has_installed }
    {
        let node = self.node.node();
        let outs = &encoded.outs;
        outs.sends.len() <= 1
            && outs.answers.is_empty()
            && outs.restored.is_none()
            && outs.committed.is_empty()
            && !encoded.has_installed
            && node.state() == State::Operational
            && node.log_len() == node.committed_len()
    }
}
