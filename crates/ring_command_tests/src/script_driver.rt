//! Drives nodes with records through the events of a script, and prints their output as the script prints it.
//! Formats: Records; What a script prints

use crate::recorded_node::RecordedNode;
use crate::records::{Record, first_number, first_record};
use ring_base::{Fault, Fixed, Kind, MAX_PROCESSORS, Proc, ProcSet};
use ring_object::Object;
use ring_sweep::{Groups, Script, ScriptLine};
use std::alloc::Allocator;

/// A sent frame: its sender, its receivers, and its bytes.
#[derive(Drop)]
struct CarriedFrame<A: Allocator + Copy + Drop> {
    from: Proc,
    to: ProcSet,
    bytes: Vec<u8, A>,
}

/// A copy of a frame: the frame's index among all sent ones, and its receiver.
#[derive(Clone, Copy)]
struct FramesInTransit {
    frame: usize,
    to: Proc,
}

/// The nodes of a script, the frames they sent, all copies of these with the number of those delivered or lost, the cut, and
/// the printed text.
#[derive(Drop)]
pub(crate) struct ScriptNodes<O: Object> {
    alloc: O::Alloc,
    pub(crate) nodes: Vec<RecordedNode<O>, O::Alloc>,
    sent: Vec<CarriedFrame<O::Alloc>, O::Alloc>,
    copies: Vec<FramesInTransit, O::Alloc>,
    delivered_copies: usize,
    cut: Option<Groups>,
    pub(crate) printed: String<O::Alloc>,
}

impl<O: Object> ScriptNodes<O> {
    /// Creates the nodes, at their opening.
    pub(crate) fn new(alloc: O::Alloc, fixed: Fixed) -> Result<ScriptNodes<O>, Fault> {
        let mut nodes = Vec::new(alloc);
        for before in 0..fixed.count() {
            nodes.push(RecordedNode::new(alloc, fixed, before + 1)?)?;
        }
        Ok(ScriptNodes {
            alloc,
            nodes,
            sent: Vec::new(alloc),
            copies: Vec::new(alloc),
            delivered_copies: 0,
            cut: None,
            printed: String::new(alloc),
        })
    }

    /// Runs the events of the lines.
    pub(crate) fn take(&mut self, script: Script<O::Alloc>) -> Result<(), Fault> {
        for numbered in script.lines {
            self.perform(numbered.line)?;
        }
        Ok(())
    }

    /// Runs the event of a line.
    fn perform(&mut self, line: ScriptLine<O::Alloc>) -> Result<(), Fault> {
        match line {
            ScriptLine::Call { node, call } => {
                let mut bytes = Vec::from_slice(self.alloc, &call.client.to_be_bytes())?;
                bytes.extend_from_slice(&call.number.to_be_bytes())?;
                bytes.extend_from_slice(call.op.as_slice())?;
                self.hand_record(node, b'C', bytes.as_slice())
            }
            ScriptLine::Deliver { node, frame } => match frame {
                Some(number) => self.deliver((number as usize).saturating_sub(1), node),
                None => Ok(()),
            },
            ScriptLine::Timeout { node, kind } => self.hand_record(node, b'T', &[number_of(kind)]),
            ScriptLine::Noise { node, bytes } => self.hand_record(node, b'F', bytes.as_slice()),
            ScriptLine::Stop { node } => self.hand_record(node, b'S', &[]),
            ScriptLine::Cut(groups) => {
                self.cut = Some(groups);
                Ok(())
            }
            ScriptLine::Heal => {
                self.cut = None;
                Ok(())
            }
            ScriptLine::Pump { turns } => self.pump(turns),
            ScriptLine::Show => self.show(),
        }
    }

    /// Delivers this number of copies, or loses them at the cut; fewer if there are no more.
    fn pump(&mut self, turns: u32) -> Result<(), Fault> {
        for _ in 0..turns {
            let Some(FramesInTransit { frame, to }) = self
                .copies
                .get(self.delivered_copies)
                .copied()
            else {
                return Ok(());
            };
            self.delivered_copies = self.delivered_copies.saturating_add(1);
            let is_heard = match (&self.cut, self.sent.get(frame)) {
                (Some(groups), Some(sent)) => groups.are_connected(sent.from, to),
                _ => true,
            };
            if is_heard {
                self.deliver(frame, to)?;
            }
        }
        Ok(())
    }

    /// Delivers a frame to one of its receivers.
    fn deliver(&mut self, frame: usize, to: Proc) -> Result<(), Fault> {
        let Some(sent) = self.sent.get(frame) else {
            return Ok(());
        };
        if !sent.to.contains(to) {
            return Ok(());
        }
        let bytes = Vec::from_slice(self.alloc, sent.bytes.as_slice())?;
        self.hand_record(to, b'F', bytes.as_slice())
    }

    /// Queries the status of each node.
    fn show(&mut self) -> Result<(), Fault> {
        for before in 0..self.nodes.len().min(16) {
            self.hand_record(Proc::new(before as u8 + 1), b'Q', &[])?;
        }
        Ok(())
    }

    /// Asks each node for its counts.
    pub(crate) fn count(&mut self) -> Result<(), Fault> {
        for before in 0..self.nodes.len().min(16) {
            self.hand_record(Proc::new(before as u8 + 1), b'I', &[])?;
        }
        Ok(())
    }

    /// Hands a record to a node, and processes its output.
    fn hand_record(&mut self, node: Proc, kind: u8, bytes: &[u8]) -> Result<(), Fault> {
        let Some(recorded_node) = self
            .nodes
            .get_mut(usize::from(node.number()).saturating_sub(1))
        else {
            return Err(Fault::NotMember);
        };
        let told = recorded_node.ask(kind, bytes)?;
        let asked = Record { kind, bytes };
        let mut rest = told.as_slice();
        for _ in 0..told.len() {
            let Some((record, behind)) = first_record(rest) else {
                return Ok(());
            };
            self.handle_output(node, asked, record)?;
            rest = behind;
        }
        Ok(())
    }

    /// Processes one output record of a node.
    fn handle_output(
        &mut self,
        node: Proc,
        asked: Record<'_>,
        told: Record<'_>,
    ) -> Result<(), Fault> {
        match told.kind {
            b'F' => self.send(node, told.bytes),
            b'T' => self.note_call(node, asked.bytes),
            b'X' => self.print_refusal(node, asked, told.bytes),
            b'D' => self.print_reply(node, "done", told.bytes),
            b'K' => self.print_reply(node, "kept", told.bytes),
            b'R' => self.print_no_effect(node, told.bytes),
            b'Q' => self.print_status(node, told.bytes),
            b'I' => self.print_counts(node, told.bytes),
            _ => Ok(()),
        }
    }

    /// Adds a frame that a node sends, and its copies.
    fn send(&mut self, from: Proc, bytes: &[u8]) -> Result<(), Fault> {
        let (bits, frame) = first_number(bytes, 2);
        let Ok(bits) = u16::try_from(bits) else {
            return Err(Fault::BadFrame);
        };
        let to = ProcSet::from_bits(bits);
        let bytes = Vec::from_slice(self.alloc, frame)?;
        let place = self.sent.len();
        self.sent.push(CarriedFrame { from, to, bytes })?;
        for before in 0..MAX_PROCESSORS {
            let receiver = Proc::new(before + 1);
            if to.contains(receiver) {
                self.copies.push(FramesInTransit {
                    frame: place,
                    to: receiver,
                })?;
            }
        }
        Ok(())
    }

    /// Keeps the call that got the next ticket of a node.
    fn note_call(&mut self, node: Proc, bytes: &[u8]) -> Result<(), Fault> {
        let (client, behind) = first_number(bytes, 4);
        let (number, _) = first_number(behind, 8);
        match self
            .nodes
            .get_mut(usize::from(node.number()).saturating_sub(1))
        {
            Some(recorded_node) => Ok(recorded_node.calls.push((client, number))?),
            None => Err(Fault::NotMember),
        }
    }

    /// Returns the client and number of the call of a ticket.
    fn call_of(&self, node: Proc, ticket: u64) -> Result<(u64, u64), Fault> {
        match self.nodes.get(usize::from(node.number()).saturating_sub(1)) {
            Some(recorded_node) => recorded_node
                .calls
                .get(ticket as usize)
                .copied()
                .ok_or(Fault::Stranger),
            None => Err(Fault::NotMember),
        }
    }

    /// Prints a call's refusal. Refusals of other inputs aren't printed.
    fn print_refusal(&mut self, node: Proc, asked: Record<'_>, bytes: &[u8]) -> Result<(), Fault> {
        if asked.kind != b'C' {
            return Ok(());
        }
        let (client, behind) = first_number(asked.bytes, 4);
        let (number, _) = first_number(behind, 8);
        let (reason, _) = first_number(bytes, 1);
        writeln!(self.printed, "refused {node} {client}.{number} {reason}")?;
        Ok(())
    }

    /// Prints the reply to a ticket's call.
    fn print_reply(&mut self, node: Proc, word: &str, bytes: &[u8]) -> Result<(), Fault> {
        let (ticket, reply) = first_number(bytes, 8);
        let (client, number) = self.call_of(node, ticket)?;
        write!(self.printed, "reply {node} {client}.{number} {word} ")?;
        for byte in reply {
            write!(self.printed, "{byte:02x}")?;
        }
        writeln!(self.printed)?;
        Ok(())
    }

    /// Prints that a ticket's call takes no effect.
    fn print_no_effect(&mut self, node: Proc, bytes: &[u8]) -> Result<(), Fault> {
        let (ticket, behind) = first_number(bytes, 8);
        let (client, number) = self.call_of(node, ticket)?;
        let (reason, _) = first_number(behind, 1);
        writeln!(
            self.printed,
            "reply {node} {client}.{number} refused {reason}"
        )?;
        Ok(())
    }

    /// Prints the counts of a node, as the last lines of a trace have them.
    fn print_counts(&mut self, node: Proc, bytes: &[u8]) -> Result<(), Fault> {
        let mut numbers = [0; 20];
        let mut rest = bytes;
        for place in 0..20 {
            let (number, behind) = first_number(rest, 8);
            numbers[place] = number;
            rest = behind;
        }
        write!(self.printed, "node {node} in: ")?;
        print_frames(&mut self.printed, &numbers[..4])?;
        write!(self.printed, "; out: ")?;
        print_frames(&mut self.printed, &numbers[5..9])?;
        write!(
            self.printed,
            "; tokens taken {}; again: messages {}, tokens {}; rings {}",
            numbers[9], numbers[11], numbers[12], numbers[13]
        )?;
        writeln!(
            self.printed,
            "; calls waiting {}; committed {}, dropped {}",
            numbers[17], numbers[18], numbers[19]
        )?;
        Ok(())
    }

    /// Prints the status of a node.
    fn print_status(&mut self, node: Proc, bytes: &[u8]) -> Result<(), Fault> {
        let (state, behind) = first_number(bytes, 1);
        let (seq, behind) = first_number(behind, 8);
        let (rep, behind) = first_number(behind, 1);
        let (committed, behind) = first_number(behind, 8);
        let (log, behind) = first_number(behind, 8);
        let (trimmed, _) = first_number(behind, 8);
        let word = match state {
            0 => "gather",
            1 => "commit",
            2 => "recovery",
            3 => "operational",
            _ => "stopped",
        };
        write!(
            self.printed,
            "node {node} {word} {seq}.{rep} committed {committed} log {log}"
        )?;
        if trimmed > 0 {
            write!(self.printed, " trimmed {trimmed}")?;
        }
        writeln!(self.printed)?;
        Ok(())
    }
}

/// Returns the number of a timeout in a record.
fn number_of(kind: Kind) -> u8 {
    match kind {
        Kind::Retransmit => 0,
        Kind::Join => 1,
        Kind::Consensus => 2,
        Kind::Loss => 3,
    }
}

/// The kinds of frames, each with what comes before it in a list.
const KINDS: [&str; 4] = ["messages", ", tokens", ", joins", ", commit tokens"];

/// Prints the numbers of frames of each kind.
fn print_frames<A: Allocator + Copy>(out: &mut String<A>, numbers: &[u64]) -> Result<(), Fault> {
    for (kind, number) in KINDS.iter().zip(numbers.iter()) {
        write!(out, "{kind} {number}")?;
    }
    Ok(())
}
