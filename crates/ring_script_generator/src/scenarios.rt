//! The scenarios that generated scripts consist of.
//!
//! Formats: The command line

use crate::generated_line::GeneratedLine;
use crate::scenario::Scenario;
use crate::script_builder::ScriptBuilder;
use crate::sides::CutSides;
use ring_base::{Fault, Kind, ProcSet};
use ring_script::Vocabulary;
use std::alloc::Allocator;

impl<V: Vocabulary, A: Allocator> ScriptBuilder<V, A> {
    /// Appends the whole script after its head: an opening, random scenarios until only the lines reserved for the end
    /// are left, the end, and `show`.
    ///
    /// The counted lines are exactly those that the builder had left. If they are too few, the end, or even the opening,
    /// is cut short.
    ///
    /// Errors: `Memory` if an allocation fails. The text is then unspecified.
    ///
    /// Formats: The command line
    pub fn generate_all(&mut self) -> Result<(), Fault> {
        self.form_first_ring()?;
        self.reserve_end();
        for _ in 0..self.lines() {
            if self.unreserved_lines_left() > 0 {
                self.continue_run()?;
            }
        }
        self.release_reserve();
        self.form_last_ring()?;
        self.show()
    }

    /// All nodes look for each other.
    fn form_first_ring(&mut self) -> Result<(), Fault> {
        self.write_comment(Scenario::Open)?;
        self.time_out_all(self.nodes.everybody(), Kind::Join)?;
        self.pump_long()
    }

    /// All nodes that have not stopped form one ring.
    ///
    /// It has two lines for each of them, and five more.
    fn form_last_ring(&mut self) -> Result<(), Fault> {
        self.write_comment(Scenario::End)?;
        self.heal()?;
        self.time_out_all(self.live, Kind::Loss)?;
        self.pump_all()?;
        self.time_out_all(self.live, Kind::Consensus)?;
        self.pump_all()?;
        if let Some(node) = self.live.smallest() {
            self.time_out(node, Kind::Join)?;
        }
        self.pump_all()
    }

    /// Draws the next scenario and generates it.
    fn continue_run(&mut self) -> Result<(), Fault> {
        match self.draws.draw_below(100) {
            0..=39 => self.call_some(),
            40..=49 => self.retry_call(),
            50..=67 => self.split_or_merge(),
            68..=77 => self.interrupt_gather(),
            78..=81 => self.stop_one(),
            82..=89 => self.isolate_one(),
            90..=94 => self.deliver_old_frames(),
            _ => self.resend(),
        }
    }

    /// Clients call.
    fn call_some(&mut self) -> Result<(), Fault> {
        self.write_comment(Scenario::Calls)?;
        let many = self.draws.draw_between(1, 6);
        for _ in 0..many {
            self.call()?;
        }
        let turns = self.draws.draw_between(1, 80);
        self.pump_about(turns)
    }

    /// A client retries its last call.
    fn retry_call(&mut self) -> Result<(), Fault> {
        self.repeat_last_call()?;
        let turns = self.draws.draw_between(1, 40);
        self.pump_about(turns)
    }

    /// The cut heals; or, without one, a cut comes and each side forms a ring.
    fn split_or_merge(&mut self) -> Result<(), Fault> {
        if self.sides.is_cut() {
            self.merge()
        } else {
            self.split()
        }
    }

    /// A cut comes, and each side forms a ring.
    fn split(&mut self) -> Result<(), Fault> {
        let sides = CutSides::draw(&mut self.draws, self.nodes.everybody());
        if !sides.is_cut() {
            return self.call_some();
        }
        self.write_comment(Scenario::Split)?;
        self.set_sides(sides)?;
        self.form_all()?;
        self.call_some()
    }

    /// The cut heals, and the sides look for each other.
    fn merge(&mut self) -> Result<(), Fault> {
        self.write_comment(Scenario::Merge)?;
        self.heal()?;
        self.time_out_all(self.live, Kind::Join)?;
        self.pump_long()?;
        self.form(self.live)
    }

    /// Each side forms a ring.
    fn form_all(&mut self) -> Result<(), Fault> {
        for side in self.sides.all() {
            self.begin(side.intersection(self.live))?;
        }
        self.pump_long()?;
        for side in self.sides.all() {
            self.give_up(side.intersection(self.live))?;
        }
        self.pump_long()
    }

    /// These nodes form a ring, and give up all others.
    fn form(&mut self, nodes: ProcSet) -> Result<(), Fault> {
        self.begin(nodes)?;
        self.pump_long()?;
        self.give_up(nodes)?;
        self.pump_long()
    }

    /// One of these nodes begins to look for the others, or all do.
    fn begin(&mut self, nodes: ProcSet) -> Result<(), Fault> {
        self.time_out_some(nodes, Kind::Loss)
    }

    /// One of these nodes gives up those it does not hear, or all do.
    fn give_up(&mut self, nodes: ProcSet) -> Result<(), Fault> {
        self.time_out_some(nodes, Kind::Consensus)
    }

    /// A timeout fires at one of these nodes, or at all.
    fn time_out_some(&mut self, nodes: ProcSet, kind: Kind) -> Result<(), Fault> {
        if self.draws.draw_bool(40) {
            return self.time_out_all(nodes, kind);
        }
        match self.draws.draw_member(nodes) {
            Some(node) => self.time_out(node, kind),
            None => Ok(()),
        }
    }

    /// Rings change, and a node starts over before they have formed.
    fn interrupt_gather(&mut self) -> Result<(), Fault> {
        let Some(node) = self.draws.draw_member(self.live) else {
            return Ok(());
        };
        self.write_comment(Scenario::Interrupt { node })?;
        self.call()?;
        self.begin(self.live)?;
        self.pump_part()?;
        self.give_up(self.live)?;
        self.pump_part()?;
        self.time_out(node, Kind::Loss)?;
        self.pump_long()?;
        self.form_all()
    }

    /// Pumps for fewer turns than a ring takes to form.
    fn pump_part(&mut self) -> Result<(), Fault> {
        let most = self.node_pair_count().saturating_mul(3).saturating_add(10);
        let turns = self.draws.draw_between(1, most);
        self.add_step(GeneratedLine::Pump { turns })
    }

    /// A node stops, if the remaining ones have most votes, and the others give it up.
    fn stop_one(&mut self) -> Result<(), Fault> {
        let Some(node) = self.draws.draw_member(self.live) else {
            return Ok(());
        };
        let others = self.live.without_members(ProcSet::singleton(node));
        if !self.nodes.is_primary(others) {
            return self.call_some();
        }
        self.write_comment(Scenario::Stop { node })?;
        self.live = others;
        self.reserve_end();
        self.add_step(GeneratedLine::Stop { node })?;
        self.form_all()
    }

    /// For a moment a node hears nobody.
    fn isolate_one(&mut self) -> Result<(), Fault> {
        let everybody = self.nodes.everybody();
        let Some(node) = self.draws.draw_member(self.live) else {
            return Ok(());
        };
        let sides = CutSides::isolation(everybody, node);
        if self.sides.is_cut() || !sides.is_cut() {
            return self.call_some();
        }
        self.write_comment(Scenario::Isolate { node })?;
        self.call()?;
        self.set_sides(sides)?;
        let turns = self.draws.draw_between(1, 6);
        self.add_step(GeneratedLine::Pump { turns })?;
        self.heal()?;
        self.time_out_all(self.live, Kind::Retransmit)?;
        self.pump_about(40)
    }

    /// Old frames arrive again, and bytes that no node sent.
    fn deliver_old_frames(&mut self) -> Result<(), Fault> {
        self.write_comment(Scenario::Repeat)?;
        let many = self.draws.draw_between(1, 3);
        for _ in 0..many {
            self.repeat_one()?;
        }
        self.pump_about(20)
    }

    /// An old frame, or noise.
    fn repeat_one(&mut self) -> Result<(), Fault> {
        let Some(node) = self.draws.draw_member(self.live) else {
            return Ok(());
        };
        if self.draws.draw_bool(25) {
            let byte = self.draws.draw_below(256) as u8;
            return self.add_step(GeneratedLine::Noise { node, byte });
        }
        let frame = self.draws.draw_between(1, 200);
        self.add_step(GeneratedLine::Deliver { node, frame })
    }

    /// The nodes retransmit the tokens that they keep.
    fn resend(&mut self) -> Result<(), Fault> {
        self.write_comment(Scenario::Resend)?;
        self.time_out_all(self.live, Kind::Retransmit)?;
        self.pump_about(20)
    }
}
