//! A builder for the text of a generated script.

ghost use Rattle.std.specs.Prelude.{◌<◌};

use crate::draws::RandomDraws;
use crate::generated_line::GeneratedLine;
use crate::operation::Operation;
use crate::scenario::Scenario;
use crate::sides::CutSides;
use ring_base::{Fault, Fixed, Kind, Proc, ProcSet};
use ring_script::Vocabulary;
use std::alloc::Allocator;
use std::fmt::Write;
use std::marker::PhantomData;

/// A client: its name, its node, the number of its calls, and its last operation.
#[derive(Clone, Copy)]
struct Client {
    name: u32,
    home: Proc,
    number: u32,
    last: Operation,
}

/// A generated script under construction: its text so far, and the state of its nodes and clients after these lines.
///
/// `V` is the vocabulary of the calls' operations.
#[derive(Drop)]
pub(crate) struct ScriptBuilder<V: Vocabulary, A: Allocator> {
    /// The draws that decide the script.
    pub draws: RandomDraws,
    /// The nodes of the script, with their votes.
    pub nodes: Fixed,
    /// The operations that clients call.
    vocabulary: PhantomData<V>,
    /// The nodes that have not stopped.
    pub live: ProcSet,
    /// The sides of the current cut.
    ///
    /// Without a cut all nodes are on one side.
    pub sides: CutSides,
    /// The clients that call now.
    clients: [Client; 4],
    /// The number of clients so far.
    client_count: u32,
    /// The number of lines still to come.
    lines_left: u32,
    /// The number of these that are reserved for the end.
    lines_reserved: u32,
    text: String<A>,
}

impl<V: Vocabulary, A: Allocator> ScriptBuilder<V, A> {
    /// Creates a builder for a script with `lines` lines between this head, which has `nodes` and `votes`, and its
    /// `show`.
    ///
    /// No line is reserved for the end.
    pub fn new(head: String<A>, nodes: Fixed, seed: u64, lines: u32) -> ScriptBuilder<V, A> {
        let live = nodes.everybody();
        let nobody = Client {
            name: 0,
            home: Proc::new(1),
            number: 0,
            last: Operation::first(),
        };
        ScriptBuilder {
            draws: RandomDraws::new(seed),
            nodes,
            vocabulary: PhantomData,
            live,
            sides: CutSides::joined(live),
            clients: [nobody; 4],
            client_count: 0,
            lines_left: lines,
            lines_reserved: 0,
            text: head,
        }
    }

    /// Reserves the lines that the end takes: two for each node that has not stopped, and five more.
    ///
    /// It replaces an earlier reservation. If fewer lines are left, no unreserved line is left.
    pub fn reserve_end(&mut self) {
        self.lines_reserved = self.live.len().saturating_mul(2).saturating_add(5);
    }

    /// Releases the lines that are reserved for the end, so that the end may use them.
    ///
    /// All lines that are left are then unreserved.
    pub fn release_reserve(&mut self) {
        self.lines_reserved = 0;
    }

    /// Returns the number of lines that are left before `show`, including the reserved ones.
    pub fn lines(&self) -> u32 {
        self.lines_left
    }

    /// Returns the number of lines that are left and aren't reserved for the end.
    pub fn unreserved_lines_left(&self) -> u32 {
        self.lines_left.saturating_sub(self.lines_reserved)
    }

    /// Returns the text built so far.
    pub fn into_text(self) -> String<A> {
        self.text
    }

    /// Appends a comment that says what the next lines are for.
    ///
    /// It isn't one of the counted lines. If no unreserved line is left, nothing is appended.
    ///
    /// Errors: `Memory` if an allocation fails; a part of the comment may then have been appended.
    ///
    /// Formats: Scripts
    pub fn write_comment(&mut self, scenario: Scenario) -> Result<(), Fault> {
        if self.unreserved_lines_left() > 0 {
            writeln!(&mut self.text, "{scenario}")?;
        }
        Ok(())
    }

    /// Appends a line with this request, and uses up one of the lines that are left.
    ///
    /// If no unreserved line is left, nothing is appended.
    ///
    /// Errors: `Memory` if an allocation fails; the line is then used up, and a part of it may have been appended.
    ///
    /// Formats: Scripts
    pub fn add_step(&mut self, step: GeneratedLine) -> Result<(), Fault> {
        if self.take_line() {
            writeln!(&mut self.text, "{step}")?;
        }
        Ok(())
    }

    /// Uses one of the lines still to come.
    ///
    /// Returns whether there was one.
    fn take_line(&mut self) -> bool {
        if self.unreserved_lines_left() == 0 {
            return false;
        }
        self.lines_left = self.lines_left.saturating_sub(1);
        true
    }

    /// Appends `show`, the last line, which isn't one of the counted lines.
    ///
    /// Errors: `Memory` if an allocation fails; a part of the text may then have been appended.
    ///
    /// Formats: Scripts
    pub fn show(&mut self) -> Result<(), Fault> {
        Ok(self.text.push_str("show\n")?)
    }

    /// Appends a timeout of this kind at the node, as [`add_step`](ScriptBuilder::add_step) does.
    ///
    /// It uses up one of the lines that are left. If no unreserved line is left, nothing is appended.
    ///
    /// Errors: as for [`add_step`](ScriptBuilder::add_step).
    ///
    /// Formats: Scripts
    pub fn time_out(&mut self, node: Proc, kind: Kind) -> Result<(), Fault> {
        self.add_step(GeneratedLine::Timeout { node, kind })
    }

    /// Appends a timeout of this kind at each of these nodes, in ascending order.
    ///
    /// Each uses up one of the lines that are left. Once no unreserved line is left, the remaining nodes get none.
    ///
    /// Errors: `Memory` if an allocation fails; some of the lines, and a part of the next one, may then have been
    /// appended.
    ///
    /// Formats: Scripts
    pub fn time_out_all(&mut self, nodes: ProcSet, kind: Kind) -> Result<(), Fault> {
        for node in nodes.iter() {
            self.time_out(node, kind)?;
        }
        Ok(())
    }

    /// Appends a pump whose number of turns is drawn from `turns` / 2 + 1 to `turns` more than that, both included.
    ///
    /// It uses up one of the lines that are left. If no unreserved line is left, nothing is appended, but the number is
    /// still drawn.
    ///
    /// Errors: as for [`add_step`](ScriptBuilder::add_step).
    ///
    /// Formats: Scripts
    pub fn pump_about(&mut self, turns: u32) -> Result<(), Fault> {
        let least = turns / 2 + 1;
        let turns = self.draws.draw_between(least, least.saturating_add(turns));
        self.add_step(GeneratedLine::Pump { turns })
    }

    /// Appends a pump that is usually long enough for a ring to form, as [`pump_about`](ScriptBuilder::pump_about) does
    /// with 8 turns for each ordered pair of nodes and 40 more.
    ///
    /// While a ring forms, joins go to all nodes, and all answer them.
    ///
    /// Errors: as for [`add_step`](ScriptBuilder::add_step).
    ///
    /// Formats: Scripts
    pub fn pump_long(&mut self) -> Result<(), Fault> {
        self.pump_about(self.node_pair_count().saturating_mul(8).saturating_add(40))
    }

    /// Returns the number of ordered pairs of nodes, including those of a node with itself: N * N.
    ///
    /// Stopped nodes are counted.
    pub fn node_pair_count(&self) -> u32 {
        let count = u32::from(self.nodes.count());
        count.saturating_mul(count)
    }

    /// Cuts the nodes into these sides, and appends the line `cut` as [`add_step`](ScriptBuilder::add_step) does.
    ///
    /// At least two of the sides must have nodes; this isn't checked. If no unreserved line is left, nothing is
    /// appended, but the nodes are still cut.
    ///
    /// Errors: `Memory` if an allocation fails; the nodes are cut, and a part of the line may have been appended.
    ///
    /// Formats: Scripts
    pub fn set_sides(&mut self, sides: CutSides) -> Result<(), Fault> {
        let cut = sides.copied();
        self.sides = sides;
        self.add_step(GeneratedLine::Cut(cut))
    }

    /// Removes the cut, if there is one, and appends the line `heal` as [`add_step`](ScriptBuilder::add_step) does.
    ///
    /// The line is appended even if there was no cut. If no unreserved line is left, nothing is appended, but the cut
    /// is still removed.
    ///
    /// Errors: `Memory` if an allocation fails; the cut is removed, and a part of the line may have been appended.
    ///
    /// Formats: Scripts
    pub fn heal(&mut self) -> Result<(), Fault> {
        self.sides = CutSides::joined(self.nodes.everybody());
        self.add_step(GeneratedLine::Heal)
    }

    /// Appends a pump of 16 turns for each ordered pair of nodes, and 80 more, as [`add_step`](ScriptBuilder::add_step)
    /// does.
    ///
    /// That is usually enough for all sent frames to arrive and for rings to form; this isn't checked.
    ///
    /// Errors: as for [`add_step`](ScriptBuilder::add_step).
    ///
    /// Formats: Scripts
    pub fn pump_all(&mut self) -> Result<(), Fault> {
        let turns = self.node_pair_count().saturating_mul(16).saturating_add(80);
        self.add_step(GeneratedLine::Pump { turns })
    }

    /// Appends the next call of one of the four clients, at the client's node, with a drawn operation.
    ///
    /// The client is replaced by a new one, at any node that has not stopped, if it has not called yet or its node has
    /// stopped, and in 4 of 100 other cases. The call uses up one of the lines that are left. If no unreserved line is
    /// left, nothing is appended, but the client counts the call.
    ///
    /// Errors: as for [`add_step`](ScriptBuilder::add_step); the client counts the call.
    ///
    /// Formats: Scripts
    pub fn call(&mut self) -> Result<(), Fault> {
        let place = self.draws.draw_below(4);
        let last = Operation::draw(V::forms().len(), &mut self.draws);
        let client = self.next_caller(place);
        let (name, home) = (client.name, client.home);
        let number = client.number.saturating_add(1);
        self.clients[place as usize] = Client {
            name,
            home,
            number,
            last,
        };
        let client = self.clients[place as usize];
        self.submit(client, home)
    }

    /// Returns the client at the index `place`, or a new client in its stead, which calls next.
    ///
    /// `place` must be below 4.
    fn next_caller(&mut self, place: u32) -> Client
        requires { place < 4 }
    {
        let client = self.clients[place as usize];
        let is_to_stay = self.draws.draw_bool(96);
        if is_to_stay && client.number > 0 && self.live.contains(client.home) {
            return client;
        }
        self.next_client(client)
    }

    /// Returns a new client that replaces `before`, at any live node.
    fn next_client(&mut self, before: Client) -> Client {
        let home = self.draws.draw_member(self.live).unwrap_or(before.home);
        self.client_count = self.client_count.saturating_add(1);
        Client {
            name: self.client_count,
            home,
            number: 0,
            last: before.last,
        }
    }

    /// Adds the client's last call, submitted at this node.
    fn submit(&mut self, client: Client, node: Proc) -> Result<(), Fault> {
        if self.take_line() {
            let (name, number) = (client.name, client.number);
            write!(&mut self.text, "call {node} {name} {number} ")?;
            client.last.write(V::forms(), &mut self.text)?;
            self.text.push_str("\n")?;
        }
        Ok(())
    }

    /// Appends the last call of one of the four clients again, at any node that has not stopped, with a comment.
    ///
    /// It uses up one of the lines that are left. If the client has not called yet, or if no unreserved line is left,
    /// nothing is appended.
    ///
    /// Errors: `Memory` if an allocation fails; a part of the text may then have been appended.
    ///
    /// Formats: Scripts
    pub fn repeat_last_call(&mut self) -> Result<(), Fault> {
        let place = self.draws.draw_below(4);
        let client = self.clients[place as usize];
        let node = self.draws.draw_member(self.live).unwrap_or(client.home);
        if client.number == 0 {
            return Ok(());
        }
        self.write_comment(Scenario::Retry {
            client: client.name,
            node,
        })?;
        self.submit(client, node)
    }
}
