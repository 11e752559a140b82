//! A single seed: its script is generated, run and checked.
//!
//! Formats: The command line

ghost use Rattle.std.specs.Prelude.{◌≡◌, ℕ, ◌+◌, ◌↔◌, Bool, List, Ok, OnOk, IfOk, IfErr, IsTrue, length, count_by};
ghost use Rattle.ring_base.specs.declared.fault.Fault.TheVariants.{Memory};
ghost use Rattle.ring_script.specs.Fits.{IsFit, AreFit};
ghost use Rattle.ring_script.specs.Scripts.{script_by, schedule_by};
ghost use Rattle.ring_script_generator.specs.Generated.{IsGeneratedBy, IsNotGenerated};
ghost use Rattle.ring_console.specs.Running.{run_opening, is_connected, IsCopyHandled, IsLineDone, IsPumpDone, AreLinesDone, IsLegal};
ghost use Rattle.ring_explore.specs.Explored.{AreTried, illegal_of, is_answer};
ghost use Rattle.ring_explore.specs.Tried.{IsTried};

use crate::explore_totals::ExploreTotals;
use ring_base::{Fault, Fixed, PROCESSORS, Proc, RingId};
use ring_console::{
    Event, OpenCopy, Script, ScriptFault, ScriptLine, ScriptRun, Told, Vocabulary, World, is_legal,
};
use ring_object::Object;
use ring_script_generator::generate_script_by;
use std::alloc::{Allocator, Global};

/// Generates the script of a seed with `lines` lines before its `show`, runs it, and checks whether its run is legal.
///
/// Returns the totals over this one seed.
///
/// Errors: `NotMember` unless there are 1 to 16 votes, each at least 1. `BadScript` if the generated text isn't such a
/// script. `Memory` if an allocation for the script or for the run itself fails.
///
/// Rules: Sessions 10
/// Formats: The command line
pub(crate) fn try_seed<O: Object<Alloc = Global>, V: Vocabulary>(
    alloc: Global,
    votes: &[u8],
    seed: u64,
    lines: u32,
) -> Result<ExploreTotals, Fault>
    ensures ok { IfOk result (λ seed_totals. AreTried (IsTried O.sequential V.forms votes.now lines) seed (seed + 1) seed_totals.illegal) }
    ensures refused { IfErr result (IsNotGenerated votes.now) }
{
    let text = generate_script_by::<V, Global>(alloc, votes, seed, lines)?;
    match Script::parse_by::<V>(alloc, text.as_bytes()) {
        Ok(script) => try_script::<O, V>(alloc, script, seed),
        Err(ScriptFault::Memory) => Err(Fault::Memory),
        Err(ScriptFault::AtLine(_)) => Err(Fault::BadScript),
    }
}

/// Runs the script of a seed, and checks its run.
///
/// Errors: `Memory` if an allocation fails.
fn try_script<O: Object<Alloc = Global>, V: Vocabulary>(
    alloc: Global,
    script: Script,
    seed: u64,
) -> Result<ExploreTotals, Fault>
    requires { AreFit script.lines.items }
    ensures ok { IfOk result (λ seed_totals. (made votes : List ℕ) (lines : ℕ) → script_by V.forms made ≡ Ok (schedule_by script)
        → IsGeneratedBy V.forms votes lines made → AreTried (IsTried O.sequential V.forms votes lines) seed (seed + 1) seed_totals.illegal) }
    ensures refused { IfErr result (λ fault. fault ≡ Memory) }
{
    let mut seed_run = SeedRun::<O>::new(alloc, script.nodes)?;
    let seed_totals = run_and_check_script::<O, V>(alloc, &mut seed_run, script, seed);
    // Dropped explicitly, so it is dropped in a function generic over its type, and doesn't live until the exits.
    drop(seed_run);
    seed_totals
}

/// Carries out a script in a run at its opening, and checks the run.
///
/// Errors: `Memory` if an allocation fails.
fn run_and_check_script<O: Object<Alloc = Global>, V: Vocabulary>(
    alloc: Global,
    seed_run: &mut SeedRun<O>,
    script: Script,
    seed: u64,
) -> Result<ExploreTotals, Fault>
    requires fit { AreFit script.lines.items }
    requires opening { seed_run.old.run ≡ run_opening script.nodes }
    ensures ok { IfOk result (λ seed_totals. (made votes : List ℕ) (lines : ℕ) → script_by V.forms made ≡ Ok (schedule_by script)
        → IsGeneratedBy V.forms votes lines made → AreTried (IsTried O.sequential V.forms votes lines) seed (seed + 1) seed_totals.illegal) }
    ensures refused { IfErr result (λ fault. fault ≡ Memory) }
{
    seed_run.run_script_lines(script)?;
    seed_run.seed_totals(alloc, seed)
}

/// The run of a seed's script, and the counts taken during it.
#[derive(Drop)]
struct SeedRun<O: Object> {
    run: ScriptRun<O>,
    calls: u64,
    /// The installed rings, each once.
    rings: Vec<RingId, O::Alloc>,
    /// The ring that each node had when it was last checked, at first one that is never installed.
    last: [RingId; PROCESSORS],
}

impl<O: Object> SeedRun<O> {
    /// Creates a run with all nodes at their opening.
    ///
    /// Errors: `Memory` if an allocation fails.
    fn new(alloc: O::Alloc, nodes: Fixed) -> Result<SeedRun<O>, Fault>
        ensures ok { IfOk result (λ seed_run. seed_run.run ≡ run_opening nodes) }
        ensures refused { IfErr result (λ fault. fault ≡ Memory) }
    {
        let none = RingId {
            seq: 0,
            rep: Proc::new(1),
        };
        Ok(SeedRun {
            run: ScriptRun::new(alloc, nodes)?,
            calls: 0,
            rings: Vec::new(alloc),
            last: [none; PROCESSORS],
        })
    }

    /// Carries out the requests of all lines.
    ///
    /// Errors: `Memory` if an allocation fails.
    fn run_script_lines(&mut self, script: Script<O::Alloc>) -> Result<(), Fault>
        requires { AreFit script.lines.items }
        ensures ok { OnOk result ((text : List ℕ) × AreLinesDone O.sequential script.lines.items self.old.run self.new.run text) }
        ensures refused { IfErr result (λ fault. fault ≡ Memory) }
    {
        for numbered in script.lines {
            self.take_line(numbered.line)?;
        }
        Ok(())
    }

    /// Carries out the request of a line, a pump turn by turn.
    ///
    /// Errors: `Memory` if an allocation fails.
    fn take_line(&mut self, line: ScriptLine<O::Alloc>) -> Result<(), Fault>
        requires { IsFit line }
        ensures ok { OnOk result (IsLineDone O.sequential line self.old.run self.new.run) }
        ensures refused { IfErr result (λ fault. fault ≡ Memory) }
    {
        if let ScriptLine::Pump { turns } = &line {
            return self.pump(*turns);
        }
        self.count(&line);
        let node = node_of(&line);
        self.run.run_line_silently(line)?;
        match node {
            Some(node) => self.note_installed_ring(node),
            None => Ok(()),
        }
    }

    /// Counts the line if it is a call.
    fn count(&mut self, line: &ScriptLine<O::Alloc>)
        ensures { self.new.run ≡ self.old.run }
    {
        if let ScriptLine::Call { .. } = line {
            self.calls = self.calls.saturating_add(1);
        }
    }

    /// Takes `turns` turns, or fewer if no copy is open any more.
    ///
    /// Errors: `Memory` if an allocation fails.
    fn pump(&mut self, turns: u32) -> Result<(), Fault>
        ensures ok { OnOk result (IsPumpDone O.sequential turns self.old.run self.new.run) }
        ensures refused { IfErr result (λ fault. fault ≡ Memory) }
    {
        for _ in 0..turns {
            let Some(pair) = self.run.close_first_copy() else {
                return Ok(());
            };
            self.deliver_copy(pair)?;
        }
        Ok(())
    }

    /// Delivers a closed copy to its receiver, unless the cut loses it.
    ///
    /// Errors: `Memory` if an allocation fails.
    fn deliver_copy(&mut self, pair: OpenCopy) -> Result<(), Fault>
        ensures ok { OnOk result (IsCopyHandled O.sequential (is_connected self.old.run.groups pair.sender pair.receiver) pair self.old.run self.new.run) }
        ensures refused { IfErr result (λ fault. fault ≡ Memory) }
    {
        if !self.run.is_connected(pair.sender, pair.receiver) {
            return Ok(());
        }
        self.run
            .run_event(Event::Deliver(pair.receiver, pair.frame))?;
        self.note_installed_ring(pair.receiver)
    }

    /// Adds the ring that the node has now to the installed rings, if it is new.
    ///
    /// Errors: `Memory` if an allocation fails.
    fn note_installed_ring(&mut self, node: Proc) -> Result<(), Fault>
        ensures run { self.new.run ≡ self.old.run }
        ensures refused { IfErr result (λ fault. fault ≡ Memory) }
    {
        let Some(ring) = ring_of(self.run.world(), node) else {
            return Ok(());
        };
        let place = usize::from(node.number()) - 1;
        if self.last[place] == ring {
            return Ok(());
        }
        self.last[place] = ring;
        if ring.seq > 0 && !self.rings.contains(&ring) {
            self.rings.push(ring)?;
        }
        Ok(())
    }

    /// Returns the totals over this seed, which name it exactly if its run isn't legal.
    ///
    /// Errors: `Memory` if an allocation fails.
    fn seed_totals(&self, alloc: O::Alloc, seed: u64) -> Result<ExploreTotals, Fault>
        ensures legal { IfOk result (λ seed_totals. (is_legal : Bool) × (IsTrue is_legal ↔ IsLegal O.sequential self.now.run.world_view)
            × (seed_totals.illegal ≡ illegal_of is_legal seed)) }
        ensures events { IfOk result (λ seed_totals. seed_totals.events ≡ length self.now.run.world_view.events) }
        ensures calls { IfOk result (λ seed_totals. seed_totals.calls ≡ self.now.calls) }
        ensures answered { IfOk result (λ seed_totals. seed_totals.answered ≡ count_by is_answer self.now.run.world_view.told) }
        ensures refused { IfErr result (λ fault. fault ≡ Memory) }
    {
        let is_legal = is_legal(alloc, &self.run)?;
        let world = self.run.world();
        Ok(ExploreTotals {
            events: world.events().len() as u64,
            calls: self.calls,
            answered: reported_answer_count(world),
            rings: self.rings.len() as u64,
            illegal: if is_legal { None } else { Some(seed) },
        })
    }
}

/// Returns the last installed ring of a node, or `None` if there is no such node.
fn ring_of<O: Object>(world: &World<O>, node: Proc) -> Option<RingId> {
    let node = world.fixed().proc(node.number()).ok()?;
    Some(world.node(node).ring())
}

/// Returns the node that a line's request concerns, or `None` if it concerns none or all of them.
fn node_of<A: Allocator + Copy>(line: &ScriptLine<A>) -> Option<Proc> {
    match line {
        ScriptLine::Call { node, .. }
        | ScriptLine::Deliver { node, .. }
        | ScriptLine::Timeout { node, .. }
        | ScriptLine::Noise { node, .. }
        | ScriptLine::Stop { node } => Some(*node),
        ScriptLine::Cut(_) | ScriptLine::Heal | ScriptLine::Pump { .. } | ScriptLine::Show => None,
    }
}

/// Returns the number of answers that the nodes of a world reported.
fn reported_answer_count<O: Object>(world: &World<O>) -> u64
    ensures { result ≡ count_by is_answer world.now.told }
{
    let mut many = 0u64;
    for told in world.told() {
        if let Told::Answer(..) = told {
            many = many.saturating_add(1);
        }
    }
    many
}
