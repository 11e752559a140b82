//! Runs ring cores from the opening.
//!
//! Rules: Rings and states 5 and 15; Outputs 11; The commit token 10

ghost use Rattle.std.specs.Prelude.{◌≡◌, ℕ, ◌<◌, true, false, length, IfOk, IfErr, OnOk, OnErr};
ghost use Rattle.std.specs.List.{AllByRecursion};
ghost use Rattle.ring_base.specs.declared.fault.Fault.TheVariants.{Memory};
ghost use Rattle.ring_chain_proof.specs.ChainFacts.{NameSameMembers, SafeOutputsAreSafe, OutputsAreHeld};
ghost use Rattle.ring_core_proof.specs.Limits.{EventFits};
ghost use Rattle.ring_core_proof.specs.Worlds.{run, unformed};
ghost use Rattle.ring_core_proof.specs.CommitRounds.{CommitRounds};
ghost use Rattle.ring_synchrony_proof.specs.Synchrony.{IsVirtuallySynchronous};

use crate::cores::CoreWorld;
use crate::running::run_events;
use ring_base::{Fault, Fixed, Proc};
use ring_core_proof::RingEvent;
use ring_core_spec::Out;
use std::alloc::{Allocator, Global};
use std::marker::Model;

/// The ring cores of all processors at the opening, ready for one run. Each is alone in Gather.
///
/// Rules: Rings and states 5 and 15
#[derive(Drop)]
pub struct Rings<A: Allocator + Copy = Global> {
    fixed: Fixed,
    /// `None` after the run.
    cores: Option<CoreWorld<A>>,
    events_done: u64,
}

impl<A: Allocator + Copy> Model for Rings<A> {
    ghost use Rattle.ring_core_world.specs.Running.{SingleRun, IsUnrun, is_there, empty_run};

    ghost Value = { SingleRun };

    ghost view = { λ r. record { count = r.fixed.count; is_fresh = is_there r.cores; done = r.events_done } };

    ghost invariant = { λ r. IsUnrun (empty_run r.fixed.count) r.cores };
}

impl<A: Allocator + Copy> Rings<A> {
    /// Creates the cores of all processors 1 to N at the opening, ready for one run.
    ///
    /// Errors: `Memory` if an allocation fails.
    ///
    /// Rules: Rings and states 5 and 15
    pub fn new(alloc: A, fixed: Fixed) -> Result<Rings<A>, Fault>
        ensures ok { IfOk result (λ rings. rings ≡ record { count = fixed.count; is_fresh = true; done = 0 }) }
        ensures refused { IfErr result (λ fault. fault ≡ Memory) }
    {
        let cores = CoreWorld::unformed(alloc, fixed)?;
        Ok(Rings {
            fixed,
            cores: Some(cores),
            events_done: 0,
        })
    }

    /// Runs a list of events from the opening, and returns all outputs in order, each with its processor.
    ///
    /// Call it only once. An event changes nothing if it names an unknown processor or a stopped one, or a frame that
    /// wasn't sent or wasn't sent to that processor. A payload in an event must be within the limits of its format, as
    /// every decoded payload is. The run is virtually synchronous, and its commit tokens meet the facts of their two
    /// rounds.
    ///
    /// Errors: `Memory` if an allocation fails; the cores and the outputs are lost. [`done`](Rings::done) then returns
    /// how many events were done, fewer than there are.
    ///
    /// Rules: Rings and states 14 and 15; Outputs 11; The commit token 10
    pub fn run(&mut self, events: &[RingEvent<A>]) -> Result<Vec<(Proc, Out<A>), A>, Fault>
        requires fresh { self.old.is_fresh ≡ true }
        requires fit { AllByRecursion EventFits events.now }
        ensures outs { IfOk result (λ outs. outs.items ≡ (run (unformed self.old.count) events.now).outs) }
        ensures synchronous { IsVirtuallySynchronous (run (unformed self.old.count) events.now) }
        ensures members { NameSameMembers (run (unformed self.old.count) events.now).cores }
        ensures held { OutputsAreHeld (run (unformed self.old.count) events.now) }
        ensures safe { SafeOutputsAreSafe (run (unformed self.old.count) events.now) }
        ensures rounds { CommitRounds (unformed self.old.count) events.now }
        ensures spent { self.new.is_fresh ≡ false }
        ensures count { self.new.count ≡ self.old.count }
        ensures all { OnOk result (self.new.done ≡ length events.now) }
        ensures some { OnErr result (self.new.done < length events.now) }
        ensures refused { IfErr result (λ fault. fault ≡ Memory) }
    {
        let cores = self.cores.take().ok_or(Fault::Memory)?;
        run_events(cores, false, events, &mut self.events_done)
    }

    /// Returns the number of events done in the run.
    ///
    /// It is 0 before the run, the number of all events after a successful run, and less after a failed one. Events
    /// that changed nothing count as well.
    ///
    /// Rules: Rings and states 15
    pub fn done(&self) -> u64
        ensures { result ≡ self.now.done }
    {
        self.events_done
    }
}
