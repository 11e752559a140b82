//! Runs ring cores from a formed ring.
//!
//! Rules: Rings and states 14 and 15

ghost use Rattle.std.specs.Prelude.{◌≡◌, ℕ, ◌<◌, true, false, length, IfOk, IfErr, OnOk, OnErr};
ghost use Rattle.std.specs.List.{AllByRecursion};
ghost use Rattle.ring_base.specs.declared.fault.Fault.TheVariants.{Memory};
ghost use Rattle.ring_base.specs.declared.ring_id.RingId.{RingId as OneRing};
ghost use Rattle.ring_base.specs.Numbers.{numbers_from};
ghost use Rattle.ring_chain_proof.specs.ChainFacts.{AllIsOfFormed, OutputsAreHeld, agreed_numbers};
ghost use Rattle.ring_core_spec.specs.State.{formed_ring_of};
ghost use Rattle.ring_core_spec.specs.Views.{front};
ghost use Rattle.ring_core_proof.specs.Limits.{EventFits};
ghost use Rattle.ring_core_proof.specs.Texts.{HasOneText};
ghost use Rattle.ring_core_proof.specs.Worlds.{run_formed};

use crate::cores::CoreWorld;
use crate::running::run_events;
use ring_base::{Fault, Fixed, Proc};
use ring_core_proof::RingEvent;
use ring_core_spec::Out;
use std::alloc::{Allocator, Global};
use std::marker::Model;

/// The ring cores of all processors in the formed ring (1, 1), ready for one run.
///
/// Nothing is held, and the representative has visited the first token.
///
/// Rules: Rings and states 14 and 15
#[derive(Drop)]
pub struct FixedRing<A: Allocator + Copy = Global> {
    fixed: Fixed,
    /// `None` after the run.
    cores: Option<CoreWorld<A>>,
    events_done: u64,
}

impl<A: Allocator + Copy> Model for FixedRing<A> {
    ghost use Rattle.ring_core_world.specs.Running.{SingleRun, IsUnrun, is_there, empty_formed_run};

    ghost Value = { SingleRun };

    ghost view = { λ r. record { count = r.fixed.count; is_fresh = is_there r.cores; done = r.events_done } };

    ghost invariant = { λ r. IsUnrun (empty_formed_run r.fixed.count) r.cores };
}

impl<A: Allocator + Copy> FixedRing<A> {
    /// Creates the cores of the formed ring of all processors 1 to N, ready for one run.
    ///
    /// Frame 1 is the token of number 1, which the representative sent at the opening.
    ///
    /// Errors: `Memory` if an allocation fails.
    ///
    /// Rules: Rings and states 14
    pub fn new(alloc: A, fixed: Fixed) -> Result<FixedRing<A>, Fault>
        ensures ok { IfOk result (λ ring. ring ≡ record { count = fixed.count; is_fresh = true; done = 0 }) }
        ensures refused { IfErr result (λ fault. fault ≡ Memory) }
    {
        let cores = CoreWorld::formed(alloc, fixed)?;
        Ok(FixedRing {
            fixed,
            cores: Some(cores),
            events_done: 0,
        })
    }

    /// Runs a list of events from the formed ring, and returns all outputs in order, each with its processor.
    ///
    /// Call it only once. The outputs of the opening aren't included. Of the timeouts only retransmit has an effect;
    /// the others are skipped, and count as done. An event changes nothing if it names an unknown processor or a
    /// stopped one, or a frame that wasn't sent or wasn't sent to that processor. A payload in an event must be within
    /// the limits of its format, as every decoded payload is.
    ///
    /// Errors: `Memory` if an allocation fails; the cores and the outputs are lost. [`done`](FixedRing::done) then
    /// returns how many events were done, fewer than there are.
    ///
    /// Rules: Rings and states 14 and 15
    pub fn run(&mut self, events: &[RingEvent<A>]) -> Result<Vec<(Proc, Out<A>), A>, Fault>
        requires fresh { self.old.is_fresh ≡ true }
        requires fit { AllByRecursion EventFits events.now }
        ensures outs { IfOk result (λ outs. outs.items ≡ (run_formed self.old.count events.now).outs) }
        ensures text { (ring : OneRing) → HasOneText (run_formed self.old.count events.now) ring }
        ensures held { OutputsAreHeld (run_formed self.old.count events.now) }
        ensures agreed { (i : ℕ) → agreed_numbers (run_formed self.old.count events.now) i
            ≡ numbers_from 1 (front ((run_formed self.old.count events.now).cores i) (formed_ring_of self.old.count).ring) }
        ensures safe { AllIsOfFormed self.old.count (run_formed self.old.count events.now) }
        ensures spent { self.new.is_fresh ≡ false }
        ensures count { self.new.count ≡ self.old.count }
        ensures all { OnOk result (self.new.done ≡ length events.now) }
        ensures some { OnErr result (self.new.done < length events.now) }
        ensures refused { IfErr result (λ fault. fault ≡ Memory) }
    {
        // No effect at run time. The proof uses it: the group has a processor, as the laws of a formed ring require.
        prove!(self.fixed.count() >= 1);
        let cores = self.cores.take().ok_or(Fault::Memory)?;
        run_events(cores, true, events, &mut self.events_done)
    }

    /// Returns the number of events done in the run.
    ///
    /// It is 0 before the run, the number of all events after a successful run, and less after a failed one. Events
    /// that changed nothing count as well.
    ///
    /// Rules: Rings and states 15
    pub fn done(&self) -> u64
        ensures { result ≡ self.now.done }
    {
        self.events_done
    }
}
