//! A world with the copies of its frames that are neither delivered nor lost.
//!
//! Formats: Pump

ghost use Rattle.std.specs.Prelude.{◌≡◌, OnOk, OnErr, IfOk, IfErr, slice_get};
ghost use Rattle.ring_base.specs.declared.fault.Fault.TheVariants.{Memory};
ghost use Rattle.ring_node_spec.specs.WorldLimits.{EventFits};
ghost use Rattle.ring_world.specs.OpenCopies.{frames_of, all_copies, IsFirstCopyTaken};
ghost use Rattle.ring_world.specs.Pumping.{HasRunEvent, IsUnchanged};

use crate::World;
use crate::open_copies::{OpenCopies, OpenCopy};
use ring_base::Fault;
use ring_node_spec::Event;
use ring_object::Object;
use std::alloc::Allocator;
use std::marker::Model;

/// A world, and the open copies of its frames, which are those that are neither delivered nor lost yet.
///
/// A frame that is sent opens one copy for each of its receivers, and each copy is closed once. Copies close in the
/// order of their frames, and within a frame in the order of their receivers. The caller decides whether a closed copy
/// is delivered or lost. Contracts see a `PumpView`.
///
/// Formats: Pump
#[derive(Drop)]
pub struct Pump<O: Object> {
    world: World<O>,
    open_copies: OpenCopies,
}

impl<O: Object> Model for Pump<O> {
    ghost use Rattle.ring_world.specs.OpenCopies.{frames_of, open_copies_from, IsReached};
    ghost use Rattle.ring_world.specs.Pumping.{PumpView};

    ghost Value = { PumpView O.Alloc };

    ghost view = { λ p. record { world_view = p.world; open_copies = open_copies_from p.open_copies (frames_of O.sequential p.world) } };

    ghost invariant = { λ p. IsReached p.open_copies (frames_of O.sequential p.world) };
}

impl<O: Object> Pump<O> {
    /// Returns a pump of the world in which all copies of all frames sent so far are open, one for each receiver of a
    /// frame.
    ///
    /// A copy is open even if an event of the world has already delivered its frame to this receiver.
    ///
    /// Formats: Pump
    pub fn new(world: World<O>) -> Pump<O>
        ensures { result ≡ record { world_view = world; open_copies = all_copies (frames_of O.sequential world) } }
    {
        let open_copies = OpenCopies::new();
        Pump { world, open_copies }
    }

    /// Returns a copy of the pump, with an equal world and the same open copies, that runs independently of this one.
    ///
    /// Errors: `Memory` if an allocation fails; this pump is unchanged.
    pub fn copy(&self) -> Result<Pump<O>, Fault>
        ensures ok { IfOk result (λ copy. copy ≡ self.now) }
        ensures refused { IfErr result (λ fault. fault ≡ Memory) }
    {
        let world = self.world.copy()?;
        Ok(Pump {
            world,
            open_copies: self.open_copies,
        })
    }

    /// Returns the world, after the events that have been run so far.
    ///
    /// Rules: The book and the threads 1 and 8
    pub fn world(&self) -> &World<O>
        ensures { result.now ≡ self.now.world_view }
    {
        &self.world
    }

    /// Runs one event in the world, and opens a copy for each receiver of each frame that the event's step sends.
    ///
    /// No copy is closed, even if the event delivers its frame. A call in the event must be within the limits of a
    /// call, as every one from `Call::new` is. An allocation that fails in the node isn't an error. If it fails in a
    /// step, the node has stopped for good, and the world records `Stop` instead of the event; if it fails in a submit,
    /// the world records only the refusal.
    ///
    /// Errors: `Memory` if an allocation for the world's records fails; nothing has then changed.
    ///
    /// Rules: The book and the threads 2, 4 and 7
    pub fn run_event(&mut self, event: Event<O::Alloc>) -> Result<(), Fault>
        requires { EventFits event }
        ensures done { OnOk result (HasRunEvent O.sequential event self.old self.new) }
        ensures rests { OnErr result (IsUnchanged self.old self.new) }
        ensures refused { IfErr result (λ fault. fault ≡ Memory) }
    {
        self.world.run_one(&event)
    }

    /// Returns the first open copy, or `None` if none is open.
    ///
    /// Of the open copies of the earliest frame it is the one to the smallest receiver. It stays open.
    ///
    /// Formats: Pump
    pub fn first_open_copy(&self) -> Option<OpenCopy>
        ensures { result ≡ slice_get self.now.open_copies 0 }
    {
        self.open_copies.first_open(&self.world)
    }

    /// Closes the first open copy and returns it, or returns `None` if none is open.
    ///
    /// It is the copy that [`first_open_copy`](Pump::first_open_copy) returns. The world is unchanged: the caller
    /// delivers the copy with a `Deliver` event, or lets it be lost.
    ///
    /// Formats: Pump
    pub fn close_first_copy(&mut self) -> Option<OpenCopy>
        ensures takes { IsFirstCopyTaken self.old.open_copies result self.new.open_copies }
        ensures world_view { self.new.world_view ≡ self.old.world_view }
    {
        self.open_copies.close_first_copy(&self.world)
    }
}
