//! The state of a ring core that hasn't stopped.
//!
//! Rules: Rings and states 3 to 6 and 14

ghost use Rattle.std.specs.Prelude.{◌≡◌, ◌≤◌, true, false, [], IfOk, IfErr};
ghost use Rattle.ring_base.specs.Processors.{IsMember};
ghost use Rattle.ring_base.specs.declared.fault.Fault.TheVariants.{Memory};
ghost use Rattle.ring_core_spec.specs.State.{formed_ring_of, opening_ring, formed, opening};

use ring_base::{Fault, Fixed, Ghost, Proc, ProcSet, RingId, State};
use ring_commit::Configuration;
use ring_core_spec::OutgoingFrame;
use ring_join::Gather;
use ring_payload::Payload;
use ring_srp_state::{
    CoreHistory, RecoveryState, WindowAndVisits, empty_ghost_list, formed_history, opening_history,
};
use ring_wire::{CommitEntry, Message};
use std::alloc::{Allocator, Global};
use std::collections::VecDeque;
use std::marker::Model;

/// A ring core that hasn't stopped, with its whole state. Contracts see it as a `Core`.
///
/// Rules: Rings and states 3
#[derive(Drop)]
pub struct RunningCore<A: Allocator + Copy = Global> {
    pub(crate) alloc: A,
    pub(crate) me: Proc,
    pub(crate) fixed: Fixed,
    pub(crate) state: State,
    /// The newest ring that the core has taken part in. Its number is the floor.
    pub(crate) newest_ring: Configuration,
    pub(crate) installed: Configuration,
    pub(crate) gather: Gather,
    /// The kept token: the last token or commit token sent since Gather was entered.
    pub(crate) last_sent: Option<OutgoingFrame<A>>,
    pub(crate) queue: VecDeque<Payload<A>, A>,
    /// The window and the visits of the installed ring.
    pub(crate) installed_part: WindowAndVisits<A>,
    /// The state of Recovery, with the window and the visits of the running ring. It is `None` in every other state.
    pub(crate) recovery: Option<RecoveryState<A>>,
    /// The messages taken, sent or unwrapped, newest first.
    pub(crate) held: Ghost<[Message<A>; 0]>,
    pub(crate) history: Ghost<CoreHistory<A>>,
}

impl<A: Allocator + Copy> Model for RunningCore<A> {
    ghost use Rattle.ring_core_spec.specs.State.{Core};
    ghost use Rattle.ring_srp_transitions.specs.RunningCores.{core_of, IsRunningCore};

    ghost Value = { Core A };

    ghost view = { λ m. core_of m.me m.fixed.count m.state m.newest_ring m.installed m.gather.gathering m.last_sent m.queue.items m.held.value m.history.value };

    ghost invariant = { λ m. IsRunningCore (core_of m.me m.fixed.count m.state m.newest_ring m.installed m.gather.gathering
        m.last_sent m.queue.items m.held.value m.history.value) m.gather m.installed_part.window m.installed_part.visit m.recovery };
}

impl<A: Allocator + Copy> RunningCore<A> {
    ghost use Rattle.ring_core_spec.specs.State.{floor, is_stopped};
    ghost use Rattle.ring_core_spec.specs.Views.{own_entry};
    ghost use Rattle.ring_srp_transitions.specs.RunningCores.{IsPart, ring_in_use, is_running};

    /// Creates the core of processor `me` at the opening, in Gather.
    ///
    /// Its installed ring is (0, `me`), of which it is the only member. `me` must be at most the number of processors.
    ///
    /// Errors: `Memory` if an allocation fails.
    ///
    /// Rules: Rings and states 5
    pub fn new(alloc: A, fixed: Fixed, me: Proc) -> Result<RunningCore<A>, Fault>
        requires { me ≤ fixed.count }
        ensures ok { IfOk result (λ running_core. running_core ≡ opening fixed.count me) }
        ensures refused { IfErr result (λ fault. fault ≡ Memory) }
    {
        let kept = WindowAndVisits::new(alloc, me, RingId { seq: 0, rep: me })?;
        Ok(RunningCore {
            alloc,
            me,
            fixed,
            state: State::Gather,
            newest_ring: opening_ring(me),
            installed: opening_ring(me),
            gather: Gather::new(me, 0, fixed.everybody()),
            last_sent: None,
            queue: VecDeque::new(alloc),
            installed_part: kept,
            recovery: None,
            held: empty_ghost_list(),
            history: opening_history(fixed, me),
        })
    }

    /// Creates the core of processor `me` in the formed ring (1, 1) of all processors.
    ///
    /// It is Operational, holds nothing and hasn't visited a token yet. The ring has no token until processor 1 visits
    /// the first one. `me` must be at most the number of processors.
    ///
    /// Errors: `Memory` if an allocation fails.
    ///
    /// Rules: Rings and states 14
    pub fn formed(alloc: A, fixed: Fixed, me: Proc) -> Result<RunningCore<A>, Fault>
        requires { me ≤ fixed.count }
        ensures ok { IfOk result (λ running_core. running_core ≡ formed fixed.count me) }
        ensures refused { IfErr result (λ fault. fault ≡ Memory) }
    {
        let kept = WindowAndVisits::new(alloc, me, formed_ring(fixed).ring)?;
        Ok(RunningCore {
            alloc,
            me,
            fixed,
            state: State::Operational,
            newest_ring: formed_ring(fixed),
            installed: formed_ring(fixed),
            gather: Gather::new(me, 0, fixed.everybody()),
            last_sent: None,
            queue: VecDeque::new(alloc),
            installed_part: kept,
            recovery: None,
            held: empty_ghost_list(),
            history: formed_history(fixed, me),
        })
    }

    /// Returns an empty list with the core's allocator, for frames or outputs. Does not allocate.
    pub fn empty_list<T>(&self) -> Vec<T, A>
        ensures { result.items ≡ [] }
    {
        Vec::new(self.alloc)
    }

    /// Returns the core's state, which isn't Stopped.
    ///
    /// Rules: Rings and states 6
    pub fn state(&self) -> State
        ensures value { result ≡ self.now.state }
        ensures runs { is_stopped self.now.state ≡ false }
    {
        self.state
    }

    /// Returns the last installed ring with its members.
    ///
    /// Before the first installation it is (0, `me`), of which `me` is the only member.
    ///
    /// Rules: Rings and states 3 and 5
    pub fn installed(&self) -> Configuration
        ensures value { result ≡ self.now.installed }
        ensures runs { is_stopped self.now.state ≡ false }
    {
        self.installed
    }

    /// Returns the floor: the number of the newest ring that the node has taken part in.
    ///
    /// Rules: Rings and states 4
    pub(crate) fn floor(&self) -> u64
        ensures { result ≡ floor self.now }
    {
        self.newest_ring.ring.seq
    }

    /// Returns the core's own entry: what it would report now about its last installed ring.
    ///
    /// Rules: The commit token 2 and 3
    pub(crate) fn own_entry(&self) -> CommitEntry
        ensures { result ≡ own_entry self.now }
    {
        let window = &self.installed_part.window;
        CommitEntry {
            old: self.installed.ring,
            front: window.front(),
            mark: window.mark(),
            held: window.held_bits(),
        }
    }

    /// Returns the window and the visits of the ring whose messages are taken.
    ///
    /// That is the running ring in Recovery, and the last installed one in every other state.
    ///
    /// Rules: Token and window 11
    pub(crate) fn part_in_use(&self) -> &WindowAndVisits<A>
        ensures taken { IsPart self.now (ring_in_use self.now.state self.now) result.now.window result.now.visit }
        ensures running { is_running self.now.state ≡ true → IsPart self.now self.now.running.ring result.now.window result.now.visit }
    {
        match &self.recovery {
            Some(recovery_state) if self.state == State::Recovery => &recovery_state.part,
            _ => &self.installed_part,
        }
    }
}

/// Returns the opening ring of a processor: number 0, with the processor as its only member.
fn opening_ring(me: Proc) -> Configuration
    ensures value { result ≡ opening_ring me }
    ensures member { IsMember result.members me }
{
    Configuration {
        ring: RingId { seq: 0, rep: me },
        members: ProcSet::singleton(me),
    }
}

/// Returns the formed ring (1, 1), whose members are all processors 1 to N.
///
/// Rules: Rings and states 14
pub fn formed_ring(fixed: Fixed) -> Configuration
    ensures { result ≡ formed_ring_of fixed.count }
{
    Configuration {
        ring: RingId {
            seq: 1,
            rep: Proc::new(1),
        },
        members: fixed.everybody(),
    }
}
