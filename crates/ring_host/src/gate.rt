//! Gates: the threads of a run report their turns to one, and it may hold them up.
//!
//! Rules: The book and the threads 21 and 29

use ring_base::Proc;
use std::thread;

/// The point in a turn at which the thread calls the gate.
///
/// Rules: The book and the threads 21 and 29
#[derive(Clone, Copy, Debug, PartialEq, Eq)]
pub enum GatePlace {
    /// The thread holds the node's lock, and the turn's step comes next.
    ///
    /// A place in the book isn't reserved yet.
    Held,
    /// The node's line is entered, the frames are sent and the node's length is published.
    ///
    /// A turn that fails doesn't reach this point.
    Entered,
}

/// The activity seen in a turn that succeeded, from which a gate decides whether the node may rest.
///
/// Rules: The book and the threads 29
#[derive(Clone, Copy, Debug, PartialEq, Eq)]
pub enum TurnActivity {
    /// The turn found no due timeout and no item in the inbox.
    Nothing,
    /// A timeout only: the node sent at most one frame, its ring is installed, and all of its log is committed.
    Timeout,
    /// A token or a commit token only: the node sent at most one frame, its ring is installed, and all of its log is
    /// committed.
    Quiet,
    /// Anything else: a message or a join came, the node sent more frames, its ring isn't installed, or its log isn't
    /// all committed.
    Busy,
}

/// An observer of the turns of [`Host::run`](crate::HostOf::run), which may hold its threads up.
///
/// At `Held` the thread has its node's lock. A gate must then not call the host, nor wait for anything that this node
/// does.
///
/// Rules: The book and the threads 29
pub trait Gate {
    ghost use Rattle.std.specs.Prelude.{ℕ};
    ghost use Rattle.ring_host.specs.declared.gate.GatePlace.{GatePlace as OnePlace};

    // Whether the gate was called with this node at this point. Nothing but such a call states it.
    ghost has_reached: { Self → ℕ → OnePlace → Type 0 } = { λ gate node place. Unit {0} };

    /// Called when a turn of the node reaches `place`, on the thread that takes the turn.
    ///
    /// The turn goes on when the call returns. A turn that finds nothing reaches neither place, and one that fails may
    /// reach only `Held`.
    ///
    /// Rules: The book and the threads 21 and 29
    fn at(&self, node: Proc, place: GatePlace)
        ensures { has_reached self.now node place };

    /// Called at the end of each turn of the node that succeeds, with the activity seen in it.
    ///
    /// The node's next turn begins when the call returns. By default it does nothing.
    ///
    /// Rules: The book and the threads 29
    fn after_turn(&self, _node: Proc, _activity: TurnActivity) {}

    /// Returns whether `after_turn` itself makes a thread that finds nothing to do wait.
    ///
    /// If it is false, such turns wait as under [`OpenGate`]. The default is false.
    ///
    /// Rules: The book and the threads 29
    fn has_own_waits(&self) -> bool {
        false
    }
}

/// The gate of turns that a caller takes by hand: a turn that finds nothing yields.
///
/// Rules: The book and the threads 21
pub(crate) struct YieldingGate;

impl Gate for YieldingGate {
    fn at(&self, _node: Proc, _place: GatePlace) {}

    fn after_turn(&self, _node: Proc, activity: TurnActivity) {
        if activity == TurnActivity::Nothing {
            thread::yield_now();
        }
    }

    fn has_own_waits(&self) -> bool {
        true
    }
}

/// A gate that lets all threads pass: the nodes run at full speed, even if there is nothing to do.
///
/// After a turn that finds nothing node 1 yields once, and each next node up to two times more, until an item comes.
/// After 50 such turns in a row the node sleeps instead at each tenth, until an item comes: node 1 for at most 50
/// microseconds, and each next node for 100 more. After the other turns it looks again at once.
///
/// In Gather a node yields once after each of the first 500 turns that find nothing, and then *naps* after each further
/// 200, and when it enters Gather. Node 1's nap has ten slices of a millisecond, and that of each next node four more.
/// An item restarts the current slice, so joins neither end a nap nor put it off. Node 1 gives up a silent node after
/// some 40 naps, and each next node later: by then it has heard of this.
///
/// Rules: The book and the threads 29
#[derive(Clone, Copy, Debug, PartialEq, Eq)]
pub struct OpenGate;

impl Gate for OpenGate {
    fn at(&self, _node: Proc, _place: GatePlace) {}
}
