//! Calls that wait for their answers.
//!
//! Formats: The command line

ghost use Rattle.std.specs.Prelude.{◌≡◌, ◌-◌, [], ◌∷◌, ◌++◌, length, take, OnOk, OnErr, IfErr, position};
ghost use Rattle.ring_base.specs.declared.fault.Fault.TheVariants.{Memory};
ghost use Rattle.ring_trace_words.specs.Waits.{is_same, without};

use ring_base::{Fault, Proc};
use ring_payload::Call;
use std::alloc::Allocator;
use std::marker::Model;

/// A call that its node accepted and has not answered yet.
///
/// Formats: The command line
#[derive(Clone, Copy)]
pub struct WaitingCall {
    /// The node at which it was submitted.
    pub node: Proc,
    /// The client that made it.
    pub client: u32,
    /// The number that the client gave it.
    pub number: u64,
    /// The number of frames that all nodes had sent before it was submitted.
    pub frames: u64,
}

impl WaitingCall {
    /// Creates the waiting call for a call that was submitted at `node` after `frames` frames.
    ///
    /// Formats: The command line
    pub fn of<A: Allocator + Copy>(node: Proc, call: &Call<A>, frames: u64) -> WaitingCall
        ensures { result ≡ record { node = node; client = call.now.client; number = call.now.number; frames = frames } }
    {
        WaitingCall {
            node,
            client: call.client,
            number: call.number,
            frames,
        }
    }

    /// Returns the same call, but as submitted after `frames` frames.
    ///
    /// Formats: The command line
    pub fn resubmitted_after(&self, frames: u64) -> WaitingCall
        ensures { result ≡ record self.now { frames = frames } }
    {
        WaitingCall {
            node: self.node,
            client: self.client,
            number: self.number,
            frames,
        }
    }
}

/// The waiting calls of all nodes, in the order in which they were submitted.
///
/// Contracts see their list.
///
/// Formats: The command line
#[derive(Drop)]
pub struct WaitingCalls<A: Allocator> {
    calls: Vec<WaitingCall, A>,
}

impl<A: Allocator> Model for WaitingCalls<A> {
    ghost use Rattle.std.specs.Prelude.{List};
    ghost use Rattle.ring_trace_words.specs.declared.waiting.WaitingCall.{WaitingCall as OneWaiting};

    ghost Value = { List OneWaiting };

    ghost view = { λ q. q.calls.items };
}

impl<A: Allocator + Copy> WaitingCalls<A> {
    /// Creates an empty list.
    ///
    /// Does not allocate.
    pub fn new(alloc: A) -> WaitingCalls<A>
        ensures { result ≡ [] }
    {
        WaitingCalls {
            calls: Vec::new(alloc),
        }
    }

    /// Returns all waiting calls, oldest first.
    pub fn calls(&self) -> &[WaitingCall]
        ensures { result.now ≡ self.now }
    {
        self.calls.as_slice()
    }

    /// Adds a call at the end.
    ///
    /// Whether the list has the call already isn't checked.
    ///
    /// Errors: `Memory` if an allocation fails; nothing is added.
    pub fn push_waiting_call(&mut self, call: WaitingCall) -> Result<(), Fault>
        ensures ok { OnOk result (self.new ≡ self.old ++ call ∷ []) }
        ensures err { OnErr result (self.new ≡ self.old) }
        ensures refused { IfErr result (λ fault. fault ≡ Memory) }
    {
        self.calls.push(call)?;
        Ok(())
    }

    /// Removes the call that was added last.
    ///
    /// An empty list stays empty. Does not allocate.
    pub fn remove_newest(&mut self)
        ensures { self.new ≡ take (length self.old - 1) self.old }
    {
        let _ = self.calls.pop();
    }

    /// Removes the oldest call with the same node, client and number as `call`.
    ///
    /// The others keep their order. If there is none, nothing changes. Does not allocate.
    ///
    /// Formats: The command line
    pub fn remove_oldest_match(&mut self, call: WaitingCall)
        ensures { self.new ≡ without call self.old }
    {
        if let Some(place) = waiting_call_index(&self.calls, &call) {
            let _ = self.calls.remove(place);
        }
    }
}

/// Returns the index of the first call with the same node, client and number as `call`, or `None` if there is none.
fn waiting_call_index(calls: &[WaitingCall], call: &WaitingCall) -> Option<usize>
    ensures { result ≡ position (is_same call.now) calls.now }
{
    calls
        .iter()
        .position(|waiting| is_same_waiting_call(call, waiting))
}

/// Returns whether the two have the same node, client and number.
fn is_same_waiting_call(one: &WaitingCall, other: &WaitingCall) -> bool
    ensures { result ≡ is_same one.now other.now }
{
    one.node == other.node && one.client == other.client && one.number == other.number
}
