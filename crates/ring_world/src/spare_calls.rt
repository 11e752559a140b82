//! Second copies of the calls whose tickets wait for an answer, so that recording an answer doesn't allocate.

ghost use Rattle.std.specs.Prelude.{◌≡◌, ℕ, ◌+◌, ◌<◌, [], ◌∷◌, ◌++◌, Some, OnOk, IfErr};
ghost use Rattle.ring_base.specs.declared.fault.Fault.TheVariants.{Memory};
ghost use Rattle.ring_payload.specs.declared.call.Call.{Call as OneCall};
ghost use Rattle.ring_world.specs.SpareCalls.{HasCopy, without};

use ring_base::Fault;
use ring_payload::Call;
use ring_session::Ticket;
use std::alloc::{AllocError, Allocator, Global};
use std::marker::Model;

/// The second copies of the calls that were submitted at one node, by ticket, counted from 0.
///
/// A ticket's copy is taken out when the ticket is answered.
///
/// Rules: The replicated log 13 and 14
#[derive(Drop)]
pub(crate) struct SpareCalls<A: Allocator + Copy = Global> {
    calls: Vec<Option<Call<A>>, A>,
}

impl<A: Allocator + Copy> Model for SpareCalls<A> {
    ghost use Rattle.std.specs.Prelude.{◌-◌, vec_len, vec_capacity};
    ghost use Rattle.ring_world.specs.SpareCalls.{SpareCalls as ToldSpares};

    ghost Value = { ToldSpares A };

    ghost view = { λ s. record { calls = s.calls.items; places = vec_capacity s.calls - vec_len s.calls } };
}

impl<A: Allocator + Copy> SpareCalls<A> {
    /// Returns the list of a node that has given no ticket yet.
    ///
    /// Does not allocate.
    pub(crate) fn new(alloc: A) -> SpareCalls<A>
        ensures { result.calls ≡ [] }
    {
        SpareCalls {
            calls: Vec::new(alloc),
        }
    }

    /// Makes room for the copy of one more ticket's call.
    ///
    /// Errors: `Memory` if an allocation fails; the copies are unchanged.
    pub(crate) fn make_room(&mut self) -> Result<(), Fault>
        ensures calls { self.new.calls ≡ self.old.calls }
        ensures room { OnOk result (0 < self.new.places) }
        ensures refused { IfErr result (λ fault. fault ≡ Memory) }
    {
        self.calls.reserve(1)?;
        Ok(())
    }

    /// Appends a copy of the next ticket's call.
    ///
    /// There must be room for it. Does not allocate.
    pub(crate) fn append_copy(&mut self, call: Call<A>)
        requires { 0 < self.old.places }
        ensures { self.new.calls ≡ self.old.calls ++ Some call ∷ [] }
    {
        self.calls.push_reserved(Some(call));
    }

    /// Takes out and returns the copy of this ticket's call.
    ///
    /// The ticket must still have a copy, equal to `call`, which only the contract uses. The other tickets keep their
    /// copies.
    pub(crate) fn take_copy(&mut self, ticket: Ticket, call: &Call<A>) -> Call<A>
        requires { HasCopy self.old.calls ticket call.now }
        ensures call { result ≡ call.now }
        ensures calls { self.new.calls ≡ without self.old.calls ticket }
    {
        // Only the contract mentions the call.
        let _ = call;
        match self.calls[ticket.number() as usize].take() {
            Some(spare) => spare,
            None => unreachable!(),
        }
    }
}

/// A clone has the same copies of calls.
impl<A: Allocator + Copy> Clone for SpareCalls<A> {
    ghost is_clone = { λ spares copy. copy.calls ≡ spares.calls };

    fn clone(&self) -> Result<SpareCalls<A>, AllocError> {
        Ok(SpareCalls {
            calls: self.calls.clone()?,
        })
    }
}
