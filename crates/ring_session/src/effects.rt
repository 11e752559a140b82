//! Finding the calls of a list that take effect.
//!
//! Rules: Sessions 6

ghost use Rattle.std.specs.Prelude.{◌≡◌, [], ◌∷◌, ◌++◌, List, OnOk, IfOk, IfErr};
ghost use Rattle.ring_base.specs.declared.fault.Fault.TheVariants.{Memory};
ghost use Rattle.ring_payload.specs.declared.call.Call.{Call as OneCall};
ghost use Rattle.ring_session.specs.Deduplicated.{deduplicated};
ghost use Rattle.ring_session.specs.Effects.{AreEffectsOf};

use crate::{Answer, Sessions, table_law};
use ring_base::Fault;
use ring_object::StatelessObject;
use ring_payload::Call;
use std::alloc::Allocator;
use std::marker::Model;

/// The deduplicated calls of a list that grows: the calls that take effect among the calls added so far.
///
/// A session table with a stateless object finds them, so they don't depend on the object that the calls are for.
///
/// Rules: Sessions 6
#[derive(Drop)]
pub struct Effects<A: Allocator + Copy + Drop> {
    sessions: Sessions<StatelessObject<A>>,
    calls: Vec<Call<A>, A>,
}

impl<A: Allocator + Copy + Drop> Model for Effects<A> {
    ghost use Rattle.ring_session.specs.Effects.{TableWithEffects};

    ghost Value = { TableWithEffects A };

    ghost view = { λ e. record { table = e.sessions; calls = e.calls.items } };
}

impl<A: Allocator + Copy + Drop> Effects<A> {
    /// Returns the deduplicated calls of the empty list: none.
    ///
    /// Errors: `Memory` if an allocation fails.
    ///
    /// Rules: Sessions 6
    pub fn new(alloc: A) -> Result<Effects<A>, Fault>
        ensures ok { IfOk result (λ effects. AreEffectsOf [] effects) }
        ensures refused { IfErr result (λ fault. fault ≡ Memory) }
    {
        Ok(Effects {
            sessions: Sessions::new(alloc)?,
            calls: Vec::new(alloc),
        })
    }

    /// Adds one call to the list and, if it takes effect, a copy of it to the deduplicated calls.
    ///
    /// It takes effect if its number is one more than the number of its client's calls that took effect, and the client
    /// is known or fewer than 1,024 clients are.
    ///
    /// Errors: `Memory` if an allocation fails; the value is then unspecified, so drop it.
    ///
    /// Rules: Sessions 6
    pub fn add(&mut self, call: &Call<A>) -> Result<(), Fault>
        ensures ok { (before : List (OneCall A)) → AreEffectsOf before self.old → OnOk result (AreEffectsOf (before ++ call.now ∷ []) self.new) }
        ensures refused { IfErr result (λ fault. fault ≡ Memory) }
    {
        // A law, without effect at run time: it gives the proof the answer to one more call.
        table_law::<StatelessObject<A>>();
        match self.sessions.apply(call)? {
            Answer::Done(_) => {
                self.calls.push(call.clone()?)?;
                Ok(())
            }
            Answer::Kept(_) => Ok(()),
            Answer::Refused(_) => Ok(()),
        }
    }

    /// Adds the calls to the list, one after another, as [`add`](Effects::add) does.
    ///
    /// Errors: `Memory` if an allocation fails; the value is then unspecified, so drop it.
    ///
    /// Rules: Sessions 6
    pub fn add_all(&mut self, calls: &[Call<A>]) -> Result<(), Fault>
        ensures ok { (before : List (OneCall A)) → AreEffectsOf before self.old → OnOk result (AreEffectsOf (before ++ calls.now) self.new) }
        ensures refused { IfErr result (λ fault. fault ≡ Memory) }
    {
        for call in calls {
            self.add(call)?;
        }
        Ok(())
    }

    /// Returns the deduplicated calls, in the order in which they were added.
    ///
    /// These are the calls that take effect among the calls added.
    ///
    /// Rules: Sessions 6
    pub fn into_calls(self) -> Vec<Call<A>, A>
        ensures { result.items ≡ self.calls }
    {
        let Self { sessions: _, calls } = self;
        calls
    }
}

/// Returns copies of the deduplicated calls of a list: those that take effect, in order.
///
/// Errors: `Memory` if an allocation fails.
///
/// Rules: Sessions 6
pub fn effects_of<A: Allocator + Copy + Drop>(
    alloc: A,
    calls: &[Call<A>],
) -> Result<Vec<Call<A>, A>, Fault>
    ensures ok { IfOk result (λ order. order.items ≡ deduplicated calls.now) }
    ensures refused { IfErr result (λ fault. fault ≡ Memory) }
{
    let mut effects = Effects::new(alloc)?;
    effects.add_all(calls)?;
    Ok(effects.into_calls())
}
