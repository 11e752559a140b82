//! How a core holds messages and, in Recovery, the inner messages of Wrapped ones.
//!
//! Rules: Token and window 1 and 11; Recovery 6

ghost use Rattle.std.specs.Prelude.{◌≡◌, ◌∷◌, true, IfErr, OnOk};
ghost use Rattle.ring_base.specs.declared.fault.Fault.TheVariants.{Memory};
ghost use Rattle.ring_core_spec.specs.Transitions.{message_taken};
ghost use Rattle.ring_core_spec.specs.Deciding.{is_taken};
ghost use Rattle.ring_core_spec.specs.Views.{takes_number};
ghost use Rattle.ring_srp_transitions.specs.RunningCores.{ring_in_use};

use crate::running_core::RunningCore;
use ring_base::{Fault, State, ghost_step_of_two};
use ring_srp_state::{ghost_list_with_first, unwrap_into};
use ring_wire::Message;
use std::alloc::Allocator;

impl<A: Allocator + Copy> RunningCore<A> {
    /// Applies `Take`: the core holds the message.
    ///
    /// In Recovery, if the message is a Wrapped, the old ring's window also takes its inner message, if that belongs to
    /// the old ring and its number is new there. [`decide`](RunningCore::decide) must have chosen `Take` with this
    /// message for this core. Appends no outputs: [`give_ring_outputs`](RunningCore::give_ring_outputs) and
    /// [`install_if_due`](RunningCore::install_if_due) do.
    ///
    /// Errors: `Memory` if an allocation fails; the core's state is then unspecified.
    ///
    /// Rules: Token and window 11; Recovery 6
    pub fn take(&mut self, message: Message<A>) -> Result<(), Fault>
        requires { is_taken self.old message ≡ true }
        ensures ok { OnOk result (self.new ≡ message_taken self.old message) }
        ensures refused { IfErr result (λ fault. fault ≡ Memory) }
    {
        match &mut self.recovery {
            Some(recovery_state) if self.state == State::Recovery => {
                let old = (self.installed.ring, self.installed_part.window.mark());
                let held = ghost_step_of_two(&self.held, &message, &old);
                unwrap_into(&message.payload, &mut self.installed_part.window)?;
                self.held = held;
                recovery_state.take(message);
                Ok(())
            }
            _ => {
                self.hold(message);
                Ok(())
            }
        }
    }

    /// Holds a message of the ring whose messages are taken. Its number must be new there.
    pub(crate) fn hold(&mut self, message: Message<A>)
        requires ring { message.ring ≡ ring_in_use self.old.state self.old }
        requires new { takes_number self.old message.ring message.number ≡ true }
        ensures { self.new ≡ record self.old { held = message ∷ self.old.held } }
    {
        let held = ghost_list_with_first(&self.held, &message);
        self.held = held;
        match &mut self.recovery {
            Some(recovery_state) if self.state == State::Recovery => recovery_state.take(message),
            _ => {
                self.installed_part.window.take(message);
            }
        }
    }
}
