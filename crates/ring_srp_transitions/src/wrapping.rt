//! The new messages of a visit in Recovery.
//!
//! Rules: Recovery 4

ghost use Rattle.std.specs.Prelude.{◌≡◌, ◌+◌, ◌<◌, IfOk, IfErr};
ghost use Rattle.ring_base.specs.declared.fault.Fault.TheVariants.{Memory};
ghost use Rattle.ring_base.specs.declared.state.State.TheVariants.{Recovery as InRecovery};
ghost use Rattle.ring_core_spec.specs.Visiting.{payloads_to_send};

use crate::running_core::RunningCore;
use ring_base::Fault;
use ring_payload::Payload;
use ring_srp_state::first_recovery_messages;
use std::alloc::Allocator;

impl<A: Allocator + Copy> RunningCore<A> {
    /// Returns the payloads that a visit in Recovery sends, at most `most`. The state must be Recovery.
    ///
    /// They are a Wrapped for each user message of the old ring above the least reported front that hasn't been seen
    /// wrapped, in ascending order, and then the node's End, unless one was seen.
    ///
    /// Errors: `Memory` if an allocation fails.
    ///
    /// Rules: Recovery 4
    pub(crate) fn recovery_messages(&self, most: u64) -> Result<Vec<Payload<A>, A>, Fault>
        requires { self.now.state ≡ InRecovery }
        ensures items { IfOk result (λ payloads. payloads.items ≡ payloads_to_send InRecovery self.now most) }
        ensures refused { IfErr result (λ fault. fault ≡ Memory) }
    {
        match &self.recovery {
            Some(recovery_state) => {
                first_recovery_messages(
                    self.alloc,
                    &recovery_state.plan,
                    &self.installed_part.window,
                    most,
                )
            }
            None => Ok(Vec::new(self.alloc)),
        }
    }
}
