//! The send queue.
//!
//! Rules: Rings and states 9

ghost use Rattle.std.specs.Prelude.{◌≡◌, [], ◌∷◌, ◌++◌, IfErr, OnOk, OnErr};
ghost use Rattle.ring_base.specs.declared.fault.Fault.TheVariants.{Memory};

use crate::running_core::RunningCore;
use ring_base::Fault;
use ring_payload::Payload;
use std::alloc::Allocator;

impl<A: Allocator + Copy> RunningCore<A> {
    /// Appends a payload to the end of the send queue.
    ///
    /// Neither the state nor the kind of the payload is checked: [`decide`](RunningCore::decide) does that.
    ///
    /// Errors: `Memory` if an allocation fails; the core is unchanged.
    ///
    /// Rules: Rings and states 9
    pub fn enqueue(&mut self, payload: Payload<A>) -> Result<(), Fault>
        ensures ok { OnOk result (self.new ≡ record self.old { queue = self.old.queue ++ payload ∷ [] }) }
        ensures kept { OnErr result (self.new ≡ self.old) }
        ensures refused { IfErr result (λ fault. fault ≡ Memory) }
    {
        self.queue.push_back(payload)?;
        Ok(())
    }
}
