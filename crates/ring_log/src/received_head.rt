//! A member's Head, and the order by which one is chosen.
//!
//! Rules: The replicated log 5

ghost use Rattle.std.specs.Prelude.{◌≡◌};
ghost use Rattle.ring_log.specs.Heads.{is_behind};

use ring_base::Proc;
use ring_wire::Head;

/// A Head that a member of the ring sent at its installation, with its sender.
///
/// Rules: The replicated log 3 and 5
#[derive(Clone, Copy, Debug, PartialEq, Eq)]
pub struct ReceivedHead {
    /// The member that sent the Head.
    pub sender: Proc,
    /// The member's statement of its log.
    pub head: Head,
}

impl ReceivedHead {
    /// Returns whether `other` takes precedence over this Head.
    ///
    /// The greater last primary does, `None` being the least. If they are equal, the greater length decides, and then
    /// the smaller sender. Does not allocate.
    ///
    /// Rules: The replicated log 5
    pub fn is_chosen_after(&self, other: &ReceivedHead) -> bool
        ensures { result ≡ is_behind self.now other.now }
    {
        let lasts = self.head.last.cmp(&other.head.last);
        let lengths = self.head.length.cmp(&other.head.length);
        let senders = other.sender.cmp(&self.sender);
        lasts.then(lengths).then(senders).is_lt()
    }
}
