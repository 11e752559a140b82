//! Laws of every run from the opening: when a ring is ready, and virtual synchrony.
//!
//! Rules: Recovery 4 to 8; Outputs 11

ghost use Rattle.std.specs.Prelude.{◌≡◌, ℕ, List};
ghost use Rattle.std.specs.declared.alloc.Global.{Global as Heap};
ghost use Rattle.ring_core_proof.specs.declared.event.RingEvent.{RingEvent};
ghost use Rattle.ring_core_proof.specs.Worlds.{run, unformed};
ghost use Rattle.ring_synchrony_proof.specs.Synchrony.{IsVirtuallySynchronous};
ghost use Rattle.ring_synchrony_proof.specs.Installed.{HoldersHaveInstalled};
ghost use Rattle.ring_synchrony_proof.specs.Ends.{KeepsOrder};
ghost use Rattle.ring_synchrony_proof.specs.InstallReadiness.{ReadyIsComplete, ReadyIsInstalled};

use std::alloc::{Allocator, Global};

/// States how a core's messages in a ring follow the Ends and the Wrapped messages, in every run from the opening.
///
/// - After its own End in a ring, a core sends only user messages there.
/// - Each user message that it sends there has a greater number than every member's End.
/// - Each front that it reports, except of its opening ring, covers every member's End.
/// - Its own End has a greater number than the Wrapped messages that it had to wait for: one for each user message of
///   the old ring that its commit entry reports as held and that is above `low`, the least reported front.
///
/// Rules: The commit token 2; Recovery 1, 4 and 7
pub fn ends_order_law<A: Allocator + Copy>()
    ensures { (n : ℕ) (events : List (RingEvent A)) (q : ℕ) → KeepsOrder ((run (unformed n) events).cores q) }
{}

/// States three facts about rings that are ready to be installed, in every run from the opening.
///
/// - A core whose recovery is ready holds every number that a transitional member reported, so the test for that always
///   succeeds.
/// - After each event every ring that is ready has been installed.
/// - A processor that holds a user message of a ring within its front has installed that ring.
///
/// Rules: Recovery 7 and 8
pub fn ready_rings_installed_law<A: Allocator + Copy>()
    ensures complete { (n : ℕ) (events : List (RingEvent A)) (q : ℕ) → ReadyIsComplete ((run (unformed n) events).cores q) }
    ensures installed { (n : ℕ) (events : List (RingEvent A)) (q : ℕ) → ReadyIsInstalled ((run (unformed n) events).cores q) }
    ensures heard { (n : ℕ) (events : List (RingEvent A)) → HoldersHaveInstalled (run (unformed n) events) }
{}

/// States that every run from the opening is virtually synchronous.
///
/// Each ring has one text, and delivery is safe. Processors that go on together have the same deliveries. Regular and
/// transitional configurations alternate. Each processor delivers its own messages.
///
/// Rules: Outputs 11
pub fn virtual_synchrony_law<A: Allocator + Copy>()
    ensures { (n : ℕ) (events : List (RingEvent A)) → IsVirtuallySynchronous (run (unformed n) events) }
{}

/// States [`virtual_synchrony_law`] for the allocator that programs use. Nothing calls this function.
///
/// A law is proved for all allocators that meet its bounds; this function shows that `Global` does.
///
/// Rules: Outputs 11
pub fn synchrony_laws_at_global()
    ensures { (n : ℕ) (events : List (RingEvent Heap)) → IsVirtuallySynchronous (run (unformed n) events) }
{
    ends_order_law::<Global>();
    ready_rings_installed_law::<Global>();
    virtual_synchrony_law::<Global>();
}
