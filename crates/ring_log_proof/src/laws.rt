//! The laws of the one order: for the epochs of all nodes at one moment, between two moments, and along a run.
//!
//! The epochs of all nodes are *consistent* (`ConsistentEpochs`) if they have the facts that the ring core guarantees
//! and the nodes have kept their rules.
//!
//! Rules: The replicated log 2, 6, 8, 12, 16 and 17

ghost use Rattle.std.specs.Prelude.{◌≡◌, ℕ, ◌<◌, ◌≤◌, ◌⊎◌, List, [], length, map, take, drop, All, Contains, Some, None, true, slice_get};
ghost use Rattle.std.specs.List.{AllByRecursion as Each};
ghost use Rattle.std.specs.declared.alloc.Global.{Global as Heap};
ghost use Rattle.ring_base.specs.Prefixes.{IsListPrefix};
ghost use Rattle.ring_base.specs.Group.{Group};
ghost use Rattle.ring_base.specs.Rings.{IsBelow};
ghost use Rattle.ring_base.specs.declared.ring_id.RingId.{RingId};
ghost use Rattle.ring_payload.specs.declared.call.Call.{Call};
ghost use Rattle.ring_payload.specs.declared.calls.Part.{Part};
ghost use Rattle.ring_payload.specs.declared.head.Head.{Head};
ghost use Rattle.ring_payload.specs.declared.content.Payload.TheVariants.{Head as HeadPayload, Part as PartPayload};
ghost use Rattle.ring_log.specs.Messages.{Message};
ghost use Rattle.ring_log.specs.declared.wanted.Wanted.{Wanted};
ghost use Rattle.ring_log.specs.Exchanges.{wanted};
ghost use Rattle.ring_log.specs.Epochs.{Epoch};
ghost use Rattle.ring_log.specs.EpochHistories.{CompleteExchange, complete_exchange, own_base, log_of, committed_of, head_of_epochs, base_of, ring_log, keeps_committed};
ghost use Rattle.ring_log.specs.EpochHistories.{is_sound, whole_epochs};
ghost use Rattle.ring_log.specs.KnownLog.{known_log_of, known_log_head, keeps_kept, is_known_log_sound};
ghost use Rattle.ring_log_proof.specs.RingFacts.{HasEpoch, EpochIn, Rises, AreAbove, IsReceivedByAll, RingFacts};
ghost use Rattle.ring_log_proof.specs.Discipline.{ConsistentEpochs, KeepsDiscipline, DropsOnlyCommitted, DropsCommitted, HasOwnerSnapshots, KeepsRules};
ghost use Rattle.ring_log_proof.specs.Settled.{IsSettled};
ghost use Rattle.ring_log_proof.specs.Views.{IsView};
ghost use Rattle.ring_log_proof.specs.EpochEvents.{IsEpochsExtended, EpochEvent, epochs_after_events, AllMayHappen, SendsOnlyKnown, SendsKnown};
ghost use Rattle.ring_log_proof.specs.EpochEvents.{ConsistentMoment, IsOrderlyRun, last_of_run, committed_at};

use std::alloc::{Allocator, Global};

/// States that the Heads and Parts in a ring's text report their senders' logs truthfully, for all consistent epochs.
///
/// A Head in the text is the one that reports its sender's log before the ring. A Part has the calls of this log at its
/// places. Epochs are consistent if they have the facts of the ring core and the nodes have kept their rules.
///
/// Rules: The replicated log 2
pub fn truthful_heads_law<A: Allocator + Copy>()
    ensures heads { (group : Group) (m : ConsistentEpochs A group) (r : RingId) (k : ℕ) (x : Message A) (head : Head) →
        slice_get (m.text r) k ≡ Some x → x.payload ≡ HeadPayload head →
        (at : EpochIn (m.node_epochs x.sender) r) × (head ≡ head_of_epochs group at.older) }
    ensures parts { (group : Group) (m : ConsistentEpochs A group) (r : RingId) (k : ℕ) (x : Message A) (part : Part A) (at : EpochIn (m.node_epochs x.sender) r) →
        slice_get (m.text r) k ≡ Some x → x.payload ≡ PartPayload part →
        IsListPrefix part.calls (drop part.first (log_of group at.older)) }
{}

/// States that safe logs persist, for all consistent epochs.
///
/// Suppose that every member of a primary ring has received a prefix of its text that contains the ring's whole
/// exchange. Then the ring's log after this prefix is a prefix of the base of every later primary ring that has a base.
/// Epochs are consistent if they have the facts of the ring core and the nodes have kept their rules.
///
/// Rules: The replicated log 17
pub fn safe_log_persists_law<A: Allocator + Copy>()
    ensures { (group : Group) (m : ConsistentEpochs A group) (earlier later : RingId) (safe heard : List (Message A)) (log : List (Call A)) (whole : CompleteExchange A) →
        IsBelow earlier later →
        IsReceivedByAll m.node_epochs earlier (m.members earlier) safe → ring_log group m.node_epochs earlier (m.members earlier) safe ≡ Some log →
        IsListPrefix heard (m.text later) → complete_exchange group (m.members later) heard ≡ Some whole →
        IsListPrefix log (base_of group m.node_epochs later whole.exchange) }
{}

/// States that of any two settled lists of calls one is a prefix of the other, for all consistent epochs.
///
/// A list of calls is settled if it is a prefix of a safe log. That is the log of a primary ring after messages that
/// every member has received, with the ring's whole exchange among them. A settled list stays settled as epochs are
/// extended. Epochs are consistent if they have the facts of the ring core and the nodes have kept their rules.
///
/// Rules: The replicated log 17
pub fn settled_law<A: Allocator + Copy>()
    ensures fronts { (group : Group) (m : ConsistentEpochs A group) (xs ys : List (Call A)) →
        IsSettled group m.node_epochs m.members xs → IsSettled group m.node_epochs m.members ys → IsListPrefix xs ys ⊎ IsListPrefix ys xs }
    ensures stays { (group : Group) (before after : ConsistentEpochs A group) (xs : List (Call A)) →
        ((p : ℕ) → IsEpochsExtended (before.node_epochs p) (after.node_epochs p)) →
        IsSettled group before.node_epochs before.members xs → IsSettled group after.node_epochs after.members xs }
{}

/// States that each node's committed calls are settled, if there are any, and are a prefix of its log.
///
/// Calls are settled if they are a prefix of a safe log: see [`settled_law`]. The committed calls of all nodes are
/// prefixes of one list. As epochs are extended, each node's committed calls only grow. The law holds for all
/// consistent epochs.
///
/// Rules: The replicated log 12, 16 and 17
pub fn committed_calls_law<A: Allocator + Copy>()
    ensures settled { (group : Group) (m : ConsistentEpochs A group) (p : ℕ) →
        (committed_of group (m.node_epochs p) ≡ []) ⊎ IsSettled group m.node_epochs m.members (committed_of group (m.node_epochs p)) }
    ensures front { (group : Group) (m : ConsistentEpochs A group) (p : ℕ) → IsListPrefix (committed_of group (m.node_epochs p)) (log_of group (m.node_epochs p)) }
    ensures one_list { (group : Group) (m : ConsistentEpochs A group) (processors : List ℕ) →
        (log : List (Call A)) × All (λ calls. IsListPrefix calls log) (map (λ p. committed_of group (m.node_epochs p)) processors) }
    ensures grows { (group : Group) (before after : ConsistentEpochs A group) (p : ℕ) →
        ((q : ℕ) → IsEpochsExtended (before.node_epochs q) (after.node_epochs q)) →
        IsListPrefix (committed_of group (before.node_epochs p)) (committed_of group (after.node_epochs p)) }
{}

/// States that a node that has received a ring's whole exchange makes the ring's base from it, for all consistent
/// epochs.
///
/// If the node doesn't restore a snapshot, its own places below the base's `from` are those of the base. The base
/// begins with the places that the node had committed. So no node is ever stopped because a base lacks committed
/// places.
///
/// Rules: The replicated log 6, 8 and 17
pub fn adoption_law<A: Allocator + Copy>()
    ensures base { (group : Group) (m : ConsistentEpochs A group) (p : ℕ) (s : Epoch A) (older : List (Epoch A)) (whole : CompleteExchange A) →
        HasEpoch (m.node_epochs p) s older → complete_exchange group s.members s.heard ≡ Some whole →
        own_base (log_of group older) s.front whole.exchange ≡ base_of group m.node_epochs s.ring whole.exchange }
    ensures first { (group : Group) (m : ConsistentEpochs A group) (p : ℕ) (s : Epoch A) (older : List (Epoch A)) (whole : CompleteExchange A) (w : Wanted) →
        HasEpoch (m.node_epochs p) s older → complete_exchange group s.members s.heard ≡ Some whole → wanted whole.exchange ≡ Some w →
        (w.snapshot ≡ None) ⊎ (w.from ≤ length (committed_of group older)) →
        take w.from (log_of group older) ≡ take w.from (base_of group m.node_epochs s.ring whole.exchange) }
    ensures committed { (group : Group) (m : ConsistentEpochs A group) (p : ℕ) (s : Epoch A) (older : List (Epoch A)) →
        HasEpoch (m.node_epochs p) s older →
        keeps_committed (log_of group older) s.front (committed_of group older) (complete_exchange group s.members s.heard) ≡ true }
{}

/// States that the log that a node knows is its whole log without the places that its last restored snapshot replaces.
///
/// The law holds for all epochs of a node that are sound and in which only committed places were dropped. Epochs are
/// sound if each base begins with the places committed before. The node's Head then reports the whole log. If each base
/// begins with the places committed before, the known log is sound exactly if the whole log is.
///
/// All this holds for all consistent epochs. In these, no node finds by its known log that a base lacks committed
/// places.
///
/// Rules: The replicated log 1, 8 and 20
pub fn known_log_law<A: Allocator + Copy>()
    ensures rests { (group : Group) (epochs : List (Epoch A)) → is_sound group epochs ≡ true → DropsOnlyCommitted group epochs → IsView group epochs }
    ensures head { (group : Group) (epochs : List (Epoch A)) → is_sound group epochs ≡ true → DropsOnlyCommitted group epochs →
        known_log_head (known_log_of group epochs) ≡ head_of_epochs group epochs }
    ensures sound { (group : Group) (epochs : List (Epoch A)) →
        ((s : Epoch A) (older : List (Epoch A)) → HasEpoch epochs s older →
        keeps_committed (log_of group older) s.front (committed_of group older) (complete_exchange group s.members s.heard) ≡ true) →
        DropsOnlyCommitted group epochs → is_known_log_sound group epochs ≡ is_sound group epochs }
    ensures orderly { (group : Group) (m : ConsistentEpochs A group) (p : ℕ) →
        IsView group (m.node_epochs p) × (is_known_log_sound group (m.node_epochs p) ≡ is_sound group (m.node_epochs p)) }
    ensures keeps { (group : Group) (m : ConsistentEpochs A group) (p : ℕ) (s : Epoch A) (older : List (Epoch A)) →
        HasEpoch (m.node_epochs p) s older → keeps_kept (known_log_of group older) s.ring (complete_exchange group s.members s.heard) ≡ true }
{}

/// States that epochs can be filled with the places that snapshots replace, without breaking a fact or a rule.
///
/// The facts are those of the ring core, and the rules those of the nodes. The epochs of each node are filled ring by
/// ring, up to a number above all its rings. Each snapshot then replaces the first places of the log that its sender
/// had before its ring. Filled epochs have the same facts, keep the same rules, and are extended as the unfilled ones
/// are. The places of a snapshot are fixed once its ring's exchange is complete.
///
/// Rules: The replicated log 4, 6 and 16
pub fn snapshot_places_law<A: Allocator + Copy>()
    ensures stand { (group : Group) (node_epochs : ℕ → List (Epoch A)) → ((p : ℕ) → Rises (node_epochs p)) → (bounds : ℕ → ℕ) → AreAbove node_epochs bounds →
        HasOwnerSnapshots group (λ p. whole_epochs group node_epochs (bounds p) p) }
    ensures facts { (group : Group) (node_epochs : ℕ → List (Epoch A)) (members : RingId → ℕ) (text : RingId → List (Message A)) → RingFacts node_epochs members text →
        (bounds : ℕ → ℕ) → RingFacts (λ p. whole_epochs group node_epochs (bounds p) p) members text }
    ensures rules { (group : Group) (node_epochs : ℕ → List (Epoch A)) → ((p : ℕ) → Rises (node_epochs p)) → KeepsDiscipline group node_epochs → DropsCommitted group node_epochs →
        (bounds : ℕ → ℕ) → AreAbove node_epochs bounds → KeepsRules group (λ p. whole_epochs group node_epochs (bounds p) p) }
    ensures goes_on { (group : Group) (node_epochs after : ℕ → List (Epoch A)) (members : RingId → ℕ) (text : RingId → List (Message A)) →
        RingFacts node_epochs members text → KeepsDiscipline group node_epochs → DropsCommitted group node_epochs → ((p : ℕ) → Rises (after p)) →
        ((p : ℕ) → IsEpochsExtended (node_epochs p) (after p)) → (bounds more : ℕ → ℕ) → AreAbove node_epochs bounds → AreAbove after more →
        (p : ℕ) → IsEpochsExtended (whole_epochs group node_epochs (bounds p) p) (whole_epochs group after (more p) p) }
{}

/// States that each call of a log was handed to some core in a Call, whatever Parts have carried it since.
///
/// So a list that contains every call handed over, such as the list of issued calls, contains every call of every log,
/// committed or not. The law holds for all consistent epochs.
///
/// Rules: The replicated log 10 and 11; Sessions 10
pub fn only_issued_calls_law<A: Allocator + Copy>()
    ensures logs { (group : Group) (m : ConsistentEpochs A group) (issued : List (Call A)) (p : ℕ) →
        SendsOnlyKnown (Contains issued) m.node_epochs → Each (Contains issued) (log_of group (m.node_epochs p)) }
    ensures committed { (group : Group) (m : ConsistentEpochs A group) (issued : List (Call A)) (p : ℕ) →
        SendsOnlyKnown (Contains issued) m.node_epochs → Each (Contains issued) (committed_of group (m.node_epochs p)) }
{}

/// States that the outputs of a core and the payloads that its node hands over extend the node's epochs and keep the
/// rules.
///
/// The law holds for every list of events that may happen: marks don't fall, and dropped places are committed. The node
/// hands over its Head first, and then only payloads that may follow a Head. If a node hands over only issued calls,
/// then only issued calls were ever handed over. All places that were ever dropped are committed.
///
/// Rules: The replicated log 2, 10 and 20
pub fn events_extend_epochs_law<A: Allocator + Copy>()
    ensures goes_on { (group : Group) (epochs : List (Epoch A)) (events : List (EpochEvent A)) →
        AllMayHappen group epochs events → IsEpochsExtended epochs (epochs_after_events epochs events) }
    ensures discipline { (group : Group) (node_epochs after : ℕ → List (Epoch A)) (events : ℕ → List (EpochEvent A)) →
        ((p : ℕ) → AllMayHappen group (node_epochs p) (events p)) → ((p : ℕ) → after p ≡ epochs_after_events (node_epochs p) (events p)) →
        KeepsDiscipline group node_epochs → KeepsDiscipline group after }
    ensures issued { (issued : List (Call A)) (node_epochs after : ℕ → List (Epoch A)) (events : ℕ → List (EpochEvent A)) →
        ((p : ℕ) → Each (SendsKnown (Contains issued)) (events p)) → ((p : ℕ) → after p ≡ epochs_after_events (node_epochs p) (events p)) →
        SendsOnlyKnown (Contains issued) node_epochs → SendsOnlyKnown (Contains issued) after }
    ensures drops { (group : Group) (node_epochs after : ℕ → List (Epoch A)) (events : ℕ → List (EpochEvent A)) →
        ((p : ℕ) → AllMayHappen group (node_epochs p) (events p)) → ((p : ℕ) → after p ≡ epochs_after_events (node_epochs p) (events p)) →
        DropsCommitted group node_epochs → DropsCommitted group after }
{}

/// States that each node's committed calls only grow along every run of consistent moments.
///
/// In such a run all calls handed over by a moment have been issued, and epochs are extended from each moment to the
/// next. At each moment the committed calls of all nodes are prefixes of one list, and all have been issued.
///
/// Rules: The replicated log 12 and 17; Sessions 10 and 11
pub fn committed_calls_grow_law<A: Allocator + Copy>()
    ensures grows { (group : Group) (moment : ConsistentMoment A group) (rest : List (ConsistentMoment A group)) (p : ℕ) → IsOrderlyRun moment rest →
        IsListPrefix (committed_at moment p) (committed_at (last_of_run moment rest) p) }
    ensures one_list { (group : Group) (moment : ConsistentMoment A group) (processors : List ℕ) →
        (log : List (Call A)) × All (λ calls. IsListPrefix calls log) (map (committed_at moment) processors) }
    ensures issued { (group : Group) (moment : ConsistentMoment A group) (p : ℕ) → Each (Contains moment.issued) (committed_at moment p) }
{}

/// States a part of [`committed_calls_law`] for the allocator that programs use. Nothing calls this function.
///
/// A law is proved for all allocators that meet its bounds; this function shows that `Global` does.
///
/// Rules: The replicated log 16
pub fn log_laws_at_global()
    ensures { (group : Group) (m : ConsistentEpochs Heap group) (p : ℕ) → IsListPrefix (committed_of group (m.node_epochs p)) (log_of group (m.node_epochs p)) }
{
    truthful_heads_law::<Global>();
    safe_log_persists_law::<Global>();
    settled_law::<Global>();
    adoption_law::<Global>();
    known_log_law::<Global>();
    only_issued_calls_law::<Global>();
    events_extend_epochs_law::<Global>();
    committed_calls_grow_law::<Global>();
    committed_calls_law::<Global>();
}
