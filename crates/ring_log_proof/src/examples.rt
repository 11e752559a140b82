//! Examples of the epochs of three processors, computed from the definitions.
//!
//! Rules: The replicated log 16; Outputs 11

ghost use Rattle.std.specs.Prelude.{◌≡◌, ℕ, List, [], ◌∷◌, Some, None, length};
ghost use Rattle.std.specs.declared.alloc.Global.{Global};
ghost use Rattle.ring_log.specs.Examples.{group_of_three};
ghost use Rattle.ring_log.specs.EpochHistories.{log_of, last_of, committed_of, is_sound, exchange_end, ring_log};
ghost use Rattle.ring_log_proof.specs.RingFacts.{RingFacts};
ghost use Rattle.ring_log_proof.specs.Discipline.{KeepsDiscipline};
ghost use Rattle.ring_log_proof.specs.Examples.{first_ring, second_ring, call_by, text, members, second_exchange, second_text, node_epochs, lives_with};
ghost use Rattle.ring_log_proof.specs.Examples.{life_of_one, life_of_two, life_of_three, missing_heads, misheard, smaller, silent, falling, older_head, late_head};
ghost use Rattle.ring_log_proof.specs.Examples.{wrong_part};

/// States an example of consistent epochs: of three processors that formed a ring, two go on in a second one.
///
/// Their epochs have the facts that the ring core guarantees, the nodes keep their rules, and the logs, the committed
/// places and the exchange are as listed.
///
/// Rules: The replicated log 16; Outputs 11
pub fn epochs_of_three()
    ensures facts { RingFacts node_epochs members text }
    ensures discipline { KeepsDiscipline group_of_three node_epochs }
    ensures log_of_one { log_of group_of_three life_of_one ≡ call_by 7 ∷ call_by 9 ∷ [] }
    ensures log_of_two { log_of group_of_three life_of_two ≡ call_by 7 ∷ [] }
    ensures last_of_two { last_of group_of_three life_of_two ≡ Some second_ring }
    ensures committed_of_one { committed_of group_of_three life_of_one ≡ call_by 7 ∷ [] }
    ensures committed_of_two { committed_of group_of_three life_of_two ≡ [] }
    ensures committed_of_three { committed_of group_of_three life_of_three ≡ [] }
    ensures end { exchange_end group_of_three 3 second_text ≡ Some 5 }
    ensures log { ring_log group_of_three node_epochs second_ring 3 second_exchange ≡ Some (call_by 7 ∷ []) }
{}

/// States examples of epochs that processor 2 can't have had. Each breaks at least one fact of the ring core or one
/// rule of nodes.
///
/// - `missing_heads`: processor 1 knows messages as safe that processor 2 hasn't received.
/// - `misheard`: it received a Head that isn't in the ring's text.
/// - `smaller`: its epoch in the ring names fewer members than the ring has.
/// - `silent`: the ring's text has a payload of it that it never handed over.
/// - `falling`: the ring numbers fall.
/// - `older_head`: its Head names no last primary, although it had adopted a ring.
/// - `late_head`: its Head comes after a call.
/// - `wrong_part`: its Part has a place that isn't in its log.
///
/// Rules: Outputs 11; The replicated log 2
pub fn impossible_epochs()
    ensures missing_heads { RingFacts (lives_with missing_heads) members text → ⊥ }
    ensures misheard { RingFacts (lives_with misheard) members text → ⊥ }
    ensures smaller { RingFacts (lives_with smaller) members text → ⊥ }
    ensures silent { RingFacts (lives_with silent) members text → ⊥ }
    ensures falling { RingFacts (lives_with falling) members text → ⊥ }
    ensures older_head { KeepsDiscipline group_of_three (lives_with older_head) → ⊥ }
    ensures late_head { KeepsDiscipline group_of_three (lives_with late_head) → ⊥ }
    ensures wrong_part { KeepsDiscipline group_of_three (lives_with wrong_part) → ⊥ }
{}
