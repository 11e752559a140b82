//! An example over two rings: the outputs of a ring change, the text of the old ring, and the rounds of the commit
//! tokens.
//!
//! Rules: The commit token 10; Outputs 5 and 8 to 10

ghost use Rattle.std.specs.Prelude.{◌≡◌, [], ◌∷◌, map, true};
ghost use Rattle.ring_core_proof.specs.declared.event.RingEvent.TheVariants.{Deliver};
ghost use Rattle.ring_core_proof.specs.Worlds.{unformed};
ghost use Rattle.ring_core_proof.specs.CommitRounds.{CommitRounds, takings};
ghost use Rattle.ring_core_proof.specs.Texts.{text_of};
ghost use Rattle.ring_core_proof.specs.Lives.{life_of, stages_of, has_ordered_outputs, delivered_in};
ghost use Rattle.ring_core_proof.specs.Samples.{first_ring, call_at};
ghost use Rattle.ring_core_proof.specs.ChangedRing.{change_events, changed, changed_frames, life_of_two, first_text, summary, hops_of_two, unproposed};
ghost use Rattle.ring_core_proof.specs.ChangedRing.{misnamed};

/// States an example, computed from the definitions, of two processors that change rings.
///
/// They form a ring, a message reaches only its sender, and the token is lost. Both deliver the message when they
/// install a second ring. The example has the frames sent, both lives, the text of the first ring, and the hops that
/// were taken.
///
/// Rules: The commit token 10; Outputs 5 and 8 to 10
pub fn two_change_rings()
    ensures frames { changed.frames ≡ changed_frames }
    ensures first_life { stages_of (life_of changed 1) ≡ life_of_two 1 }
    ensures second_life { stages_of (life_of changed 2) ≡ life_of_two 2 }
    ensures first_told { has_ordered_outputs changed 1 ≡ true }
    ensures second_told { has_ordered_outputs changed 2 ≡ true }
    ensures delivered { map delivered_in (life_of_two 1) ≡ [] ∷ (call_at 2 3 ∷ []) ∷ [] ∷ [] ∷ [] ∷ [] }
    ensures text { text_of changed first_ring ≡ first_text }
    ensures taken { map summary (takings (unformed 2) change_events) ≡ hops_of_two }
    ensures rounds { CommitRounds (unformed 2) change_events }
{}

/// States two examples in which a member takes a commit token that nobody sent, since it can't recognise that.
///
/// `CommitRounds`, the facts of the two rounds, then fails.
///
/// Rules: The commit token 10
pub fn forged_hops()
    ensures taken { map summary (takings unproposed (Deliver 2 1 ∷ [])) ≡ (1, 1, 2) ∷ [] }
    ensures taken_by_outsider { map summary (takings misnamed (Deliver 3 6 ∷ [])) ≡ (1, 2, 3) ∷ [] }
    ensures unproposed { CommitRounds unproposed (Deliver 2 1 ∷ []) → ⊥ }
    ensures misnamed { CommitRounds misnamed (Deliver 3 6 ∷ []) → ⊥ }
{}
