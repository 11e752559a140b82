//! Worked runs of ring cores beside those of `ring_core_proof`, and what a visit makes of a send queue.
//! Formats: two tokens; runs of a queue

ghost use Rattle.std.specs.Prelude.{◌≡◌, [], ◌∷◌, ◌++◌};
ghost use Rattle.ring_core_spec.specs.Visiting.{new_payloads};
ghost use Rattle.ring_core_proof.specs.Worlds.{run, run_formed, unformed};
ghost use Rattle.ring_core_proof.specs.Samples.{empty_head, token_at};
ghost use Rattle.ring_core_proof.specs.FormedRing.{first_token_again};
ghost use Rattle.ring_core_proof.specs.PackedCalls.{calls_from, calls_of_size, waiting, pack_of, queueing};
ghost use Rattle.ring_synchrony_examples.specs.WorkedRuns.{hop_again, taken_once, idle_but_one, two_lack, visits_in, two_asked_for};
ghost use Rattle.ring_synchrony_examples.specs.WorkedRuns.{one_part, around_part, seven_and_two};

/// States an example: all outputs of three processors, one of which gathers anew once it took a hop of a commit token. It
/// takes no hop of that ring any more.
/// Rules: The commit token 5 and 6
pub fn hop_is_taken_once()
    ensures { (run (unformed 3) hop_again).outs ≡ taken_once }
{}

/// States an example: of the timeouts on a formed ring only `retransmit` acts, where a token is kept.
/// Rules: Timeouts 2 and 3
pub fn one_token_is_kept()
    ensures { (run_formed 2 idle_but_one).outs ≡ first_token_again }
{}

/// States an example: two lost messages are requested and sent again, and hold the safe marks back. It gives the outputs of the
/// visits.
/// Rules: Token and window 6 to 8 and 10
/// Formats: two tokens
pub fn two_are_lost()
    ensures { visits_in (run_formed 3 two_lack).outs ≡ two_asked_for }
{}

/// States examples of packing: what isn't a call goes alone, and a call that doesn't fit a Pack begins the next message.
/// Rules: Token and window 9
/// Formats: runs of a queue
pub fn runs_of_a_queue()
    ensures around { new_payloads (queueing around_part) (token_at 5 0) ≡ waiting (calls_from 1 1) ++ one_part ∷ pack_of (calls_from 2 2) ∷ [] }
    ensures alone { new_payloads (queueing (empty_head ∷ one_part ∷ [])) (token_at 5 0) ≡ empty_head ∷ one_part ∷ [] }
    ensures next { new_payloads (queueing seven_and_two) (token_at 5 0) ≡ pack_of (calls_of_size 1024 7) ∷ pack_of (calls_from 1 2) ∷ [] }
{}
