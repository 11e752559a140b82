//! Worked examples, computed from the definitions.
//!
//! Formats: Worked examples

ghost use Rattle.std.specs.Prelude.{◌≡◌, ℕ, List, ◌+◌, ◌^◌, ◌-◌, length, drop, [], ◌∷◌, Some, None, map, false, true};
ghost use Rattle.std.specs.declared.alloc.Global.{Global};
ghost use Rattle.ring_base.specs.Numbers.{max_number, numbers_from};
ghost use Rattle.ring_payload.specs.declared.content.Payload.TheVariants.{Call as CallPayload, End};
ghost use Rattle.ring_wire.specs.declared.frame.Frame.TheVariants.{Message as MessageFrame, Join as JoinFrame, Commit as CommitFrame};
ghost use Rattle.ring_core_spec.specs.Tokens.{first_token, mark_from_arus};
ghost use Rattle.ring_core_spec.specs.Joins.{gathering_opening, join_merged, silent_given_up, new_number};
ghost use Rattle.ring_core_spec.specs.Recoveries.{safe, low, gap, least_mark, is_complete, rest_messages, delivery, finish};
ghost use Rattle.ring_core_spec.specs.declared.input.Input.TheVariants.{Frame as FrameInput, Timeout, Send};
ghost use Rattle.ring_base.specs.declared.timeout_kind.Kind.TheVariants.{Retransmit, Join as JoinTime, Consensus, Loss};
ghost use Rattle.ring_core_spec.specs.declared.out.Out.TheVariants.{Agreed};
ghost use Rattle.ring_base.specs.declared.state.State.TheVariants.{Recovery, Operational};
ghost use Rattle.ring_core_spec.specs.State.{opening, halted};
ghost use Rattle.ring_core_spec.specs.Views.{front, mark, takes_number, own_entry, plan};
ghost use Rattle.ring_core_spec.specs.Visiting.{accepts, messages_sent_again, payloads_to_send, new_payloads, token_forwarded, token_visited};
ghost use Rattle.ring_core_spec.specs.Joining.{proposes};
ghost use Rattle.ring_core_spec.specs.Giving.{may_install};
ghost use Rattle.ring_core_spec.specs.Deciding.{decide, Ignore, Take, EnterGather, Agree, MergeJoin, EnterGatherAndAgree, EnterGatherAndMergeJoin, Visit, Fill, Learn};
ghost use Rattle.ring_core_spec.specs.Stepping.{ring_step};
ghost use Rattle.ring_core_proof.specs.Worlds.{run, run_formed, unformed};
ghost use Rattle.ring_core_proof.specs.Samples.{first_ring, second_ring, ring_of, add_five, message_of, call_at};
ghost use Rattle.ring_core_proof.specs.Samples.{wrapped_call, empty_head, token_of, token_frame, token_at, join_of};
ghost use Rattle.ring_core_proof.specs.Samples.{join_frame, report_of, empty_report, commit_of, commit_frame, holding};
ghost use Rattle.ring_core_proof.specs.FormedRing.{loss_events, loss_outs, idle_timeouts, repeat_timeout, first_token_again};
ghost use Rattle.ring_core_proof.specs.FirstRings.{three_after, three_frames, states_of_three, configurations_of};
ghost use Rattle.ring_core_proof.specs.FirstRings.{first_configurations, silent_events, silent_frames, lone_events};
ghost use Rattle.ring_core_proof.specs.FirstRings.{lone_outs, lone_hop, three_reports, join_to_others, stop_events};
ghost use Rattle.ring_core_proof.specs.FirstRings.{idle_events};
ghost use Rattle.ring_core_proof.specs.SingleSteps.{step_with_frame, lacking, having, token_of_ten, asking_token, asks, sends_again};
ghost use Rattle.ring_core_proof.specs.SingleSteps.{holed, marked, sending, near_greatest, floored, stranger};
ghost use Rattle.ring_core_proof.specs.SingleSteps.{marked_at_five, asks_three_and_seven, gathering_from, formed_three};
ghost use Rattle.ring_core_proof.specs.SingleSteps.{opened_three, in_ring_of_two, invitation, gathering_alone, gave_up_two};
ghost use Rattle.ring_core_proof.specs.SingleSteps.{gives_up_and_proposes, hop_at_three, committing, returned};
ghost use Rattle.ring_core_proof.specs.PackedCalls.{calls_from, calls_of_size, seven_and, waiting, pack_of, queueing};
ghost use Rattle.ring_core_proof.specs.PackedCalls.{around_head, two_and_head, five_times, nine_events, nine_outs};
ghost use Rattle.ring_core_proof.specs.PackedCalls.{packed_message, with_pack, wrapped_pack, handed_on, piece};
ghost use Rattle.ring_core_proof.specs.Recoveries.{with_four, with_three, with_all, with_ends, past_gap, mixed};

/// States an example of a formed ring of two: a message is lost once, requested, and sent again.
///
/// Then both agree on the message and report it as safe. In two more runs, a retransmit timeout sends the first token
/// again, and the other three timeouts, which aren't events of a formed ring, have no outputs.
///
/// Rules: Rings and states 14; Timeouts 3; Token and window 7, 8 and 10
/// Formats: formed ring of two
pub fn formed_ring_of_two()
    ensures loss { (run_formed 2 loss_events).outs ≡ loss_outs }
    ensures idle { (run_formed 2 idle_timeouts).outs ≡ [] }
    ensures again { (run_formed 2 repeat_timeout).outs ≡ first_token_again }
{}

/// States an example of three processors that gather and pass the commit token round twice.
///
/// It has all frames sent, and the states at the end, which are Recovery.
///
/// Rules: Gather 10; The commit token 4 to 6
/// Formats: commit token of three
pub fn three_gather()
    ensures frames { (three_after 12).frames ≡ three_frames }
    ensures states { states_of_three (three_after 12) ≡ Recovery ∷ Recovery ∷ Recovery ∷ [] }
{}

/// States an example of two processors that give up a silent third and propose a ring of two. It has all frames sent.
///
/// Rules: Gather 4 to 7
/// Formats: one silent
pub fn third_is_silent()
    ensures { (run (unformed 3) silent_events).frames ≡ silent_frames }
{}

/// States an example of three processors that install their first ring, each once. It has their configurations.
///
/// Rules: Recovery 7; Outputs 1
/// Formats: installed once
pub fn three_install()
    ensures one { configurations_of 1 (three_after 100) ≡ first_configurations 1 }
    ensures two { configurations_of 2 (three_after 100) ≡ first_configurations 2 }
    ensures three { configurations_of 3 (three_after 100) ≡ first_configurations 3 }
{}

/// States an example of a group of one: all its outputs, from the first timeout to a call that is safe.
///
/// Rules: The commit token 9; Outputs 1
pub fn outputs_of_ring_of_one()
    ensures { (run (unformed 1) lone_events).outs ≡ lone_outs }
{}

/// States an example of a token that arrives at a processor that lacks messages, which requests them.
///
/// When the same token arrives there again, it changes nothing. When the forwarded token arrives at a processor that
/// holds the messages, it sends them again.
///
/// Rules: Token and window 6 to 8
/// Formats: two tokens; repeated token
pub fn token_asks_for_messages()
    ensures asks { (step_with_frame lacking token_of_ten).outs ≡ asks }
    ensures again_outs { (step_with_frame (step_with_frame lacking token_of_ten).core token_of_ten).outs ≡ [] }
    ensures again_core { (step_with_frame (step_with_frame lacking token_of_ten).core token_of_ten).core ≡ (step_with_frame lacking token_of_ten).core }
    ensures sends_again { (step_with_frame having asking_token).outs ≡ sends_again }
{}

/// States the safe mark after each of four visits that forward the `aru` 10, 8, 10 and 10: 0, 8, 8 and 10.
///
/// Rules: Token and window 10
pub fn safe_marks()
    ensures first { mark_from_arus (10 ∷ []) ≡ 0 }
    ensures second { mark_from_arus (8 ∷ 10 ∷ []) ≡ 8 }
    ensures third { mark_from_arus (10 ∷ 8 ∷ 10 ∷ []) ≡ 8 }
    ensures fourth { mark_from_arus (10 ∷ 10 ∷ 8 ∷ 10 ∷ []) ≡ 10 }
{}

/// States an example of two processors from one old ring: each wraps what the other lacks, and both deliver the same
/// messages.
///
/// Rules: Recovery 1, 4, 7 and 8
/// Formats: wrapped plan
pub fn plan_of_two()
    ensures low { low (plan with_four) ≡ 2 }
    ensures gap { gap (plan with_four) ≡ 5 }
    ensures first_wraps { payloads_to_send Recovery with_four 8 ≡ wrapped_call 1 4 ∷ End ∷ [] }
    ensures second_wraps { payloads_to_send Recovery with_three 8 ≡ wrapped_call 1 3 ∷ End ∷ [] }
    ensures not_yet { finish (plan with_four) with_four.held ≡ None }
    ensures then { finish (plan (with_all 1)) (with_all 1).held ≡ Some (record { regular = []; transitional = 1 ∷ 2 ∷ 3 ∷ 4 ∷ []; past_gap = [] }) }
    ensures installs { may_install (with_ends (with_all 1)) ≡ true }
    ensures waits { may_install (with_ends with_four) ≡ false }
    ensures first_gives { rest_messages (plan (with_all 1)) (with_all 1).held ≡ map (call_at 1) (1 ∷ 2 ∷ 3 ∷ 4 ∷ []) }
    ensures second_gives { rest_messages (plan (with_all 2)) (with_all 2).held ≡ map (call_at 1) (1 ∷ 2 ∷ 3 ∷ 4 ∷ []) }
{}

/// States an example of a plan: two processors come from one old ring, and the third member comes from another.
///
/// The two report the safe marks 1 and 2.
///
/// Rules: Recovery 1 and 8
pub fn plan_of_mixed_rings()
    ensures transitional_members { (plan mixed).transitional_members ≡ 3 }
    ensures least_mark { least_mark (plan mixed) ≡ 1 }
    ensures safe { safe (plan mixed) ≡ 2 }
    ensures low { low (plan mixed) ≡ 2 }
    ensures gap { gap (plan mixed) ≡ 5 }
    ensures parts { delivery (plan mixed) mixed.held ≡ record { regular = 2 ∷ []; transitional = 3 ∷ 4 ∷ []; past_gap = [] } }
{}

/// States an example of two messages past a gap: one is delivered and the other discarded.
///
/// A transitional member sent the one that is delivered, an outsider the other.
///
/// Rules: Recovery 8 and 9
/// Formats: past the gap
pub fn plan_with_gap()
    ensures transitional_members { (plan past_gap).transitional_members ≡ 3 }
    ensures gap { gap (plan past_gap) ≡ 3 }
    ensures parts { delivery (plan past_gap) past_gap.held ≡ record { regular = []; transitional = 1 ∷ 2 ∷ []; past_gap = 4 ∷ [] } }
    ensures gives { rest_messages (plan past_gap) past_gap.held ≡ map (call_at 1) (1 ∷ 2 ∷ 4 ∷ []) }
{}

/// States an example of a window with holes: its front, its entry and its new numbers, before and after its safe mark
/// rises.
///
/// Rules: Token and window 2 to 4; The commit token 2
/// Formats: window of bits
pub fn window_with_holes()
    ensures front { front (holed (1 ∷ 2 ∷ 4 ∷ 256 ∷ [])) first_ring ≡ 2 }
    ensures report { own_entry (holed (1 ∷ 2 ∷ 4 ∷ 256 ∷ [])) ≡ report_of first_ring 2 0 (2 + 2 ^ 253) }
    ensures outside { takes_number (holed (1 ∷ 2 ∷ 4 ∷ 256 ∷ [])) first_ring 257 ≡ false }
    ensures inside { takes_number (marked 2 (holed (1 ∷ 2 ∷ 4 ∷ 256 ∷ []))) first_ring 257 ≡ true }
    ensures last { takes_number (marked 2 (holed (1 ∷ 2 ∷ 4 ∷ 256 ∷ 257 ∷ []))) first_ring 258 ≡ true }
    ensures past { takes_number (marked 2 (holed (1 ∷ 2 ∷ 4 ∷ 256 ∷ 257 ∷ 258 ∷ []))) first_ring 259 ≡ false }
    ensures later_report { own_entry (marked 2 (holed (1 ∷ 2 ∷ 4 ∷ 256 ∷ 257 ∷ 258 ∷ []))) ≡ report_of first_ring 2 2 (2 + (2 ^ 253 + (2 ^ 254 + 2 ^ 255))) }
{}

/// States examples at the limits and just past them.
///
/// - The limits are the 256 numbers of the window, the 8 new messages of a visit, the 32 requests of a token, and `MAX`
///   as a message, token and ring number.
/// - A request at or below the safe mark isn't answered.
/// - A token whose `seq` is below the greatest number held isn't accepted.
/// - A frame that names a processor outside the group is ignored.
///
/// Rules: Limits 1 and 2; Token and window 6, 7 and 9; Gather 10; Processors and sets 5
pub fn examples_at_limits()
    ensures window { length (new_payloads (sending 250) (token_at 5 250)) ≡ 6 }
    ensures left_over { length (token_visited (sending 250) (token_at 5 250)).core.queue ≡ 4 }
    ensures batch { length (new_payloads (sending 10) (token_at 5 10)) ≡ 8 }
    ensures requests { (token_forwarded (holding 3 2 []) (token_at 5 50)).requests ≡ numbers_from 1 32 }
    ensures old_request { messages_sent_again marked_at_five asks_three_and_seven ≡ call_at 1 7 ∷ [] }
    ensures message { length (new_payloads near_greatest (token_at 5 (max_number - 2))) ≡ 2 }
    ensures token_below { accepts (sending 0) (token_at (max_number - 1) 0) ≡ true }
    ensures token_greatest { accepts (sending 0) (token_at max_number 0) ≡ false }
    ensures token_behind { accepts (sending 10) (token_at 5 9) ≡ false }
    ensures ring_below { proposes (floored (max_number - 1)) ≡ true }
    ensures ring_greatest { proposes (floored max_number) ≡ false }
    ensures named { decide (opening 3 1) (FrameInput stranger) ≡ Ignore }
{}

/// States examples of how a visit packs its queue: consecutive calls, as many as fit one message, become a Pack.
///
/// Any other payload becomes a message of its own. Recovery wraps and unwraps a Pack whole.
///
/// Rules: Token and window 9; Recovery 4 and 6
/// Formats: runs of a queue; nine calls in one visit
pub fn packed_calls()
    ensures nine { new_payloads (queueing (waiting (calls_from 1 9))) (token_at 5 0) ≡ pack_of (calls_from 1 9) ∷ [] }
    ensures nine_outs { drop 9 (run (unformed 1) nine_events).outs ≡ nine_outs }
    ensures one { new_payloads (queueing (waiting (calls_from 1 1))) (token_at 5 0) ≡ waiting (calls_from 1 1) }
    ensures sixteen { new_payloads (queueing (waiting (calls_from 1 16))) (token_at 5 0) ≡ pack_of (calls_from 1 16) ∷ [] }
    ensures seventeen { new_payloads (queueing (waiting (calls_from 1 17))) (token_at 5 0) ≡ pack_of (calls_from 1 16) ∷ waiting (calls_from 17 1) }
    ensures long { new_payloads (queueing (waiting (calls_of_size 1024 8))) (token_at 5 0) ≡ pack_of (calls_of_size 1024 7) ∷ waiting (calls_of_size 1024 1) }
    ensures greatest { new_payloads (queueing (waiting (seven_and 162))) (token_at 5 0) ≡ pack_of (seven_and 162) ∷ [] }
    ensures past_greatest { new_payloads (queueing (waiting (seven_and 163))) (token_at 5 0) ≡ pack_of (calls_of_size 1000 7) ∷ waiting (calls_of_size 163 1) }
    ensures around { new_payloads (queueing around_head) (token_at 5 0) ≡ pack_of (calls_from 1 2) ∷ empty_head ∷ pack_of (calls_from 3 3) ∷ [] }
    ensures batch { length (new_payloads (queueing five_times) (token_at 5 0)) ≡ 8 }
    ensures left_over { (token_visited (queueing five_times) (token_at 5 0)).core.queue ≡ two_and_head 9 }
    ensures window { new_payloads (queueing five_times) (token_at 5 255) ≡ pack_of (calls_from 1 2) ∷ [] }
    ensures wraps { payloads_to_send Recovery with_pack 8 ≡ wrapped_pack ∷ End ∷ [] }
    ensures unwraps { (step_with_frame with_three (MessageFrame handed_on)).core.held ≡ packed_message ∷ handed_on ∷ with_three.held }
{}

/// States examples of rare cases in each state.
///
/// - A message of a ring that was left is taken, or is ignored once the node has taken part in a newer ring.
/// - Entering Gather empties the send queue.
/// - Some joins are ignored by a node in a ring, and some make it enter Gather.
/// - The sets are widened by those of a sender that has given up this node, or only another.
/// - A proposal follows a timeout, but not an ignored frame.
/// - A join timeout in Operational sends a join to the processors outside the ring, if there are any.
/// - A stopped node has no outputs.
///
/// Rules: Rings and states 8 and 12; Gather 1, 5, 10, 12 and 13; Timeouts 3 and 4; Token and window 11
pub fn rare_cases()
    ensures left_ring { decide (gathering_from 1) (FrameInput (MessageFrame (call_at 2 1))) ≡ Take (call_at 2 1) }
    ensures newer_floor { decide (gathering_from 2) (FrameInput (MessageFrame (call_at 2 1))) ≡ Ignore }
    ensures queue { (ring_step (sending 3) (Timeout Loss)).core.queue ≡ [] }
    ensures old_join { decide (in_ring_of_two Operational) (FrameInput (JoinFrame (join_of 2 0 7 0))) ≡ Ignore }
    ensures member_join { decide (in_ring_of_two Operational) (FrameInput (JoinFrame (join_of 2 1 7 0))) ≡ EnterGatherAndMergeJoin (join_of 2 1 7 0) }
    ensures outside { decide (in_ring_of_two Operational) (FrameInput (JoinFrame (join_of 3 0 7 0))) ≡ EnterGatherAndMergeJoin (join_of 3 0 7 0) }
    ensures outside_ignored { decide (in_ring_of_two Recovery) (FrameInput (JoinFrame (join_of 3 0 7 0))) ≡ Ignore }
    ensures smaller { decide (in_ring_of_two Operational) (FrameInput (JoinFrame (join_of 2 1 2 0))) ≡ EnterGather }
    ensures gives_up_its_judge { (join_merged 1 (gathering_opening 7) (join_of 2 0 7 5)).fail_set ≡ 2 }
    ensures gives_up_alike { (join_merged 1 (gathering_opening 7) (join_of 2 0 7 4)).fail_set ≡ 4 }
    ensures no_proposal { (ring_step (opening 1 1) (FrameInput token_of_ten)).outs ≡ [] }
    ensures repeat_proposes { (ring_step (opening 1 1) (Timeout Retransmit)).outs ≡ lone_hop 1 ∷ [] }
    ensures invites { (ring_step (in_ring_of_two Operational) (Timeout JoinTime)).outs ≡ invitation }
    ensures invites_nobody { (ring_step formed_three (Timeout JoinTime)).outs ≡ [] }
    ensures stopped { (ring_step (halted formed_three) (Timeout Loss)).outs ≡ [] }
{}

/// States examples of joins: what each does in Gather, and which of them make a node enter it.
///
/// They also show how giving up leads to a proposal, and the number of the proposed ring.
///
/// Rules: Gather 3 to 6, 10, 12 and 13
pub fn join_examples()
    ensures own { decide (opening 3 1) (FrameInput (join_frame 1 0 7 0)) ≡ Ignore }
    ensures silent_given_up { decide gave_up_two (FrameInput (join_frame 2 0 7 0)) ≡ Ignore }
    ensures same { decide (opening 3 1) (FrameInput (join_frame 2 0 7 0)) ≡ Agree (join_of 2 0 7 0) }
    ensures smaller { decide (opening 3 1) (FrameInput (join_frame 2 0 2 0)) ≡ Ignore }
    ensures wider { decide (opening 3 1) (FrameInput (join_frame 2 0 7 4)) ≡ MergeJoin (join_of 2 0 7 4) }
    ensures agrees_at_once { join_merged 1 gathering_alone (join_of 2 5 3 0) ≡ record { proc_set = 3; fail_set = 0; counted_joins = join_of 2 5 3 0 ∷ [] } }
    ensures falls_back { join_merged 1 gathering_alone (join_of 2 5 2 0) ≡ record { proc_set = 3; fail_set = 0; counted_joins = [] } }
    ensures next_number { new_number 4 (join_merged 1 gathering_alone (join_of 2 9 3 0)) ≡ 10 }
    ensures floor_counts { new_number 12 (join_merged 1 gathering_alone (join_of 2 9 3 0)) ≡ 13 }
    ensures gives_up { silent_given_up 1 (join_merged 1 gathering_alone (join_of 2 5 2 0)) ≡ record { proc_set = 3; fail_set = 2; counted_joins = [] } }
    ensures then_proposes { (ring_step (opening 2 1) (Timeout Consensus)).outs ≡ gives_up_and_proposes }
    ensures in_commit { decide ((three_after 6).cores 1) (FrameInput (join_frame 2 1 7 0)) ≡ EnterGatherAndAgree (join_of 2 1 7 0) }
    ensures old_in_commit { decide ((three_after 6).cores 1) (FrameInput (join_frame 2 0 7 0)) ≡ Ignore }
    ensures stopped { decide (halted formed_three) (FrameInput (join_frame 2 1 7 0)) ≡ Ignore }
{}

/// States examples of timeouts by state: which of them have an effect.
///
/// A retransmission sends the kept token until Gather is entered.
///
/// Rules: Timeouts 2 and 3
pub fn timeout_examples()
    ensures lost { decide formed_three (Timeout Loss) ≡ EnterGather }
    ensures waits { decide formed_three (Timeout Consensus) ≡ Ignore }
    ensures silent_in_commit { decide ((three_after 6).cores 1) (Timeout JoinTime) ≡ Ignore }
    ensures nothing_shown { (ring_step opened_three (Timeout Retransmit)).outs ≡ [] }
    ensures shows_again { (ring_step (step_with_frame lacking token_of_ten).core (Timeout Retransmit)).outs ≡ asks }
    ensures shows_no_more { (ring_step (ring_step (step_with_frame lacking token_of_ten).core (Timeout Loss)).core (Timeout Retransmit)).outs ≡ [] }
{}

/// States examples of tokens that are accepted and of tokens that are ignored, and of each case of the `aru` rule.
///
/// Rules: Token and window 6 and 8
pub fn token_examples()
    ensures other_ring { decide (gathering_from 1) (FrameInput token_of_ten) ≡ Ignore }
    ensures in_commit { decide ((three_after 6).cores 1) (FrameInput (token_frame 1 0 0 None [])) ≡ Ignore }
    ensures of_old_ring { decide with_four (FrameInput token_of_ten) ≡ Ignore }
    ensures sets_own { token_forwarded (holding 3 2 (numbers_from 1 10)) (token_of 6 10 8 (Some 2) []) ≡ token_of 7 10 10 None [] }
    ensures keeps_other { token_forwarded (holding 3 3 (numbers_from 1 10)) (token_of 6 10 8 (Some 2) []) ≡ token_of 7 10 8 (Some 2) [] }
    ensures holds_back { token_forwarded (holding 3 3 (numbers_from 1 7)) (token_of 6 8 8 None []) ≡ token_of 7 8 7 (Some 3) (8 ∷ []) }
    ensures lowers_other { token_forwarded (holding 3 3 (numbers_from 1 7)) (token_of 6 10 8 (Some 2) []) ≡ token_of 7 10 7 (Some 3) (8 ∷ 9 ∷ 10 ∷ []) }
{}

/// States examples of messages that a core takes and of messages that it ignores.
///
/// - It ignores a message that is already held, one past the window, and one whose sender isn't a member of the ring.
/// - It ignores every message in Commit, and a message of the old ring in Recovery.
/// - Taking a Wrapped of the old ring also takes the message inside it, and delivers what the old ring's front then
///   covers.
///
/// Rules: Token and window 11; Recovery 6; Outputs 3
pub fn message_examples()
    ensures taken { decide (holding 3 2 []) (FrameInput (MessageFrame (call_at 1 1))) ≡ Take (call_at 1 1) }
    ensures held { decide (holding 3 2 (1 ∷ [])) (FrameInput (MessageFrame (call_at 1 1))) ≡ Ignore }
    ensures outsider { decide (in_ring_of_two Operational) (FrameInput (MessageFrame (call_at 3 1))) ≡ Ignore }
    ensures last { decide (holding 3 2 []) (FrameInput (MessageFrame (call_at 1 256))) ≡ Take (call_at 1 256) }
    ensures past { decide (holding 3 2 []) (FrameInput (MessageFrame (call_at 1 257))) ≡ Ignore }
    ensures in_commit { decide ((three_after 6).cores 1) (FrameInput (MessageFrame (call_at 2 1))) ≡ Ignore }
    ensures of_old_ring { decide with_four (FrameInput (MessageFrame (call_at 1 3))) ≡ Ignore }
    ensures unwraps { (ring_step with_four
        (FrameInput (MessageFrame (message_of second_ring 1 2 (wrapped_call 1 3))))).core.held ≡ call_at 1 3
        ∷ message_of second_ring 1 2 (wrapped_call 1 3) ∷ with_four.held }
    ensures agreed { (ring_step with_four
        (FrameInput (MessageFrame (message_of second_ring 1 2 (wrapped_call 1 3))))).outs ≡ Agreed first_ring 3
        (call_at 1 3) ∷ Agreed first_ring 4 (call_at 1 4) ∷ [] }
{}

/// States examples of commit tokens, round by round: which hop is taken where, and which tests reject it.
///
/// Rules: The commit token 1 and 5 to 8
pub fn commit_token_examples()
    ensures first { decide (opening 3 2) (FrameInput (hop_at_three 1 (empty_report 1 ∷ []))) ≡ Fill (commit_of first_ring 7 1 (empty_report 1 ∷ [])) }
    ensures elsewhere { decide (opening 3 3) (FrameInput (hop_at_three 1 (empty_report 1 ∷ []))) ≡ Ignore }
    ensures other_members { decide (opening 3 2) (FrameInput (commit_frame first_ring 3 1 (empty_report 1 ∷ []))) ≡ Ignore }
    ensures not_above_floor { decide (record (opening 3 2) { running = record { ring = ring_of 1 2; members = 2 } })
        (FrameInput (hop_at_three 1 (empty_report 1 ∷ []))) ≡ Ignore }
    ensures too_late { decide (opening 3 1) (FrameInput (hop_at_three 3 three_reports)) ≡ Ignore }
    ensures again { decide ((three_after 7).cores 2) (FrameInput (hop_at_three 1 (empty_report 1 ∷ []))) ≡ Ignore }
    ensures second { decide ((three_after 8).cores 1) (FrameInput (hop_at_three 3 three_reports)) ≡ Learn (commit_of first_ring 7 3 three_reports) }
    ensures report_changed { decide ((three_after 8).cores 1)
        (FrameInput (hop_at_three 3 (report_of (ring_of 0 1) 1 0 0 ∷ empty_report 2 ∷ empty_report 3 ∷ []))) ≡ Ignore }
    ensures second_members { decide ((three_after 8).cores 1) (FrameInput (commit_frame first_ring 3 2 (empty_report 1 ∷ empty_report 2 ∷ []))) ≡ Ignore }
    ensures sound { decide committing (FrameInput (CommitFrame (returned 2))) ≡ Learn (returned 2) }
    ensures behind { decide committing (FrameInput (CommitFrame (returned 3))) ≡ Ignore }
    ensures raises_mark { mark (ring_step committing (FrameInput (CommitFrame (returned 2)))).core first_ring ≡ 2 }
    ensures starts { decide ((three_after 11).cores 1) (FrameInput (hop_at_three 6 three_reports)) ≡ Visit (first_token first_ring) }
    ensures starts_once { decide ((three_after 12).cores 1) (FrameInput (hop_at_three 6 three_reports)) ≡ Ignore }
    ensures starts_of_members { decide ((three_after 11).cores 1) (FrameInput (commit_frame first_ring 3 4 (empty_report 1 ∷ empty_report 2 ∷ []))) ≡ Ignore }
    ensures in_operational { decide formed_three (FrameInput (hop_at_three 6 three_reports)) ≡ Ignore }
{}

/// States examples of payloads to send: which of them are queued, and in which state.
///
/// Rules: Rings and states 9
pub fn queued_payload_examples()
    ensures queued { (ring_step formed_three (Send (CallPayload add_five))).core.queue ≡ CallPayload add_five ∷ [] }
    ensures end { decide formed_three (Send End) ≡ Ignore }
    ensures wrapped { decide formed_three (Send (wrapped_call 1 1)) ≡ Ignore }
    ensures packed_payloads { decide formed_three (Send (pack_of (calls_from 1 2))) ≡ Ignore }
    ensures piece { (ring_step formed_three (Send piece)).core.queue ≡ piece ∷ [] }
    ensures in_gather { decide (opening 3 1) (Send (CallPayload add_five)) ≡ Ignore }
    ensures in_recovery { decide with_four (Send (CallPayload add_five)) ≡ Ignore }
{}

/// States examples of events without effect: on a stopped processor, an unknown processor or an unknown frame.
///
/// Rules: Rings and states 12 and 14
pub fn events_without_effect()
    ensures silent { (run (unformed 3) stop_events).outs ≡ [] }
    ensures idle { (run (unformed 3) idle_events).frames ≡ join_to_others 1 ∷ [] }
{}
