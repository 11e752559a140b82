//! Worked runs of worlds of nodes, computed from the definitions of a node and of a world.
//!
//! Rules: The replicated log 2 to 14 and 20
//! Formats: first reply; nine calls in one visit; dropped places
#![tactic(auto)]

ghost use Rattle.std.specs.Prelude.{◌≡◌, length, [], ◌∷◌, None, Some, drop, map};
ghost use Rattle.std.specs.declared.alloc.Global.{Global};
ghost use Rattle.ring_session.specs.declared.answer.Answer.TheVariants.{Done};
ghost use Rattle.ring_session.specs.declared.ticket_answer.TicketAnswer.{TicketAnswer};
ghost use Rattle.ring_node_spec.specs.Nodes.{node_committed, node_pending, node_reply, node_snapshot, node_trimmed};
ghost use Rattle.ring_node_spec.specs.Worlds.{committed_in, order};
ghost use Rattle.ring_node_spec_examples.specs.ExampleRuns.{world_of, call_of_seven, done_at, kept_at, nine_answers, refused_at, one_too_many};
ghost use Rattle.ring_node_spec_examples.specs.ExampleRuns.{late_submit, late_timeout, strange_events, lengths_of_nodes, sent_one, answered_one};
ghost use Rattle.ring_node_spec_examples.specs.ExampleRuns.{sent_again, answered_again, sent_nine, answered_nine, answered_three};
ghost use Rattle.ring_node_spec_examples.specs.ExampleRuns.{counter, after_lots, snapshot_of_seven, two_nodes_after_batches, joined_after, asked_after, known_there};

/// States a worked example of one node, whose log gets a call at a visit, and commits and answers it at the next one.
///
/// The history has the submit, and then the reply.
///
/// Rules: The replicated log 11, 12 and 14
/// Formats: first reply
pub fn example_ring_of_one()
    ensures sent { lengths_of_nodes sent_one 1 ≡ (0, 1) ∷ [] }
    ensures answered { lengths_of_nodes answered_one 1 ≡ (1, 1) ∷ [] }
    ensures told { answered_one.told ≡ done_at 1 1 ∷ [] }
    ensures untold { sent_one.told ≡ [] }
    ensures submitted { length sent_one.history ≡ 1 }
    ensures replied { length answered_one.history ≡ 2 }
    ensures ordered { order answered_one ≡ call_of_seven 1 ∷ [] }
    ensures unordered { order sent_one ≡ [] }
    ensures undone { (sent_one.nodes 1).done ≡ [] }
    ensures done { (answered_one.nodes 1).done ≡ call_of_seven 1 ∷ [] }
    ensures waiting { node_reply (sent_one.nodes 1) 0 ≡ None }
    ensures reply { node_reply (answered_one.nodes 1) 0 ≡ Some (Done (0 ∷ [])) }
{}

/// States a worked example of nine calls that are sent at one visit, as one Pack, and are all answered at the next one.
///
/// Rules: The replicated log 11, 12 and 14
/// Formats: nine calls in one visit
pub fn example_nine_calls()
    ensures sent { lengths_of_nodes sent_nine 1 ≡ (0, 9) ∷ [] }
    ensures answered { lengths_of_nodes answered_nine 1 ≡ (9, 9) ∷ [] }
    ensures told { length answered_nine.told ≡ 9 }
    ensures answers { map (λ (a : TicketAnswer Global). (a.ticket, a.answer)) (answered_nine.nodes 1).answers ≡ nine_answers }
    ensures ordered { length (order answered_nine) ≡ 9 }
{}

/// States a worked example of three nodes that form a ring and commit a call.
///
/// The call is answered at node 2, where it was submitted. It is committed and done at all three.
///
/// Rules: The replicated log 12 and 14
pub fn ring_of_three()
    ensures shown { lengths_of_nodes answered_three 3 ≡ (1, 1) ∷ (1, 1) ∷ (1, 1) ∷ [] }
    ensures told { answered_three.told ≡ done_at 2 1 ∷ [] }
    ensures done { (answered_three.nodes 3).done ≡ call_of_seven 1 ∷ [] }
    ensures answers { (answered_three.nodes 3).answers ≡ [] }
    ensures ordered { order answered_three ≡ call_of_seven 1 ∷ [] }
{}

/// States a worked example of a call that is submitted again after it was done: it gets a second ticket.
///
/// The call is appended again, and is answered `Kept`, by the session table at that place. The order has it once.
///
/// Rules: The replicated log 14; Sessions 3
pub fn submitted_again()
    ensures waiting { lengths_of_nodes sent_again 1 ≡ (1, 2) ∷ [] }
    ensures pending { length (node_pending (sent_again.nodes 1)) ≡ 1 }
    ensures done { (answered_again.nodes 1).done ≡ call_of_seven 1 ∷ call_of_seven 1 ∷ [] }
    ensures told { answered_again.told ≡ done_at 1 1 ∷ kept_at 1 1 ∷ [] }
    ensures answered { lengths_of_nodes answered_again 1 ≡ (2, 2) ∷ [] }
    ensures history { length answered_again.history ≡ 4 }
    ensures ordered { order answered_again ≡ call_of_seven 1 ∷ [] }
{}

/// States a worked example of a node that commits 256 places, in four batches of 64 calls, and then drops them.
///
/// A snapshot of the session table replaces them, and all lengths still count them. The calls are answered as before,
/// and the order has all of them.
///
/// Rules: The replicated log 20
/// Formats: dropped places
pub fn example_dropped_places()
    ensures before { lengths_of_nodes (after_lots 3) 1 ≡ (192, 192) ∷ [] }
    ensures kept { node_trimmed ((after_lots 3).nodes 1) ≡ 0 }
    ensures after { lengths_of_nodes (after_lots 4) 1 ≡ (256, 256) ∷ [] }
    ensures dropped { node_trimmed ((after_lots 4).nodes 1) ≡ 256 }
    ensures undropped { node_committed ((after_lots 4).nodes 1) ≡ [] }
    ensures snapshot { node_snapshot counter ((after_lots 4).nodes 1) ≡ snapshot_of_seven }
    ensures waiting { node_pending ((after_lots 4).nodes 1) ≡ [] }
    ensures told { drop 63 (after_lots 1).told ≡ done_at 1 64 ∷ [] }
    ensures ordered { length (order (after_lots 4)) ≡ 256 }
{}

/// States a worked example of a node that joins after 256 calls were committed and dropped, and restores their
/// snapshot.
///
/// The snapshot's places are then committed and dropped there, though the node did none of their calls. Filled with the
/// snapshot's places, its committed log is the same 256 calls as the others'. A call that is submitted there is done
/// after them.
///
/// Rules: The replicated log 6, 14 and 20
pub fn restored_snapshot()
    ensures away { lengths_of_nodes (two_nodes_after_batches 4).world 3 ≡ (256, 256) ∷ (256, 256) ∷ (0, 0) ∷ [] }
    ensures known { known_there (joined_after 60) ≡ 256 ∷ 256 ∷ 256 ∷ 256 ∷ 0 ∷ [] }
    ensures snapshot { node_snapshot counter ((joined_after 60).world.nodes 3) ≡ snapshot_of_seven }
    ensures whole { map length (committed_in (joined_after 60).world) ≡ 256 ∷ 256 ∷ 256 ∷ [] }
    ensures on { known_there (asked_after 30) ≡ 257 ∷ 257 ∷ 256 ∷ 256 ∷ 1 ∷ [] }
    ensures reply { node_reply ((asked_after 30).world.nodes 3) 0 ≡ Some (Done (256 ∷ [])) }
{}

/// States worked examples of submits that are refused: with 64 tickets unanswered, and at a stopped node.
///
/// Neither is in the history. Also: a timeout of a stopped node sends nothing; events of an unknown node, and of a frame
/// that wasn't sent, change nothing.
///
/// Rules: The replicated log 13; The book and the threads 4
pub fn example_refused_submits()
    ensures full { one_too_many.told ≡ refused_at 1 65 2 ∷ [] }
    ensures stopped { late_submit.told ≡ refused_at 1 1 8 ∷ [] }
    ensures unsubmitted { late_submit.history ≡ [] }
    ensures silent { late_timeout.frames ≡ [] }
    ensures unchanged { late_timeout.told ≡ late_submit.told }
    ensures strange { strange_events ≡ world_of 1 }
{}
