//! The law of lists of lines that are runs.
//!
//! Rules: The book and the threads 11

ghost use Rattle.std.specs.Prelude.{◌≡◌, ℕ, ◌≤◌, List};
ghost use Rattle.ring_base.specs.Group.{Group};
ghost use Rattle.ring_node_spec.specs.Worlds.{run, world_opening};
ghost use Rattle.ring_node_spec.specs.Nodes.{Node};
ghost use Rattle.ring_book_lines.specs.Events.{IsRun, events_of};
ghost use Rattle.ring_book_lines.specs.Lines.{steps_of};
ghost use Rattle.ring_book_lines.specs.Machines.{node_machine};
ghost use Rattle.ring_book_lines.specs.Runs.{IsBookRun, LeadsToState};
ghost use Rattle.ring_book_lines.specs.Steps.{LineView};

use ring_object::Object;

/// States that a book run is a run of `World`, for every object, every group of at most 16 processors and every list of
/// lines.
///
/// A list of lines is a book run if the steps of each node are a run of that node, and each delivered frame is one of
/// an earlier line. The inputs of a book run are the events of a run that `linear_law` of ring_order_proof covers. A
/// node's state after its steps is the node's state in that run.
///
/// Rules: The book and the threads 11 and 18
pub fn book_run_law<O: Object>()
    ensures runs { (group : Group) (lines : List (LineView O.Alloc)) → group.count ≤ 16 →
        IsBookRun (node_machine O.sequential group) group.count lines → IsRun O.sequential group lines }
    ensures nodes { (group : Group) (lines : List (LineView O.Alloc)) (i : ℕ) (t : Node O.Alloc) → group.count ≤ 16 → 1 ≤ i → i ≤ group.count →
        IsBookRun (node_machine O.sequential group) group.count lines →
        LeadsToState (node_machine O.sequential group) ((node_machine O.sequential group).opening i) (steps_of i lines) t →
        t ≡ (run O.sequential (world_opening group) (events_of lines)).nodes i }
{}
