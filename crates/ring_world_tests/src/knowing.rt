//! What a caller learns of a world after a run, whatever the events.
//! Rules: Sessions 10 and 11; The book and the threads 6 to 8

ghost use Rattle.std.specs.Prelude.{◌≡◌, ℕ, ◌≤◌, ◌++◌, List, length};
ghost use Rattle.std.specs.List.{AllByRecursion};
ghost use Rattle.ring_base.specs.Prefixes.{IsListPrefix};
ghost use Rattle.ring_payload.specs.declared.call.Call.{Call};
ghost use Rattle.ring_session.specs.Deduplicated.{deduplicated};
ghost use Rattle.ring_node_spec.specs.Nodes.{node_committed};
ghost use Rattle.ring_node_spec.specs.Histories.{IsLinearization};
ghost use Rattle.ring_node_spec.specs.WorldLimits.{EventFits};
ghost use Rattle.ring_log.specs.EpochHistories.{committed_of};
ghost use Rattle.ring_node_spec.specs.Worlds.{whole_epochs_in, order};
ghost use Rattle.ring_world.specs.WorldView.{world_of};

use ring_base::Fault;
use ring_object::Object;
use ring_world::{Event, World};

/// Runs the events. Its clauses hold whether all events were done or not.
/// The order explains the history, and it extends the order before the run. Of the calls that took effect at two nodes,
/// counted from the log's beginning, the shorter list is a prefix of the longer. The places that a node keeps of its log
/// follow those that it has dropped.
/// Errors: `Memory`, as `World::run`.
/// Rules: Sessions 10 and 11; The book and the threads 7
pub fn run<O: Object>(world: &mut World<O>, events: &[Event<O::Alloc>]) -> Result<(), Fault>
    requires fit { AllByRecursion EventFits events.now }
    ensures explained { let w = world_of O.sequential world.new in IsLinearization O.sequential (order w) w.history }
    ensures goes_on { IsListPrefix (order (world_of O.sequential world.old)) (order (world_of O.sequential world.new)) }
    ensures agreed { (one other : ℕ) → 1 ≤ one → one ≤ world.new.group.count → 1 ≤ other → other ≤ world.new.group.count →
        let lives = whole_epochs_in (world_of O.sequential world.new) in
        let group = world.new.group in
        length (deduplicated (committed_of group (lives one))) ≤ length (deduplicated (committed_of group (lives other))) →
        IsListPrefix (deduplicated (committed_of group (lives one))) (deduplicated (committed_of group (lives other))) }
    ensures kept { (node : ℕ) → 1 ≤ node → node ≤ world.new.group.count →
        let w = world_of O.sequential world.new in
        (dropped : List (Call O.Alloc)) × (committed_of world.new.group (whole_epochs_in w node) ≡ dropped ++ node_committed (w.nodes node)) }
{
    world.run(events)
}
