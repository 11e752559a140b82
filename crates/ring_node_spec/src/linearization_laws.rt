//! The guarantees of each step that give a run one order, and the properties of that order.
//!
//! Rules: Sessions 10 and 11

ghost use Rattle.std.specs.Prelude.{◌≡◌, ℕ, List, [], ◌∷◌, ◌++◌, Some, slice_get};
ghost use Rattle.ring_base.specs.Prefixes.{IsListPrefix};
ghost use Rattle.ring_core_spec.specs.Payloads.{Call};
ghost use Rattle.ring_session.specs.Deduplicated.{deduplicated, IsCallAt, IsNumbered};
ghost use Rattle.ring_session.specs.SessionAnswer.{IsReplyIn};
ghost use Rattle.ring_node_spec.specs.declared.item.Item.{Item};
ghost use Rattle.ring_node_spec.specs.declared.item.Item.TheVariants.{Issue, Reply as Replied};
ghost use Rattle.ring_node_spec.specs.Histories.{AreCallsIssued, IsLinearization};
ghost use Rattle.ring_node_spec.specs.Orders.{Moment, order_of, opening, last_moment, IsOrderStep, IsOrderRun};

use ring_session::Object;

/// States which extensions of a history, and of an order of calls, keep the order a linearization of the history.
///
/// This holds for every object. The empty order is a linearization of the empty history. A linearization stays one:
/// - if issued calls are added at its end, and each client's calls are still numbered 1, 2, .. in it,
/// - if a call is issued,
/// - if a call of the order gets the reply that the object gives at the call's place.
///
/// No call occurs twice in a linearization.
///
/// Rules: Sessions 10
pub fn linearization_law<O: Object>()
    ensures nothing { IsLinearization {A = O.Alloc} O.sequential [] [] }
    ensures grows { (order more : List (Call O.Alloc)) (history : List (Item O.Alloc)) →
        IsLinearization O.sequential order history →
        IsListPrefix order more → IsNumbered more → AreCallsIssued history more →
        IsLinearization O.sequential more history }
    ensures issue { (order : List (Call O.Alloc)) (history : List (Item O.Alloc)) (c : Call O.Alloc) →
        IsLinearization O.sequential order history →
        IsLinearization O.sequential order (history ++ Issue c ∷ []) }
    ensures reply { (order : List (Call O.Alloc)) (history : List (Item O.Alloc)) (c : Call O.Alloc) (r : List ℕ) →
        IsLinearization O.sequential order history →
        IsReplyIn O.sequential order c r →
        IsLinearization O.sequential order (history ++ Replied c r ∷ []) }
    ensures once { (order : List (Call O.Alloc)) (history : List (Item O.Alloc)) (p q : ℕ) (c d : Call O.Alloc) →
        IsLinearization O.sequential order history →
        IsCallAt order p c → IsCallAt order q d → c.client ≡ d.client → c.number ≡ d.number → p ≡ q }
{}

/// States that the order of a run is a linearization of its history at every moment.
///
/// This holds for every object and every number of nodes, if each step satisfies `IsOrderStep`. The order is the
/// longest of the nodes' committed logs, without the calls that take no effect. It only grows. The calls that take
/// effect in each node's committed log are a prefix of it.
///
/// Rules: Sessions 6, 10 and 11
pub fn run_order_law<O: Object>()
    ensures opens { (n : ℕ) → order_of {A = O.Alloc} (opening n).committed ≡ [] }
    ensures explains { (n : ℕ) (moments : List (Moment O.Alloc)) →
        IsOrderRun O.sequential (opening n) moments →
        let last = last_moment (opening n) moments in
        IsLinearization O.sequential (order_of last.committed) last.history }
    ensures step { (before after : Moment O.Alloc) →
        IsOrderStep O.sequential before after →
        IsLinearization O.sequential (order_of before.committed) before.history →
        IsLinearization O.sequential (order_of after.committed) after.history }
    ensures grows { (moment : Moment O.Alloc) (moments : List (Moment O.Alloc)) →
        IsOrderRun O.sequential moment moments →
        IsListPrefix (order_of moment.committed) (order_of (last_moment moment moments).committed) }
    ensures fronts { (n : ℕ) (moments : List (Moment O.Alloc)) (node : ℕ) (calls : List (Call O.Alloc)) →
        IsOrderRun O.sequential (opening n) moments →
        let last = last_moment (opening n) moments in
        slice_get last.committed node ≡ Some calls → IsListPrefix (deduplicated calls) (order_of last.committed) }
{}
