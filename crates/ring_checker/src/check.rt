//! The check of an order against a history, wherever the two come from.
//!
//! Rules: Sessions 10

ghost use Rattle.std.specs.Prelude.{◌≡◌, ℕ, ◌+◌, ◌≤◌, ◌↔◌, IsTrue, IfOk, IfErr, OnOk, List, [], ◌∷◌, ◌++◌, length, take};
ghost use Rattle.ring_base.specs.declared.fault.Fault.TheVariants.{Memory};
ghost use Rattle.ring_node_spec.specs.declared.item.Item.{Item as OneItem};
ghost use Rattle.ring_node_spec.specs.declared.item.Item.TheVariants.{Issue};
ghost use Rattle.ring_session.specs.Deduplicated.{IsNumbered};
ghost use Rattle.ring_checker.specs.Checks.{IsIndexOf, ArePlaces, IsIssuedBefore, AreIssuedBefore, IsIssuedFront};
ghost use Rattle.ring_checker.specs.Checks.{IsReplyAtPlace, IsRightReply, IsRightItem, AreRepliesRight};
ghost use Rattle.ring_node_spec.specs.Histories.{IsLinearization};

use crate::index::{OrderIndex, order_index_of, place_in_order_near};
use ring_base::Fault;
use ring_node_spec::Item;
use ring_object::{Object, Reply};
use ring_payload::Call;
use std::alloc::Allocator;

/// What the checks need to know of a place of the order.
#[derive(Clone, Copy)]
struct OrderPlace {
    /// The index in the history of the call's first issue, or `None` if it wasn't issued.
    issued: Option<usize>,
    /// The object's reply to the call at this place.
    reply: Reply,
}

/// Returns whether `order` is a linearization of `history` for the object `O`.
///
/// It is one if and only if all of these hold:
/// - Each client's calls are numbered 1, 2, .. in the order.
/// - Each call of the order was issued, with the same operation.
/// - Each reply in the history is the object's reply at its call's place in the order.
/// - If a call was replied to before another call was issued, it comes earlier in the order.
///
/// So the empty order is a linearization of every history without replies. Apart from the object's own calls, the time
/// is O(n log n) in the number of calls and items together: one lookup among the clients for each.
///
/// Errors: `Memory` if an allocation fails.
///
/// Rules: Sessions 7 and 10
pub fn is_linearization<O: Object>(
    alloc: O::Alloc,
    order: &[Call<O::Alloc>],
    history: &[Item<O::Alloc>],
) -> Result<bool, Fault>
    ensures ok { IfOk result (λ explains. IsTrue explains ↔ IsLinearization O.sequential order.now history.now) }
    ensures refused { IfErr result (λ fault. fault ≡ Memory) }
{
    match order_index_of(alloc, order) {
        Ok(Some(index)) => is_linearization_of_numbered::<O>(alloc, order, &index, history),
        Ok(None) => Ok(false),
        Err(fault) => Err(fault),
    }
}

/// Returns whether the order, whose calls are numbered, is a linearization of the history.
///
/// Errors: `Memory` if an allocation fails.
fn is_linearization_of_numbered<O: Object>(
    alloc: O::Alloc,
    order: &[Call<O::Alloc>],
    index: &OrderIndex<O::Alloc>,
    history: &[Item<O::Alloc>],
) -> Result<bool, Fault>
    requires numbered { IsNumbered order.now }
    requires index { IsIndexOf order.now (length order.now) index.now }
    ensures ok { IfOk result (λ explains. IsTrue explains ↔ IsLinearization O.sequential order.now history.now) }
    ensures refused { IfErr result (λ fault. fault ≡ Memory) }
{
    match unissued_places::<O>(alloc, order) {
        Ok(mut places) => Ok(is_linearization_by_places::<O>(
            order,
            index,
            history,
            places.as_mut_slice(),
        )),
        Err(fault) => Err(fault),
    }
}

/// Returns whether the order is a linearization of the history, given its places, in which no call is issued yet.
fn is_linearization_by_places<O: Object>(
    order: &[Call<O::Alloc>],
    index: &OrderIndex<O::Alloc>,
    history: &[Item<O::Alloc>],
    places: &mut [OrderPlace],
) -> bool
    requires numbered { IsNumbered order.now }
    requires index { IsIndexOf order.now (length order.now) index.now }
    requires unissued { ArePlaces O.sequential order.now [] (length order.now) places.old }
    ensures { IsTrue result ↔ IsLinearization O.sequential order.now history.now }
{
    note_issues::<O>(order, index, history, places);
    if !are_issued_before(places, history.len()) {
        return false;
    }
    are_replies_right(order, index, places, history)
}

// ---- places

/// Applies the order's calls to a new object, and returns the places, with no call issued yet.
///
/// Errors: `Memory` if an allocation fails.
fn unissued_places<O: Object>(
    alloc: O::Alloc,
    order: &[Call<O::Alloc>],
) -> Result<Vec<OrderPlace, O::Alloc>, Fault>
    ensures ok { IfOk result (λ places. ArePlaces O.sequential order.now [] (length order.now) places.items) }
    ensures refused { IfErr result (λ fault. fault ≡ Memory) }
{
    match O::start(alloc) {
        Ok(mut object) => places_from::<O>(alloc, &mut object, order),
        Err(fault) => Err(fault),
    }
}

/// Applies the order's calls to an object in its start state, and returns the places, with no call issued yet.
///
/// Errors: `Memory` if an allocation fails.
fn places_from<O: Object>(
    alloc: O::Alloc,
    object: &mut O,
    order: &[Call<O::Alloc>],
) -> Result<Vec<OrderPlace, O::Alloc>, Fault>
    requires { object.old ≡ O.sequential.initial }
    ensures ok { IfOk result (λ places. ArePlaces O.sequential order.now [] (length order.now) places.items) }
    ensures refused { IfErr result (λ fault. fault ≡ Memory) }
{
    let mut places = Vec::with_capacity(alloc, order.len())?;
    match append_order_places(object, order, &mut places) {
        Ok(()) => Ok(places),
        Err(fault) => Err(fault),
    }
}

/// Applies the calls to an object in its start state, and appends the place of each.
///
/// Errors: `Memory` if an allocation fails.
fn append_order_places<O: Object>(
    object: &mut O,
    order: &[Call<O::Alloc>],
    places: &mut Vec<OrderPlace, O::Alloc>,
) -> Result<(), Fault>
    requires start { object.old ≡ O.sequential.initial }
    requires empty { places.old.items ≡ [] }
    ensures ok { OnOk result (ArePlaces O.sequential order.now [] (length order.now) places.new.items) }
    ensures refused { IfErr result (λ fault. fault ≡ Memory) }
{
    for call in order {
        let reply = object.apply(call.op.as_slice())?;
        places.push(OrderPlace {
            issued: None,
            reply,
        })?;
    }
    Ok(())
}

/// Records for each place the index in the history of its call's first issue.
fn note_issues<O: Object>(
    order: &[Call<O::Alloc>],
    index: &OrderIndex<O::Alloc>,
    history: &[Item<O::Alloc>],
    places: &mut [OrderPlace],
)
    requires index { IsIndexOf order.now (length order.now) index.now }
    requires unissued { ArePlaces O.sequential order.now [] (length order.now) places.old }
    ensures { ArePlaces O.sequential order.now history.now (length order.now) places.new }
{
    let mut next = 0;
    for (k, item) in history.iter().enumerate() {
        note_issue::<O>(order, index, &mut next, k, item, places);
    }
}

/// Records the item at index `k` of the history, if it is the first issue of a call.
fn note_issue<O: Object>(
    order: &[Call<O::Alloc>],
    index: &OrderIndex<O::Alloc>,
    next: &mut usize,
    k: usize,
    item: &Item<O::Alloc>,
    places: &mut [OrderPlace],
)
    requires index { IsIndexOf order.now (length order.now) index.now }
    requires many { length places.old ≡ length order.now }
    ensures { (past : List (OneItem O.Alloc)) → length past ≡ k
        → ArePlaces O.sequential order.now past (length order.now) places.old
        → ArePlaces O.sequential order.now (past ++ item.now ∷ []) (length order.now) places.new }
{
    match item {
        Item::Issue(call) => note_first_issue::<O>(order, index, next, k, call, places),
        Item::Reply(_, _) => {}
    }
}

/// Records at the call's place that it was issued at index `k` of the history, unless it was issued before.
fn note_first_issue<O: Object>(
    order: &[Call<O::Alloc>],
    index: &OrderIndex<O::Alloc>,
    next: &mut usize,
    k: usize,
    call: &Call<O::Alloc>,
    places: &mut [OrderPlace],
)
    requires index { IsIndexOf order.now (length order.now) index.now }
    requires many { length places.old ≡ length order.now }
    ensures { (past : List (OneItem O.Alloc)) → length past ≡ k
        → ArePlaces O.sequential order.now past (length order.now) places.old
        → ArePlaces O.sequential order.now (past ++ Issue call.now ∷ []) (length order.now) places.new }
{
    let Some(at) = place_in_order_near(order, index, next, call) else {
        return;
    };
    let OrderPlace { issued, reply } = places[at];
    if issued.is_some() {
        return;
    }
    places[at] = OrderPlace {
        issued: Some(k),
        reply,
    };
}

// ---- replies

/// Returns whether each reply of the history is right.
fn are_replies_right<A: Allocator + Copy>(
    order: &[Call<A>],
    index: &OrderIndex<A>,
    places: &[OrderPlace],
    history: &[Item<A>],
) -> bool
    requires { IsIndexOf order.now (length order.now) index.now }
    ensures { IsTrue result ↔ AreRepliesRight order.now places.now history.now }
{
    let mut front = 0;
    let mut next = 0;
    for (k, item) in history.iter().enumerate() {
        front = issued_prefix_len(places, front, k);
        if !is_item_right(order, index, &mut next, &places[..front], item) {
            return false;
        }
    }
    true
}

/// Returns the length of the longest prefix of the places whose calls were all issued before index `k` of the history.
///
/// The calls of the first `from` places must have been issued before it.
fn issued_prefix_len(places: &[OrderPlace], from: usize, k: usize) -> usize
    requires within { from ≤ length places.now }
    requires issued { AreIssuedBefore (take from places.now) k }
    ensures { IsIssuedFront places.now k result }
{
    let mut front = from;
    while front < places.len() && is_issued_before(&places[front], k) {
        front += 1;
    }
    front
}

/// Returns whether the item is right, if exactly the calls of the places `issued` were issued before it.
fn is_item_right<A: Allocator + Copy>(
    order: &[Call<A>],
    index: &OrderIndex<A>,
    next: &mut usize,
    issued: &[OrderPlace],
    item: &Item<A>,
) -> bool
    requires { IsIndexOf order.now (length order.now) index.now }
    ensures { IsTrue result ↔ IsRightItem order.now issued.now item.now }
{
    match item {
        Item::Issue(_) => true,
        Item::Reply(call, reply) => is_right_reply(order, index, next, issued, call, reply),
    }
}

/// Returns whether the call's place is one of `issued`, and `reply` is the object's reply there.
fn is_right_reply<A: Allocator + Copy>(
    order: &[Call<A>],
    index: &OrderIndex<A>,
    next: &mut usize,
    issued: &[OrderPlace],
    call: &Call<A>,
    reply: &Reply,
) -> bool
    requires { IsIndexOf order.now (length order.now) index.now }
    ensures { IsTrue result ↔ IsRightReply order.now issued.now call.now reply.now }
{
    match place_in_order_near(order, index, next, call) {
        Some(at) => is_reply_at_place(issued, at, reply),
        None => false,
    }
}

/// Returns whether place `at` is one of `issued`, and `reply` is the object's reply there.
fn is_reply_at_place(issued: &[OrderPlace], at: usize, reply: &Reply) -> bool
    ensures { IsTrue result ↔ IsReplyAtPlace issued.now at reply.now }
{
    match issued.get(at) {
        Some(place) => place.reply.as_slice() == reply.as_slice(),
        None => false,
    }
}

/// Returns whether the calls of all these places were issued before index `k` of the history.
fn are_issued_before(places: &[OrderPlace], k: usize) -> bool
    ensures { IsTrue result ↔ AreIssuedBefore places.now k }
{
    places.iter().all(|place| is_issued_before(place, k))
}

/// Returns whether the call of this place was issued before index `k` of the history.
fn is_issued_before(place: &OrderPlace, k: usize) -> bool
    ensures { IsTrue result ↔ IsIssuedBefore place.now k }
{
    place.issued.is_some_and(|at| at < k)
}
