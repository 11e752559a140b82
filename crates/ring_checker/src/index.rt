//! The index of an order: the places of its calls, by client and number.
//!
//! Rules: Sessions 10

ghost use Rattle.std.specs.Prelude.{◌≡◌, ℕ, ◌+◌, ◌∷◌, [], ◌++◌, ◌↔◌, IsTrue, IsSome, IfSome, IfOk, IfErr, None, length};
ghost use Rattle.std.specs.BTreeMap.{get};
ghost use Rattle.std.specs.Ordering.{nat_cmp};
ghost use Rattle.ring_base.specs.declared.fault.Fault.TheVariants.{Memory};
ghost use Rattle.ring_session.specs.Deduplicated.{IsCallAt, IsNumbered};
ghost use Rattle.ring_checker.specs.Checks.{place_in, place_at, place_by_call_number, places_of, AddsPlace, IsIndexOf};

use ring_base::Fault;
use ring_payload::Call;
use std::alloc::Allocator;
use std::collections::BTreeMap;

/// The index of an order: for each client, the places of its calls 1, 2, .. in the order, counted from 0.
///
/// Rules: Sessions 10
pub type OrderIndex<A: Allocator> = BTreeMap<u32, Vec<usize, A>, A>;

/// Returns the index of an order, or `None` if some client's calls aren't numbered 1, 2, .. in it.
///
/// The index of an empty order is empty.
///
/// Errors: `Memory` if an allocation fails.
///
/// Rules: Sessions 10
pub fn order_index_of<A: Allocator + Copy + Drop>(
    alloc: A,
    order: &[Call<A>],
) -> Result<Option<OrderIndex<A>>, Fault>
    ensures numbered { IfOk result (λ index. IsSome index ↔ IsNumbered order.now) }
    ensures ok { IfOk result (λ index. IfSome index (IsIndexOf order.now (length order.now))) }
    ensures refused { IfErr result (λ fault. fault ≡ Memory) }
{
    let mut index = BTreeMap::new(alloc);
    match index_all_places(alloc, &mut index, order) {
        Ok(true) => Ok(Some(index)),
        Ok(false) => Ok(None),
        Err(fault) => Err(fault),
    }
}

/// Adds the places of an order's calls to an empty index.
///
/// Returns false if some client's calls aren't numbered 1, 2 and so on.
///
/// Errors: `Memory` if an allocation fails.
fn index_all_places<A: Allocator + Copy + Drop>(
    alloc: A,
    index: &mut OrderIndex<A>,
    order: &[Call<A>],
) -> Result<bool, Fault>
    requires { index.old.entries ≡ [] }
    ensures numbered { IfOk result (λ numbered. IsTrue numbered ↔ IsNumbered order.now) }
    ensures ok { IfOk result (λ numbered. IsTrue numbered → IsIndexOf order.now (length order.now) index.new) }
    ensures refused { IfErr result (λ fault. fault ≡ Memory) }
{
    for (place, call) in order.iter().enumerate() {
        let is_next = index_call(alloc, index, call.client, call.number, place)?;
        if !is_next {
            return Ok(false);
        }
    }
    Ok(true)
}

/// Adds the place of the client's call `number`, if that is its next number.
///
/// Returns whether it is.
///
/// Errors: `Memory` if an allocation fails.
fn index_call<A: Allocator + Copy + Drop>(
    alloc: A,
    index: &mut OrderIndex<A>,
    client: u32,
    number: u64,
    place: usize,
) -> Result<bool, Fault>
    ensures next { IfOk result (λ is_next. IsTrue is_next ↔ (number ≡ length (places_of index.old client) + 1)) }
    ensures adds { IfOk result (λ is_next. IsTrue is_next → AddsPlace index.old index.new client place) }
    ensures refused { IfErr result (λ fault. fault ≡ Memory) }
{
    match index.get_mut(&client) {
        Some(row) => index_next_call(row, number, place),
        None => index_first_call(alloc, index, client, number, place),
    }
}

/// Adds the place of a client's first call, if `number` is 1.
///
/// Returns whether it is.
///
/// Errors: `Memory` if an allocation fails.
fn index_first_call<A: Allocator + Copy + Drop>(
    alloc: A,
    index: &mut OrderIndex<A>,
    client: u32,
    number: u64,
    place: usize,
) -> Result<bool, Fault>
    requires { get nat_cmp index.old client ≡ None }
    ensures next { IfOk result (λ is_next. IsTrue is_next ↔ (number ≡ 1)) }
    ensures adds { IfOk result (λ is_next. IsTrue is_next → AddsPlace index.old index.new client place) }
    ensures refused { IfErr result (λ fault. fault ≡ Memory) }
{
    if number != 1 {
        return Ok(false);
    }
    let mut row = Vec::new(alloc);
    row.push(place)?;
    index.insert(client, row)?;
    Ok(true)
}

/// Appends the place to those of a client's calls, if `number` is the next one.
///
/// Returns whether it is.
///
/// Errors: `Memory` if an allocation fails.
fn index_next_call<A: Allocator + Copy>(
    row: &mut Vec<usize, A>,
    number: u64,
    place: usize,
) -> Result<bool, Fault>
    ensures next { IfOk result (λ is_next. IsTrue is_next ↔ (number ≡ length row.old.items + 1)) }
    ensures adds { IfOk result (λ is_next. IsTrue is_next → row.new.items ≡ row.old.items ++ place ∷ []) }
    ensures refused { IfErr result (λ fault. fault ≡ Memory) }
{
    if !is_successor(row.len() as u64, number) {
        return Ok(false);
    }
    row.push(place)?;
    Ok(true)
}

/// Returns whether `number` is `last + 1`.
fn is_successor(last: u64, number: u64) -> bool
    ensures { IsTrue result ↔ (number ≡ last + 1) }
{
    number > 0 && number - 1 == last
}

/// Returns the first place of the call in the order, counted from 0, and sets `next` to the place after it.
///
/// Returns `None`, and leaves `next` unchanged, if the call isn't in the order with the same operation. The place
/// `next` is tried before the index, since calls mostly come in the order's own sequence; any value is allowed, and
/// it doesn't change the result. `index` must be the index of `order`. Does not allocate.
///
/// Rules: Sessions 10
pub fn place_in_order_near<A: Allocator + Copy>(
    order: &[Call<A>],
    index: &OrderIndex<A>,
    next: &mut usize,
    call: &Call<A>,
) -> Option<usize>
    requires { IsIndexOf order.now (length order.now) index.now }
    ensures { result ≡ place_in order.now call.now }
{
    let place = place_near_or_indexed(order, index, *next, call)?;
    *next = place.saturating_add(1);
    Some(place)
}

/// Returns the first place of the call in the order, if there is one.
///
/// The place `next` is tried before the index.
fn place_near_or_indexed<A: Allocator + Copy>(
    order: &[Call<A>],
    index: &OrderIndex<A>,
    next: usize,
    call: &Call<A>,
) -> Option<usize>
    requires { IsIndexOf order.now (length order.now) index.now }
    ensures { result ≡ place_in order.now call.now }
{
    if is_call_at(order, next, call) {
        Some(next)
    } else {
        place_by_index(order, index, call)
    }
}

/// Returns whether the call is at this place of the order.
fn is_call_at<A: Allocator + Copy>(order: &[Call<A>], place: usize, call: &Call<A>) -> bool
    ensures { IsTrue result → IsCallAt order.now place call.now }
{
    match order.get(place) {
        Some(other) => call.equals_call(other),
        None => false,
    }
}

/// Returns the first place of the call in the order, if there is one.
fn place_by_index<A: Allocator + Copy>(
    order: &[Call<A>],
    index: &OrderIndex<A>,
    call: &Call<A>,
) -> Option<usize>
    requires { IsIndexOf order.now (length order.now) index.now }
    ensures { result ≡ place_in order.now call.now }
{
    let Some(place) = place_at(index, call.client, call.number) else {
        return None;
    };
    if call.equals_call(&order[place]) {
        Some(place)
    } else {
        None
    }
}

/// Returns the place that the index has for the client's call `number`, if any.
fn place_at<A: Allocator + Copy>(index: &OrderIndex<A>, client: u32, number: u64) -> Option<usize>
    ensures { result ≡ place_at index.now (client, number) }
{
    match index.get(&client) {
        Some(row) => place_by_number(row, number),
        None => None,
    }
}

/// Returns the place of call `number`, given the places of a client's calls 1, 2 and so on.
fn place_by_number<A: Allocator + Copy>(row: &Vec<usize, A>, number: u64) -> Option<usize>
    ensures { result ≡ place_by_call_number row.now.items number }
{
    if number == 0 {
        return None;
    }
    row.get((number - 1) as usize).copied()
}
