//! The check whether a run is legal, which uses only the run's world.
//!
//! Rules: Sessions 10 and 11
//! Formats: The command line

ghost use Rattle.std.specs.Prelude.{◌≡◌, ◌≤◌, ◌↔◌, IsTrue, IfOk, IfErr};
ghost use Rattle.ring_base.specs.Prefixes.{IsListPrefix};
ghost use Rattle.ring_base.specs.declared.fault.Fault.TheVariants.{Memory};
ghost use Rattle.ring_session.specs.Deduplicated.{deduplicated};
ghost use Rattle.ring_log.specs.EpochHistories.{committed_of};
ghost use Rattle.ring_node_spec.specs.Worlds.{whole_epochs_in, order as order_of};
ghost use Rattle.ring_console.specs.Worlds.{world_of};
ghost use Rattle.ring_sweep.specs.Legal.{IsLegal, ArePrefixes};

use ring_base::{Fault, Proc};
use ring_console::{World, is_linearization};
use ring_object::Object;
use ring_payload::{Call, is_call_prefix};
use ring_session::effects_of;
use std::alloc::Allocator;

/// Returns whether a run is legal: the order of its world is legal for its history, and each node's committed calls,
/// duplicates removed, are a prefix of the order.
///
/// Errors: `Memory` if an allocation fails.
///
/// Rules: Sessions 10 and 11
/// Formats: The command line
pub(crate) fn is_legal<O: Object>(alloc: O::Alloc, world: &World<O>) -> Result<bool, Fault>
    ensures ok { IfOk result (λ is_legal. IsTrue is_legal ↔ IsLegal O.sequential world.now) }
    ensures refused { IfErr result (λ fault. fault ≡ Memory) }
{
    match world.order() {
        Ok(order) => is_legal_by(alloc, world, order.as_slice()),
        Err(fault) => Err(fault),
    }
}

/// Returns whether a run is legal as [`is_legal`] does, given the order of the world.
fn is_legal_by<O: Object>(
    alloc: O::Alloc,
    world: &World<O>,
    order: &[Call<O::Alloc>],
) -> Result<bool, Fault>
    requires { order.now ≡ order_of (world_of O.sequential world.now) }
    ensures ok { IfOk result (λ is_legal. IsTrue is_legal ↔ IsLegal O.sequential world.now) }
    ensures refused { IfErr result (λ fault. fault ≡ Memory) }
{
    let explains = is_linearization::<O>(alloc, order, world.history())?;
    if !explains {
        return Ok(false);
    }
    are_prefixes(alloc, world, order)
}

/// Returns whether each node's committed calls, duplicates removed, are a prefix of the order.
///
/// Errors: `Memory` if an allocation fails.
fn are_prefixes<O: Object>(
    alloc: O::Alloc,
    world: &World<O>,
    order: &[Call<O::Alloc>],
) -> Result<bool, Fault>
    ensures ok { IfOk result (λ are_prefixes. IsTrue are_prefixes ↔ ArePrefixes O.sequential world.now order.now) }
    ensures refused { IfErr result (λ fault. fault ≡ Memory) }
{
    for before in 0..world.fixed().count() {
        let proc = Proc::new(before + 1);
        let front = is_node_prefix_of_order(alloc, world, proc, order)?;
        if !front {
            return Ok(false);
        }
    }
    Ok(true)
}

/// Returns whether a node's committed calls, duplicates removed, are a prefix of the order.
///
/// Errors: `Memory` if an allocation fails.
fn is_node_prefix_of_order<O: Object>(
    alloc: O::Alloc,
    world: &World<O>,
    proc: Proc,
    order: &[Call<O::Alloc>],
) -> Result<bool, Fault>
    requires { proc ≤ world.now.group.count }
    ensures ok { let committed = committed_of world.now.group (whole_epochs_in (world_of O.sequential world.now) proc) in
        IfOk result (λ front. IsTrue front ↔ IsListPrefix (deduplicated committed) order.now) }
    ensures refused { IfErr result (λ fault. fault ≡ Memory) }
{
    match world.committed(proc) {
        Ok(committed) => is_prefix(alloc, committed.as_slice(), order),
        Err(fault) => Err(fault),
    }
}

/// Returns whether the calls, duplicates removed, are a prefix of the order.
///
/// Errors: `Memory` if an allocation fails.
fn is_prefix<A: Allocator + Copy + Drop>(
    alloc: A,
    calls: &[Call<A>],
    order: &[Call<A>],
) -> Result<bool, Fault>
    ensures ok { IfOk result (λ front. IsTrue front ↔ IsListPrefix (deduplicated calls.now) order.now) }
    ensures refused { IfErr result (λ fault. fault ≡ Memory) }
{
    let effects = effects_of(alloc, calls)?;
    Ok(is_call_prefix(effects.as_slice(), order))
}
