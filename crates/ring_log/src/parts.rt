//! A log's places as Parts.
//!
//! Rules: The replicated log 2

ghost use Rattle.std.specs.Prelude.{◌≡◌, ◌+◌, ◌^◌, ◌<◌, length, IfOk, IfErr};
ghost use Rattle.ring_base.specs.declared.fault.Fault.TheVariants.{Memory};
ghost use Rattle.ring_log.specs.Parts.{parts_of};

use ring_base::Fault;
use ring_wire::{Call, CallList, MAX_PART_CALLS, Part};
use std::alloc::Allocator;

/// The number of places in a Part, 7; the last Part may have fewer.
const CALLS_PER_PART: usize = MAX_PART_CALLS as usize;

/// Returns the Parts of these calls, the first of which is at place `at` of the log, counted from 0.
///
/// If there are no calls, there are no Parts.
///
/// Errors: `Memory` if an allocation fails.
///
/// Rules: The replicated log 2
#[tactic(auto, using(ring_base::proofs::ListPlaces::map_numbers, ring_base::proofs::ListFronts::take_shorter))]
pub(crate) fn parts_from_calls<A: Allocator + Copy>(
    alloc: A,
    at: u64,
    places: &[Call<A>],
) -> Result<Vec<Part<A>, A>, Fault>
    requires room { at + length places.now < 2 ^ 64 }
    ensures ok { IfOk result (λ parts. parts.items ≡ parts_of at places.now) }
    ensures refused { IfErr result (λ fault. fault ≡ Memory) }
{
    let mut parts = Vec::new(alloc);
    for k in 0..(places.len() + (CALLS_PER_PART - 1)) / CALLS_PER_PART {
        let start = CALLS_PER_PART * k;
        let rest = &places[start..];
        let calls = copy_calls(alloc, &rest[..rest.len().min(CALLS_PER_PART)])?;
        parts.push(Part {
            first: at + start as u64,
            calls,
        })?;
    }
    Ok(parts)
}

fn copy_calls<A: Allocator + Copy>(alloc: A, calls: &[Call<A>]) -> Result<CallList<A>, Fault>
    ensures ok { IfOk result (λ copy. copy ≡ calls.now) }
    ensures refused { IfErr result (λ fault. fault ≡ Memory) }
{
    Ok(CallList::from_vec(calls.to_vec(alloc)?))
}
