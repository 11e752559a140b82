//! The requests that a token carries after a visit.
//!
//! Rules: Token and window 7 and 15

ghost use Rattle.std.specs.Prelude.{◌≡◌, List, ℕ, Bool, take};
ghost use Rattle.std.specs.List.Sorted.{IsStrictlyIncreasing};
ghost use Rattle.ring_wire.specs.Payloads.{max_requests};
ghost use Rattle.ring_token.specs.Visits.{requests_left, requests_after};
ghost use Rattle.ring_token.specs.Requesting.{least_first, after};

use ring_wire::{MAX_REQUESTS, Requests};

/// Returns the requests that stay in the token when a member visits it, in their order.
///
/// A requested number stays if it is above `mark`, the member's safe mark, and the member doesn't hold it. `holds`
/// returns whether the member holds a number.
///
/// Rules: Token and window 7 and 15
pub fn requests_left<F: Fn(u64) -> bool>(requests: &Requests, mark: u64, holds: F) -> Requests
    requires { F.IsAlwaysCallable holds }
    ensures { (held : ℕ → Bool) → ((n : ℕ) (r : Bool) → F.post holds n r → r ≡ held n) → result ≡ requests_left mark held requests.now }
{
    let mut remaining_requests = Requests::new();
    let numbers = requests.as_slice();
    for &number in numbers {
        if mark < number && !holds(number) {
            remaining_requests.push(number);
        }
    }
    remaining_requests
}

/// Returns the requests of the forwarded token: the 32 smallest numbers of both lists, ascending, each once.
///
/// If there are fewer than 32, returns all of them. `remaining_requests` must be strictly ascending. `missing` must
/// have the first 32 numbers that the member lacks, or all if there are fewer.
///
/// Rules: Token and window 7 and 15
pub fn requests_after(remaining_requests: &Requests, missing: &Requests) -> Requests
    requires { IsStrictlyIncreasing remaining_requests.now }
    ensures { (lacking : List ℕ) → missing.now ≡ take max_requests lacking → result ≡ requests_after remaining_requests.now lacking }
{
    let mut smallest = Requests::new();
    let mut requests_left = remaining_requests.as_slice();
    let mut lacking = missing.as_slice();
    while smallest.as_slice().len() < MAX_REQUESTS {
        let Some(number) = least_first(requests_left, lacking) else {
            return smallest;
        };
        smallest.push(number);
        requests_left = without_first_if(number, requests_left);
        lacking = without_first_if(number, lacking);
    }
    smallest
}

/// Returns the lesser of the two lists' first numbers, or `None` if both lists are empty.
fn least_first(requests_left: &[u64], lacking: &[u64]) -> Option<u64>
    ensures { result ≡ least_first requests_left.now lacking.now }
{
    match requests_left {
        [] => lacking.first().copied(),
        [x, ..] => match lacking {
            [] => Some(*x),
            [y, ..] => Some((*x).min(*y)),
        },
    }
}

/// Returns `numbers` without its first number if that is `number`, otherwise unchanged.
fn without_first_if(number: u64, numbers: &[u64]) -> &[u64]
    ensures { result.now ≡ after number numbers.now }
{
    match numbers {
        [first, rest @ ..] if *first == number => rest,
        _ => numbers,
    }
}
