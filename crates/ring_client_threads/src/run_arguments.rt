//! Checks of the arguments of a run of callers.
//!
//! Rules: The book and the threads 28; Refusals 1 and 4

ghost use Rattle.std.specs.Prelude.{◌≡◌, ◌≢◌, ◌*◌, ◌≤◌, All, length, OnOk, OnErr, IfErr};
ghost use Rattle.ring_base.specs.declared.fault.Fault.TheVariants.{NotMember, Stopped, Memory};
ghost use Rattle.ring_client_threads.specs.Arguments.{IsNode, AreDistinct, MayRun, IsRefused};

use crate::caller::Caller;
use ring_base::{Fault, Fixed};

/// The maximum number of ports of all callers of a run together.
///
/// Each caller has one to each node. [`run_callers`](crate::run_callers) refuses more with `NotMember`.
///
/// Rules: Limits 1 and 2
pub const MAX_PORTS_OF_RUN: usize = 256;

/// Checks the arguments of a run before anything is made.
///
/// Errors: `NotMember` unless all numbers in `stopped` and all first nodes are nodes of the group, and the callers have
/// at most 256 ports. Otherwise `Stopped` if a number is in `stopped` twice.
///
/// Rules: The book and the threads 28; Refusals 1 and 4
pub(crate) fn check_arguments<C: Caller>(
    group: Fixed,
    stopped: &[u8],
    callers: &[C],
) -> Result<(), Fault>
    ensures ok { OnOk result (MayRun group.count C.first stopped.now callers.now) }
    ensures refused { IfErr result (IsRefused group.count C.first stopped.now callers.now) }
    ensures memory { IfErr result (λ fault. fault ≢ Memory) }
{
    check_ports(group, callers.len())?;
    check_numbers(group, stopped)?;
    check_first_nodes(group, callers)?;
    check_none_stopped_twice(stopped)
}

/// Checks how many ports this number of callers has.
///
/// Errors: `NotMember` if they are more than 256.
fn check_ports(group: Fixed, callers: usize) -> Result<(), Fault>
    ensures ok { OnOk result (callers * group.count ≤ 256) }
    ensures err { OnErr result (¬ (callers * group.count ≤ 256)) }
    ensures refused { IfErr result (λ fault. fault ≡ NotMember) }
{
    if callers.saturating_mul(usize::from(group.count())) > MAX_PORTS_OF_RUN {
        return Err(Fault::NotMember);
    }
    Ok(())
}

/// Checks that these are numbers of the group's nodes.
///
/// Errors: `NotMember` if one isn't.
fn check_numbers(group: Fixed, numbers: &[u8]) -> Result<(), Fault>
    ensures ok { OnOk result (All (IsNode group.count) numbers.now) }
    ensures err { OnErr result (¬ All (IsNode group.count) numbers.now) }
    ensures refused { IfErr result (λ fault. fault ≡ NotMember) }
{
    for number in numbers {
        group.proc(*number)?;
    }
    Ok(())
}

/// Checks that each caller's first node is one of the group's.
///
/// Errors: `NotMember` if one isn't.
fn check_first_nodes<C: Caller>(group: Fixed, callers: &[C]) -> Result<(), Fault>
    ensures ok { OnOk result (All (λ caller. IsNode group.count (C.first caller)) callers.now) }
    ensures err { OnErr result (¬ All (λ caller. IsNode group.count (C.first caller)) callers.now) }
    ensures refused { IfErr result (λ fault. fault ≡ NotMember) }
{
    for caller in callers {
        group.proc(caller.first_node())?;
    }
    Ok(())
}

/// Checks that no number is in the list twice.
///
/// Errors: `Stopped` if one is.
fn check_none_stopped_twice(numbers: &[u8]) -> Result<(), Fault>
    ensures ok { OnOk result (AreDistinct numbers.now) }
    ensures err { OnErr result (¬ AreDistinct numbers.now) }
    ensures refused { IfErr result (λ fault. fault ≡ Stopped) }
{
    for i in 0..numbers.len() {
        if numbers[..i].contains(&numbers[i]) {
            return Err(Fault::Stopped);
        }
    }
    Ok(())
}
