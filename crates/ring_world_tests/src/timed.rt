//! A driver of a ring of one to which the time is brought.
//! Rules: A node with a clock 3 to 7 and 9

use refusing_alloc::RefusingHeap;
use ring_base::{Fault, Fixed, Kind};
use ring_driver::Driver;
use ring_object::Object;
use ring_things::Counters;
use std::test::Fail;

/// The frames that are passed until the ring is installed.
const FRAMES: u8 = 3;

/// Returns the timeouts that come when each of these times is brought until none is due any more, with the times.
fn timeouts<O: Object>(
    alloc: O::Alloc,
    driver: &mut Driver<O>,
    times: &[u64],
) -> Result<Vec<(u64, Kind), O::Alloc>, Fault> {
    let mut brought = Vec::new(alloc);
    for time in times {
        for _ in 0..4u8 {
            if let Some(kind) = driver.at(*time)? {
                brought.push((*time, kind))?;
            }
        }
    }
    Ok(brought)
}

/// Brings times to the driver of a group of one without a network. Returns whether each timeout came when it was due.
fn comes_in_time<O: Object>(alloc: O::Alloc, driver: &mut Driver<O>) -> Result<bool, Fault> {
    let is_unopened = driver.next_time().is_none();
    let brought = timeouts(alloc, driver, &[1000, 1009, 1010, 900, 1020])?;
    let wanted = [
        (1010, Kind::Join),
        (1020, Kind::Join),
        (1020, Kind::Retransmit),
    ];
    Ok(is_unopened && brought.as_slice() == wanted.as_slice() && driver.next_time() == Some(1030))
}

/// Gives the driver the next frame that it sent, if there is one. Returns whether there was one.
fn hear_own_frame<O: Object>(driver: &mut Driver<O>) -> Result<bool, Fault> {
    match driver.next_send() {
        Some((_, frame)) => {
            driver.receive(frame)?;
            Ok(true)
        }
        None => Ok(false),
    }
}

/// Whether a driver of a group of one that hears its own frames tells that it installs ring 1.1, which is primary, at the third.
fn installs_once<O: Object>(alloc: O::Alloc, driver: &mut Driver<O>) -> Result<bool, Fault> {
    timeouts(alloc, driver, &[0, 10])?;
    for _ in 0..FRAMES {
        let has_installed = driver.has_installed();
        if !hear_own_frame(driver)? || has_installed {
            return Ok(false);
        }
    }
    let is_first = driver.node().ring().seq == 1 && driver.is_primary();
    Ok(driver.has_installed() && is_first)
}

/// What is tried with a driver.
#[derive(Clone, Copy)]
enum Trial {
    Timeouts,
    Installation,
}

/// Tries it with the new driver of a group of one. Returns whether all was as it should be.
fn is_right<O: Object>(alloc: O::Alloc, trial: Trial) -> Result<bool, Fault> {
    let mut driver = Driver::<O>::new(alloc, Fixed::new(1)?, 1)?;
    let is_right = match trial {
        Trial::Timeouts => comes_in_time(alloc, &mut driver),
        Trial::Installation => installs_once(alloc, &mut driver),
    };
    drop(driver);
    is_right
}

#[test]
fn timeouts_come_by_the_time(rt: HostRuntime) -> Result<(), Fail> {
    let heap = RefusingHeap::new(rt.alloc(), u64::MAX);
    assert!(rt; is_right::<Counters<&RefusingHeap>>(&heap, Trial::Timeouts)?);
    Ok(())
}

#[test]
fn an_installed_ring_is_told(rt: HostRuntime) -> Result<(), Fail> {
    let heap = RefusingHeap::new(rt.alloc(), u64::MAX);
    assert!(rt; is_right::<Counters<&RefusingHeap>>(&heap, Trial::Installation)?);
    Ok(())
}
