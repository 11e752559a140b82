//! Snapshots of session tables: the worked one, others that are restored, and bytes that are no snapshot.
//! Rules: Sessions 12
//! Formats: Snapshots

use crate::hex_text::is_hex_of;
use ring_base::Fault;
use ring_object::Object;
use ring_payload::Call;
use ring_session::Sessions;
use ring_things::Queue;
use std::alloc::Global;

/// A queue's sessions after client 7's first call, `push 9`: a client, its call, its reply; then the queue.
const WORKED: &str = "0001000000070000000000000001000901000000000000000901\
    00000000000000000a00010000000000000009";

/// The sessions of a queue that nobody called; those of clients 3 and 7, each with an empty operation and an empty reply.
const TABLES: [&str; 2] = [
    "000000000000000000020000",
    "000200000003000000000000000100000000000007000000000000000200000000000000000000020000",
];

/// Bytes that are no snapshot of a queue's sessions.
const NO_TABLES: [&str; 12] = [
    "",
    "00",
    // No object; a byte left over; an object with too great a length; an object that is no queue.
    "0000",
    "00000000000000000002000000",
    "000000000000000000030000",
    "0000000000000000000100",
    // A client is announced and absent; 1,025 clients are announced.
    "000100000000000000020000",
    "040100000000000000020000",
    // The number 0.
    "000100000007000000000000000000000000000000000000020000",
    // Clients that descend; a client that occurs twice.
    "000200000007000000000000000100000000000003000000000000000200000000000000000000020000",
    "000200000007000000000000000100000000000007000000000000000200000000000000000000020000",
    // An operation after a length of 1,025.
    "0001000000070000000000000001040100000000000000000000020000",
];

fn snapshot_of<O: Object>(
    alloc: O::Alloc,
    sessions: &Sessions<O>,
) -> Result<Vec<u8, O::Alloc>, Fault> {
    let mut snapshot = Vec::new(alloc);
    sessions.snapshot(&mut snapshot)?;
    Ok(snapshot)
}

/// The snapshot of the sessions restored from a snapshot.
fn snapshot_again<O: Object>(alloc: O::Alloc, snapshot: &[u8]) -> Result<Vec<u8, O::Alloc>, Fault> {
    let sessions = Sessions::<O>::restore(alloc, snapshot)?;
    snapshot_of(alloc, &sessions)
}

/// Restores the snapshot and checks that the result has the same snapshot, else `Conflict`.
fn restore_again<O: Object>(alloc: O::Alloc, snapshot: &[u8]) -> Result<(), Fault> {
    let again = snapshot_again::<O>(alloc, snapshot)?;
    if again.as_slice() == snapshot {
        Ok(())
    } else {
        Err(Fault::Conflict)
    }
}

/// `restore_again` for a snapshot in hexadecimal.
fn encoded_snapshots_restore<O: Object>(
    ample: Global,
    alloc: O::Alloc,
    text: &str,
) -> Result<(), Fault> {
    match hex::decode(ample, text) {
        Ok(bytes) => restore_again::<O>(alloc, bytes.as_slice()),
        Err(_) => Err(Fault::Conflict),
    }
}

/// The snapshot of these sessions after each of these clients has pushed 9.
fn called<O: Object>(
    alloc: O::Alloc,
    sessions: &mut Sessions<O>,
    clients: &[u32],
) -> Result<Vec<u8, O::Alloc>, Fault> {
    for client in clients {
        let call = Call::new(alloc, *client, 1, Queue::push(9).as_slice())?;
        sessions.apply(&call)?;
    }
    snapshot_of(alloc, sessions)
}

/// `called` for new sessions.
fn called_anew<O: Object>(alloc: O::Alloc, clients: &[u32]) -> Result<Vec<u8, O::Alloc>, Fault> {
    let mut sessions = Sessions::<O>::new(alloc)?;
    called(alloc, &mut sessions, clients)
}

/// Checks that sessions that three clients called are restored from their snapshot.
pub fn call_and_come_back<O: Object>(alloc: O::Alloc) -> Result<(), Fault> {
    let snapshot = called_anew::<O>(alloc, &[7, 3, 5])?;
    restore_again::<O>(alloc, snapshot.as_slice())
}

#[test]
fn worked_snapshot(rt: HostRuntime) {
    let snapshot = called_anew::<Queue>(rt.alloc(), &[7]).expect(&rt, "memory");
    assert!(rt; is_hex_of(rt.alloc(), snapshot.as_slice(), WORKED));
}

#[test]
fn only_snapshots_are_restored(rt: HostRuntime) {
    for text in &[WORKED, TABLES[0], TABLES[1]] {
        let back = encoded_snapshots_restore::<Queue>(rt.alloc(), rt.alloc(), *text);
        assert!(rt; back == Ok(()), "{text}");
    }
    for text in &NO_TABLES {
        let back = encoded_snapshots_restore::<Queue>(rt.alloc(), rt.alloc(), *text);
        assert!(rt; back == Err(Fault::BadSnapshot), "{text}");
    }
}
