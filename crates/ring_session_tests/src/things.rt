//! The objects: operations, replies and snapshots in hexadecimal.
//! Rules: Objects 2 to 5
//! Formats: Operations and replies, Snapshots

use crate::hex_text::is_hex_of;
use ring_base::Fault;
use ring_object::{Object, ShortBytes};
use ring_things::{Counters, Names, Queue, Registers, ShelfPosition, StandardObjects};
use std::alloc::Global;
use std::process::Abort;
use std::test::Fail;

const REGISTERS: [(&str, &str); 10] = [
    ("0107", "000000000000000000"),
    ("02070000000000000005", "00"),
    ("0107", "000000000000000005"),
    ("030700000000000000040000000000000009", "010000000000000005"),
    ("030700000000000000050000000000000009", "00"),
    ("0107", "000000000000000009"),
    ("", "ff"),
    ("01", "ff"),
    ("010700", "ff"),
    ("0407", "ff"),
];

const COUNTERS: [(&str, &str); 8] = [
    ("01000000000000000005", "000000000000000005"),
    ("0100ffffffffffffffff", "01"),
    ("0200", "000000000000000005"),
    ("0201", "000000000000000000"),
    ("", "ff"),
    ("0100", "ff"),
    ("020000", "ff"),
    ("0300", "ff"),
];

const QUEUE: [(&str, &str); 10] = [
    ("02", "01"),
    ("010000000000000007", "00"),
    ("010000000000000009", "00"),
    ("03", "000000000000000002"),
    ("02", "000000000000000007"),
    ("02", "000000000000000009"),
    ("02", "01"),
    ("", "ff"),
    ("0200", "ff"),
    ("04", "ff"),
];

const NAMES: [(&str, &str); 11] = [
    ("0162", "00"),
    ("0162", "01"),
    ("0361", "01"),
    ("0362", "00"),
    ("0261", "01"),
    ("0262", "00"),
    ("0362", "01"),
    ("", "ff"),
    ("01", "ff"),
    ("0461", "ff"),
    ("0300", "01"),
];

const THINGS: [(&str, &str); 9] = [
    ("0001ff", "000000000000000000"),
    ("0101000000000000000005", "000000000000000005"),
    ("02010000000000000007", "00"),
    ("030161", "00"),
    ("0203", "000000000000000001"),
    ("04", "ff"),
    ("", "ff"),
    ("00", "ff"),
    ("0302", "ff"),
];

const QUEUES: [&str; 2] = ["0000", "000200000000000000070000000000000009"];

const NO_QUEUES: [&str; 5] = ["", "00", "0001", "0000ff", "000100000000000000"];

const SETS: [&str; 2] = ["0000", "000201610162"];

const NO_SETS: [&str; 7] = [
    "",
    "00",
    "000201620161",
    "000201610161",
    "000100",
    "00010161ff",
    "000102",
];

const NO_VALUES: [&str; 3] = ["", "00", "0000000000000005"];

/// Whether the object's reply to the operation is this one, both in hexadecimal.
fn is_replied<O: Object>(alloc: Global, object: &mut O, op: &str, reply: &str) -> bool {
    let Ok(bytes) = hex::decode(alloc, op) else {
        return false;
    };
    match object.apply(bytes.as_slice()) {
        Ok(given) => is_hex_of(alloc, given.as_slice(), reply),
        Err(_) => false,
    }
}

/// Applies the operations in turn and checks the replies.
fn assert_replies<O: Object>(
    rt: &impl Abort,
    alloc: Global,
    object: &mut O,
    rows: &[(&str, &str)],
) {
    for (op, reply) in rows {
        assert!(rt; is_replied(alloc, object, *op, *reply), "at {op}");
    }
}

/// `assert_replies` for an object at its start.
fn assert_replies_with_faults<O: Object<Alloc = Global>>(
    rt: &impl Abort,
    alloc: Global,
    rows: &[(&str, &str)],
) {
    let mut object = O::start(alloc).expect(rt, "memory");
    assert_replies(rt, alloc, &mut object, rows);
}

fn snapshot_of<O: Object>(alloc: O::Alloc, object: &O) -> Result<Vec<u8, O::Alloc>, Fault> {
    let mut snapshot = Vec::new(alloc);
    object.snapshot(&mut snapshot)?;
    Ok(snapshot)
}

/// The snapshot of the object restored from a snapshot.
fn snapshot_again<O: Object>(alloc: O::Alloc, snapshot: &[u8]) -> Result<Vec<u8, O::Alloc>, Fault> {
    let back = O::restore(alloc, snapshot)?;
    snapshot_of(alloc, &back)
}

/// Whether the object has this snapshot, in hexadecimal.
fn has_snapshot<O: Object<Alloc = Global>>(alloc: Global, object: &O, text: &str) -> bool {
    match snapshot_of(alloc, object) {
        Ok(snapshot) => is_hex_of(alloc, snapshot.as_slice(), text),
        Err(_) => false,
    }
}

/// Applies the operations, checks the replies, and checks the snapshot after them.
fn assert_becomes<O: Object<Alloc = Global>>(
    rt: &impl Abort,
    alloc: Global,
    object: &mut O,
    rows: &[(&str, &str)],
    text: &str,
) {
    assert_replies(rt, alloc, object, rows);
    assert!(rt; has_snapshot(alloc, object, text));
}

/// `assert_becomes` for an object at its start.
fn assert_snapshot<O: Object<Alloc = Global>>(
    rt: &impl Abort,
    alloc: Global,
    rows: &[(&str, &str)],
    text: &str,
) {
    let mut object = O::start(alloc).expect(rt, "memory");
    assert_becomes(rt, alloc, &mut object, rows, text);
}

/// Restores the snapshot and checks that the result has the same snapshot, else `Conflict`.
fn restore_again<O: Object>(alloc: O::Alloc, snapshot: &[u8]) -> Result<(), Fault> {
    let again = snapshot_again::<O>(alloc, snapshot)?;
    if again.as_slice() == snapshot {
        Ok(())
    } else {
        Err(Fault::Conflict)
    }
}

/// `restore_again` for a snapshot in hexadecimal.
fn encoded_snapshots_restore<O: Object<Alloc = Global>>(
    alloc: Global,
    text: &str,
) -> Result<(), Fault> {
    match hex::decode(alloc, text) {
        Ok(bytes) => restore_again::<O>(alloc, bytes.as_slice()),
        Err(_) => Err(Fault::Conflict),
    }
}

/// Checks the result of restoring each of the texts.
fn assert_restores<O: Object<Alloc = Global>>(
    rt: &impl Abort,
    alloc: Global,
    texts: &[&str],
    told: Result<(), Fault>,
) {
    for text in texts {
        assert!(rt;
            encoded_snapshots_restore::<O>(alloc, *text) == told,
            "{text}"
        );
    }
}

/// Checks the bytes of each operation.
fn assert_encoding<const N: usize>(rt: &impl Abort, alloc: Global, rows: &[(ShortBytes<N>, &str)]) {
    for (operation, text) in rows {
        assert!(rt; is_hex_of(alloc, operation.as_slice(), *text), "{text}");
    }
}

#[test]
fn operations_are_encoded(rt: HostRuntime) -> Result<(), Fail> {
    let table = [
        (Registers::get(7), "0107"),
        (Registers::put(7, 5), "02070000000000000005"),
        (
            Registers::compare_and_set(7, 4, 9),
            "030700000000000000040000000000000009",
        ),
        (Counters::add(0, 5), "01000000000000000005"),
        (Counters::read(0), "0200"),
        (Queue::push(7), "010000000000000007"),
        (Queue::pop(), "02"),
        (Queue::length(), "03"),
        (Names::insert(b"b")?, "0162"),
        (Names::remove(b"ab")?, "026162"),
        (Names::has(b"a")?, "0361"),
    ];
    assert_encoding(&rt, rt.alloc(), &table);
    let on_a_shelf = [
        (
            ShelfPosition::First.operation(&Registers::get(255)),
            "0001ff",
        ),
        (
            ShelfPosition::Second.operation(&Counters::read(0)),
            "010200",
        ),
        (ShelfPosition::Third.operation(&Queue::length()), "0203"),
        (
            ShelfPosition::Fourth.operation(&Names::insert(b"a")?),
            "030161",
        ),
    ];
    assert_encoding(&rt, rt.alloc(), &on_a_shelf);
    Ok(())
}

#[test]
fn operations_are_replied(rt: HostRuntime) {
    assert_replies_with_faults::<Registers>(&rt, rt.alloc(), &REGISTERS);
    assert_replies_with_faults::<Counters>(&rt, rt.alloc(), &COUNTERS);
    assert_replies_with_faults::<Queue>(&rt, rt.alloc(), &QUEUE);
    assert_replies_with_faults::<Names>(&rt, rt.alloc(), &NAMES);
    assert_replies_with_faults::<StandardObjects<Global>>(&rt, rt.alloc(), &THINGS);
}

#[test]
fn snapshots_restore(rt: HostRuntime) {
    let pushes = [("010000000000000007", "00"), ("010000000000000009", "00")];
    assert_snapshot::<Queue>(&rt, rt.alloc(), &pushes, QUEUES[1]);
    let inserts = [("0162", "00"), ("0161", "00")];
    assert_snapshot::<Names>(&rt, rt.alloc(), &inserts, SETS[1]);
    assert_restores::<Queue>(&rt, rt.alloc(), &QUEUES, Ok(()));
    assert_restores::<Names>(&rt, rt.alloc(), &SETS, Ok(()));
}

#[test]
fn only_snapshots_are_restored(rt: HostRuntime) {
    let refused = Err(Fault::BadSnapshot);
    assert_restores::<Registers>(&rt, rt.alloc(), &NO_VALUES, refused);
    assert_restores::<Counters>(&rt, rt.alloc(), &NO_VALUES, refused);
    assert_restores::<Queue>(&rt, rt.alloc(), &NO_QUEUES, refused);
    assert_restores::<Names>(&rt, rt.alloc(), &NO_SETS, refused);
    assert_restores::<StandardObjects<Global>>(&rt, rt.alloc(), &NO_VALUES, refused);
}

/// Changes a shelf's objects twenty times, in each way that takes memory, and checks that they are restored from their
/// snapshot.
fn change_and_restore<O: Object>(alloc: O::Alloc, things: &mut O) -> Result<(), Fault> {
    for i in 0..20u8 {
        let operations = [
            ShelfPosition::Second.operation(&Counters::add(i, 1)),
            ShelfPosition::Third.operation(&Queue::push(u64::from(i))),
            ShelfPosition::Fourth.operation(&Names::insert(&[i])?),
        ];
        for operation in &operations {
            things.apply(operation.as_slice())?;
        }
    }
    let snapshot = snapshot_of(alloc, things)?;
    restore_again::<O>(alloc, snapshot.as_slice())
}

/// `change_and_restore` for an object at its start.
pub fn change_and_restore_with_faults<O: Object>(alloc: O::Alloc) -> Result<(), Fault> {
    let mut things = O::start(alloc)?;
    change_and_restore(alloc, &mut things)
}
