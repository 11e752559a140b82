//! Three nodes driven by records report what `totem script` prints for the same events.
//! Rules: Nodes that records drive 2 to 5

use crate::recorded_node::RecordedNode;
use crate::script_driver::ScriptNodes;
use crate::served::served_on;
use ring_base::{Fault, Fixed};
use ring_object::Object;
use ring_sweep::{Script, ShelfVocabulary, StandardObjects, script_of};
use ring_trace::{Selection, TraceFormat, TraceOptions, trace_of};
use std::alloc::Global;
use std::str;
use std::test::Fail;

/// A cut comes before a call is safe, and the call is retried at node 2. Of later calls one is repeated, and one has a number
/// gap. At last node 1 stops, and is called again.
const CUT_AND_STOPPED: &str =
    "nodes 3\ntimeout 1 join\ntimeout 2 join\ntimeout 3 join\npump 100\ncall 1 7 1 add 0 5\npump 2\n\
    cut 1 2,3\npump 10\ntimeout 1 loss\ntimeout 2 loss\npump 10\ntimeout 1 consensus\ntimeout 2 consensus\npump 200\n\
    call 2 7 1 add 0 5\npump 100\nheal\nnoise 2 00\ntimeout 1 join\npump 300\ncall 3 8 1 read 0\ndeliver 2 1\n\
    call 1 7 1 add 0 5\ncall 2 7 3 pop\npump 100\nshow\nstop 1\ncall 1 7 2 pop\nshow\n";

/// Words that the printed lines contain.
const TOLD: [&str; 5] = [
    " done ",
    " kept ",
    " refused 6",
    "refused 1 7.2 8",
    " stopped ",
];

/// Returns the text that the script prints, without the length of the one order, which no node knows.
fn printed<O: Object>(alloc: O::Alloc, text: &str) -> Result<String<O::Alloc>, Fault> {
    let mut out = Vec::new(alloc);
    let mut err = Vec::new(alloc);
    let mut input = text.as_bytes();
    let _ = script_of::<O, ShelfVocabulary, _, _, _>(alloc, &mut input, false, &mut out, &mut err);
    let mut printed = String::new(alloc);
    for line in str::from_utf8(out.as_slice()).unwrap_or("").lines() {
        if !line.starts_with("order ") {
            writeln!(printed, "{line}")?;
        }
    }
    Ok(printed)
}

/// Returns the number of nodes that give the same output when all their records are served again.
fn tell_again<O: Object>(alloc: O::Alloc, fixed: Fixed, nodes: &[RecordedNode<O>]) -> u8 {
    let mut me = 0u8;
    let mut telling = 0u8;
    for node in nodes {
        me = me.saturating_add(1);
        let written = served_on::<O, _>(alloc, alloc, fixed, me, node.asked.as_slice());
        let is_well = written.status == 0 && written.err.is_empty();
        if is_well && written.out.as_slice() == node.told.as_slice() {
            telling = telling.saturating_add(1);
        }
    }
    telling
}

/// Returns nodes that went through the events of a script.
fn driven<O: Object>(alloc: O::Alloc, text: &str) -> Result<ScriptNodes<O>, Fault> {
    let Ok(script) = Script::parse(alloc, text.as_bytes()) else {
        return Err(Fault::BadScript);
    };
    let mut driven = ScriptNodes::new(alloc, script.nodes)?;
    driven.take(script)?;
    Ok(driven)
}

/// Drives nodes through the events of a script. Returns whether they print the script's text, whether it has all these words,
/// the number of nodes, and the number that give the same output again.
fn seen<O: Object>(
    alloc: O::Alloc,
    text: &str,
    words: &[&str],
) -> Result<(bool, bool, usize, u8), Fault> {
    let fixed = Fixed::new(3)?;
    let driven = driven::<O>(alloc, text)?;
    let wanted = printed::<O>(alloc, text)?;
    let mut has_all = true;
    for word in words {
        has_all = has_all && wanted.as_str().contains(*word);
    }
    Ok((
        wanted.as_str() == driven.printed.as_str(),
        has_all,
        driven.nodes.len(),
        tell_again(alloc, fixed, driven.nodes.as_slice()),
    ))
}

/// Returns the lines of the nodes with which the trace of a script ends.
fn traced_counts<O: Object<Alloc = Global>>(alloc: Global, text: &str) -> Result<String, Fault> {
    let (mut out, mut frames, mut err) = (Vec::new(alloc), Vec::new(alloc), Vec::new(alloc));
    let asked = TraceOptions {
        format: TraceFormat::Text,
        selection: Selection::all(),
    };
    let bytes = text.as_bytes();
    let _ = trace_of::<O, ShelfVocabulary, _, _, _>(
        alloc,
        bytes,
        asked,
        &mut out,
        &mut frames,
        &mut err,
    );
    let mut counts = String::new(alloc);
    for line in str::from_utf8(out.as_slice()).unwrap_or("").lines() {
        if line.starts_with("node ") {
            writeln!(counts, "{line}")?;
        }
    }
    Ok(counts)
}

/// Drives nodes through the events of a script, and compares their counts with those of its trace.
///
/// Returns whether the counts are the same, and the number of lines of those of the trace.
fn counts_seen<O: Object<Alloc = Global>>(
    alloc: Global,
    text: &str,
) -> Result<(bool, usize), Fault> {
    let mut driven = driven::<O>(alloc, text)?;
    driven.printed.clear();
    driven.count()?;
    let wanted = traced_counts::<O>(alloc, text)?;
    Ok((
        wanted.as_str() == driven.printed.as_str(),
        wanted.as_str().lines().count(),
    ))
}

#[test]
fn three_nodes_count_what_a_trace_counts(rt: HostRuntime) -> Result<(), Fail> {
    let seen = counts_seen::<StandardObjects<Global>>(rt.alloc(), CUT_AND_STOPPED)?;
    assert!(rt; seen == (true, 3));
    Ok(())
}

#[test]
fn three_nodes_tell_what_a_script_prints(rt: HostRuntime) -> Result<(), Fail> {
    let seen = seen::<StandardObjects<Global>>(rt.alloc(), CUT_AND_STOPPED, &TOLD)?;
    assert!(rt; seen == (true, true, 3, 3));
    Ok(())
}
