//! Tests of generated scripts.
//! Formats: The command line

use ring_base::Fault;
use ring_script::{EmptyVocabulary, Script};
use ring_script_generator::{generate_script, generate_script_by};
use std::alloc::Allocator;
use std::test::Fail;

/// Returns the number of requests of a generated script. `BadScript` where it is no script.
fn lines_of<A: Allocator + Copy + Drop>(
    alloc: A,
    votes: &[u8],
    seed: u64,
    lines: u32,
) -> Result<usize, Fault> {
    let text = generate_script(alloc, votes, seed, lines)?;
    let script = Script::parse(alloc, text.as_bytes()).map_err(|_| Fault::BadScript)?;
    Ok(script.lines.len())
}

/// The votes, and the number of lines.
const LENGTHS: [(&[u8], u32); 4] = [
    (&[1], 60),
    (&[1, 255], 60),
    (&[1, 1, 1, 1, 1], 200),
    (&[1, 1, 1, 1, 1, 1, 1, 1, 1, 1, 1, 1, 1, 1, 1, 1], 100),
];

/// The lines are as many as requested, at most 10,000, and then comes `show`.
#[test]
fn what_is_made_has_so_many_lines(rt: HostRuntime) -> Result<(), Fail> {
    for seed in 0..8u64 {
        for (votes, lines) in LENGTHS {
            assert!(rt; lines_of(rt.alloc(), votes, seed, lines)? == lines as usize + 1);
        }
    }
    for lines in 1..40u32 {
        assert!(rt; lines_of(rt.alloc(), &[2, 1, 1], 3, lines)? == lines as usize + 1);
    }
    assert!(rt; lines_of(rt.alloc(), &[1, 1, 1], 5, 10_001)? == 10_001);
    Ok(())
}

#[test]
fn a_seed_makes_one_script(rt: HostRuntime) -> Result<(), Fail> {
    let one = generate_script(rt.alloc(), &[1, 1, 1], 7, 50)?;
    let again = generate_script(rt.alloc(), &[1, 1, 1], 7, 50)?;
    let other = generate_script(rt.alloc(), &[1, 1, 1], 8, 50)?;
    assert!(rt;
        one.as_str() == again.as_str() && drawn_in(one.as_str()) != drawn_in(other.as_str())
    );
    Ok(())
}

/// Returns a generated script without its first line, which names the seed.
fn drawn_in(text: &str) -> &str {
    match text.split_once("\n") {
        Some((_, rest)) => rest,
        None => text,
    }
}

#[test]
fn votes_are_told_where_one_is_more(rt: HostRuntime) -> Result<(), Fail> {
    let cases: [(&[u8], &str); 2] = [
        (&[1, 1], "# Seed 7, 2 nodes, 5 lines.\nnodes 2\n# "),
        (
            &[1, 2],
            "# Seed 7, 2 nodes, 5 lines.\nnodes 2\nvotes 1 2\n# ",
        ),
    ];
    for (votes, front) in cases {
        let text = generate_script(rt.alloc(), votes, 7, 5)?;
        assert!(rt; text.as_str().starts_with(front), "{front}");
    }
    Ok(())
}

/// The calls of an object without vocabulary are the single byte 0.
#[test]
fn an_object_without_words_is_called_by_its_bytes(rt: HostRuntime) -> Result<(), Fail> {
    let text = generate_script_by::<EmptyVocabulary, _>(rt.alloc(), &[1], 7, 50)?;
    assert!(rt; text.as_str().contains(" raw 00\n"));
    Ok(())
}
