//! Generating a script, and the command `gen`.
//!
//! Formats: The command line

ghost use Rattle.std.specs.Prelude.{◌≡◌, ◌≢◌, ◌≤◌, ◌<◌, ◌+◌, ◌⊎◌, ◌↔◌, ℕ, min, length, slice_index_or, List};
ghost use Rattle.std.specs.Prelude.{IsTrue, IfOk, IfErr, OnOk, string_bytes};
ghost use Rattle.std.specs.Io.KnownBytes.{Appends};
ghost use Rattle.ring_base.specs.Group.{AreVotes, padded_votes};
ghost use Rattle.ring_base.specs.declared.fault.Fault.TheVariants.{BadScript, Memory};
ghost use Rattle.ring_script.specs.declared.line.ScriptLine.TheVariants.{Show};
ghost use Rattle.ring_script_generator.specs.Generated.{IsGeneratedBy, IsGenerated, IsNotGenerated};

use crate::script_builder::ScriptBuilder;
use ring_base::{Fault, Fixed};
use ring_failure::{Failure, report_failure};
use ring_script::{
    MAX_SCRIPT_BYTES, NumberedLine, Script, ScriptFault, ScriptLine, ShelfVocabulary, Vocabulary,
};
use std::alloc::Allocator;
use std::fmt::Write as _;
use std::io::Write;

/// Generates a script from a seed, with one node per vote and calls to the standard object.
///
/// The text depends only on the arguments and is the same on every machine. It may change with the program's version.
/// The script has `lines` lines of `call`, `deliver`, `timeout`, `noise`, `stop`, `cut`, `heal` and `pump`, then one
/// `show`. If `lines` is above 10,000, there are 10,000. Some lines have a comment before them. The text is parsed as a
/// check before it is returned.
///
/// Errors: `NotMember` unless there are 1 to 16 votes, each at least 1. `Memory` if an allocation fails. `BadScript` if
/// the check fails; no seed is known for which it does.
///
/// Rules: Objects 6
/// Formats: Scripts; The command line
pub fn generate_script<A: Allocator + Copy + Drop>(
    alloc: A,
    votes: &[u8],
    seed: u64,
    lines: u32,
) -> Result<String<A>, Fault>
    ensures made { IfOk result (λ text. IsGenerated votes.now lines (string_bytes text)) }
    ensures refused { IfErr result (IsNotGenerated votes.now) }
{
    generate_script_by::<ShelfVocabulary, A>(alloc, votes, seed, lines)
}

/// Generates a script from a seed as [`generate_script`] does, but for an object with the vocabulary `V`.
///
/// Errors: as for [`generate_script`].
///
/// Rules: Objects 6
/// Formats: Scripts; The command line
pub fn generate_script_by<V: Vocabulary, A: Allocator + Copy + Drop>(
    alloc: A,
    votes: &[u8],
    seed: u64,
    lines: u32,
) -> Result<String<A>, Fault>
    ensures made { IfOk result (λ text. IsGeneratedBy V.forms votes.now lines (string_bytes text)) }
    ensures refused { IfErr result (IsNotGenerated votes.now) }
{
    let nodes = Fixed::with_votes(votes)?;
    let text = build_script::<V, A>(alloc, nodes, votes, seed, lines).map_err(|_| Fault::Memory)?;
    read_back::<V, A>(alloc, nodes, lines, text.as_bytes())?;
    Ok(text)
}

/// Builds the text of the script.
///
/// Errors: any fault means that an allocation failed.
fn build_script<V: Vocabulary, A: Allocator>(
    alloc: A,
    nodes: Fixed,
    votes: &[u8],
    seed: u64,
    lines: u32,
) -> Result<String<A>, Fault> {
    let mut head = String::new(alloc);
    write_head(&mut head, votes, seed, lines)?;
    let mut script_builder = ScriptBuilder::<V, A>::new(head, nodes, seed, lines.min(MAX_LINES));
    script_builder.generate_all()?;
    Ok(script_builder.into_text())
}

/// Checks that the text is a script of these nodes with `lines` lines, at most 10,000, and `show` after them.
///
/// Errors: `BadScript` if it isn't; `Memory` if an allocation fails.
fn read_back<V: Vocabulary, A: Allocator + Copy + Drop>(
    alloc: A,
    nodes: Fixed,
    lines: u32,
    text: &[u8],
) -> Result<(), Fault>
    requires votes { AreVotes nodes.votes }
    requires count { nodes.count ≡ length nodes.votes }
    ensures made { OnOk result (IsGeneratedBy V.forms nodes.votes lines text.now) }
    ensures refused { IfErr result (λ fault. (fault ≡ BadScript) ⊎ (fault ≡ Memory)) }
{
    if text.len() as u64 > MAX_SCRIPT_BYTES {
        return Err(Fault::BadScript);
    }
    match Script::parse_by::<V>(alloc, text) {
        Ok(script) => check_script(nodes, lines, &script),
        Err(ScriptFault::Memory) => Err(Fault::Memory),
        Err(ScriptFault::AtLine(_)) => Err(Fault::BadScript),
    }
}

/// Checks that the script has these nodes, `lines` lines other than `show`, at most 10,000, and `show` after them.
///
/// Errors: `BadScript` if it doesn't.
fn check_script<A: Allocator + Copy + Drop>(
    nodes: Fixed,
    lines: u32,
    script: &Script<A>,
) -> Result<(), Fault>
    ensures nodes { OnOk result ((script.now.nodes.count ≡ nodes.count) × (padded_votes script.now.nodes.votes ≡ padded_votes nodes.votes)) }
    ensures lines { OnOk result (length script.now.lines.items ≡ min lines 10000 + 1) }
    ensures asks { OnOk result ((k : ℕ) (line : _) → k < min lines 10000 → (slice_index_or script.now.lines.items k line).line ≢ Show) }
    ensures shows { OnOk result ((line : _) → (slice_index_or script.now.lines.items (min lines 10000) line).line ≡ Show) }
    ensures refused { IfErr result (λ fault. fault ≡ BadScript) }
{
    let many = lines.min(MAX_LINES) as usize;
    let asked = script.lines.as_slice();
    if !are_same(script.nodes, nodes) || asked.len() != many + 1 || first_show(asked) != many {
        return Err(Fault::BadScript);
    }
    Ok(())
}

/// Returns whether the two groups have as many nodes, with the same votes.
fn are_same(one: Fixed, other: Fixed) -> bool
    ensures { IsTrue result → (one.count ≡ other.count) × (padded_votes one.votes ≡ padded_votes other.votes) }
{
    one == other
}

/// Returns the index of the first `show`, or the number of lines if there is none.
fn first_show<A: Allocator + Copy>(lines: &[NumberedLine<A>]) -> usize
    ensures within { result ≤ length lines.now }
    ensures before { (k : ℕ) (line : _) → k < result → (slice_index_or lines.now k line).line ≢ Show }
    ensures found { (line : _) → result < length lines.now → (slice_index_or lines.now result line).line ≡ Show }
{
    for (place, numbered) in lines.iter().enumerate() {
        if is_show(&numbered.line) {
            return place;
        }
    }
    lines.len()
}

fn is_show<A: Allocator + Copy>(line: &ScriptLine<A>) -> bool
    ensures { IsTrue result ↔ (line.now ≡ Show) }
{
    match line {
        ScriptLine::Show => true,
        _ => false,
    }
}

/// The maximum number of lines of a generated script, without its comments, `nodes`, `votes` and the final `show`:
/// 10,000.
///
/// Formats: The command line
pub const MAX_LINES: u32 = 10_000;

/// Writes a comment on how the script was generated, the number of nodes, and their votes if one isn't 1.
fn write_head<A: Allocator>(
    head: &mut String<A>,
    votes: &[u8],
    seed: u64,
    lines: u32,
) -> Result<(), Fault> {
    let count = votes.len();
    writeln!(
        head,
        "# Seed {seed}, {count} nodes, {lines} lines.\nnodes {count}"
    )?;
    if votes.iter().all(|vote| *vote == 1) {
        return Ok(());
    }
    head.push_str("votes")?;
    for vote in votes {
        write!(head, " {vote}")?;
    }
    Ok(head.push_str("\n")?)
}

/// Prints the script that [`generate_script`] generates from these arguments on `out`.
///
/// Returns the exit status: 0, or 1 after an error.
///
/// Errors: those of `generate_script` are reported on `err`, and nothing is printed. If `out` fails, nothing is
/// reported.
///
/// Formats: The command line
pub fn generate<A: Allocator + Copy + Drop, O: Write, E: Write>(
    alloc: A,
    votes: &[u8],
    seed: u64,
    lines: u32,
    out: &mut O,
    err: &mut E,
) -> u8
    ensures status { result ≤ 1 }
    ensures quiet { result ≡ 0 → err.new ≡ err.old }
    ensures printed { result ≡ 0 → (text : List ℕ) × IsGenerated votes.now lines text × Appends (O.contents out.old) (O.contents out.new) text }
    ensures kept { result ≡ 1 → (out.new ≡ out.old) ⊎ (err.new ≡ err.old) }
    ensures stranger { ¬ AreVotes votes.now → (result ≡ 1) × (out.new ≡ out.old) }
{
    generate_by::<ShelfVocabulary, A, O, E>(alloc, votes, seed, lines, out, err)
}

/// Prints a generated script as [`generate`] does, but for an object with the vocabulary `V`.
///
/// Returns the exit status: 0, or 1 after an error.
///
/// Errors: as for [`generate`].
///
/// Formats: The command line
pub fn generate_by<V: Vocabulary, A: Allocator + Copy + Drop, O: Write, E: Write>(
    alloc: A,
    votes: &[u8],
    seed: u64,
    lines: u32,
    out: &mut O,
    err: &mut E,
) -> u8
    ensures status { result ≤ 1 }
    ensures quiet { result ≡ 0 → err.new ≡ err.old }
    ensures printed { result ≡ 0 → (text : List ℕ) × IsGeneratedBy V.forms votes.now lines text × Appends (O.contents out.old) (O.contents out.new) text }
    ensures kept { result ≡ 1 → (out.new ≡ out.old) ⊎ (err.new ≡ err.old) }
    ensures stranger { ¬ AreVotes votes.now → (result ≡ 1) × (out.new ≡ out.old) }
{
    match generate_script_by::<V, A>(alloc, votes, seed, lines) {
        Ok(text) => match out.write_all(text.as_bytes()) {
            Ok(()) => 0,
            Err(_) => report_failure(err, Failure::Output),
        },
        Err(fault) => report_failure(err, Failure::Refused(fault)),
    }
}
