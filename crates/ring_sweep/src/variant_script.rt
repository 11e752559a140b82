//! The script of a variant: the text of the script, with the line of the injection added.
//!
//! Formats: The command line

ghost use Rattle.std.specs.Prelude.{◌≡◌, ◌+◌, ◌-◌, ◌^◌, ◌<◌, ◌≤◌, ◌==◌, ◌⊎◌, ◌++◌, if◌then◌else◌, Ok, Some, IfErr, OnOk, codes, length, slice_get};
ghost use Rattle.std.specs.Fmt.{decimal};
ghost use Rattle.std.specs.List.{join_by};
ghost use Rattle.std.specs.Io.KnownBytes.{Appends};
ghost use Rattle.ring_script.specs.Fits.{AreFit};
ghost use Rattle.ring_script.specs.ScriptTexts.{IsNoScript};
ghost use Rattle.ring_script.specs.Scripts.{IsScriptOfInput, IsScriptOfInputBy};
ghost use Rattle.ring_script.specs.declared.scripts.Script.{Script as OneScript};
ghost use Rattle.ring_script.specs.ShelfVocabulary.{shelf_operation_forms};
ghost use Rattle.ring_failure.specs.declared.failure.Failure.TheVariants.{Output};
ghost use Rattle.ring_failure.specs.Texts.{line_of};
ghost use Rattle.ring_console.specs.Running.{HasPrinted};
ghost use Rattle.ring_sweep.specs.ScriptPositions.{HasNoVariant};
ghost use Rattle.ring_sweep.specs.VariantTexts.{comment_of, injected_lines, injection_line, other_nodes, pump_line, first_lines, lines_after, lines_length, is_ended};
ghost use Rattle.ring_sweep.specs.VariantTexts.{ended_text, split_turns, with_injected, text_with_injection, IsVariantText};
ghost use Rattle.ring_sweep.specs.Variants.{injection_at};

use crate::injection::{Injection, InjectionKind, InjectionText};
use crate::script_position::{ScriptPosition, position_of};
use ring_base::Proc;
use ring_console::{
    Failure, NumberedLine, Script, ScriptLine, ShelfVocabulary, StandardObjects, Vocabulary,
    report_failure,
};
use ring_failure::{BAD_COMMAND_LINE, output_result};
use ring_object::Object;
use std::alloc::Allocator;
use std::io::Write;

/// Prints the script of the variant with the number `place`, counted from 1, of the sweep of a script for the standard
/// object.
///
/// It is the text of the script, with the injected line and a comment above it. A pump with the injection among its
/// turns is split in two. Returns the exit status: 0, or one of the following:
///
/// - 2 if there is no such variant: reported on `err`, and nothing is printed.
/// - 1 if the text isn't a script (`BadScript`) or an allocation fails (`Memory`): reported on `err`, and nothing is
///   printed.
/// - 1 if `out` fails: nothing is reported.
///
/// Formats: The command line
pub fn print_variant<A: Allocator + Copy + Drop, O: Write, E: Write>(
    alloc: A,
    text: &[u8],
    place: u64,
    out: &mut O,
    err: &mut E,
) -> u8
    ensures status { result ≤ 2 }
    ensures quiet { result ≡ 0 → err.new ≡ err.old }
    ensures none { IsNoScript shelf_operation_forms text.now → (result ≡ 1) × (out.new ≡ out.old) }
    ensures unprinted { result ≡ 2 → out.new ≡ out.old }
    ensures absent { let object = ⟦<StandardObjects<A> as Object>⟧ in
        result ≡ 2 → (script : OneScript A) × IsScriptOfInput (Ok script) text.now
        × HasNoVariant object.sequential script.nodes script.lines.items place }
    ensures printed { let object = ⟦<StandardObjects<A> as Object>⟧ in
        result ≡ 0 → (script : OneScript A) × IsScriptOfInput (Ok script) text.now × (1 ≤ place)
        × HasPrinted (O.contents out.old) (O.contents out.new)
        (IsVariantText object.sequential script.nodes script.lines.items text.now (injection_at script.nodes.count (place - 1))) }
    ensures kept { result ≡ 1 → (out.new ≡ out.old) ⊎ (err.new ≡ err.old) }
{
    print_variant_of::<StandardObjects<A>, ShelfVocabulary, O, E>(alloc, text, place, out, err)
}

/// Prints the script of a variant as [`print_variant`] does, for objects `T` with the vocabulary `V`.
///
/// Returns the exit status: 0, 1 or 2, as [`print_variant`] does.
///
/// Formats: The command line
pub fn print_variant_of<T: Object, V: Vocabulary, O: Write, E: Write>(
    alloc: T::Alloc,
    text: &[u8],
    place: u64,
    out: &mut O,
    err: &mut E,
) -> u8
    ensures status { result ≤ 2 }
    ensures quiet { result ≡ 0 → err.new ≡ err.old }
    ensures none { IsNoScript V.forms text.now → (result ≡ 1) × (out.new ≡ out.old) }
    ensures unprinted { result ≡ 2 → out.new ≡ out.old }
    ensures absent { result ≡ 2 → (script : OneScript T.Alloc) × IsScriptOfInputBy V.forms (Ok script) text.now
        × HasNoVariant T.sequential script.nodes script.lines.items place }
    ensures printed { result ≡ 0 → (script : OneScript T.Alloc) × IsScriptOfInputBy V.forms (Ok script) text.now × (1 ≤ place)
        × HasPrinted (O.contents out.old) (O.contents out.new)
        (IsVariantText T.sequential script.nodes script.lines.items text.now (injection_at script.nodes.count (place - 1))) }
    ensures kept { result ≡ 1 → (out.new ≡ out.old) ⊎ (err.new ≡ err.old) }
{
    let mut rest = text;
    match Script::read_by::<V, _>(alloc, &mut rest) {
        Ok(script) => print_variant_in::<T, O, E>(alloc, text, &script, place, out, err),
        Err(fault) => report_failure(err, Failure::from(fault)),
    }
}

/// Prints the script of a variant as [`print_variant_of`] does, given the text's parsed script.
fn print_variant_in<T: Object, O: Write, E: Write>(
    alloc: T::Alloc,
    text: &[u8],
    script: &Script<T::Alloc>,
    place: u64,
    out: &mut O,
    err: &mut E,
) -> u8
    requires { AreFit script.now.lines.items }
    ensures status { result ≤ 2 }
    ensures quiet { result ≡ 0 → err.new ≡ err.old }
    ensures unprinted { result ≡ 2 → out.new ≡ out.old }
    ensures absent { result ≡ 2 → HasNoVariant T.sequential script.now.nodes script.now.lines.items place }
    ensures printed { result ≡ 0 → (1 ≤ place)
        × HasPrinted (O.contents out.old) (O.contents out.new)
        (IsVariantText T.sequential script.now.nodes script.now.lines.items text.now (injection_at script.now.nodes.count (place - 1))) }
    ensures kept { result ≡ 1 → (out.new ≡ out.old) ⊎ (err.new ≡ err.old) }
{
    let injection = Injection::of_variant(script.nodes.count(), place.saturating_sub(1));
    let script_position = match position_of::<T>(alloc, script, injection.before) {
        Ok(script_position) => script_position,
        Err(fault) => return report_failure(err, Failure::Refused(fault)),
    };
    if place == 0 || script_position.events < injection.before {
        let _ = writeln!(err, "totem: there is no variant {place}");
        return BAD_COMMAND_LINE;
    }
    match print_with_injection(text, script, script_position, injection, out) {
        Ok(()) => 0,
        Err(failure) => report_failure(err, failure),
    }
}

/// Prints a script's text with an injection at this position.
///
/// The injection must come after fewer than 2^64 - 1 events.
///
/// Errors: `Output` if writing fails.
fn print_with_injection<A: Allocator + Copy, O: Write>(
    text: &[u8],
    script: &Script<A>,
    script_position: ScriptPosition,
    injection: Injection,
    out: &mut O,
) -> Result<(), Failure>
    requires { injection.before < 2 ^ 64 - 1 }
    ensures printed { OnOk result (Appends (O.contents out.old) (O.contents out.new)
        (text_with_injection text.now (slice_get script.now.lines.items script_position.lines) script_position.turns script.now.nodes.count injection)) }
    ensures failed { IfErr result (λ failure. failure ≡ Output) }
{
    let count = script.nodes.count();
    match script.lines.get(script_position.lines) {
        Some(next) => print_with_line(
            text,
            next,
            script_position.turns,
            &InjectedLines::before_event(injection, count),
            out,
        ),
        None => print_with_end(text, &InjectedLines::at_end(injection, count), out),
    }
}

/// Prints a text with the injected lines before the line `next`, or after `taken` turns of it.
///
/// Errors: `Output` if writing fails.
fn print_with_line<A: Allocator + Copy, O: Write>(
    text: &[u8],
    next: &NumberedLine<A>,
    taken: u32,
    added_lines: &InjectedLines,
    out: &mut O,
) -> Result<(), Failure>
    ensures printed { let u = added_lines.now in OnOk result (Appends (O.contents out.old) (O.contents out.new)
        (first_lines (next.now.number - 1) text.now ++ with_injected (split_turns next.now.line taken) taken
        (injected_lines u.count u.events u.injection) (lines_after (next.now.number - 1) text.now))) }
    ensures failed { IfErr result (λ failure. failure ≡ Output) }
{
    let begin = line_begin(text, next.number);
    let behind = &text[begin..];
    print_bytes(&text[..begin], out)?;
    match split_turns(&next.line, taken) {
        Some(turns) => print_split_pump(behind, turns, taken, added_lines, out),
        None => print_before(behind, added_lines, out),
    }
}

/// Returns the index of the first byte of line `number`, counted from 1, or the length of the text if it has no such
/// line.
fn line_begin(text: &[u8], number: u64) -> usize
    ensures begin { result ≡ lines_length (number - 1) text.now }
    ensures within { result ≤ length text.now }
{
    let mut line = 1u64;
    for (index, byte) in text.iter().enumerate() {
        if line >= number {
            return index;
        }
        line = line_behind(line, *byte);
    }
    text.len()
}

/// Returns the number of the line that a text is in after this byte of line `line`.
fn line_behind(line: u64, byte: u8) -> u64
    ensures { line < 2 ^ 64 - 1 → result ≡ (if byte == 10 then line + 1 else line) }
{
    if byte == b'\n' {
        line.saturating_add(1)
    } else {
        line
    }
}

/// Returns the turns of the line if it is a pump and `taken` of them come before the injection.
fn split_turns<A: Allocator + Copy>(line: &ScriptLine<A>, taken: u32) -> Option<u32>
    ensures { result ≡ split_turns line.now taken }
{
    match line {
        ScriptLine::Pump { turns } if taken > 0 => Some(*turns),
        _ => None,
    }
}

/// Prints a text, and the injected lines after it.
///
/// Errors: `Output` if writing fails.
fn print_with_end<O: Write>(
    text: &[u8],
    added_lines: &InjectedLines,
    out: &mut O,
) -> Result<(), Failure>
    ensures printed { let u = added_lines.now in OnOk result (Appends (O.contents out.old) (O.contents out.new)
        (ended_text text.now ++ injected_lines u.count u.events u.injection)) }
    ensures failed { IfErr result (λ failure. failure ≡ Output) }
{
    print_text(text, out)?;
    print_injected(added_lines, out)
}

/// Prints a text that begins with a pump's line, with the injected lines put into that pump.
///
/// They come between the pump's first `taken` turns and the others, which become two pumps.
///
/// Errors: `Output` if writing fails.
fn print_split_pump<O: Write>(
    text: &[u8],
    turns: u32,
    taken: u32,
    added_lines: &InjectedLines,
    out: &mut O,
) -> Result<(), Failure>
    ensures printed { let u = added_lines.now in OnOk result (Appends (O.contents out.old) (O.contents out.new)
        (with_injected (Some turns) taken (injected_lines u.count u.events u.injection) text.now)) }
    ensures failed { IfErr result (λ failure. failure ≡ Output) }
{
    print_pump(taken, out)?;
    print_injected(added_lines, out)?;
    print_pump(turns.saturating_sub(taken), out)?;
    print_text(&text[line_begin(text, 2)..], out)
}

/// Prints the injected lines before a text.
///
/// Errors: `Output` if writing fails.
fn print_before<O: Write>(
    text: &[u8],
    added_lines: &InjectedLines,
    out: &mut O,
) -> Result<(), Failure>
    ensures printed { let u = added_lines.now in OnOk result (Appends (O.contents out.old) (O.contents out.new)
        (injected_lines u.count u.events u.injection ++ ended_text text.now)) }
    ensures failed { IfErr result (λ failure. failure ≡ Output) }
{
    print_injected(added_lines, out)?;
    print_text(text, out)
}

/// Prints the line of a pump.
///
/// Errors: `Output` if writing fails.
fn print_pump<O: Write>(turns: u32, out: &mut O) -> Result<(), Failure>
    ensures printed { OnOk result (Appends (O.contents out.old) (O.contents out.new) (pump_line turns)) }
    ensures failed { IfErr result (λ failure. failure ≡ Output) }
{
    output_result(writeln!(out, "pump {turns}"))
}

/// Prints a text, and a line feed if its last line has none.
///
/// Errors: `Output` if writing fails.
fn print_text<O: Write>(text: &[u8], out: &mut O) -> Result<(), Failure>
    ensures printed { OnOk result (Appends (O.contents out.old) (O.contents out.new) (ended_text text.now)) }
    ensures failed { IfErr result (λ failure. failure ≡ Output) }
{
    print_bytes(text, out)?;
    if is_ended(text) {
        return Ok(());
    }
    print_bytes(b"\n", out)
}

/// Returns whether a text is empty or its last line ends with a line feed.
fn is_ended(text: &[u8]) -> bool
    ensures { result ≡ is_ended text.now }
{
    match text.last() {
        Some(last) => *last == b'\n',
        None => true,
    }
}

/// Prints bytes as they are.
///
/// Errors: `Output` if writing fails.
fn print_bytes<O: Write>(bytes: &[u8], out: &mut O) -> Result<(), Failure>
    ensures printed { OnOk result (Appends (O.contents out.old) (O.contents out.new) bytes.now) }
    ensures failed { IfErr result (λ failure. failure ≡ Output) }
{
    output_result(out.write_all(bytes))
}

/// The injected lines: a comment, and the line of the injection.
///
/// The line is missing if the only node of a group is to be cut off: only the comment is printed.
#[derive(Clone, Copy)]
struct InjectedLines {
    injection: Injection,
    count: u8,
    events: u64,
}

impl InjectedLines {
    /// Returns the lines for an injection before its event.
    ///
    /// The injection must come after fewer than 2^64 - 1 events.
    fn before_event(injection: Injection, count: u8) -> InjectedLines
        requires { injection.before < 2 ^ 64 - 1 }
        ensures { result ≡ record { injection = injection; count = count; events = injection.before + 1 } }
    {
        let events = injection.before + 1;
        InjectedLines {
            injection,
            count,
            events,
        }
    }

    /// Returns the lines for an injection after all events.
    fn at_end(injection: Injection, count: u8) -> InjectedLines
        ensures { result ≡ record { injection = injection; count = count; events = injection.before } }
    {
        let events = injection.before;
        InjectedLines {
            injection,
            count,
            events,
        }
    }
}

/// Prints the injected lines.
///
/// Errors: `Output` if writing fails.
fn print_injected<O: Write>(added_lines: &InjectedLines, out: &mut O) -> Result<(), Failure>
    ensures printed { let u = added_lines.now in OnOk result (Appends (O.contents out.old) (O.contents out.new) (injected_lines u.count u.events u.injection)) }
    ensures failed { IfErr result (λ failure. failure ≡ Output) }
{
    print_comment(&added_lines.injection, added_lines.events, out)?;
    print_injection(added_lines, out)
}

/// Prints the comment that names the injection.
///
/// Errors: `Output` if writing fails.
fn print_comment<O: Write>(injection: &Injection, events: u64, out: &mut O) -> Result<(), Failure>
    ensures printed { OnOk result (Appends (O.contents out.old) (O.contents out.new) (comment_of events injection.now)) }
    ensures failed { IfErr result (λ failure. failure ≡ Output) }
{
    let told = InjectionText { injection, events };
    output_result(writeln!(out, "# {told}"))
}

/// Prints the line of the injection.
///
/// The cut of the only node of a group has none: then nothing is printed.
///
/// Errors: `Output` if writing fails.
fn print_injection<O: Write>(added_lines: &InjectedLines, out: &mut O) -> Result<(), Failure>
    ensures printed { let u = added_lines.now in OnOk result (Appends (O.contents out.old) (O.contents out.new)
        (injection_line u.injection.injection_kind u.injection.node u.count)) }
    ensures failed { IfErr result (λ failure. failure ≡ Output) }
{
    let node = added_lines.injection.node;
    match added_lines.injection.injection_kind {
        InjectionKind::Stop => print_stop(node, out),
        InjectionKind::Cut if added_lines.count < 2 => Ok(()),
        InjectionKind::Cut => print_cut(node, added_lines.count, out),
    }
}

/// Prints the line of a node's stop.
///
/// Errors: `Output` if writing fails.
fn print_stop<O: Write>(node: Proc, out: &mut O) -> Result<(), Failure>
    ensures printed { OnOk result (Appends (O.contents out.old) (O.contents out.new) (line_of (codes "stop " ++ decimal node))) }
    ensures failed { IfErr result (λ failure. failure ≡ Output) }
{
    output_result(writeln!(out, "stop {node}"))
}

/// Prints the line of a cut that separates a node from all others.
///
/// Errors: `Output` if writing fails.
fn print_cut<O: Write>(node: Proc, count: u8, out: &mut O) -> Result<(), Failure>
    ensures printed { OnOk result (Appends (O.contents out.old) (O.contents out.new)
        (line_of (codes "cut " ++ decimal node ++ codes " " ++ join_by decimal (codes ",") (other_nodes node count)))) }
    ensures failed { IfErr result (λ failure. failure ≡ Output) }
{
    print_bytes(b"cut ", out)?;
    print_node(node, out)?;
    print_bytes(b" ", out)?;
    print_other_nodes(node, count, out)?;
    print_bytes(b"\n", out)
}

/// Prints a node's number.
///
/// Errors: `Output` if writing fails.
fn print_node<O: Write>(node: Proc, out: &mut O) -> Result<(), Failure>
    ensures printed { OnOk result (Appends (O.contents out.old) (O.contents out.new) (decimal node)) }
    ensures failed { IfErr result (λ failure. failure ≡ Output) }
{
    output_result(write!(out, "{node}"))
}

/// Prints a number.
///
/// Errors: `Output` if writing fails.
fn print_number<O: Write>(number: u8, out: &mut O) -> Result<(), Failure>
    ensures printed { OnOk result (Appends (O.contents out.old) (O.contents out.new) (decimal number)) }
    ensures failed { IfErr result (λ failure. failure ≡ Output) }
{
    output_result(write!(out, "{number}"))
}

/// Prints all nodes of a group except `node`, separated by commas.
///
/// Errors: `Output` if writing fails.
fn print_other_nodes<O: Write>(node: Proc, count: u8, out: &mut O) -> Result<(), Failure>
    ensures printed { OnOk result (Appends (O.contents out.old) (O.contents out.new) (join_by decimal (codes ",") (other_nodes node count))) }
    ensures failed { IfErr result (λ failure. failure ≡ Output) }
{
    let mut parting: &[u8] = b"";
    for before in 0..count {
        if node.number() != before + 1 {
            print_bytes(parting, out)?;
            print_number(before + 1, out)?;
            parting = b",";
        }
    }
    Ok(())
}
