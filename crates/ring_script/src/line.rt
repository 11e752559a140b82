//! The lines of a script after its first: parsing, and the names of the timeouts.
//!
//! Formats: Scripts

ghost use Rattle.std.specs.Prelude.{◌≡◌, Some};
ghost use Rattle.ring_script.specs.Lines.{request_of, request_in, form_at, call_at, deliver_at, timeout_at, noise_at};
ghost use Rattle.ring_script.specs.Lines.{stop_at, cut_line_at, pump_at, frame_at, timeout_kind_of};
ghost use Rattle.ring_script.specs.Reading.{IsParseResultOrMemory, IsParseResult};

use crate::groups::Groups;
use crate::hex_word::decode_hex_word;
use crate::operation::encode_operation;
use crate::vocabulary::Vocabulary;
use crate::words::{Words, equals_word};
use ring_base::{Fault, Fixed, Kind, MAX_FRAME_BYTES, Proc};
use ring_payload::Call;
use std::alloc::{Allocator, Global};

/// The maximum number of turns that a line `pump` may request: 100,000.
///
/// Formats: Scripts
pub const MAX_TURNS: u64 = 100_000;

/// The event or command that an effective line of a script requests.
///
/// The lines `nodes` and `votes` request none.
///
/// Formats: Scripts
#[derive(Drop)]
pub enum ScriptLine<A: Allocator + Copy = Global> {
    /// A client's call is submitted at the node.
    Call { node: Proc, call: Call<A> },
    /// Frame `frame` is delivered at the node.
    ///
    /// The number is at least 1, in the order of sending. `None` stands for a number of 2^64 or more, which no frame
    /// has.
    Deliver { node: Proc, frame: Option<u64> },
    /// The timeout of this kind fires at the node.
    Timeout { node: Proc, kind: Kind },
    /// Bytes that no node sent, 1 to 8,192 of them, arrive at the node.
    Noise { node: Proc, bytes: Vec<u8, A> },
    /// The node stops for good.
    Stop { node: Proc },
    /// From then on, nodes of different groups don't hear each other.
    ///
    /// An earlier cut is replaced.
    Cut(Groups),
    /// From then on, all nodes hear each other.
    Heal,
    /// The network takes this number of turns, 1 to 100,000, or fewer: it ends as soon as no copy of a frame is open.
    Pump { turns: u32 },
    /// The state of all nodes is printed.
    Show,
}

impl<A: Allocator + Copy> ScriptLine<A> {
    /// Parses an effective line that is neither `nodes` nor `votes`, for these nodes and an object with this
    /// vocabulary.
    ///
    /// `operation_buffer` is a scratch buffer, in which the bytes of an operation are built. Its contents are
    /// unspecified afterwards.
    ///
    /// Errors: `BadScript` if the line has none of the forms, or a number is outside its range; `Memory` if an
    /// allocation fails.
    ///
    /// Formats: Scripts
    #[tactic(auto, unfolding(crate::specs::Lines::request_in))]
    pub(crate) fn parse<V: Vocabulary>(
        alloc: A,
        nodes: Fixed,
        line: &[u8],
        operation_buffer: &mut Vec<u8, A>,
    ) -> Result<ScriptLine<A>, Fault>
        ensures { IsParseResultOrMemory request_of result (request_in V.forms nodes line.now) }
    {
        let mut words = Words::new(line, b' ');
        let Some(word) = words.next_word() else {
            return Err(Fault::BadScript);
        };
        match parse_by_first_word::<V, A>(alloc, nodes, word, &mut words, operation_buffer) {
            Ok(asked) if words.is_over() => Ok(asked),
            Ok(_) => Err(Fault::BadScript),
            Err(fault) => Err(fault),
        }
    }
}

/// Parses the words after the first one, `word`, by the form that begins with `word`.
#[tactic(auto, unfolding(crate::specs::Lines::form_at))]
fn parse_by_first_word<V: Vocabulary, A: Allocator + Copy>(
    alloc: A,
    nodes: Fixed,
    word: &[u8],
    words: &mut Words<'_>,
    operation_buffer: &mut Vec<u8, A>,
) -> Result<ScriptLine<A>, Fault>
    ensures { IsParseResultOrMemory (λ line. (request_of line, words.new)) result (form_at V.forms nodes word.now words.old) }
{
    if equals_word(word, b"call") {
        parse_call::<V, A>(alloc, nodes, words, operation_buffer)
    } else if equals_word(word, b"deliver") {
        parse_deliver(nodes, words)
    } else if equals_word(word, b"timeout") {
        parse_timeout(nodes, words)
    } else if equals_word(word, b"noise") {
        parse_noise(alloc, nodes, words)
    } else if equals_word(word, b"stop") {
        parse_stop(nodes, words)
    } else if equals_word(word, b"cut") {
        parse_cut(nodes, words)
    } else if equals_word(word, b"heal") {
        Ok(ScriptLine::Heal)
    } else if equals_word(word, b"pump") {
        parse_pump(words)
    } else if equals_word(word, b"show") {
        Ok(ScriptLine::Show)
    } else {
        Err(Fault::BadScript)
    }
}

#[tactic(auto, unfolding(crate::specs::Lines::call_at))]
fn parse_call<V: Vocabulary, A: Allocator + Copy>(
    alloc: A,
    nodes: Fixed,
    words: &mut Words<'_>,
    operation_buffer: &mut Vec<u8, A>,
) -> Result<ScriptLine<A>, Fault>
    ensures { IsParseResultOrMemory (λ line. (request_of line, words.new)) result (call_at V.forms nodes words.old) }
{
    let node = words.node(nodes)?;
    let client = words.number(0, u64::from(u32::MAX))? as u32;
    let number = words.number(1, u64::MAX)?;
    encode_operation::<V, A>(alloc, words, operation_buffer)?;
    match Call::new(alloc, client, number, operation_buffer.as_slice()) {
        Ok(call) => Ok(ScriptLine::Call { node, call }),
        Err(fault) => Err(fault),
    }
}

#[tactic(auto, unfolding(crate::specs::Lines::deliver_at))]
fn parse_deliver<A: Allocator + Copy>(
    nodes: Fixed,
    words: &mut Words<'_>,
) -> Result<ScriptLine<A>, Fault>
    ensures { IsParseResultOrMemory (λ line. (request_of line, words.new)) result (deliver_at nodes words.old) }
{
    let node = words.node(nodes)?;
    match take_frame_number(words) {
        Ok(frame) => Ok(ScriptLine::Deliver { node, frame }),
        Err(fault) => Err(fault),
    }
}

#[tactic(auto, unfolding(crate::specs::Lines::timeout_at))]
fn parse_timeout<A: Allocator + Copy>(
    nodes: Fixed,
    words: &mut Words<'_>,
) -> Result<ScriptLine<A>, Fault>
    ensures { IsParseResultOrMemory (λ line. (request_of line, words.new)) result (timeout_at nodes words.old) }
{
    let node = words.node(nodes)?;
    let Some(word) = words.next_word() else {
        return Err(Fault::BadScript);
    };
    match timeout_kind_of(word) {
        Ok(kind) => Ok(ScriptLine::Timeout { node, kind }),
        Err(fault) => Err(fault),
    }
}

#[tactic(auto, unfolding(crate::specs::Lines::noise_at))]
fn parse_noise<A: Allocator + Copy>(
    alloc: A,
    nodes: Fixed,
    words: &mut Words<'_>,
) -> Result<ScriptLine<A>, Fault>
    ensures { IsParseResultOrMemory (λ line. (request_of line, words.new)) result (noise_at nodes words.old) }
{
    let node = words.node(nodes)?;
    let Some(word) = words.next_word() else {
        return Err(Fault::BadScript);
    };
    match decode_hex_word(alloc, word, MAX_FRAME_BYTES) {
        Ok(bytes) => Ok(ScriptLine::Noise { node, bytes }),
        Err(fault) => Err(fault),
    }
}

#[tactic(auto, unfolding(crate::specs::Lines::stop_at))]
fn parse_stop<A: Allocator + Copy>(
    nodes: Fixed,
    words: &mut Words<'_>,
) -> Result<ScriptLine<A>, Fault>
    ensures { IsParseResultOrMemory (λ line. (request_of line, words.new)) result (stop_at nodes words.old) }
{
    match words.node(nodes) {
        Ok(node) => Ok(ScriptLine::Stop { node }),
        Err(fault) => Err(fault),
    }
}

#[tactic(auto, unfolding(crate::specs::Lines::cut_line_at))]
fn parse_cut<A: Allocator + Copy>(
    nodes: Fixed,
    words: &mut Words<'_>,
) -> Result<ScriptLine<A>, Fault>
    ensures { IsParseResultOrMemory (λ line. (request_of line, words.new)) result (cut_line_at nodes words.old) }
{
    match Groups::parse(words, nodes) {
        Ok(groups) => Ok(ScriptLine::Cut(groups)),
        Err(fault) => Err(fault),
    }
}

#[tactic(auto, unfolding(crate::specs::Lines::pump_at))]
fn parse_pump<A: Allocator + Copy>(words: &mut Words<'_>) -> Result<ScriptLine<A>, Fault>
    ensures { IsParseResultOrMemory (λ line. (request_of line, words.new)) result (pump_at words.old) }
{
    match words.number(1, MAX_TURNS) {
        Ok(turns) => Ok(ScriptLine::Pump {
            turns: turns as u32,
        }),
        Err(fault) => Err(fault),
    }
}

/// Takes the next word and parses it as the number of a frame, at least 1.
///
/// Returns `None` for a number of 2^64 or more.
///
/// Errors: `BadScript` if it is no such number.
#[tactic(auto, unfolding(crate::specs::Lines::frame_of))]
fn take_frame_number(words: &mut Words<'_>) -> Result<Option<u64>, Fault>
    ensures { IsParseResult (λ frame. (frame, words.new)) result (frame_at words.old) }
{
    match words.decimal() {
        Ok(Some(0)) => Err(Fault::BadScript),
        frame => frame,
    }
}

/// Returns the word that names this timeout in scripts: `retransmit`, `join`, `consensus` or `loss`.
///
/// Formats: Scripts
pub fn timeout_name(kind: Kind) -> &'static str
    ensures { timeout_kind_of result.now ≡ Some kind }
{
    match kind {
        Kind::Retransmit => "retransmit",
        Kind::Join => "join",
        Kind::Consensus => "consensus",
        Kind::Loss => "loss",
    }
}

/// Returns the timeout that this word names.
///
/// Errors: `BadScript` if it names none.
#[tactic(auto, unfolding(crate::specs::Lines::timeout_kind_of))]
fn timeout_kind_of(word: &[u8]) -> Result<Kind, Fault>
    ensures { IsParseResult (λ kind. kind) result (timeout_kind_of word.now) }
{
    if equals_word(word, b"retransmit") {
        Ok(Kind::Retransmit)
    } else if equals_word(word, b"join") {
        Ok(Kind::Join)
    } else if equals_word(word, b"consensus") {
        Ok(Kind::Consensus)
    } else if equals_word(word, b"loss") {
        Ok(Kind::Loss)
    } else {
        Err(Fault::BadScript)
    }
}
