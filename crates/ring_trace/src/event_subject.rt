//! The node of an event, and the description of the event.
//!
//! Formats: The command line

use ring_base::Proc;
use ring_console::{OpenCopy, ScriptLine};
use ring_counts::CountedInput;
use ring_script::timeout_name;
use ring_trace_formats::{CallWords, DeliveryKind, TraceVocabulary, WaitingCall};
use std::alloc::{AllocError, Allocator};
use std::fmt::Write;

/// The node of an event, and the frame or the call that reaches the node in it.
#[derive(Clone, Copy)]
pub(crate) struct EventSubject {
    /// The node at which the event happens.
    pub node: Proc,
    /// The number of the frame that a turn or a line delivers to the node, if a u64 holds it.
    pub frame: Option<u64>,
    /// The input, as far as counts depend on it, if it is neither a frame nor a call.
    pub counted: Option<CountedInput>,
    /// The delivered copy, if the event is a turn of a pump.
    pub open_copy: Option<OpenCopy>,
    /// The submitted call, if the event is the line `call`.
    pub call: Option<WaitingCall>,
}

/// Returns the node of a line's event, and the call that the line submits there.
///
/// Returns `None` if the line isn't an event or is a pump.
///
/// Formats: The command line
pub(crate) fn event_subject_of<A: Allocator + Copy>(line: &ScriptLine<A>) -> Option<EventSubject> {
    let mut submitted = None;
    let mut given = None;
    let mut counted = None;
    let node = match line {
        ScriptLine::Call { node, call } => {
            submitted = Some(WaitingCall::of(*node, call, 0));
            *node
        }
        ScriptLine::Deliver { node, frame } => {
            given = *frame;
            *node
        }
        ScriptLine::Timeout { node, kind } => {
            counted = Some(CountedInput::Timeout(*kind));
            *node
        }
        ScriptLine::Noise { node, .. } => {
            counted = Some(CountedInput::Noise);
            *node
        }
        ScriptLine::Stop { node } => {
            counted = Some(CountedInput::Stop);
            *node
        }
        _ => return None,
    };
    Some(EventSubject {
        node,
        frame: given,
        counted,
        open_copy: None,
        call: submitted,
    })
}

/// Appends the description of a line's event to `what`, in the words of the object.
///
/// `kind` is the kind of delivery of a line `deliver`. Nothing is appended if the line isn't an event or is a pump.
///
/// Errors: `AllocError` if an allocation fails; a part may then have been appended.
///
/// Formats: The command line
pub(crate) fn write_event_description<A: Allocator + Copy>(
    what: &mut String<A>,
    trace_vocabulary: &TraceVocabulary,
    line: &ScriptLine<A>,
    kind: DeliveryKind,
) -> Result<(), AllocError> {
    match line {
        ScriptLine::Call { node, call } => {
            let words = CallWords {
                trace_vocabulary,
                call,
            };
            write!(what, "node {node} is called {words}")
        }
        ScriptLine::Deliver { node, frame } => match frame {
            Some(frame) => write!(what, "node {node} is given frame {frame}{kind}"),
            None => write!(what, "node {node} is given a frame that was not sent"),
        },
        ScriptLine::Timeout { node, kind } => write!(
            what,
            "node {node} times out: {}",
            timeout_name(*kind)
        ),
        ScriptLine::Noise { node, .. } => write!(what, "node {node} hears noise"),
        ScriptLine::Stop { node } => write!(what, "node {node} is stopped"),
        _ => Ok(()),
    }
}

/// Appends the description of a turn that delivers this copy to `what`.
///
/// Errors: `AllocError` if an allocation fails; a part may then have been appended.
///
/// Formats: The command line
pub(crate) fn write_turn<A: Allocator + Copy>(
    what: &mut String<A>,
    open_copy: OpenCopy,
) -> Result<(), AllocError> {
    let (node, frame, sender) = (open_copy.receiver, open_copy.frame, open_copy.sender);
    write!(what, "node {node} hears frame {frame} of node {sender}")
}
