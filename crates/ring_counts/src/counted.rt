//! Frames and inputs, as far as counts depend on them.
//!
//! Formats: Records

ghost use Rattle.std.specs.Prelude.{◌≡◌};
ghost use Rattle.ring_counts.specs.Counted.{counted_frame, counted_input, is_again, is_again_at_frame, is_again_at_timeout, is_asked_for, is_some_token};

use ring_base::Kind;
use ring_node_spec::Input;
use ring_wire::Frame;
use std::alloc::Allocator;

/// A frame, as far as counts depend on it.
///
/// Formats: Records
#[derive(Clone, Copy, Debug, PartialEq, Eq)]
pub enum CountedFrame {
    /// A message of this number.
    Message(u64),
    /// A token with this `seq`.
    Token(u64),
    /// A join.
    Join,
    /// A commit token.
    Commit,
}

/// An input of a node, as far as counts depend on it.
///
/// Formats: Records
#[derive(Clone, Copy, Debug, PartialEq, Eq)]
pub enum CountedInput {
    /// A frame was received.
    Frame(CountedFrame),
    /// Bytes were received that aren't a frame.
    Noise,
    /// A timeout of this kind is due.
    Timeout(Kind),
    /// The node stops for good.
    Stop,
}

impl CountedFrame {
    /// Returns a frame, as far as counts depend on it.
    ///
    /// Formats: Records
    pub fn of<A: Allocator + Copy>(frame: &Frame<A>) -> CountedFrame
        ensures { result ≡ counted_frame frame.now }
    {
        match frame {
            Frame::Message(message) => CountedFrame::Message(message.number),
            Frame::Token(token) => CountedFrame::Token(token.seq),
            Frame::Join(_) => CountedFrame::Join,
            Frame::Commit(_) => CountedFrame::Commit,
        }
    }
}

impl CountedInput {
    /// Returns an input, as far as counts depend on it.
    ///
    /// Formats: Records
    pub fn of<A: Allocator + Copy>(input: &Input<A>) -> CountedInput
        ensures { result ≡ counted_input input.now }
    {
        match input {
            Input::Frame(frame) => CountedInput::Frame(CountedFrame::of(frame)),
            Input::Noise => CountedInput::Noise,
            Input::Timeout(kind) => CountedInput::Timeout(*kind),
            Input::Stop => CountedInput::Stop,
        }
    }

    /// Returns whether a step on this input sends this frame again.
    ///
    /// It does if the frame is a message that a token asked for, or the token or commit token that was sent last, at a
    /// retransmit timeout.
    ///
    /// Formats: Records
    pub(crate) fn is_again(self, sent: CountedFrame) -> bool
        ensures { result ≡ is_again self sent }
    {
        match self {
            CountedInput::Frame(frame) => frame.asks_for(sent),
            CountedInput::Timeout(kind) => is_sent_again_at(kind, sent),
            CountedInput::Noise | CountedInput::Stop => false,
        }
    }
}

impl CountedFrame {
    /// Returns whether a received frame asks for `sent`.
    ///
    /// It does if it is a token and `sent` is a message whose number is at most the token's `seq`.
    fn asks_for(self, sent: CountedFrame) -> bool
        ensures { result ≡ is_again_at_frame self sent }
    {
        match self {
            CountedFrame::Token(seq) => sent.is_message_up_to(seq),
            CountedFrame::Message(_) | CountedFrame::Join | CountedFrame::Commit => false,
        }
    }

    /// Returns whether the frame is a message of at most this number.
    fn is_message_up_to(self, seq: u64) -> bool
        ensures { result ≡ is_asked_for seq self }
    {
        match self {
            CountedFrame::Message(number) => number <= seq,
            CountedFrame::Token(_) | CountedFrame::Join | CountedFrame::Commit => false,
        }
    }

    /// Returns whether the frame is a token or a commit token.
    fn is_some_token(self) -> bool
        ensures { result ≡ is_some_token self }
    {
        match self {
            CountedFrame::Token(_) | CountedFrame::Commit => true,
            CountedFrame::Message(_) | CountedFrame::Join => false,
        }
    }
}

/// Returns whether a frame that is sent at a timeout of this kind is sent again.
fn is_sent_again_at(kind: Kind, sent: CountedFrame) -> bool
    ensures { result ≡ is_again_at_timeout kind sent }
{
    match kind {
        Kind::Retransmit => sent.is_some_token(),
        Kind::Join | Kind::Consensus | Kind::Loss => false,
    }
}
