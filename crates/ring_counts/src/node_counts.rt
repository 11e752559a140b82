//! What is counted of a node's steps.
//!
//! Formats: Records

ghost use Rattle.std.specs.Prelude.{◌≡◌, fold};
ghost use Rattle.ring_clock.specs.StepOutcomes.{has_sent_frame};
ghost use Rattle.ring_counts.specs.Counts.{no_counts, with_again, with_input, with_send, with_sent_frame, with_token, with_token_frame, with_token_seen};
ghost use Rattle.ring_counts.specs.Counts.{counts_after_step, counts_after_outcome, counts_after_refusal, counts_after_submit, count_numbers};

use crate::counted::{CountedFrame, CountedInput};
use crate::frame_counts::FrameCounts;
use ring_clock::has_sent_frame;
use ring_core_spec::OutgoingFrame;
use std::alloc::Allocator;

/// The counts of a node's steps since its opening.
///
/// A count that has reached 2^64 - 1 stays there.
///
/// Formats: Records
#[derive(Clone, Copy, Debug, PartialEq, Eq)]
pub struct NodeCounts {
    /// The frames that the node received, by kind.
    pub received: FrameCounts,
    /// The received inputs that aren't a frame.
    pub noise: u64,
    /// The frames that the node sent, by kind.
    ///
    /// A frame to several receivers counts once.
    pub sent: FrameCounts,
    /// The tokens and commit tokens that the node took: it sent something for them.
    pub tokens_taken: u64,
    /// The tokens and commit tokens that the node ignored.
    pub tokens_ignored: u64,
    /// The messages that the node sent because a token asked for them.
    pub messages_again: u64,
    /// The tokens and commit tokens that the node sent at a retransmit timeout.
    pub tokens_again: u64,
    /// The number of times that the node installed a ring.
    pub rings: u64,
    /// The inputs and calls that the node refused.
    ///
    /// They are counted nowhere else.
    pub refusals: u64,
    /// The calls that got a ticket.
    pub submitted: u64,
    /// The answers that the node gave.
    pub answered: u64,
}

/// What a person reads of a node in addition to its counts.
///
/// These numbers can fall as well as rise.
///
/// Formats: Records
#[derive(Clone, Copy, Debug, PartialEq, Eq)]
pub struct NodeGauges {
    /// The number of submitted calls whose answers are still to come.
    pub waiting: u64,
    /// The number of committed places, including dropped ones.
    pub committed: u64,
    /// The number of dropped places.
    pub dropped: u64,
}

impl NodeCounts {
    /// Returns the counts of a node at its opening: all are 0.
    pub fn new() -> NodeCounts
        ensures { result ≡ no_counts }
    {
        NodeCounts {
            received: FrameCounts::new(),
            noise: 0,
            sent: FrameCounts::new(),
            tokens_taken: 0,
            tokens_ignored: 0,
            messages_again: 0,
            tokens_again: 0,
            rings: 0,
            refusals: 0,
            submitted: 0,
            answered: 0,
        }
    }

    /// Counts a step: its input, the frames that it sent, the number of its answers, and whether it installed a ring.
    ///
    /// The same as [`note_input`](NodeCounts::note_input), then [`note_sent`](NodeCounts::note_sent) for each frame,
    /// then [`note_outcome`](NodeCounts::note_outcome). Call it once for each step that wasn't refused: a refused one
    /// counts as a refusal alone.
    ///
    /// Rules: Nodes that records drive 8
    /// Formats: Records
    pub fn note_step<A: Allocator + Copy>(
        &mut self,
        input: CountedInput,
        sends: &[OutgoingFrame<A>],
        answers: u64,
        has_installed: bool,
    )
        ensures { self.new ≡ counts_after_step input sends.now answers has_installed self.old }
    {
        self.note_input(input);
        self.note_sends(input, sends);
        self.note_outcome(input, has_sent_frame(sends), answers, has_installed);
    }

    /// Counts the input of a step: a frame in `received` by its kind, or noise in `noise`.
    ///
    /// A timeout and a stop aren't counted. All other counts are unchanged.
    pub fn note_input(&mut self, input: CountedInput)
        ensures { self.new ≡ with_input input self.old }
    {
        match input {
            CountedInput::Frame(frame) => self.received.note(frame),
            CountedInput::Noise => self.noise = self.noise.saturating_add(1),
            CountedInput::Timeout(_) | CountedInput::Stop => {}
        }
    }

    /// Counts the frames that a step on this input sent.
    fn note_sends<A: Allocator + Copy>(&mut self, input: CountedInput, sends: &[OutgoingFrame<A>])
        ensures { self.new ≡ fold (with_send input) self.old sends.now }
    {
        for sent in sends {
            self.note_sent(input, CountedFrame::of(&sent.frame));
        }
    }

    /// Counts a frame that a step on this input sent: in `sent` by its kind, and also in the count of what was sent
    /// again if it was.
    ///
    /// A message is sent again if the input is a token whose `seq` is at least its number (`messages_again`). A token
    /// or commit token is sent again if the input is a retransmit timeout (`tokens_again`). All other counts are
    /// unchanged.
    pub fn note_sent(&mut self, input: CountedInput, sent: CountedFrame)
        ensures { self.new ≡ with_sent_frame input sent self.old }
    {
        self.sent.note(sent);
        if input.is_again(sent) {
            self.note_again(sent);
        }
    }

    /// Counts a frame that was sent again.
    fn note_again(&mut self, sent: CountedFrame)
        ensures { self.new ≡ with_again sent self.old }
    {
        match sent {
            CountedFrame::Message(_) => {
                self.messages_again = self.messages_again.saturating_add(1);
            }
            CountedFrame::Token(_) | CountedFrame::Commit => {
                self.tokens_again = self.tokens_again.saturating_add(1);
            }
            CountedFrame::Join => {}
        }
    }

    /// Counts the outcome of a step on this input: whether it sent anything, the number of its answers, and whether it
    /// installed a ring.
    ///
    /// If the input is a token or a commit token, `tokens_taken` grows by 1 if the step sent anything, and
    /// `tokens_ignored` otherwise. `answered` grows by `answers`, and `rings` by 1 if a ring was installed. All other
    /// counts are unchanged.
    pub fn note_outcome(
        &mut self,
        input: CountedInput,
        has_sent_frame: bool,
        answers: u64,
        has_installed: bool,
    )
        ensures { self.new ≡ counts_after_outcome input has_sent_frame answers has_installed self.old }
    {
        self.note_input_taken(input, has_sent_frame);
        self.answered = self.answered.saturating_add(answers);
        if has_installed {
            self.rings = self.rings.saturating_add(1);
        }
    }

    /// Counts the input if it is a token or commit token, which was taken or ignored.
    fn note_input_taken(&mut self, input: CountedInput, is_taken: bool)
        ensures { self.new ≡ with_token_seen input is_taken self.old }
    {
        match input {
            CountedInput::Frame(frame) => self.note_frame_taken(frame, is_taken),
            CountedInput::Noise | CountedInput::Timeout(_) | CountedInput::Stop => {}
        }
    }

    /// Counts the frame if it is a token or commit token, which was taken or ignored.
    fn note_frame_taken(&mut self, frame: CountedFrame, is_taken: bool)
        ensures { self.new ≡ with_token_frame frame is_taken self.old }
    {
        match frame {
            CountedFrame::Token(_) | CountedFrame::Commit => self.note_token(is_taken),
            CountedFrame::Message(_) | CountedFrame::Join => {}
        }
    }

    /// Counts a token that was taken or ignored.
    fn note_token(&mut self, is_taken: bool)
        ensures { self.new ≡ with_token is_taken self.old }
    {
        if is_taken {
            self.tokens_taken = self.tokens_taken.saturating_add(1);
        } else {
            self.tokens_ignored = self.tokens_ignored.saturating_add(1);
        }
    }

    /// Counts an input or a call that was refused, in `refusals` alone.
    ///
    /// Rules: Nodes that records drive 8
    pub fn note_refusal(&mut self)
        ensures { self.new ≡ counts_after_refusal self.old }
    {
        self.refusals = self.refusals.saturating_add(1);
    }

    /// Counts a call that got a ticket, in `submitted` alone.
    pub fn note_submit(&mut self)
        ensures { self.new ≡ counts_after_submit self.old }
    {
        self.submitted = self.submitted.saturating_add(1);
    }

    /// Returns the 20 numbers in the order of the record of counts: the counts in the order of the fields of
    /// `NodeCounts`, with those of `received` and `sent` in the order of theirs, and then the gauges.
    ///
    /// Formats: Records
    pub fn numbers(&self, gauges: NodeGauges) -> [u64; 20]
        ensures { result ≡ count_numbers self.now gauges }
    {
        [
            self.received.messages,
            self.received.tokens,
            self.received.joins,
            self.received.commits,
            self.noise,
            self.sent.messages,
            self.sent.tokens,
            self.sent.joins,
            self.sent.commits,
            self.tokens_taken,
            self.tokens_ignored,
            self.messages_again,
            self.tokens_again,
            self.rings,
            self.refusals,
            self.submitted,
            self.answered,
            gauges.waiting,
            gauges.committed,
            gauges.dropped,
        ]
    }
}
