//! The details of an event for programs, in addition to its words: its input, the frames that it sent, and the turns of
//! a fold.
//!
//! Formats: The command line

ghost use Rattle.std.specs.Prelude.{◌≡◌, IfErr};
ghost use Rattle.ring_base.specs.declared.fault.Fault.TheVariants.{Memory};

use crate::change_and_report_values::member_numbers;
use ring_base::{Fault, Proc, ProcSet};
use ring_payload::Call;
use ring_trace_words::{DeliveryKind, OperationWords, TraceVocabulary};
use serde::Serialize;
use std::alloc::{Allocator, Global};

/// The input of an event, under its name.
///
/// Formats: The command line
#[derive(Drop, Serialize)]
#[serde(rename_all = "snake_case")]
pub enum InputValue {
    /// A call is submitted.
    Call(CallInput),
    /// A turn of a pump delivers a copy.
    Turn(TurnInput),
    /// The line `deliver` delivers a frame.
    Delivery(DeliveryInput),
    /// A timeout with this name.
    Timeout(&'static str),
    /// This number of bytes of noise.
    Noise(u64),
    /// The node is stopped.
    ///
    /// The value is always true.
    Stop(bool),
}

/// A call that is submitted, with its operation in words.
///
/// Formats: The command line
#[derive(Drop, Serialize)]
pub struct CallInput {
    client: u32,
    number: u64,
    operation: String,
}

/// A frame that a turn delivers, and its sender.
///
/// Formats: The command line
#[derive(Drop, Serialize)]
pub struct TurnInput {
    frame: u64,
    from: u8,
}

/// The frame number in a line `deliver`, `None` from 2^64 on, and the kind of delivery.
///
/// Formats: The command line
#[derive(Drop, Serialize)]
pub struct DeliveryInput {
    frame: Option<u64>,
    was: &'static str,
}

impl InputValue {
    /// Returns the input of a call that is submitted.
    ///
    /// Errors: `Memory` if an allocation fails.
    ///
    /// Formats: The command line
    pub fn of_call<A: Allocator + Copy>(
        alloc: Global,
        trace_vocabulary: &TraceVocabulary,
        call: &Call<A>,
    ) -> Result<InputValue, Fault>
        ensures { IfErr result (λ fault. fault ≡ Memory) }
    {
        let words = OperationWords {
            trace_vocabulary,
            operation: call.op.as_slice(),
        };
        Ok(InputValue::Call(CallInput {
            client: call.client,
            number: call.number,
            operation: format!(in alloc; "{words}")?,
        }))
    }

    /// Returns the input of a turn that delivers frame `frame`, sent by `from`.
    ///
    /// Does not allocate.
    ///
    /// Formats: The command line
    pub fn of_turn(frame: u64, from: Proc) -> InputValue {
        InputValue::Turn(TurnInput {
            frame,
            from: from.number(),
        })
    }

    /// Returns the input of a line `deliver`: the frame's number, `None` for 2^64 or more, and the kind of delivery.
    ///
    /// Does not allocate.
    ///
    /// Formats: The command line
    pub fn of_delivery(frame: Option<u64>, kind: DeliveryKind) -> InputValue {
        InputValue::Delivery(DeliveryInput {
            frame,
            was: kind.code(),
        })
    }
}

/// A frame that an event sent.
///
/// Formats: The command line
#[derive(Drop, Serialize)]
pub struct SendValue {
    frame: u64,
    to: Vec<u8>,
    says: String,
    calls: Vec<String>,
}

impl SendValue {
    /// Returns the value of frame number `frame`, sent to the nodes `to`.
    ///
    /// `says` is the frame's line in a listing, and `calls` are the names of the calls that it carries.
    ///
    /// Errors: `Memory` if an allocation fails.
    ///
    /// Formats: The command line
    pub fn new(
        alloc: Global,
        frame: u64,
        to: ProcSet,
        says: String,
        calls: Vec<String>,
    ) -> Result<SendValue, Fault>
        ensures { IfErr result (λ fault. fault ≡ Memory) }
    {
        Ok(SendValue {
            frame,
            to: member_numbers(alloc, to)?,
            says,
            calls,
        })
    }
}

/// A turn of a fold: an event that delivers a frame, or a copy that a cut lost, which has no event.
///
/// Formats: The command line
#[derive(Drop, Serialize)]
pub struct TurnValue {
    /// The number of the event, counted from 1, or `None` for a lost copy.
    #[serde(skip_serializing_if = "Option::is_none")]
    pub event: Option<u64>,
    /// The receiver.
    pub node: u8,
    /// The number of the frame.
    pub frame: u64,
    /// The sender.
    pub from: u8,
    /// The length of the receiver's log, if the event changed it.
    #[serde(skip_serializing_if = "Option::is_none")]
    pub log: Option<u64>,
    /// The frames that the event sent.
    pub sends: Vec<SendValue>,
}

/// The details of an event for programs, in addition to its words.
///
/// Formats: The command line
#[derive(Drop)]
pub struct EventDetails {
    /// The input.
    pub input: Option<InputValue>,
    /// The length of the node's log, if the event changed it.
    pub changed_log_len: Option<u64>,
    /// The frames that the event sent.
    pub sent_frames: Vec<SendValue>,
}
