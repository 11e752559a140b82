//! The kinds of records, each a letter.
//!
//! Formats: Records

/// The kind `F`: as an input, a received frame or noise; as an output, a frame to be sent, with its receivers.
///
/// Formats: Records
pub(crate) const FRAME: u8 = b'F';

/// The kind `T` of an input: a timeout, whose kind is the record's one byte.
///
/// Formats: Records
pub(crate) const TIMEOUT: u8 = b'T';

/// The kind `C`: as an input, a call that a client submits; as an output, a newly committed call.
///
/// Formats: Records
pub(crate) const CALL: u8 = b'C';

/// The kind `S` of an input: stops the node for good.
///
/// Formats: Records
pub(crate) const STOP: u8 = b'S';

/// The kind `Q`: as an input, a question for the node's status; as an output, that status.
///
/// Formats: Records
pub(crate) const STATUS: u8 = b'Q';

/// The kind `I`: as an input, a question for the node's counts; as an output, those counts.
///
/// Formats: Records
pub(crate) const COUNTS: u8 = b'I';

/// The kind `N` of an input: the time now, in milliseconds.
///
/// Formats: Records
pub(crate) const TIME: u8 = b'N';

/// The kind `T` of an output: the ticket of a submitted call.
///
/// Formats: Records
pub(crate) const TICKET: u8 = b'T';

/// The kind `X` of an output: the input was refused, with the fault's number.
///
/// Formats: Records
pub(crate) const REFUSED: u8 = b'X';

/// The kind `D` of an output: the call of a ticket took effect at its place in the log, with this reply.
///
/// Formats: Records
pub(crate) const DONE: u8 = b'D';

/// The kind `K` of an output: the call of a ticket had taken effect before, with this reply.
///
/// Formats: Records
pub(crate) const KEPT: u8 = b'K';

/// The kind `R` of an output: the call of a ticket takes no effect, with the fault's number.
///
/// Formats: Records
pub(crate) const NO_EFFECT: u8 = b'R';

/// The kind `G` of an output: the node restored a received snapshot, with the number of places that it replaces.
///
/// Formats: Records
pub(crate) const RESTORED: u8 = b'G';

/// The kind `M` of an output: the node installed a ring, with its members.
///
/// Formats: Records
pub(crate) const MEMBERS: u8 = b'M';

/// The kind `E` of an output: the last record that an input produces.
///
/// Formats: Records
pub(crate) const END: u8 = b'E';
