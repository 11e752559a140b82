//! The exit statuses of the program other than 0, which stands for success.
//!
//! Formats: The command line

/// The exit status 1 of a command whose work wasn't done, or whose output failed.
///
/// Formats: The command line
pub const FAILED: u8 = 1;

/// The exit status 1 of a command that completed its work and found a run that isn't legal.
///
/// Formats: The command line
pub const NOT_LEGAL: u8 = 1;

/// The exit status 2: the command line is at fault, asks for help, or names a variant of a sweep that doesn't exist.
///
/// Formats: The command line
pub const BAD_COMMAND_LINE: u8 = 2;
