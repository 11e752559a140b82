//! The output of a run or a listing.

/// The standard output and standard error, and the exit status.
#[derive(Drop)]
pub struct RunOutput {
    pub out: Vec<u8>,
    pub err: Vec<u8>,
    pub status: u8,
}

impl RunOutput {
    /// Whether the output is these lines, this error line and this status.
    pub fn is(&self, out: &str, err: &str, status: u8) -> bool {
        self.out.as_slice() == out.as_bytes() && self.is_refused(err, status)
    }

    /// Whether it has this error line and this status, whatever standard output has.
    pub fn is_refused(&self, err: &str, status: u8) -> bool {
        self.err.as_slice() == err.as_bytes() && self.status == status
    }
}
