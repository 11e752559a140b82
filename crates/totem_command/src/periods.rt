//! The parsing of the periods of timeouts on a command line.
//!
//! Formats: The command line

use arrayvec::ArrayVec;
use ring_record_node::Periods;

/// Parses periods: four numbers of milliseconds, 1 to 4,294,967,295, separated by commas.
///
/// They are those of join, retransmit, consensus and loss.
///
/// Without a word the result is the default periods. Returns `None` for any other word.
///
/// Formats: The command line
pub(crate) fn periods_of(word: Option<&str>) -> Option<Periods> {
    let Some(word) = word else {
        return Some(Periods::default());
    };
    let mut periods = ArrayVec::<u32, 4>::new();
    for part in word.split(',') {
        periods.try_push(part.parse::<u32>().ok()?).ok()?;
    }
    match periods.as_slice() {
        [join, retransmit, consensus, loss] => {
            Periods::new(*join, *retransmit, *consensus, *loss)
        }
        _ => None,
    }
}
