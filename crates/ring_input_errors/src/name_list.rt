//! Lists of names, for people.
//!
//! Formats: The command line

use std::fmt;

/// Names, displayed in order as `a, b and c`.
///
/// Formats: The command line
#[derive(Clone, Copy)]
pub(crate) struct NameList<'a>(pub(crate) &'a [&'static str]);

impl fmt::Display for NameList<'_> {
    fn fmt<W: fmt::Write>(&self, f: &mut fmt::Formatter<W>) -> fmt::Result {
        let last = self.0.len().saturating_sub(1);
        for (place, name) in self.0.iter().enumerate() {
            f.write_str(separator(place, last))?;
            f.write_str(name)?;
        }
        Ok(())
    }
}

/// Returns the separator before the name at index `place`, given the index `last` of the last name.
fn separator(place: usize, last: usize) -> &'static str {
    if place == 0 {
        ""
    } else if place == last {
        " and "
    } else {
        ", "
    }
}
