//! Numbers with the word for what is counted.

use std::fmt;

/// A number and the word for what is counted, which is printed with an `s` unless the number is 1.
#[derive(Clone, Copy)]
pub struct Counted<'a>(pub u64, pub &'a str);

impl fmt::Display for Counted<'_> {
    fn fmt<W: fmt::Write>(&self, f: &mut fmt::Formatter<W>) -> fmt::Result {
        let (count, what) = (self.0, self.1);
        let plural = if count == 1 { "" } else { "s" };
        write!(f, "{count} {what}{plural}")
    }
}
