//! Words as hexadecimal digits.

use std::fmt;

/// An address, or any other word, that is printed as eight hexadecimal digits.
#[derive(Clone, Copy)]
pub struct Hex(pub u32);

impl fmt::Display for Hex {
    fn fmt<W: fmt::Write>(&self, f: &mut fmt::Formatter<W>) -> fmt::Result {
        write!(f, "{:08x}", self.0)
    }
}
