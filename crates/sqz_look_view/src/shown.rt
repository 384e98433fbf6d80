//! Names of files and words of a command line in lines of text.

use std::fmt;
use std::fmt::Write;

/// A name of a file, or a word of a command line, in a line of text. A control character is `\x` and
/// its two hexadecimal digits, so none ends the line or moves the cursor.
#[derive(Clone, Copy)]
pub struct Shown<'a>(pub &'a str);

impl fmt::Display for Shown<'_> {
    fn fmt<W: fmt::Write>(&self, f: &mut fmt::Formatter<W>) -> fmt::Result {
        for letter in self.0.chars() {
            write_shown(f, letter)?;
        }
        Ok(())
    }
}

/// Writes a character as text shows it.
fn write_shown<W: fmt::Write>(f: &mut fmt::Formatter<W>, letter: char) -> fmt::Result {
    if letter.is_control() {
        write!(f, "\\x{:02x}", letter as u32)
    } else {
        f.write_char(letter)
    }
}
