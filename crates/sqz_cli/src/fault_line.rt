//! The line that reports a fault. It is made without allocating memory, since it also reports that
//! memory ran out.

ghost use Rattle.std.specs.Prelude.{◌≡◌, ◌+◌, ◌<◌, ◌≤◌, ◌++◌, [], length, codes};
ghost use Rattle.arrayvec.specs.ArrayVec.{array_vec_len};
ghost use Rattle.sqz_cli.specs.Lines.{HasNoEnd, IsFaultLine};
ghost use Rattle.sqz_cli.specs.FaultTexts.{two_digits};

use arrayvec::ArrayVec;
use sqz_image::Fault;
use std::fmt;
use std::fmt::Write;
use std::marker::Model;

/// The room for a fault's text in bytes. No text is longer.
const TEXT: usize = 96;

/// The room for a line in bytes: the text, and up to eleven bytes around it.
const LINE: usize = 112;

/// The text of a fault, without line ends. Contracts see its bytes.
#[derive(Drop)]
struct Text {
    bytes: ArrayVec<u8, TEXT>,
}

impl Model for Text {
    ghost use Rattle.std.specs.Prelude.{ℕ, List};
    ghost use Rattle.sqz_cli.specs.Lines.{HasNoEnd};

    ghost Value = { List ℕ };

    ghost view = { λ text. text.bytes.items };

    ghost invariant = { λ text. HasNoEnd text.bytes.items };
}

impl Text {
    /// Returns the empty text.
    fn new() -> Text
        ensures { result ≡ [] }
    {
        Text {
            bytes: ArrayVec::new(),
        }
    }

    /// Appends a byte, unless it ends a line or there is no room.
    fn push(&mut self, byte: u8) {
        if byte != b'\n' && !self.bytes.is_full() {
            self.bytes.push(byte);
        }
    }

    /// Returns the bytes.
    fn as_bytes(&self) -> &[u8]
        ensures bytes { result.now ≡ self.now }
        ensures one_line { HasNoEnd result.now }
        ensures short { length result.now ≤ TEXT }
    {
        self.bytes.as_slice()
    }
}

impl fmt::Write for Text {
    fn write_str(&mut self, text: &str) -> fmt::Result {
        for byte in text.as_bytes() {
            self.push(*byte);
        }
        Ok(())
    }
}

/// Returns the line of a fault: its number, its text, and the end of the line.
pub(crate) fn fault_line(fault: &Fault) -> ArrayVec<u8, LINE>
    ensures { IsFaultLine fault.now result.items }
{
    let mut text = Text::new();
    let _ = write!(text, "{fault}");
    line_of(fault.number(), text.as_bytes())
}

/// Returns the line with this number and text.
fn line_of(number: u32, text: &[u8]) -> ArrayVec<u8, LINE>
    requires few { number < 100 }
    requires short { length text.now ≤ TEXT }
    ensures { result.items ≡ codes "fault " ++ two_digits number ++ codes ": " ++ text.now
        ++ codes "\n" }
{
    let mut line = ArrayVec::new();
    add(&mut line, b"fault ");
    if number >= 10 {
        line.push(b'0' + (number / 10) as u8);
    }
    line.push(b'0' + (number % 10) as u8);
    add(&mut line, b": ");
    add(&mut line, text);
    line.push(b'\n');
    line
}

/// Appends bytes to a line that has room for them.
fn add(line: &mut ArrayVec<u8, LINE>, bytes: &[u8])
    requires { array_vec_len line.old + length bytes.now ≤ LINE }
    ensures bytes { line.new.items ≡ line.old.items ++ bytes.now }
    ensures len { array_vec_len line.new ≡ array_vec_len line.old + length bytes.now }
{
    line.try_extend_from_slice(bytes).unwrap();
}
