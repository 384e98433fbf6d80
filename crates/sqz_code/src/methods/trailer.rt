//! The trailer of a compiled method: the bytes after its bytecodes, which say where the source is
//! or what temporary variables are called.

ghost use Rattle.std.specs.Prelude.{◌≡◌, ◌-◌, ◌<◌, length, reverse};
ghost use Rattle.sqz_code.specs.Trailers.{trailer_length, zeros_before};

/// A last byte of at least this says that the last four bytes are a source pointer.
const SOURCE_FLAG: u8 = 252;

/// The number of bytes of a source pointer.
const SOURCE_BYTES: usize = 4;

/// Returns the number of bytes before the trailer. `bytes` are those after the literals.
pub(crate) fn code_end(bytes: &[u8]) -> usize
    ensures { result ≡ length bytes.now - trailer_length (reverse bytes.now) }
{
    bytes.len().saturating_sub(trailer_length(bytes))
}

/// Returns the number of bytes of the trailer, as Squeak finds it. The last byte says how long the
/// trailer is: four bytes from 252 on, else that many and itself; but with 0 the trailer also has
/// the zeros before it, unless they are more than three. It is longer than the bytes if they do not
/// have that many.
fn trailer_length(bytes: &[u8]) -> usize
    ensures { result ≡ trailer_length (reverse bytes.now) }
{
    let Some((flag, before)) = bytes.split_last() else {
        return 0;
    };
    match *flag {
        SOURCE_FLAG.. => SOURCE_BYTES,
        0 => 1 + zeros_at_end(before),
        flag => 1 + flag as usize,
    }
}

/// Returns the number of zeros at the end, and 0 if the last four bytes are zeros.
fn zeros_at_end(bytes: &[u8]) -> usize
    ensures zeros { result ≡ zeros_before (reverse bytes.now) }
    ensures few { result < 4 }
{
    let mut last = bytes.iter().rev().take(SOURCE_BYTES);
    match last.position(|byte| *byte != 0) {
        Some(zeros) => zeros,
        None if bytes.len() < SOURCE_BYTES => bytes.len(),
        None => 0,
    }
}
