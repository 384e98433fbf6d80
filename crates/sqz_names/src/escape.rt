//! Bytes as text.

ghost use Rattle.std.specs.Prelude.{◌≡◌, ◌++◌, IfOk};
ghost use Rattle.std.specs.String.{string_bytes};
ghost use Rattle.sqz_names.specs.ByteTexts.{escaped, escaped_byte};

use std::alloc::{AllocError, Global};
use std::fmt::Write;

/// Returns bytes as ASCII text: printable characters as they are, a backslash doubled, and each
/// other byte as `\x` and two hexadecimal digits.
pub fn escaped(alloc: Global, bytes: &[u8]) -> Result<String, AllocError>
    ensures { IfOk result (λ text. string_bytes text ≡ escaped bytes.now) }
{
    let mut text = String::new(alloc);
    for byte in bytes {
        push_escaped(&mut text, *byte)?;
    }
    Ok(text)
}

/// Appends a byte as text.
pub(crate) fn push_escaped(text: &mut String, byte: u8) -> Result<(), AllocError>
    ensures { IfOk result (λ done.
        string_bytes text.new ≡ string_bytes text.old ++ escaped_byte byte) }
{
    match byte {
        b'\\' => text.push_str("\\\\"),
        32..=126 => text.push(char::from(byte)),
        _ => write!(text, "\\x{byte:02x}"),
    }
}
