//! The digest of an image.

use sqz_alike::digest;
use sqz_image::Sink;
use sqz_look_view::{Out, PrintError, Subject};
use std::alloc::{AllocError, Global};
use std::fmt::Write;

/// Prints the SHA-256 of the live objects of an image, which alike images have in common, as
/// `sha256sum` prints that of a file.
pub fn print_digest<C: Sink>(
    subject: &Subject<'_>,
    path: &str,
    out: &mut Out<'_, C>,
) -> Result<(), PrintError> {
    let alloc = subject.alloc;
    let mut text = String::new(alloc);
    for byte in digest(alloc, &subject.live)? {
        write!(text, "{byte:02x}")?;
    }
    if out.is_json() {
        out.word("image", path);
    } else {
        out.text("image", summed(alloc, path));
    }
    out.word("digest", text.as_str());
    out.line(if is_escaped(path) {
        "\\{digest}  {image}"
    } else {
        "{digest}  {image}"
    });
    out.end()
}

/// Returns whether a character of a name is escaped after a checksum. A backslash before the line
/// says so.
fn is_escaped(name: &str) -> bool {
    name.contains('\\') || name.contains('\n') || name.contains('\r')
}

/// Returns the name of a file after its checksum, as `sha256sum` writes it: a backslash, a newline
/// and a carriage return are `\\`, `\n` and `\r`, and other control characters stay.
fn summed(alloc: Global, name: &str) -> Result<String, AllocError> {
    let mut text = String::new(alloc);
    for letter in name.chars() {
        match letter {
            '\\' => text.push_str("\\\\")?,
            '\n' => text.push_str("\\n")?,
            '\r' => text.push_str("\\r")?,
            _ => text.push(letter)?,
        }
    }
    Ok(text)
}
