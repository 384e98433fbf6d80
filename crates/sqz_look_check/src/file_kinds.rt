//! What an unsupported file is.

use crate::causes::FileKind;
use crate::versions::version_name;
use sqz_object::{Order, word_at};

/// The number of bytes before the header, if the header does not begin the file.
const PREFIX_SIZE: usize = 512;

/// The first bytes of gzip and zip files.
const GZIP: &[u8] = b"\x1f\x8b";

const ZIP: &[u8] = b"PK\x03\x04";

/// Returns what a file without the supported version is likely to be, if that is known.
pub(crate) fn kind_of(file: &[u8]) -> Option<FileKind> {
    if file.starts_with(GZIP) {
        return Some(FileKind::Archive("gzip"));
    }
    if file.starts_with(ZIP) {
        return Some(FileKind::Archive("zip"));
    }
    for offset in [0, PREFIX_SIZE] {
        for order in [Order::Little, Order::Big] {
            let known = version_at(file, order, offset);
            if known.is_some() {
                return known;
            }
        }
    }
    None
}

/// Returns the image whose version the word at an offset in bytes is, if the version is known.
fn version_at(file: &[u8], order: Order, offset: usize) -> Option<FileKind> {
    let bytes = file.get(offset..)?;
    if bytes.len() < 4 {
        return None;
    }
    let version = word_at(bytes, order, 0);
    let name = version_name(version)?;
    Some(FileKind::Image { version, name })
}
