//! Reading an image from the bytes of its file.

ghost use Rattle.std.specs.Prelude.{◌≡◌, ◌⊎◌, IfOk, IfErr, None};
ghost use Rattle.sqz_image.specs.declared.fault.Fault.TheVariants.{OutOfMemory};
ghost use Rattle.sqz_image.specs.Refusals.{file_fault, Holds, IsUnreadable};
ghost use Rattle.sqz_image.specs.Unread.{IsUnread};

use crate::fault::Fault;
use crate::file_parts::parts_of;
use crate::header::Header;
use crate::image::Image;
use std::alloc::Global;

/// A file that holds no image, or whose image could not be kept in memory.
#[derive(Drop)]
pub struct UnreadFile {
    /// Why there is no image.
    pub fault: Fault,
    /// The header, if the file has one.
    pub header: Option<Header>,
    /// The bytes of the file.
    pub bytes: Vec<u8>,
}

/// Returns the image that the bytes of a file hold, over a copy of them. The header is at offset
/// 0, or at offset 512; the image keeps the 512 bytes before it. Bytes after the data are ignored.
///
/// Fails with the first fault of the file that applies: `TooShort`, `BadVersion`, `BadHeaderSize`,
/// `BadDataSize`, `BadBase`, `Truncated`; then `ZeroSize`, `HeaderMismatch` or `Overrun` at the
/// first chunk that cannot be read; then `BadSpecialObjects`. Otherwise fails only if out of
/// memory, and never with `OutOfMemory` if the header has a fault.
pub fn read_image(alloc: Global, bytes: &[u8]) -> Result<Image, Fault>
    ensures image { IfOk result (λ image. Holds bytes.now image) }
    ensures refused { IfErr result (λ fault.
        ((fault ≡ OutOfMemory) × (file_fault bytes.now ≡ None)) ⊎ IsUnreadable bytes.now fault) }
{
    // the copy is made only if the header is sound
    if let Some(fault) = Header::of(bytes)?.fault(bytes) {
        return Err(fault);
    }
    let file = Vec::from_slice(alloc, bytes)?;
    image_of_file(alloc, file)
}

/// Returns the image that a file holds, without copying: the image keeps the bytes of the file.
/// Fails as `read_image` does; the bytes are then lost.
pub fn image_of_file(alloc: Global, file: Vec<u8>) -> Result<Image, Fault>
    ensures image { IfOk result (λ image. Holds file.items image) }
    ensures refused { IfErr result (λ fault.
        ((fault ≡ OutOfMemory) × (file_fault file.items ≡ None)) ⊎ IsUnreadable file.items fault) }
{
    match image_or_file(alloc, file) {
        Ok(image) => Ok(image),
        Err(unread) => Err(unread.fault),
    }
}

/// Returns the image that a file holds, without copying, or the bytes of the file with the reason.
/// Fails as `read_image` does.
pub fn image_or_file(alloc: Global, file: Vec<u8>) -> Result<Image, UnreadFile>
    ensures image { IfOk result (λ image. Holds file.items image) }
    ensures refused { IfErr result (IsUnread file.items) }
{
    let header = match Header::of(&file) {
        Ok(header) => header,
        Err(fault) => {
            return Err(UnreadFile {
                fault,
                header: None,
                bytes: file,
            });
        }
    };
    match parts_of(alloc, &header, &file) {
        Ok(parts) => Ok(parts.image(file)),
        Err(fault) => Err(UnreadFile {
            fault,
            header: Some(header),
            bytes: file,
        }),
    }
}
