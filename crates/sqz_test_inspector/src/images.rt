//! Images of given data words, in a big-endian file whose first data word has the address 0x1000.

use sqz_image::{Fault, Image, read_image};
use std::alloc::{AllocError, Global};

/// Returns the image with these data words, at most 99. The first one begins the special objects
/// array.
pub(crate) fn image_with(alloc: Global, words: &[u32]) -> Result<Image, Fault> {
    read_image(alloc, &file_with(alloc, words)?)
}

/// Returns the file of that image.
fn file_with(alloc: Global, words: &[u32]) -> Result<Vec<u8>, AllocError> {
    let size = 4 * words.len().min(99) as u32;
    let mut file = Vec::new(alloc);
    put_words(&mut file, &[6502, 64, size, 0x1000, 0x1000])?;
    put_words(&mut file, &[0; 11])?;
    put_words(&mut file, words)?;
    Ok(file)
}

/// Puts words at the end of a big-endian file.
pub(crate) fn put_words(file: &mut Vec<u8>, words: &[u32]) -> Result<(), AllocError> {
    for word in words {
        file.extend_from_slice(&word.to_be_bytes())?;
    }
    Ok(())
}
