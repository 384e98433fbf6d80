//! A file with zeros for the bytes that were lost.

ghost use Rattle.std.specs.Prelude.{◌≡◌, ◌≤◌, ◌++◌, length, take, drop, replicate, IfOk};
ghost use Rattle.sqz_damage.specs.Damaged.{HasSoundWords, IsPlaceOfLoss, restored};

use crate::laws::loss_within;
use crate::mend::damage::DataRange;
use sqz_image::Header;
use sqz_object::WordIndex;
use std::alloc::{AllocError, Global};

/// Returns the bytes of a file, with zeros for the missing bytes if it is clear before which data
/// word they were. Fails only if out of memory.
pub(crate) fn restored(
    alloc: Global,
    file: Vec<u8>,
    header: &Header,
    missing: u32,
    place: Option<WordIndex>,
) -> Result<Vec<u8>, AllocError>
    requires sound { HasSoundWords file.items header.now }
    requires place { IsPlaceOfLoss file.items header.now missing place }
    ensures bytes { IfOk result (λ bytes. bytes.items
        ≡ restored file.items header.now missing place) }
    ensures sound { IfOk result (λ bytes. HasSoundWords bytes.items header.now) }
{
    let Some(word) = place else {
        return Ok(file);
    };
    loss_within(); // the word is one of those that are there
    let at = DataRange::of(&file, header).start + 4 * word as usize;
    with_zeros(alloc, &file, at, missing as usize)
}

/// Returns some bytes, with zeros after the first ones.
fn with_zeros(alloc: Global, bytes: &[u8], at: usize, count: usize) -> Result<Vec<u8>, AllocError>
    requires { at ≤ length bytes.now }
    ensures { IfOk result (λ new. new.items
        ≡ take at bytes.now ++ (replicate count 0 ++ drop at bytes.now)) }
{
    let mut new = Vec::new(alloc);
    new.extend_from_slice(&bytes[..at])?;
    new.extend_from_slice(&vec![in alloc; 0u8; count]?)?;
    new.extend_from_slice(&bytes[at..])?;
    Ok(new)
}
