//! What a damaged file still holds.

ghost use Rattle.std.specs.Prelude.{◌≡◌, IfOk, IfErr};
ghost use Rattle.sqz_image.specs.Refusals.{Holds};
ghost use Rattle.sqz_damage.specs.Soundness.{IsSound};
ghost use Rattle.sqz_damage.specs.Damaged.{HasSoundWords};
ghost use Rattle.sqz_damage.specs.Recovery.{IsMendedDamage, IsMendedFile, IsRecovered};
ghost use Rattle.sqz_damage.specs.Recovery.{StopsMending, StopsRecovery};
ghost use Rattle.sqz_damage.specs.declared.mend.recovery.RecoverError.TheVariants.{OutOfMemory};

use crate::mend::damage::{Damage, gaps_if_any, gaps_in, missing_bytes, place_of_loss};
use crate::mend::faults::fault_of;
use crate::mend::mending::mended;
use crate::mend::restoring::restored;
use sqz_image::{Header, Image, UnreadFile, image_or_file};
use sqz_trace::Weak;
use std::alloc::{AllocError, Global};
use std::thread::Threads;

/// A file that was mended.
#[derive(Drop)]
pub struct MendedFile {
    /// The bytes of the file, with a free chunk in place of each gap.
    pub bytes: Vec<u8>,
    /// The header of the file as it was.
    pub header: Header,
    /// What of the data cannot be read.
    pub damage: Damage,
}

/// What a damaged file still holds.
#[derive(Drop)]
pub struct Recovered {
    /// The image, with a free chunk in place of each gap.
    pub image: Image,
    /// The header of the file.
    pub header: Header,
    /// What of the data cannot be read.
    pub damage: Damage,
}

/// Why nothing was recovered of a file.
#[derive(Drop)]
pub enum RecoverError {
    OutOfMemory,
    /// The file has no sound header, or no special objects array was found past the damage.
    NoImage(UnreadFile),
}

impl From<AllocError> for RecoverError {
    ghost from_gives = { λ _ error. error ≡ OutOfMemory };

    fn from(_error: AllocError) -> RecoverError {
        RecoverError::OutOfMemory
    }
}

/// Mends a file. A file that holds an image without a fault stays as it is.
///
/// Otherwise the bytes of the data that the file does not have are taken to be the last ones, unless
/// `loss_in` finds the word before which they were lost: then zeros take their place, and the file
/// is mended as one with these data. Each gap that `gaps_of` finds in the data becomes a free chunk,
/// and the header states their size. Only the first word of each gap and the size change.
///
/// Fails with the fault of the header if it has one (`TooShort`, `BadVersion`, `BadHeaderSize`,
/// `BadDataSize`, `BadBase`). Otherwise fails only if out of memory.
pub fn mend_file<T: Threads + Sync>(
    rt: &T,
    alloc: Global,
    file: Vec<u8>,
    weak: Weak,
) -> Result<MendedFile, RecoverError>
    ensures mended { IfOk result (IsMendedFile weak file.items) }
    ensures unharmed { IfOk result (λ mended. IsSound weak file.items
        → mended.bytes.items ≡ file.items) }
    ensures stopped { IfErr result (StopsMending file.items) }
{
    let header = match Header::of(&file) {
        Ok(header) => header,
        Err(fault) => {
            return Err(RecoverError::NoImage(UnreadFile {
                fault,
                header: None,
                bytes: file,
            }));
        }
    };
    if let Some(fault) = header.words_fault() {
        return Err(RecoverError::NoImage(UnreadFile {
            fault,
            header: Some(header),
            bytes: file,
        }));
    }
    match fault_of(rt, alloc, &file, weak)? {
        None => Ok(MendedFile {
            bytes: file,
            header,
            damage: Damage {
                gaps: Vec::new(alloc),
                missing: 0,
                place: None,
            },
        }),
        Some(_) => Ok(mend_damaged(rt, alloc, file, header, weak)?),
    }
}

/// Mends a file that holds no image without a fault. Fails only if out of memory.
fn mend_damaged<T: Threads + Sync>(
    rt: &T,
    alloc: Global,
    file: Vec<u8>,
    header: Header,
    weak: Weak,
) -> Result<MendedFile, AllocError>
    requires sound { HasSoundWords file.items header }
    requires unsound { IsSound weak file.items → ⊥ }
    ensures { IfOk result (IsMendedDamage weak file.items header) }
{
    let missing = missing_bytes(&file, &header);
    let place = place_of_loss(alloc, &file, &header, missing)?;
    let restored = restored(alloc, file, &header, missing, place)?;
    let gaps = match place {
        Some(_) => gaps_if_any(rt, alloc, &restored, &header, weak)?,
        None => gaps_in(alloc, &restored, &header)?,
    };
    let damage = Damage {
        gaps,
        missing,
        place,
    };
    let bytes = mended(restored, &header, &damage);
    Ok(MendedFile {
        bytes,
        header,
        damage,
    })
}

/// Returns what a file holds besides its damage: the image of the file as `mend_file` mends it.
///
/// Fails as `mend_file` does, and with `BadSpecialObjects` if the special objects array cannot be
/// read.
pub fn recover<T: Threads + Sync>(
    rt: &T,
    alloc: Global,
    file: Vec<u8>,
    weak: Weak,
) -> Result<Recovered, RecoverError>
    ensures recovered { IfOk result (IsRecovered weak file.items) }
    ensures unharmed { IfOk result (λ recovered. IsSound weak file.items
        → Holds file.items recovered.image) }
    ensures stopped { IfErr result (StopsRecovery weak file.items) }
{
    let mended = match mend_file(rt, alloc, file, weak) {
        Ok(mended) => mended,
        Err(error) => return Err(error),
    };
    match image_or_file(alloc, mended.bytes) {
        Ok(image) => Ok(Recovered {
            image,
            header: mended.header,
            damage: mended.damage,
        }),
        Err(unread) => Err(RecoverError::NoImage(unread)),
    }
}
