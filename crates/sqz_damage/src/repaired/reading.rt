//! What the image in a file lacks.

ghost use Rattle.std.specs.Prelude.{IfOk, IfErr};
ghost use Rattle.sqz_image.specs.Refusals.{IsUnreadable};
ghost use Rattle.sqz_damage.specs.Damaged.{HasSoundWords};
ghost use Rattle.sqz_damage.specs.Repairs.{IsFinding, LacksPatches};

use crate::repaired::repairing::RepairError;
use crate::repaired::sizes::LiveSize;
use crate::{NilError, Patch, image_in, nil_patches};
use sqz_image::{Fault, Header};
use sqz_trace::{Live, ObjectGraph, Weak, first_fault};
use std::alloc::Global;
use std::thread::Threads;

/// What is found of a file that holds an image.
#[derive(Drop)]
pub(crate) struct Finding {
    /// How much of the image is live.
    pub(crate) size: LiveSize,
    /// The data words that are written anew so that no pointer of a live object leads nowhere. None
    /// if the image has no fault.
    pub(crate) patches: Option<Vec<Patch>>,
}

/// Returns the header of a file, if its words have no fault.
pub(crate) fn sound_header(file: &[u8]) -> Result<Header, Fault>
    ensures header { IfOk result (HasSoundWords file.now) }
    ensures fault { IfErr result (IsUnreadable file.now) }
{
    let header = Header::of(file)?;
    match header.words_fault() {
        Some(fault) => Err(fault),
        None => Ok(header),
    }
}

/// Returns how much is live of the image in a file and, if it has a fault, which data words are
/// written anew.
pub(crate) fn finding_of<T: Threads + Sync>(
    rt: &T,
    alloc: Global,
    file: &[u8],
    weak: Weak,
) -> Result<Finding, RepairError>
    ensures found { IfOk result (IsFinding weak file.now) }
    ensures lacking { IfErr result (LacksPatches weak file.now) }
{
    let image = match image_in(alloc, file)? {
        Ok(image) => image,
        Err(fault) => return Err(RepairError::NoImage(fault)),
    };
    let heap = image.heap();
    let live = Live::of(alloc, ObjectGraph { heap, weak })?;
    let size = LiveSize::of(&live);
    let patches = match first_fault(rt, &live) {
        None => None,
        Some(_) => match nil_patches(alloc, &live) {
            Ok(patches) => Some(patches),
            Err(error) => {
                return Err(match error {
                    NilError::OutOfMemory => RepairError::OutOfMemory,
                    NilError::NoNil => RepairError::NoNil,
                    NilError::NoSpecialObjects => RepairError::NoSpecialObjects,
                });
            }
        },
    };
    Ok(Finding { size, patches })
}
