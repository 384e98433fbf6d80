//! The image in a file, and its first fault.

ghost use Rattle.std.specs.Prelude.{IfOk, MatchOption, MatchResult};
ghost use Rattle.sqz_image.specs.Refusals.{Holds, IsUnreadable};
ghost use Rattle.sqz_damage.specs.Soundness.{HasFault, IsSound};

use sqz_image::{Fault, Image, read_image};
use sqz_trace::{Live, ObjectGraph, Weak, first_fault};
use std::alloc::{AllocError, Global};
use std::thread::Threads;

/// Returns the image in a file, or why there is none. Fails only if out of memory.
pub fn image_in(alloc: Global, file: &[u8]) -> Result<Result<Image, Fault>, AllocError>
    ensures { IfOk result (λ read. MatchResult read (Holds file.now) (IsUnreadable file.now)) }
{
    match read_image(alloc, file) {
        Ok(image) => Ok(Ok(image)),
        Err(fault) => match fault {
            Fault::OutOfMemory => Err(AllocError),
            _ => Ok(Err(fault)),
        },
    }
}

/// Returns the first fault for which a compaction rejects a file: that of its bytes if it holds no
/// image, else that of the image. None if there is none. Fails only if out of memory.
pub fn fault_of<T: Threads + Sync>(
    rt: &T,
    alloc: Global,
    file: &[u8],
    weak: Weak,
) -> Result<Option<Fault>, AllocError>
    ensures { IfOk result (λ fault. MatchOption fault (IsSound weak file.now)
        (HasFault weak file.now)) }
{
    let image = match image_in(alloc, file)? {
        Ok(image) => image,
        Err(fault) => return Ok(Some(fault)),
    };
    let heap = image.heap();
    let live = Live::of(alloc, ObjectGraph { heap, weak })?;
    Ok(first_fault(rt, &live))
}
