//! How much of an image is live.

ghost use Rattle.std.specs.Prelude.{IfOk, MatchResult};
ghost use Rattle.sqz_damage.specs.Soundness.{HasFault};
ghost use Rattle.sqz_damage.specs.Sizes.{IsLiveSize, IsSoundWith};

use crate::image_in;
use sqz_facts::marked_bytes;
use sqz_image::Fault;
use sqz_trace::{Live, ObjectGraph, Weak, first_fault};
use std::alloc::{AllocError, Global};
use std::thread::Threads;

/// How much of an image is live.
#[derive(Clone, Copy, Debug, PartialEq, Eq)]
pub struct LiveSize {
    /// The number of live objects.
    pub objects: u32,
    /// Their bytes, header words included.
    pub bytes: u64,
}

impl LiveSize {
    /// Returns how much of an image is live.
    pub(crate) fn of(live: &Live<'_>) -> Self
        ensures { IsLiveSize live.now.graph.heap.now live.now.marks result }
    {
        LiveSize {
            objects: live.marks.count(),
            bytes: marked_bytes(live.graph.heap, &live.marks),
        }
    }
}

/// Returns how much is live of the image in a sound file, or the fault of a file that is not
/// sound. Fails only if out of memory.
pub(crate) fn sound_size<T: Threads + Sync>(
    rt: &T,
    alloc: Global,
    file: &[u8],
    weak: Weak,
) -> Result<Result<LiveSize, Fault>, AllocError>
    ensures { IfOk result (λ size.
        MatchResult size (IsSoundWith weak file.now) (HasFault weak file.now)) }
{
    let image = match image_in(alloc, file)? {
        Ok(image) => image,
        Err(fault) => return Ok(Err(fault)),
    };
    let heap = image.heap();
    let live = Live::of(alloc, ObjectGraph { heap, weak })?;
    Ok(match first_fault(rt, &live) {
        None => Ok(LiveSize::of(&live)),
        Some(fault) => Err(fault),
    })
}
