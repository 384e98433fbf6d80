//! What tests use of the dead cycle's image. A call that runs out of memory is made again.

ghost use Rattle.std.specs.Prelude.{◌≡◌, IfOk};
ghost use Rattle.sqz_image.specs.Objects.{object_count};

use super::again::{again, own};
use sqz_image::{Fault, Heap, Image, MemorySink, read_image};
use sqz_regions::{Cut, Regions};
use std::process::Abort;
use std::test::Fail;

/// How many bytes a sink takes.
const ROOM: u32 = 4096;

/// The image in a file.
pub(crate) fn image_in<R: Print + AllocGlobal>(rt: &R, file: &[u8]) -> Result<Image, Fail> {
    again!(rt, "read_image", read_image(rt.alloc(), file))
}

/// A sink that does not fail.
pub(crate) fn new_sink<R: Print + AllocGlobal>(rt: &R) -> Result<MemorySink, Fail> {
    again!(
        rt,
        "MemorySink::new",
        MemorySink::new(rt.alloc(), ROOM, None)
    )
}

/// The cut before the data words 1 and 3.
pub(crate) fn new_cut<R: Print + AllocGlobal>(rt: &R) -> Result<Cut, Fail> {
    Ok(Cut::at(own!(rt, [1, 3].to_vec(rt.alloc())))?)
}

/// The regions of a heap under a cut.
pub(crate) fn regions_of<'a, R: Print + AllocGlobal>(
    rt: &R,
    heap: &'a Heap,
    cut: &'a Cut,
) -> Result<Regions<'a>, Fail>
    ensures { IfOk result (λ regions. regions.memory ≡ heap.now) }
{
    again!(rt, "Regions::of", Regions::of(rt.alloc(), heap, cut))
}

/// Asserts that a heap has six objects, the special objects array last.
pub(crate) fn assert_six_objects<R: Abort>(rt: &R, heap: &Heap)
    ensures { object_count heap.now ≡ 6 }
{
    assert_eq!(rt; heap.len(), 6);
    assert_eq!(rt; heap.special(), 5);
}
