//! What partners are found in.

ghost use Rattle.std.specs.Prelude.{◌≡◌, length};
ghost use Rattle.sqz_image.specs.Objects.{object_count};

use sqz_trace::Live;

/// Two images, with a number for each object: only objects with equal numbers can be partners.
#[derive(Drop)]
pub struct Sides<'a> {
    pub old: &'a Live<'a>,
    pub new: &'a Live<'a>,
    /// The number of each object of the old image.
    pub old_kinds: &'a [usize],
    /// The number of each object of the new image.
    pub new_kinds: &'a [usize],
    ghost old_sized: { length old_kinds.now ≡ object_count old.now.graph.heap.now },
    ghost new_sized: { length new_kinds.now ≡ object_count new.now.graph.heap.now },
}
