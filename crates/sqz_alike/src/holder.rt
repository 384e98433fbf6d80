//! An object that retains more.

ghost use Rattle.std.specs.Prelude.{◌≡◌, IfOk, map};

use sqz_object::ObjectIndex;
use std::alloc::{AllocError, Global};

/// An object that retains more than its partner in the old image, or that is new.
#[derive(Clone, Copy)]
pub struct Holder {
    /// The index of the object in the new image.
    pub object: ObjectIndex,
    /// The bytes that its partner retains in the old image. None if the object is new.
    pub old: Option<u64>,
    /// The bytes that it retains in the new image.
    pub new: u64,
}

/// Returns the objects of holders, in order. Fails only if out of memory.
pub fn objects_of(alloc: Global, holders: &[Holder]) -> Result<Vec<ObjectIndex>, AllocError>
    ensures { IfOk result (λ objects. objects.items ≡ map (λ holder. holder.object) holders.now) }
{
    let mut objects = Vec::with_capacity(alloc, holders.len())?;
    for holder in holders {
        objects.push(holder.object)?;
    }
    Ok(objects)
}
