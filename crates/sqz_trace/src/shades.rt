//! The shades of objects: how far marking has come.

ghost use Rattle.std.specs.Prelude.{◌≡◌, ◌^◌, ◌<◌, length, IfOk};
ghost use Rattle.sqz_trace.specs.declared.weak.Weak.{Weak};
ghost use Rattle.sqz_trace.specs.Shades.{AreFirst, AreLawfulOf};

use sqz_image::Heap;
use std::alloc::{AllocError, Global};

/// How far the marking of an object has come: its tri-colour mark.
#[derive(Clone, Copy, Debug, PartialEq, Eq)]
pub enum Shade {
    /// It has not been found yet.
    White,
    /// It is known to be reachable; its targets are still to be marked.
    Grey,
    /// It is known to be reachable, and its targets are marked.
    Black,
}

/// One shade per object of a heap, by index.
pub type Shades = Vec<Shade>;

/// Returns the shades with which marking begins: the special objects array is grey, every other
/// object white.
pub fn first_shades(alloc: Global, heap: &Heap) -> Result<Shades, AllocError>
    ensures first { IfOk result (λ shades. AreFirst heap.now shades.items) }
    ensures lawful { IfOk result (λ shades.
        (weak : Weak) → AreLawfulOf heap.now weak shades.items) }
    ensures few { IfOk result (λ shades. length shades.items < 2 ^ 30) }
{
    let mut shades = vec![in alloc; Shade::White; heap.len() as usize]?;
    shades[heap.special() as usize] = Shade::Grey;
    Ok(shades)
}
