//! Patches in the bytes of an image's data.

ghost use Rattle.std.specs.Prelude.{◌≡◌, ◌*◌, ◌/◌, ◌<◌, length, drop, slice_set, All};
ghost use Rattle.sqz_object.specs.Bytes.{words_of};
ghost use Rattle.sqz_damage.specs.Patches.{patched};

use crate::dangling::patch::Patch;
use sqz_object::{Order, put_word};

/// Writes patches into the bytes of an image's data, one after the other. All other bytes stay.
pub fn write_patches(bytes: &mut [u8], order: Order, patches: &[Patch])
    requires inside { All (λ patch. patch.word < length bytes.old / 4) patches.now }
    ensures words { words_of order bytes.new ≡ patched (words_of order bytes.old) patches.now }
    ensures rest { let end = length bytes.old / 4 * 4 in drop end bytes.new ≡ drop end bytes.old }
    ensures len { length bytes.new ≡ length bytes.old }
{
    for patch in patches {
        write_patch(bytes, order, *patch);
    }
}

/// Writes a patch into the bytes of an image's data.
fn write_patch(bytes: &mut [u8], order: Order, patch: Patch)
    requires { patch.word < length bytes.old / 4 }
    ensures words { words_of order bytes.new
        ≡ slice_set (words_of order bytes.old) patch.word patch.value }
    ensures rest { let end = length bytes.old / 4 * 4 in drop end bytes.new ≡ drop end bytes.old }
{
    let at = 4 * patch.word as usize;
    bytes[at..at + 4].copy_from_slice(&put_word(order, patch.value));
}
