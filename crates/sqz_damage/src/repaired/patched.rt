//! A file with some of its data words written anew.

ghost use Rattle.std.specs.Prelude.{◌≡◌, ◌-◌, ◌<◌, ◌≤◌, length, take, drop, All};
ghost use Rattle.sqz_object.specs.Bytes.{words_of};
ghost use Rattle.sqz_damage.specs.Patches.{patched};
ghost use Rattle.sqz_damage.specs.Damaged.{HasSoundWords, words_there};
ghost use Rattle.sqz_damage.specs.Repairs.{ArePatched};

use crate::{DataRange, Patch, write_patches};
use sqz_image::Header;
use sqz_object::Order;

/// Returns the bytes of a file with patches written into its data words. All other bytes stay.
pub(crate) fn patched(mut file: Vec<u8>, header: &Header, patches: &[Patch]) -> Vec<u8>
    requires header { HasSoundWords file.items header.now }
    requires inside { All (λ patch. patch.word < length (words_there file.items header.now))
        patches.now }
    ensures { ArePatched file.items header.now patches.now result.items }
{
    patch(&mut file, header, patches);
    file
}

/// Writes patches into the data words of a file.
fn patch(file: &mut [u8], header: &Header, patches: &[Patch])
    requires header { HasSoundWords file.old header.now }
    requires inside { All (λ patch. patch.word < length (words_there file.old header.now))
        patches.now }
    ensures patched { ArePatched file.old header.now patches.now file.new }
    ensures sized { length file.new ≡ length file.old }
{
    let range = DataRange::of(file, header);
    write_between(file, range, header.order, patches);
}

/// Writes patches into the words of a range of bytes.
fn write_between(file: &mut [u8], range: DataRange, order: Order, patches: &[Patch])
    requires ordered { range.start ≤ range.end }
    requires inside { range.end ≤ length file.old }
    requires patches { All (λ patch. patch.word < length (words_of order
        (take (range.end - range.start) (drop range.start file.old)))) patches.now }
    ensures sized { length file.new ≡ length file.old }
    ensures before { take range.start file.new ≡ take range.start file.old }
    ensures words { words_of order (take (range.end - range.start) (drop range.start file.new))
        ≡ patched (words_of order (take (range.end - range.start) (drop range.start file.old)))
        patches.now }
    ensures after { drop range.end file.new ≡ drop range.end file.old }
{
    write_patches(&mut file[range.start..range.end], order, patches);
}
