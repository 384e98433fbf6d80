//! A damaged file with its gaps as free chunks.

ghost use Rattle.std.specs.Prelude.{◌≡◌, ◌+◌, ◌-◌, ◌/◌, ◌^◌, ◌<◌, ◌≤◌, length, take, drop};
ghost use Rattle.sqz_object.specs.Bytes.{bytes_of, words_of};
ghost use Rattle.sqz_damage.specs.Filled.{AreGapsIn, filled};
ghost use Rattle.sqz_damage.specs.Damaged.{HasSoundWords, words_there};
ghost use Rattle.sqz_damage.specs.Mended.{IsMendedIfAny, between};

use crate::mend::damage::{Damage, DataRange};
use crate::{Gap, fill_gaps};
use sqz_image::Header;
use sqz_object::{Order, put_word};

/// The offset in a header of the word with the size of the data, in bytes.
const SIZE_OFFSET: usize = 8;

/// Returns the bytes of a file, mended as `mend` does it.
pub(crate) fn mended(mut file: Vec<u8>, header: &Header, damage: &Damage) -> Vec<u8>
    requires header { HasSoundWords file.items header.now }
    requires gaps { AreGapsIn 0 (length (words_there file.items header.now))
        damage.now.gaps.items }
    ensures { IsMendedIfAny file.items header.now damage.now result.items }
{
    mend(&mut file, header, damage);
    file
}

/// Mends a file: each gap becomes a free chunk, and the header states the size of the data that are
/// there. Only the first word of each gap and the size change. A file without damage stays as it is.
fn mend(file: &mut [u8], header: &Header, damage: &Damage)
    requires header { HasSoundWords file.old header.now }
    requires gaps { AreGapsIn 0 (length (words_there file.old header.now)) damage.now.gaps.items }
    ensures mended { IsMendedIfAny file.old header.now damage.now file.new }
    ensures sized { length file.new ≡ length file.old }
{
    if damage.is_none() {
        return;
    }
    let range = DataRange::of(file, header);
    let size = (range.end - range.start) as u32;
    put(file, header.order, header.offset + SIZE_OFFSET, size);
    fill(file, range, header.order, &damage.gaps);
}

/// Writes a word at an offset in bytes.
fn put(file: &mut [u8], order: Order, offset: usize, word: u32)
    requires { offset + 4 ≤ length file.old }
    ensures sized { length file.new ≡ length file.old }
    ensures before { take offset file.new ≡ take offset file.old }
    ensures word { between offset (offset + 4) file.new ≡ bytes_of order word }
    ensures after { drop (offset + 4) file.new ≡ drop (offset + 4) file.old }
{
    file[offset..offset + 4].copy_from_slice(&put_word(order, word));
}

/// Writes the gaps of the data of a file as free chunks.
fn fill(file: &mut [u8], range: DataRange, order: Order, gaps: &[Gap])
    requires ordered { range.start ≤ range.end }
    requires inside { range.end ≤ length file.old }
    requires few { range.end - range.start < 2 ^ 32 }
    requires gaps { AreGapsIn 0 ((range.end - range.start) / 4) gaps.now }
    ensures sized { length file.new ≡ length file.old }
    ensures before { take range.start file.new ≡ take range.start file.old }
    ensures words { words_of order (take (range.end - range.start) (drop range.start file.new))
        ≡ filled (words_of order (take (range.end - range.start) (drop range.start file.old)))
        gaps.now }
    ensures after { drop range.end file.new ≡ drop range.end file.old }
{
    fill_gaps(&mut file[range.start..range.end], order, gaps);
}
