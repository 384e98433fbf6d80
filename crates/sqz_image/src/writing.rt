//! Writing an image to a sink.

ghost use Rattle.std.specs.Prelude.{◌≡◌, ◌*◌, ◌^◌, ◌<◌, length, map, OnOk, IfErr};
ghost use Rattle.std.specs.List.{concat};
ghost use Rattle.sqz_image.specs.File.{file_with};
ghost use Rattle.sqz_image.specs.Devices.{WritesWhole, WriteStops};

use crate::device::Sink;
use crate::fault::Fault;
use crate::image::Image;
use crate::write_words::write_words;
use sqz_object::Address;

/// Writes the bytes before the image's header, the header, and then the pieces, all words in the
/// image's byte order; then flushes. The header states the size of the pieces in bytes, and
/// `special` as the address of the special objects array. It allocates no memory.
///
/// `special` is the address in bytes of that array's base header among the pieces, as
/// `Forward::place` returns it (the forwarding address): neither an object index nor the old
/// address. It is written unchecked. A reader rejects an image with a wrong one
/// (`BadSpecialObjects`), so a caller states in its own contract which address it passes, as `run`
/// does.
///
/// Fails with `WriteFailed` if a write or the flush fails, or if 2^32 writes were made. The
/// sink has then taken some of the bytes, from the front on, perhaps all.
pub fn write_image<W: Sink>(
    image: &Image,
    special: Address,
    pieces: &[Vec<u32>],
    sink: &mut W,
) -> Result<(), Fault>
    requires few { length (concat (map (λ v. v.items) pieces.now)) < 2 ^ 30 }
    ensures whole { OnOk result (WritesWhole (W.state sink.old) (W.state sink.new)
        (file_with image.now.memory.order image.now.prefix image.now.header special (map (λ v.
        v.items) pieces.now))) }
    ensures stopped { IfErr result (λ fault. WriteStops (W.state sink.old) (W.state sink.new)
        (file_with image.now.memory.order image.now.prefix image.now.header special (map (λ v.
        v.items) pieces.now)) fault) }
{
    let header = image.renewed_header(4 * word_count(pieces), special);
    write_words(sink, image.heap().order(), image.prefix(), &header, pieces)
}

/// Returns the total number of words of the pieces.
fn word_count(pieces: &[Vec<u32>]) -> u32
    requires { length (concat (map (λ v. v.items) pieces.now)) < 2 ^ 30 }
    ensures { result ≡ length (concat (map (λ v. v.items) pieces.now)) }
{
    let mut count = 0;
    for piece in pieces {
        count += piece.len() as u32;
    }
    count
}
