//! Writing the bytes and words of an image to a sink.

ghost use Rattle.std.specs.Prelude.{◌≡◌, ◌*◌, ◌<◌, ◌≤◌, ◌++◌, length, take, map, OnOk, IfErr};
ghost use Rattle.std.specs.List.{concat};
ghost use Rattle.sqz_object.specs.Bytes.{spelling_of};
ghost use Rattle.sqz_image.specs.Devices.{WritesWhole, WriteStops, Sends, SendStops};

use crate::device::Sink;
use crate::fault::Fault;
use crate::write_whole::{TURNS, send};
use sqz_object::{Order, put_word};

/// The number of words that are encoded at once.
const BLOCK_WORDS: usize = 1 << 14;

/// The size of a block in bytes.
const BLOCK: usize = 4 * BLOCK_WORDS;

/// Writes the bytes of the prefix, then the header words and the words of each piece, in this byte
/// order, and then flushes. It allocates no memory.
///
/// Fails with `WriteFailed` if a write or the flush fails, or if 2^32 writes were made. The
/// sink has then taken some of the bytes, from the front on, perhaps all.
pub(crate) fn write_words<W: Sink>(
    sink: &mut W,
    order: Order,
    prefix: &[u8],
    header: &[u32],
    pieces: &[Vec<u32>],
) -> Result<(), Fault>
    ensures whole { OnOk result (WritesWhole (W.state sink.old) (W.state sink.new)
        (prefix.now ++ spelling_of order (header.now ++ concat (map (λ v. v.items) pieces.now)))) }
    ensures stopped { IfErr result (λ fault. WriteStops (W.state sink.old) (W.state sink.new)
        (prefix.now ++ spelling_of order (header.now ++ concat (map (λ v.
        v.items) pieces.now))) fault) }
{
    let mut block = [0; BLOCK];
    let mut turns = TURNS;
    send(sink, prefix, &mut turns)?;
    send_words(sink, order, header, &mut block, &mut turns)?;
    for piece in pieces {
        send_words(sink, order, piece, &mut block, &mut turns)?;
    }
    let Ok(()) = sink.flush() else {
        return Err(Fault::WriteFailed);
    };
    Ok(())
}

/// Writes all the words, block by block.
fn send_words<W: Sink>(
    sink: &mut W,
    order: Order,
    words: &[u32],
    block: &mut [u8; BLOCK],
    turns: &mut u64,
) -> Result<(), Fault>
    requires { 0 < turns.old }
    ensures whole { OnOk result (Sends (W.state sink.old) (W.state sink.new)
        (spelling_of order words.now) turns.old turns.new) }
    ensures stopped { IfErr result (λ fault. SendStops (W.state sink.old) (W.state sink.new)
        (spelling_of order words.now) turns.old fault) }
{
    let mut rest = words;
    while !rest.is_empty() {
        let (front, after) = rest.split_at(rest.len().min(BLOCK_WORDS));
        spell(block, order, front);
        send(sink, &block[..4 * front.len()], turns)?;
        rest = after;
    }
    Ok(())
}

/// Encodes the words at the front of the block.
fn spell(block: &mut [u8], order: Order, words: &[u32])
    requires { 4 * length words.now ≤ length block.old }
    ensures { take (4 * length words.now) block.new ≡ spelling_of order words.now }
{
    for (k, word) in words.iter().enumerate() {
        block[4 * k..4 * k + 4].copy_from_slice(&put_word(order, *word));
    }
}
