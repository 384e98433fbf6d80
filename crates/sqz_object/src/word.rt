//! 32-bit words as four bytes, in either byte order.

ghost use Rattle.std.specs.Prelude.{◌≡◌, ◌+◌, ◌*◌, ◌≤◌, length, take, drop, slice_index};
ghost use Rattle.sqz_object.specs.Bytes.{number_of, bytes_of};

use crate::order::Order;
use byteorder::{BigEndian, ByteOrder, LittleEndian};

/// Returns word `k` of `bytes`: the four bytes from offset `4 * k` on.
pub fn word_at(bytes: &[u8], order: Order, k: usize) -> u32
    requires { 4 * k + 4 ≤ length bytes.now }
    ensures { result ≡ number_of order (take 4 (drop (4 * k) bytes.now)) }
{
    word_of(order, &bytes[4 * k..4 * k + 4])
}

/// Returns the word that the first four bytes encode.
pub(crate) fn word_of(order: Order, bytes: &[u8]) -> u32
    requires { 4 ≤ length bytes.now }
    ensures { result ≡ number_of order bytes.now }
{
    match order {
        Order::Little => LittleEndian::read_u32(bytes),
        Order::Big => BigEndian::read_u32(bytes),
    }
}

/// Returns the four bytes that encode `word`.
pub fn put_word(order: Order, word: u32) -> [u8; 4]
    ensures spelled { result ≡ bytes_of order word }
    ensures read_again { number_of order result ≡ word }
{
    let mut bytes = [0u8; 4];
    match order {
        Order::Little => LittleEndian::write_u32(&mut bytes, word),
        Order::Big => BigEndian::write_u32(&mut bytes, word),
    }
    bytes
}
