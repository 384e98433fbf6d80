//! Where a chunk is that cannot be read.

ghost use Rattle.std.specs.Prelude.{◌≡◌, IfNone, IfSome, None};
ghost use Rattle.sqz_image.specs.Readable.{unread_word};
ghost use Rattle.sqz_damage.specs.Unread.{IsUnreadPlace};

use crate::places::bytes::byte_of_word;
use sqz_image::{Fault, Header};
use sqz_object::Address;

/// Where a chunk is that cannot be read.
#[derive(Clone, Copy)]
pub struct UnreadPlace {
    /// The address of its first word.
    pub address: Address,
    /// Where this word begins in the file, in bytes.
    pub byte: u64,
}

/// Returns where the chunk is that cannot be read, in a file with this header and fault. None if
/// the fault is another one. `byte` is exact if it is less than 2^64.
pub fn unread_place(header: &Header, fault: Fault) -> Option<UnreadPlace>
    ensures place { IfSome result (IsUnreadPlace header.now fault) }
    ensures none { IfNone result (unread_word fault ≡ None) }
{
    let word = fault.unread_word()?;
    Some(UnreadPlace {
        address: header.base().wrapping_add(word.wrapping_mul(4)),
        byte: byte_of_word(header.offset, u64::from(word)),
    })
}
