//! The bytes of byte objects.

ghost use Rattle.std.specs.Prelude.{◌≡◌, ◌*◌, ◌≤◌, length, take, IfOk, option_map};
ghost use Rattle.sqz_object.specs.Bytes.{spelling_of};
ghost use Rattle.sqz_histogram.specs.Bytes.{first_bytes};

use sqz_image::Object;
use sqz_object::{Layout, Order, Words, put_word};
use std::alloc::{AllocError, Global};

/// Returns the bytes of a byte object of a file with this byte order, without padding, but at most
/// the first `most` of them. None for any other object.
pub fn first_bytes(
    alloc: Global,
    order: Order,
    object: &Object<'_>,
    most: usize,
) -> Result<Option<Vec<u8>>, AllocError>
    ensures { IfOk result (λ bytes.
        option_map (λ bytes. bytes.items) bytes ≡ first_bytes order most object.now) }
{
    let Layout::Bytes { unused } = object.layout() else {
        return Ok(None);
    };
    let fields = object.fields();
    let count = (4 * fields.len()).saturating_sub(unused as usize);
    let bytes = bytes_in(alloc, order, &fields, count.min(most))?;
    Ok(Some(bytes))
}

/// Returns the first `count` bytes that encode the words.
fn bytes_in(
    alloc: Global,
    order: Order,
    words: &Words<'_>,
    count: usize,
) -> Result<Vec<u8>, AllocError>
    requires { count ≤ 4 * length words.now }
    ensures { IfOk result (λ bytes. bytes.items ≡ take count (spelling_of order words.now)) }
{
    let (front, _) = words.split_at(words.len().min(count / 4 + 1));
    let mut bytes = spelling_of(alloc, order, &front)?;
    bytes.truncate(count);
    Ok(bytes)
}

/// Returns the bytes that encode the words.
fn spelling_of(alloc: Global, order: Order, words: &Words<'_>) -> Result<Vec<u8>, AllocError>
    ensures { IfOk result (λ bytes. bytes.items ≡ spelling_of order words.now) }
{
    let mut bytes = Vec::new(alloc);
    for index in 0..words.len() {
        bytes.extend_from_slice(&put_word(order, words.at(index)))?;
    }
    Ok(bytes)
}
