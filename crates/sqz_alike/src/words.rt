//! Whether two objects have the same words, but for those of their slots.

ghost use Rattle.std.specs.Prelude.{◌≡◌, ◌↔◌, IsTrue};
ghost use Rattle.sqz_object.specs.Layout.{layout};
ghost use Rattle.sqz_alike.specs.Alike.{HeadersMatch, UntracedMatch, WordsMatch, untraced};
ghost use Rattle.sqz_alike.specs.Untraced.{same_bytes, same_untraced, same_words};

use sqz_image::Object;
use sqz_object::{Layout, Order, Words, base_of, put_word};
use sqz_trace::traced_fields;

/// Returns whether two objects, of files with these byte orders, have the same words, but for those
/// of their slots.
pub(crate) fn words_match(
    order: Order,
    object: &Object<'_>,
    other_order: Order,
    other: &Object<'_>,
) -> bool
    ensures { IsTrue result ↔ WordsMatch order other_order object.now other.now }
{
    if !headers_match(object, other) || traced_fields(object) != traced_fields(other) {
        return false;
    }
    untraced_match(order, object, other_order, other)
}

/// Returns whether two objects have the same kind of header, size, format, compact class index and
/// hash.
fn headers_match(object: &Object<'_>, other: &Object<'_>) -> bool
    ensures { IsTrue result ↔ HeadersMatch object.now other.now }
{
    let (one, two) = (object.header(), other.header());
    let (base, other_base) = (base_of(one.base), base_of(two.base));
    one.kind == two.kind
        && one.length == two.length
        && base.format == other_base.format
        && base.compact == other_base.compact
        && base.hash == other_base.hash
}

/// Returns the words of an object after its traced fields.
pub fn untraced<'a>(object: &Object<'a>) -> Words<'a>
    ensures { result ≡ untraced object.now }
{
    let (_, rest) = object.fields().split_at(traced_fields(object) as usize);
    rest
}

/// Returns whether the words of two objects after their traced fields are the same: as bytes, if
/// `object` is a byte object or a method.
pub fn untraced_match(
    order: Order,
    object: &Object<'_>,
    other_order: Order,
    other: &Object<'_>,
) -> bool
    ensures matches { IsTrue result ↔ UntracedMatch (layout object.now) order other_order
        (untraced object.now) (untraced other.now) }
    ensures same { result ≡ same_untraced (layout object.now) order other_order
        (untraced object.now) (untraced other.now) }
{
    let (words, others) = (untraced(object), untraced(other));
    match object.layout() {
        Layout::Bytes { .. } | Layout::Method => bytes_match(order, &words, other_order, &others),
        Layout::Fields | Layout::Weak | Layout::Context | Layout::Words => {
            same_words(&words, &others)
        }
    }
}

/// Returns whether two lists of words are the same.
fn same_words(words: &Words<'_>, others: &Words<'_>) -> bool
    ensures { result ≡ same_words words.now others.now }
{
    if words.len() != others.len() {
        return false;
    }
    for index in 0..words.len() {
        if words.at(index) != others.at(index) {
            return false;
        }
    }
    true
}

/// Returns whether two lists of words are the same bytes, each in its byte order.
pub fn bytes_match(order: Order, words: &Words<'_>, other_order: Order, others: &Words<'_>) -> bool
    ensures { result ≡ same_bytes order other_order words.now others.now }
{
    if words.len() != others.len() {
        return false;
    }
    for index in 0..words.len() {
        if put_word(order, words.at(index)) != put_word(other_order, others.at(index)) {
            return false;
        }
    }
    true
}
