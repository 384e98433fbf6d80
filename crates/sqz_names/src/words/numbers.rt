//! The numbers that words state.

ghost use Rattle.std.specs.Prelude.{◌≡◌};
ghost use Rattle.sqz_names.specs.Numbers.{before_comma, class_text, IsAddress, IsCompact};
ghost use Rattle.sqz_names.specs.Numbers.{IsExplicitAddress, IsSpecialField, Reads};

use sqz_object::Address;

/// The maximum number of hexadecimal digits of an address.
const MOST_DIGITS: usize = 8;

/// Returns the address that hexadecimal digits after `0x` or `0X` write.
pub(crate) fn explicit_address(word: &str) -> Option<Address>
    ensures { Reads (IsExplicitAddress word.now) result }
{
    let digits = word.strip_prefix("0x").or(word.strip_prefix("0X"))?;
    address_in(digits)
}

/// Returns the address that one to eight hexadecimal digits write.
pub(crate) fn address_in(word: &str) -> Option<Address>
    ensures { Reads (IsAddress word.now) result }
{
    if word.len() > MOST_DIGITS || word.starts_with('+') {
        return None;
    }
    u32::from_str_radix(word, 16).ok()
}

/// Returns the compact index K that `compact K` states.
pub(crate) fn compact_index(words: &str) -> Option<u32>
    ensures { Reads (IsCompact words.now) result }
{
    u32::from_str_radix(words.strip_prefix("compact ")?, 10).ok()
}

/// Returns the number K that `special object K` states, a field of the special objects array. A
/// comma and a name may follow, as labels have them.
pub(crate) fn special_field(words: &str) -> Option<u32>
    ensures { Reads (IsSpecialField words.now) result }
{
    let rest = words.strip_prefix("special object ")?;
    u32::from_str_radix(before_comma(rest), 10).ok()
}

/// Returns text up to its first comma, or all of it.
fn before_comma(text: &str) -> &str
    ensures { result.now ≡ before_comma text.now }
{
    match text.split_once(',') {
        Some((before, _)) => before,
        None => text,
    }
}

/// Returns the name of the class that words stand for: with or without `class` before it.
pub(crate) fn class_in(words: &str) -> &str
    ensures { result.now ≡ class_text words.now }
{
    words.strip_prefix("class ").unwrap_or(words)
}
