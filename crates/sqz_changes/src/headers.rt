//! How the headers of two objects differ.

ghost use Rattle.std.specs.Prelude.{◌≡◌};
ghost use Rattle.sqz_names.specs.Structures.{is_method_layout};
ghost use Rattle.sqz_changes.specs.Headers.{are_methods, class_differs, hash_differs};
ghost use Rattle.sqz_changes.specs.Headers.{header_differs, same_kind, shape_differs};

use sqz_image::Object;
use sqz_object::{Kind, Layout, base_of};
use sqz_trace::traced_fields;

/// Returns whether both objects are methods.
pub(crate) fn are_methods(one: &Object<'_>, other: &Object<'_>) -> bool
    ensures { result ≡ are_methods one.now other.now }
{
    is_method(one.layout()) && is_method(other.layout())
}

/// Returns whether a layout is that of a method.
fn is_method(layout: Layout) -> bool
    ensures { result ≡ is_method_layout layout }
{
    matches!(layout, Layout::Method)
}

/// Returns whether two objects differ in their headers, apart from their hashes. Methods are
/// compared by their compact class indexes and numbers of traced fields alone.
pub(crate) fn header_differs(one: &Object<'_>, other: &Object<'_>) -> bool
    ensures { result ≡ header_differs one.now other.now }
{
    class_differs(one, other) || (!are_methods(one, other) && shape_differs(one, other))
}

/// Returns whether two objects have different compact class indexes or numbers of traced fields.
fn class_differs(one: &Object<'_>, other: &Object<'_>) -> bool
    ensures { result ≡ class_differs one.now other.now }
{
    let (base, other_base) = (base_of(one.header().base), base_of(other.header().base));
    base.compact != other_base.compact || traced_fields(one) != traced_fields(other)
}

/// Returns whether two objects have different kinds of header, sizes or formats.
pub(crate) fn shape_differs(one: &Object<'_>, other: &Object<'_>) -> bool
    ensures { result ≡ shape_differs one.now other.now }
{
    let (header, other_header) = (one.header(), other.header());
    let (base, other_base) = (base_of(header.base), base_of(other_header.base));
    !same_kind(header.kind, other_header.kind)
        || header.length != other_header.length
        || base.format != other_base.format
}

/// Returns whether two kinds of header are the same.
fn same_kind(one: Kind, other: Kind) -> bool
    ensures { result ≡ same_kind one other }
{
    match (one, other) {
        (Kind::Three, Kind::Three) => true,
        (Kind::Two, Kind::Two) => true,
        (Kind::Free, Kind::Free) => true,
        (Kind::Short, Kind::Short) => true,
        _ => false,
    }
}

/// Returns whether two objects have different hashes.
pub(crate) fn hash_differs(one: &Object<'_>, other: &Object<'_>) -> bool
    ensures { result ≡ hash_differs one.now other.now }
{
    base_of(one.header().base).hash != base_of(other.header().base).hash
}
