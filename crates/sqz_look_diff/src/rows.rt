//! The rows about sizes.

use crate::keys::name_in;
use crate::signed::signed_difference;
use crate::variables::VariableChanges;
use sqz_answers::{Change, Size, bytes_or_none, size_or_nothing};
use sqz_image::Sink;
use sqz_look_view::Out;
use std::alloc::{AllocError, Global};

/// Adds a number of objects, and their bytes; null if an image has none.
fn add_size<C: Sink>(name: &'static str, size: Option<Size>, out: &mut Out<'_, C>) {
    let Some(size) = size else {
        return out.null(name);
    };
    out.begin_object(name);
    out.number("objects", size.objects);
    out.amount("bytes", size.bytes);
    out.end_object();
}

/// Prints the size of all live objects in two images.
pub(crate) fn print_total<C: Sink>(old: Size, new: Size, out: &mut Out<'_, C>) {
    out.word("kind", "total");
    out.null("name");
    if out.is_json() {
        add_size("old", Some(old), out);
        add_size("new", Some(new), out);
    } else {
        out.number("old_objects", old.objects);
        out.number("new_objects", new.objects);
        out.amount("old_bytes", old.bytes);
        out.amount("new_bytes", new.bytes);
        out.difference("difference", old.bytes, new.bytes);
    }
    out.line(
        "objects   {old_objects} -> {new_objects}, bytes {old_bytes} -> {new_bytes} ({difference})",
    );
}

/// Prints a class whose live instances differ in number or size.
pub(crate) fn print_class<C: Sink>(alloc: Global, change: &Change<Size>, out: &mut Out<'_, C>) {
    out.word("kind", "class");
    out.word("name", name_in(change.name.as_str()));
    if out.is_json() {
        add_size("old", change.old, out);
        add_size("new", change.new, out);
    } else {
        let (old, new) = (size_or_nothing(change.old), size_or_nothing(change.new));
        out.difference("difference", old.bytes, new.bytes);
        out.text(
            "objects",
            signed_difference(alloc, old.objects, new.objects),
        );
    }
    out.line("{difference:>11#byte} {objects:>10} objects  {name}");
}

/// Prints a variable that retains more or less, with the bytes of new objects that it retains now.
pub(crate) fn print_variable<C: Sink>(
    alloc: Global,
    variables: &VariableChanges,
    change: &Change<u64>,
    out: &mut Out<'_, C>,
) {
    let new_bytes = variables.new_bytes(change.name.as_str());
    out.word("kind", "retained");
    out.word("name", name_in(change.name.as_str()));
    out.amount_or_null("old", change.old);
    out.amount_or_null("new", change.new);
    out.amount_or_null("new_bytes", new_bytes);
    out.difference(
        "difference",
        bytes_or_none(change.old),
        bytes_or_none(change.new),
    );
    if !out.is_json() {
        out.text("share", share_text(alloc, change, new_bytes));
        out.word("note", note_of(variables, change));
    }
    out.line(match new_bytes {
        Some(bytes) if bytes > 0 && out.is_human() => {
            "{difference:>11#byte} ({new_bytes} new) {name}{note}"
        }
        _ => "{difference:>11#byte} {share:<16} {name}{note}",
    });
}

/// Returns how many of the bytes that a variable retains now are new, as text. Empty if it does not
/// retain more, and none are new.
fn share_text(
    alloc: Global,
    change: &Change<u64>,
    new_bytes: Option<u64>,
) -> Result<String, AllocError> {
    match new_bytes {
        Some(0) if bytes_or_none(change.old) < bytes_or_none(change.new) => {
            String::from_str(alloc, "(none new)")
        }
        Some(0) | None => Ok(String::new(alloc)),
        Some(bytes) => format!(in alloc; "({bytes} new)"),
    }
}

/// Returns what the row of a variable ends with: whether it came or went, or its value was or is
/// nil.
fn note_of(variables: &VariableChanges, change: &Change<u64>) -> &'static str {
    let key = change.name.as_str();
    match (change.old, change.new) {
        (None, _) => " (new)",
        (_, None) => " (gone)",
        _ => match (variables.was_nil(key), variables.is_nil(key)) {
            (true, false) => " (was nil)",
            (false, true) => " (now nil)",
            _ => "",
        },
    }
}
