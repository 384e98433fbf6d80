//! The rows about owners in which something differs.

use crate::changed::Changed;
use crate::compared::Compared;
use sqz_changes::Change;
use sqz_image::{Sink, Slot};
use sqz_look_view::{Out, SlotNames};
use sqz_names::fields::{INSTANCE_VARIABLES, SUPERCLASS};

/// What an owner is.
#[derive(Clone, Copy)]
pub(crate) enum Kind {
    /// A variable, a symbol or the special objects array.
    Value,
    /// A class or a metaclass.
    Definition,
    Method,
}

/// Prints the first owners of a kind in which something differs.
pub(crate) fn print_owners<C: Sink>(
    compared: Compared<'_>,
    kind: Kind,
    changes: &[Change],
    most: usize,
    out: &mut Out<'_, C>,
) {
    let mut names = SlotNames::none(compared.old.alloc);
    for change in changes.iter().take(most) {
        match Changed::of(compared, &mut names, change, out.is_json()) {
            Ok(changed) => match kind {
                Kind::Value => print_value(&changed, out),
                Kind::Definition => print_definition(&changed, out),
                Kind::Method => print_method(compared, change.owner, &changed, out),
            },
            Err(error) => out.need(Err(error)),
        }
    }
}

/// Prints a variable, a symbol or the special objects array.
fn print_value<C: Sink>(changed: &Changed, out: &mut Out<'_, C>) {
    out.word("kind", "value");
    out.word("name", changed.name.as_str());
    changed.add_path(out);
    changed.add_values("old", "new", out);
    out.line("  {name}{path/ }: {old} -> {new}{more/, and }");
}

/// Prints a class or a metaclass.
fn print_definition<C: Sink>(changed: &Changed, out: &mut Out<'_, C>) {
    out.word("kind", "definition");
    out.word("name", changed.name.as_str());
    out.word(
        "part",
        match changed.path.first {
            Some(Slot::Field(SUPERCLASS)) => "superclass",
            Some(Slot::Field(INSTANCE_VARIABLES)) => "instance_variables",
            _ => "other",
        },
    );
    changed.add_path(out);
    changed.add_values("old", "new", out);
    out.line("  changed  {name}{path/ }: {old} -> {new}{more/, and }");
}

/// Prints the method of the pair at an index, with its bytes in the old image and in the new one.
fn print_method<C: Sink>(
    compared: Compared<'_>,
    owner: u32,
    changed: &Changed,
    out: &mut Out<'_, C>,
) {
    let pair = compared.pair(owner);
    let (old, new) = (compared.old, compared.new);
    out.word("kind", "method");
    out.word("name", changed.name.as_str());
    changed.add_path(out);
    out.amount("old", old.bytes(pair.old));
    out.amount("new", new.bytes(pair.new));
    changed.add_values("old_value", "new_value", out);
    out.line("  changed  {name}{path/ }: {old_value} -> {new_value}{more/, and }");
}
