//! The rows about classes.

ghost use Rattle.sqz_look_view.specs.Inspectors.{IsObjectOf};

use crate::categories::CategoryChange;
use crate::changed_rows::{Kind, print_owners};
use crate::compared::Compared;
use crate::found::Found;
use crate::keys::name_in;
use sqz_image::Sink;
use sqz_look_view::{Inspector, Out, field_of};
use sqz_names::fields::SUPERCLASS;
use sqz_object::ObjectIndex;
use std::alloc::{AllocError, Global};

/// Returns the number of rows.
pub(crate) fn definition_count(found: &Found) -> usize {
    let alone = found
        .removed
        .classes
        .len()
        .saturating_add(found.added.classes.len());
    alone
        .saturating_add(found.owners.classes.len())
        .saturating_add(found.categories.len())
}

/// Prints the classes that were removed or added, those in which something differs, and those with
/// other categories.
pub(crate) fn print_definitions<C: Sink>(
    compared: Compared<'_>,
    found: &Found,
    out: &mut Out<'_, C>,
) {
    let (count, classes) = (definition_count(found), &found.owners.classes);
    let (removed, added) = (&found.removed.classes, &found.added.classes);
    out.count("count", count);
    out.heading("definitions {count} changed");
    let most = out.shown(count);
    for class in removed.iter().take(most) {
        print_class(compared.old, *class, false, out);
    }
    let most = most.saturating_sub(removed.len());
    for class in added.iter().take(most) {
        print_class(compared.new, *class, true, out);
    }
    let most = most.saturating_sub(added.len());
    print_owners(compared, Kind::Definition, classes, most, out);
    let most = most.saturating_sub(classes.len());
    for (key, change) in found.categories.iter().take(most) {
        print_category(compared.old.alloc, key.as_str(), change, out);
    }
    out.rest(count, "row");
}

/// Prints a class whose name one image alone has: the new one, or the old one.
fn print_class<C: Sink>(
    inspector: &Inspector<'_>,
    class: ObjectIndex,
    is_added: bool,
    out: &mut Out<'_, C>,
) {
    if class >= inspector.live.graph.heap.len() {
        return;
    }
    out.word("kind", "definition");
    out.text("name", inspector.names.name_of_class(class));
    out.word("part", "superclass");
    out.texts("slots", &[]);
    if is_added {
        out.null("old");
        out.text("new", superclass_text(inspector, class));
    } else {
        out.text("old", superclass_text(inspector, class));
        out.null("new");
    }
    out.null("differences");
    out.line(if is_added {
        "  added    {name}: superclass {new}"
    } else {
        "  removed  {name}: superclass {old}"
    });
}

/// Prints a class with another category, given its key.
fn print_category<C: Sink>(
    alloc: Global,
    key: &str,
    change: &CategoryChange,
    out: &mut Out<'_, C>,
) {
    out.word("kind", "definition");
    out.word("name", name_in(key));
    out.word("part", "category");
    out.texts("slots", &[]);
    add_category(alloc, "old", &change.old, out);
    add_category(alloc, "new", &change.new, out);
    out.null("differences");
    out.line("  changed  {name}: category {old} -> {new}");
}

/// Adds a category: as text in quotes, or `none`.
fn add_category<C: Sink>(
    alloc: Global,
    name: &'static str,
    category: &Option<String>,
    out: &mut Out<'_, C>,
) {
    match category {
        Some(category) if out.is_json() => out.word(name, category.as_str()),
        Some(category) => out.text(name, format!(in alloc; "'{category}'")),
        None if out.is_json() => out.null(name),
        None => out.word(name, "none"),
    }
}

/// Returns the name of the superclass of a class, or `nil`.
fn superclass_text(inspector: &Inspector<'_>, class: ObjectIndex) -> Result<String, AllocError>
    requires { IsObjectOf inspector.now class }
{
    match field_of(inspector, class, SUPERCLASS) {
        Some(superclass) if inspector.names.is_class(superclass) => {
            inspector.names.name_of_class(superclass)
        }
        _ => String::from_str(inspector.alloc, "nil"),
    }
}
