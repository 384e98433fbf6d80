//! The rows about methods.

ghost use Rattle.sqz_look_view.specs.Inspectors.{IsObjectOf};

use crate::changed_rows::{Kind, print_owners};
use crate::compared::Compared;
use crate::found::Found;
use crate::names::method_text;
use sqz_image::Sink;
use sqz_look_view::{Inspector, Out};
use sqz_names::MethodName;

/// Returns the number of rows.
pub(crate) fn method_count(found: &Found) -> usize {
    let alone = found
        .removed
        .methods
        .len()
        .saturating_add(found.added.methods.len());
    alone.saturating_add(found.owners.methods.len())
}

/// Prints the methods that were removed or added, and those in which something differs.
pub(crate) fn print_methods<C: Sink>(compared: Compared<'_>, found: &Found, out: &mut Out<'_, C>) {
    let (removed, added) = (&found.removed.methods, &found.added.methods);
    let changed = &found.owners.methods;
    let numbers = [added.len(), removed.len(), changed.len(), found.methods];
    print_heading(numbers, out);
    let count = method_count(found);
    let most = out.shown(count);
    for method in removed.iter().take(most) {
        print_method(compared.old, *method, false, out);
    }
    let most = most.saturating_sub(removed.len());
    for method in added.iter().take(most) {
        print_method(compared.new, *method, true, out);
    }
    let most = most.saturating_sub(added.len());
    print_owners(compared, Kind::Method, changed, most, out);
    out.rest(count, "row");
}

/// Prints the line about all methods: how many were added, removed and changed, and how many the
/// new image has.
pub(crate) fn print_heading<C: Sink>(numbers: [usize; 4], out: &mut Out<'_, C>) {
    let [added, removed, changed, count] = numbers;
    out.count("added", added);
    out.count("removed", removed);
    out.count("changed", changed);
    out.count("count", count.saturating_add(removed));
    out.heading("methods   {added} added, {removed} removed, {changed} changed of {count}");
}

/// Prints a method whose name one image alone has: the new one, or the old one.
fn print_method<C: Sink>(
    inspector: &Inspector<'_>,
    name: MethodName,
    is_added: bool,
    out: &mut Out<'_, C>,
) {
    let count = inspector.live.graph.heap.len();
    if name.method >= count || name.class >= count || name.selector >= count {
        return;
    }
    out.word("kind", "method");
    out.text("name", method_text(inspector, name.class, name.selector));
    out.texts("slots", &[]);
    let bytes = inspector.bytes(name.method);
    out.amount_or_null("old", (!is_added).then_some(bytes));
    out.amount_or_null("new", is_added.then_some(bytes));
    out.null("old_value");
    out.null("new_value");
    out.null("differences");
    out.line(if is_added {
        "  added    {name}"
    } else {
        "  removed  {name}"
    });
}
