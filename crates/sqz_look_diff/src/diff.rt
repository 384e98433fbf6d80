//! What changed between two images.

ghost use Rattle.std.specs.Prelude.{All, IfOk, IsTrue, ◌↔◌};
ghost use Rattle.sqz_alike.specs.Alike.{AreAlike};
ghost use Rattle.sqz_alike.specs.Seen.{seen};
ghost use Rattle.sqz_look_view.specs.Inspectors.{IsObjectOf};

use crate::changed_rows::{Kind, print_owners};
use crate::compared::Compared;
use crate::definitions::print_definitions;
use crate::first_difference::print_first_difference;
use crate::found::Found;
use crate::holder_rows::print_holder;
use crate::methods::{print_heading, print_methods};
use crate::rows::{print_class, print_total, print_variable};
use crate::variables::VariableChanges;
use sqz_alike::{Alikeness, Holder, Pair, compare, objects_of};
use sqz_answers::{Change, Size};
use sqz_facts::{first_referrers_of, marked_bytes};
use sqz_image::Sink;
use sqz_look_view::{Inspector, Out, PrintError, SlotNames};
use std::alloc::{AllocError, Global};
use std::thread::Threads;

/// Prints what changed from the old image to the new one: the number of live objects and their
/// bytes, the classes whose instances differ in number or size, the variables that retain more or
/// less, the variables, classes and methods that were added or removed or in which something
/// differs, and the objects without names that retain more; if there is no such change, the first
/// objects that differ. Returns whether the images are alike.
pub fn print_diff<C: Sink>(
    rt: &(impl Threads + Sync),
    old: &Inspector<'_>,
    new: &Inspector<'_>,
    out: &mut Out<'_, C>,
) -> Result<bool, PrintError>
    ensures { IfOk result (λ is_alike. IsTrue is_alike
        ↔ ∥ AreAlike (seen old.now.live) (seen new.now.live) ∥₁) }
{
    let alikeness = compare(old.alloc, &old.live, &new.live)?;
    print_total(size_of(old), size_of(new), out);
    match alikeness {
        Alikeness::Alike => print_alike(new, out)?,
        Alikeness::Differ(pair) => print_changes(rt, old, new, pair, out)?,
    }
    out.end()?;
    Ok(matches!(alikeness, Alikeness::Alike))
}

/// Prints that nothing differs.
fn print_alike<C: Sink>(new: &Inspector<'_>, out: &mut Out<'_, C>) -> Result<(), AllocError> {
    let marks = &new.live.marks;
    let methods = new.names.methods_of_marked(marks)?;
    let count = methods.iter().filter(|name| marks.has(name.method)).count();
    for kind in ["classes  ", "retained ", "values   ", "definitions"] {
        out.note_word("kind", kind);
        out.heading("{kind} 0 changed");
    }
    print_heading([0, 0, 0, count], out);
    out.heading("holders   0 changed");
    out.heading("the images are alike");
    Ok(())
}

/// Prints what differs, each kind under a heading. `pair` are the first objects that differ.
fn print_changes<C: Sink>(
    rt: &(impl Threads + Sync),
    old: &Inspector<'_>,
    new: &Inspector<'_>,
    pair: Pair,
    out: &mut Out<'_, C>,
) -> Result<(), AllocError>
    requires old { IsObjectOf old.now pair.old }
    requires new { IsObjectOf new.now pair.new }
{
    let found = Found::between(rt, old, new)?;
    let compared = Compared {
        old,
        new,
        partners: &found.partners,
        changes: &found.changes,
    };
    print_classes(old.alloc, &found.classes, out);
    print_retained(old.alloc, &found.variables, out);
    print_values(compared, &found.owners.values, out);
    print_definitions(compared, &found, out);
    print_methods(compared, &found, out);
    print_holders(new, &found.holders, out)?;
    if found.is_empty() && size_of(old) == size_of(new) {
        print_first_difference(compared, pair, out)?;
    }
    Ok(())
}

/// Returns the number of the live objects of an image, and their bytes.
fn size_of(inspector: &Inspector<'_>) -> Size {
    let live = &inspector.live;
    Size {
        objects: u64::from(live.marks.count()),
        bytes: marked_bytes(live.graph.heap, &live.marks),
    }
}

/// Prints the classes that differ.
fn print_classes<C: Sink>(alloc: Global, changes: &[Change<Size>], out: &mut Out<'_, C>) {
    out.count("count", changes.len());
    out.heading("classes   {count} changed");
    for change in &changes[..out.shown(changes.len())] {
        print_class(alloc, change, out);
    }
    out.rest(changes.len(), "row");
}

/// Prints the variables that retain more or less.
fn print_retained<C: Sink>(alloc: Global, variables: &VariableChanges, out: &mut Out<'_, C>) {
    let changes = variables.changes.as_slice();
    out.count("count", changes.len());
    out.heading("retained  {count} changed");
    for change in &changes[..out.shown(changes.len())] {
        print_variable(alloc, variables, change, out);
    }
    out.rest(changes.len(), "row");
}

/// Prints the variables and other values in which something differs.
fn print_values<C: Sink>(
    compared: Compared<'_>,
    changes: &[sqz_changes::Change],
    out: &mut Out<'_, C>,
) {
    out.count("count", changes.len());
    out.heading("values    {count} changed");
    print_owners(
        compared,
        Kind::Value,
        changes,
        out.shown(changes.len()),
        out,
    );
    out.rest(changes.len(), "row");
}

/// Prints the objects without names that retain more.
fn print_holders<C: Sink>(
    new: &Inspector<'_>,
    holders: &[Holder],
    out: &mut Out<'_, C>,
) -> Result<(), AllocError>
    requires { All (λ holder. IsObjectOf new.now holder.object) holders.now }
{
    let alloc = new.alloc;
    out.count("count", holders.len());
    out.heading("holders   {count} changed");
    let shown = &holders[..out.shown(holders.len())];
    let objects = objects_of(alloc, shown)?;
    let referrers = first_referrers_of(alloc, &new.live, &objects)?;
    let mut names = SlotNames::none(alloc);
    for (holder, first) in shown.iter().zip(&referrers) {
        print_holder(new, &mut names, *holder, *first, out);
    }
    out.rest(holders.len(), "row");
    Ok(())
}
