//! What retains most.

ghost use Rattle.std.specs.Prelude.{◌≡◌, true, All};
ghost use Rattle.sqz_image.specs.Objects.{object_count};
ghost use Rattle.sqz_answers.specs.GroupCounts.{AreCountsWithin};
ghost use Rattle.sqz_trace.specs.Graph.{is_marked};

use crate::folded::print_folded;
use crate::options::limits_of;
use crate::rows::{Row, labelled};
use crate::share::share_text;
use crate::smaller::add_groups;
use crate::variables::variables_of;
use sqz_answers::{GroupCount, top_rows};
use sqz_dominators::dominators_of;
use sqz_image::Sink;
use sqz_look_args::{TopForm, TopOptions};
use sqz_look_view::{Inspector, Out, PrintError};
use sqz_object::ObjectIndex;

/// Prints the dominator tree from a live object, the objects that retain most first. The
/// association of a variable and its value are one row, and the dictionaries and arrays that only
/// hold variables are part of the row above them. Shares are of what the first row retains.
pub fn print_top<C: Sink>(
    inspector: &Inspector<'_>,
    root: ObjectIndex,
    options: TopOptions,
    out: &mut Out<'_, C>,
) -> Result<(), PrintError>
    requires { is_marked inspector.now.live.marks root ≡ true }
{
    let (alloc, live) = (inspector.alloc, &inspector.live);
    let dominators = dominators_of(alloc, live.graph)?;
    let bytes = dominators.retained(root).bytes;
    let variables = variables_of(inspector)?;
    let limits = limits_of(options, root, bytes);
    let top = top_rows(alloc, live, &dominators, &variables, limits)?;
    let rows = labelled(inspector, &top)?;
    match options.form {
        TopForm::Folded => print_folded(alloc, &rows, out),
        TopForm::Rows => print_rows(inspector, &rows, &top.groups, bytes, out),
    }
}

/// Prints rows as text or as JSON, given for each the groups of its smaller objects.
fn print_rows<C: Sink>(
    inspector: &Inspector<'_>,
    rows: &[Row],
    groups: &[Vec<GroupCount>],
    whole: u64,
    out: &mut Out<'_, C>,
) -> Result<(), PrintError>
    requires { All (λ counts.
        AreCountsWithin (object_count inspector.now.live.graph.heap.now) counts.items)
        groups.now }
{
    out.heading("  retained      %   objects");
    let mut path = Vec::new(inspector.alloc);
    for (row, groups) in rows.iter().zip(groups) {
        path.truncate(row.depth);
        path.push(row.label.as_str())?;
        print_row(inspector, row, groups, &path, whole, out);
    }
    out.end()
}

/// Prints a row, with the classes of its smaller objects, the labels from the first row to it, and
/// its share of the first row's bytes. Each label is two spaces further to the right than that of
/// the row above it.
fn print_row<C: Sink>(
    inspector: &Inspector<'_>,
    row: &Row,
    groups: &[GroupCount],
    path: &[&str],
    whole: u64,
    out: &mut Out<'_, C>,
)
    requires { AreCountsWithin (object_count inspector.now.live.graph.heap.now) groups.now }
{
    out.hex_or_null("address", row.address);
    out.word("label", row.label.as_str());
    out.word_or_null("class", row.class.as_ref().map(|class| class.as_str()));
    out.number("depth", row.depth as u64);
    out.amount("bytes", row.own);
    out.amount("retained", row.retained);
    out.number("objects", row.objects);
    if out.is_json() {
        match row.address {
            Some(_) => out.null("smaller"),
            None => add_groups(inspector, groups, out),
        }
        out.hex_or_null("parent", row.parent);
        out.words("path", path);
    } else {
        out.text("share", share_text(inspector.alloc, row.retained, whole));
        out.hex_or_null("unnamed", if row.is_unnamed { row.address } else { None });
        out.indent("indent", row.depth);
    }
    out.line("{retained:>10} {share:>6} {objects:>9}   {indent}{label}{unnamed/ }");
}
