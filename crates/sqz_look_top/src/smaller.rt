//! The groups of objects that are too small to have rows of their own.

ghost use Rattle.std.specs.Prelude.{All};
ghost use Rattle.sqz_image.specs.Objects.{object_count};
ghost use Rattle.sqz_histogram.specs.Groups.{IsInside};
ghost use Rattle.sqz_answers.specs.GroupCounts.{AreCountsWithin};

use sqz_answers::{GroupCount, objects_after};
use sqz_histogram::Group;
use sqz_image::Sink;
use sqz_look_view::{Counted, Inspector, Out};
use std::alloc::AllocError;

/// The maximum number of groups in a label.
const MOST_NAMED: usize = 2;

/// Adds the classes of smaller objects, in the order of their groups, each with its number of
/// objects.
pub(crate) fn add_groups<C: Sink>(
    inspector: &Inspector<'_>,
    groups: &[GroupCount],
    out: &mut Out<'_, C>,
)
    requires { AreCountsWithin (object_count inspector.now.live.graph.heap.now) groups.now }
{
    out.begin_list("smaller");
    for count in groups {
        out.text("class", name_of_group(inspector, count.group));
        out.number("objects", u64::from(count.objects));
        out.end_row();
    }
    out.end_list();
}

/// Returns the label of smaller objects: their number, the classes that have most of them, and the
/// number of the others.
pub(crate) fn smaller_label(
    inspector: &Inspector<'_>,
    count: u32,
    groups: &[GroupCount],
) -> Result<String, AllocError>
    requires { AreCountsWithin (object_count inspector.now.live.graph.heap.now) groups.now }
{
    let alloc = inspector.alloc;
    let (named, _) = groups.split_at(groups.len().min(MOST_NAMED));
    let mut label = format!(in alloc; "{count} smaller")?;
    let mut mark = ": ";
    for count in named {
        let class = name_of_group(inspector, count.group)?;
        label = format!(in alloc; "{label}{mark}{} {class}", count.objects)?;
        mark = ", ";
    }
    match objects_after(groups, MOST_NAMED) {
        0 => Ok(label),
        others => format!(in alloc; "{label}{mark}{}", Counted(others, "other")),
    }
}

/// Returns the name of a group as a class histogram prints it.
fn name_of_group(inspector: &Inspector<'_>, group: Group) -> Result<String, AllocError>
    requires { IsInside (object_count inspector.now.live.graph.heap.now) group }
{
    match group {
        Group::Class(class) => inspector.names.name_of_class(class),
        Group::Compact(index) => format!(in inspector.alloc; "compact {index}"),
    }
}
