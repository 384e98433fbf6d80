//! The classes whose live instances differ in number or size.

ghost use Rattle.std.specs.Prelude.{◌≡◌, All, IfOk, map};
ghost use Rattle.sqz_image.specs.Objects.{object_count};
ghost use Rattle.sqz_histogram.specs.Groups.{IsInside};
ghost use Rattle.sqz_look_diff.specs.ClassSizes.{AreClassSizes};

use crate::keys::class_key;
use crate::texts::{Age, Texts};
use sqz_answers::{
    Change, NamedTotal, Size, changes_of, live_histogram, sizes_by_name, sort_by_difference,
};
use sqz_histogram::{Group, GroupTotal};
use sqz_image::laws::heap_bounds;
use sqz_look_view::Inspector;
use std::alloc::AllocError;
use std::collections::BTreeMap;
use std::thread::Threads;

/// Returns the classes whose live instances differ in number or size, those whose bytes changed
/// most first.
pub(crate) fn class_changes(
    rt: &(impl Threads + Sync),
    old: &Inspector<'_>,
    new: &Inspector<'_>,
    texts: &mut Texts,
) -> Result<Vec<Change<Size>>, AllocError> {
    let old_sizes = sizes_of(rt, old, texts, Age::Old)?;
    let new_sizes = sizes_of(rt, new, texts, Age::New)?;
    let mut changes = changes_of(old.alloc, &old_sizes, &new_sizes)?;
    sort_by_difference(&mut changes)?;
    Ok(changes)
}

/// Returns the size of the live instances of each class, by its key. Classes with one name are
/// added up.
fn sizes_of(
    rt: &(impl Threads + Sync),
    inspector: &Inspector<'_>,
    texts: &mut Texts,
    age: Age,
) -> Result<BTreeMap<String, Size>, AllocError>
    ensures { IfOk result (AreClassSizes inspector.now.live.graph.heap.now
        inspector.now.live.graph.weak inspector.now.live.marks) }
{
    heap_bounds(inspector.live.graph.heap); // fewer than 2^30 objects and words
    let histogram = live_histogram(rt, inspector.alloc, &inspector.live)?;
    let named = with_keys(inspector, texts, age, &histogram.totals)?;
    let sizes = sizes_by_name(inspector.alloc, &named)?;
    Ok(sizes)
}

/// Returns the totals of a class histogram with the keys of their classes.
fn with_keys(
    inspector: &Inspector<'_>,
    texts: &mut Texts,
    age: Age,
    totals: &[GroupTotal],
) -> Result<Vec<NamedTotal>, AllocError>
    requires { All (λ total. IsInside (object_count inspector.now.live.graph.heap.now)
        total.group) totals.now }
    ensures { IfOk result (λ named. map (λ one. one.total) named.items ≡ totals.now) }
{
    let mut named = Vec::new(inspector.alloc);
    for total in totals {
        let name = match total.group {
            Group::Class(class) => class_key(inspector, texts, age, class)?,
            Group::Compact(index) => format!(in inspector.alloc; "compact {index}")?,
        };
        named.push(NamedTotal {
            name,
            total: *total,
        })?;
    }
    Ok(named)
}
