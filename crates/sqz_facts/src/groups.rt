//! The group that a class histogram counts an object in.

ghost use Rattle.std.specs.Prelude.{◌≡◌, ◌<◌};
ghost use Rattle.sqz_image.specs.Objects.{object_count, chunk_words};
ghost use Rattle.sqz_histogram.specs.Groups.{group_of};

use sqz_histogram::{Group, ObjectClasses};
use sqz_object::{ObjectIndex, base_of};

/// Returns the group of an object: that of its class, or that of its compact index if it has no
/// class.
pub fn group_of(classes: &ObjectClasses<'_>, object: ObjectIndex) -> Group
    requires { object < object_count classes.now.graph.heap.now }
    ensures { result ≡ group_of classes.now.graph.heap.now classes.now.graph.weak
        (chunk_words classes.now.graph.heap.now object) }
{
    match classes.class_of(object) {
        Some(class) => Group::Class(class),
        None => Group::Compact(base_of(classes.graph.heap.chunk(object).base).compact),
    }
}
