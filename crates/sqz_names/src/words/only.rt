//! The one of several objects that have a name.

ghost use Rattle.std.specs.Prelude.{◌≡◌, filter, Contains};
ghost use Rattle.sqz_trace.specs.Graph.{is_marked};
ghost use Rattle.sqz_names.specs.Found.{IsAbout, IsOnly, only_one, the_only};

use crate::words::found::{Found, Missing};
use sqz_object::ObjectIndex;
use sqz_trace::Marks;

/// Returns the only one of objects, or the only marked one.
pub(crate) fn the_one(marks: &Marks, objects: Vec<ObjectIndex>) -> Found<ObjectIndex>
    ensures only { IsOnly marks.now objects.items result }
    ensures about { IsAbout (Contains objects.items) result }
{
    match the_only(marks, &objects) {
        Some(object) => Found::One(object),
        None => Found::Nothing(Missing::Ambiguous(objects)),
    }
}

/// Returns the only one of objects, or the only marked one.
fn the_only(marks: &Marks, objects: &[ObjectIndex]) -> Option<ObjectIndex>
    ensures { result ≡ the_only marks.now objects.now }
{
    match objects {
        [object] => Some(*object),
        _ => only_marked(marks, objects),
    }
}

/// Returns the marked one of objects if only one is marked.
fn only_marked(marks: &Marks, objects: &[ObjectIndex]) -> Option<ObjectIndex>
    ensures { result ≡ only_one (filter (is_marked marks.now) objects.now) }
{
    let mut found = None;
    for object in objects {
        if marks.has(*object) {
            if found.is_some() {
                return None;
            }
            found = Some(*object);
        }
    }
    found
}
