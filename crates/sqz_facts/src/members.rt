//! The marked objects of a group.

ghost use Rattle.std.specs.Prelude.{◌≡◌, IfOk, length};
ghost use Rattle.sqz_image.specs.Objects.{object_count};
ghost use Rattle.sqz_facts.specs.Members.{AreMembers};

use crate::groups::group_of;
use sqz_histogram::{Group, ObjectClasses};
use sqz_object::ObjectIndex;
use sqz_trace::{Marks, ObjectGraph};
use std::alloc::{AllocError, Global};
use std::cmp::Reverse;

/// A marked object of a group.
#[derive(Clone, Copy)]
pub struct Member {
    /// The index of the object.
    pub object: ObjectIndex,
    /// The length of its chunk in words, header words included.
    pub words: u32,
}

/// Returns the marked objects of a group, each once: longer ones first, and on a tie those with
/// lower addresses.
pub fn members_of(
    alloc: Global,
    graph: ObjectGraph<'_>,
    marks: &Marks,
    group: Group,
) -> Result<Vec<Member>, AllocError>
    requires { length marks.now ≡ object_count graph.heap.now }
    ensures { IfOk result (λ members. AreMembers graph.entry.heap.now graph.entry.weak
        marks.now group members.items) }
{
    let classes = ObjectClasses::of(alloc, graph)?;
    let mut members = Vec::new(alloc);
    for object in 0..graph.heap.len() {
        if marks.has(object) && group_of(&classes, object) == group {
            let words = graph.heap.chunk_length(object);
            members.push(Member { object, words })?;
        }
    }
    members.sort_unstable_by_key(
        |member: &Member| -> (Reverse<u32>, ObjectIndex)
            ensures { result ≡ (record { 0 = member.now.words }, member.now.object) }
        { (Reverse(member.words), member.object) },
    );
    Ok(members)
}
