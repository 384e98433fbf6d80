//! The methods that send or have selectors.

ghost use Rattle.std.specs.Prelude.{◌≡◌, ◌↔◌, ◌<◌, All, filter, map, not, IfOk, IsTrue};
ghost use Rattle.sqz_image.specs.Objects.{object_count};
ghost use Rattle.sqz_trace.specs.Avoiding.{MarksListed};
ghost use Rattle.sqz_trace.specs.Graph.{is_marked};
ghost use Rattle.sqz_names.specs.Names.{IsMethodName};
ghost use Rattle.sqz_names.specs.Picks.{ArePicked};
ghost use Rattle.sqz_code.specs.Mentions.{AreMentionMarks, MentionsOne};

use crate::selectors::mentions::mentioned_by;
use sqz_image::Heap;
use sqz_names::MethodName;
use sqz_object::ObjectIndex;
use sqz_trace::{Marks, ObjectGraph};
use std::alloc::{AllocError, Global};

/// Returns the methods that mention one of these objects, in their order: as a literal, or as a
/// selector that they send.
pub fn senders_of(
    alloc: Global,
    graph: ObjectGraph<'_>,
    methods: &[MethodName],
    selectors: &Marks,
) -> Result<Vec<MethodName>, AllocError>
    requires { All (IsMethodName graph.heap.now graph.weak) methods.now }
    ensures senders { IfOk result (λ senders. ArePicked
        (λ name. MentionsOne graph.entry.heap.now selectors.now name.method) methods.now senders.items) }
    ensures methods { IfOk result (λ senders.
        All (IsMethodName graph.entry.heap.now graph.entry.weak) senders.items) }
{
    let mut senders = Vec::new(alloc);
    for name in methods {
        if mentions_one(alloc, graph.heap, name.method, selectors)? {
            senders.push(*name)?;
        }
    }
    Ok(senders)
}

/// Returns whether a method mentions one of these objects.
fn mentions_one(
    alloc: Global,
    heap: &Heap,
    method: ObjectIndex,
    objects: &Marks,
) -> Result<bool, AllocError>
    requires { method < object_count heap.now }
    ensures { IfOk result (λ is. IsTrue is ↔ MentionsOne heap.now objects.now method) }
{
    let mentioned = mentioned_by(alloc, heap, method)?;
    Ok(mentioned.iter().any(|object| objects.has(*object)))
}

/// Returns the methods whose selector is one of these objects, in their order.
pub fn implementors_of(
    alloc: Global,
    methods: &[MethodName],
    selectors: &Marks,
) -> Result<Vec<MethodName>, AllocError>
    ensures { IfOk result (λ found.
        found.items ≡ filter (λ name. is_marked selectors.now name.selector) methods.now) }
{
    let mut found = Vec::new(alloc);
    for name in methods {
        if selectors.has(name.selector) {
            found.push(*name)?;
        }
    }
    Ok(found)
}

/// Returns the methods whose selector is none of these objects, in their order.
pub fn unsent_of(
    alloc: Global,
    methods: &[MethodName],
    mentioned: &Marks,
) -> Result<Vec<MethodName>, AllocError>
    ensures { IfOk result (λ found.
        found.items ≡ filter (λ name. not (is_marked mentioned.now name.selector)) methods.now) }
{
    let mut found = Vec::new(alloc);
    for name in methods {
        if !mentioned.has(name.selector) {
            found.push(*name)?;
        }
    }
    Ok(found)
}

/// Returns the marks of the objects that are selectors of methods.
pub fn marked_selectors(
    alloc: Global,
    heap: &Heap,
    methods: &[MethodName],
) -> Result<Marks, AllocError>
    ensures { IfOk result (λ marks. MarksListed (object_count heap.now)
        (map (λ name. name.selector) methods.now) marks) }
{
    let mut selectors = Vec::new(alloc);
    for name in methods {
        selectors.push(name.selector)?;
    }
    Marks::listed(alloc, heap, &selectors)
}

/// Returns the marks of the objects that one of some methods mentions.
pub fn mark_mentioned(
    alloc: Global,
    graph: ObjectGraph<'_>,
    methods: &[MethodName],
) -> Result<Marks, AllocError>
    requires { All (IsMethodName graph.heap.now graph.weak) methods.now }
    ensures { IfOk result (λ marks. AreMentionMarks graph.entry.heap.now methods.now marks) }
{
    let mut mentioned = Vec::new(alloc);
    for name in methods {
        mentioned.extend_from_slice(&mentioned_by(alloc, graph.heap, name.method)?)?;
    }
    Marks::listed(alloc, graph.heap, &mentioned)
}
