//! Selectors that are sent, and that no method has.

ghost use Rattle.std.specs.Prelude.{◌≡◌, ◌++◌, ◌<◌, All, IfOk, OnOk};
ghost use Rattle.sqz_image.specs.Objects.{object_count};
ghost use Rattle.sqz_names.specs.Names.{IsMethodName};
ghost use Rattle.sqz_code.specs.Unimplemented.{AreUnimplemented, unimplemented_in};

use crate::selectors::mentions::sent_by;
use sqz_names::MethodName;
use sqz_object::ObjectIndex;
use sqz_trace::{Marks, ObjectGraph};
use std::alloc::{AllocError, Global};

/// A selector that a method sends, and that no method has.
#[derive(Clone, Copy)]
pub struct Unimplemented {
    pub selector: ObjectIndex,
    pub sender: MethodName,
}

/// Returns the selectors that methods send and that are not marked, each with the method: by the
/// order of the methods, and then of their instructions. A method that sends one twice has it twice.
pub fn unimplemented_of(
    alloc: Global,
    graph: ObjectGraph<'_>,
    methods: &[MethodName],
    implemented: &Marks,
) -> Result<Vec<Unimplemented>, AllocError>
    requires { All (IsMethodName graph.heap.now graph.weak) methods.now }
    ensures found { IfOk result (λ found.
        AreUnimplemented graph.entry.heap.now implemented.now methods.now found.items) }
    ensures inside { IfOk result (λ found.
        All (λ it. it.selector < object_count graph.entry.heap.now) found.items) }
    ensures senders { IfOk result (λ found.
        All (λ it. IsMethodName graph.entry.heap.now graph.entry.weak it.sender) found.items) }
{
    let mut found = Vec::new(alloc);
    for name in methods {
        let sent = sent_by(alloc, graph.heap, name.method)?;
        push_unimplemented(*name, &sent, implemented, &mut found)?;
    }
    Ok(found)
}

/// Appends those of the selectors that a method sends which are not marked.
fn push_unimplemented(
    sender: MethodName,
    sent: &[ObjectIndex],
    implemented: &Marks,
    found: &mut Vec<Unimplemented>,
) -> Result<(), AllocError>
    ensures { OnOk result (found.new.items
        ≡ found.old.items ++ unimplemented_in implemented.now sender sent.now) }
{
    for selector in sent {
        if !implemented.has(*selector) {
            found.push(Unimplemented {
                selector: *selector,
                sender,
            })?;
        }
    }
    Ok(())
}
