//! The live methods of live classes.

ghost use Rattle.std.specs.Prelude.{All, IfOk};
ghost use Rattle.sqz_names.specs.Names.{IsMethodName};

use sqz_look_view::Inspector;
use sqz_names::MethodName;
use sqz_object::ObjectIndex;
use std::alloc::AllocError;

/// Returns the live methods of live classes, by the address of the class and then in the order of
/// its method dictionary.
pub(crate) fn live_methods(inspector: &Inspector<'_>) -> Result<Vec<MethodName>, AllocError>
    ensures { IfOk result (λ methods. All (IsMethodName inspector.now.live.graph.heap.now
        inspector.now.live.graph.weak) methods.items) }
{
    let marks = &inspector.live.marks;
    let all = inspector.names.methods_of_marked(marks)?;
    let mut methods = Vec::new(inspector.alloc);
    for name in &all {
        if marks.has(name.method) {
            methods.push(*name)?;
        }
    }
    Ok(methods)
}

/// Returns the live methods of live classes, each under its first name only. So the code of a
/// method that many dictionaries have is read once.
pub(crate) fn distinct_methods(inspector: &Inspector<'_>) -> Result<Vec<MethodName>, AllocError>
    ensures { IfOk result (λ methods. All (IsMethodName inspector.now.live.graph.heap.now
        inspector.now.live.graph.weak) methods.items) }
{
    let count = inspector.live.graph.heap.len() as usize;
    let mut is_known = vec![in inspector.alloc; false; count]?;
    let all = live_methods(inspector)?;
    let mut methods = Vec::new(inspector.alloc);
    for name in &all {
        if add_once(&mut is_known, name.method) {
            methods.push(*name)?;
        }
    }
    Ok(methods)
}

/// Adds an object to those that are known, and returns whether it was not one of them.
fn add_once(is_known: &mut [bool], object: ObjectIndex) -> bool {
    match is_known.get_mut(object as usize) {
        Some(place) if !*place => {
            *place = true;
            true
        }
        _ => false,
    }
}
