//! The objects whose contents have names, and are compared by them.

ghost use Rattle.sqz_look_view.specs.Inspectors.{IsObjectOf};

use sqz_look_view::{Inspector, field_of};
use sqz_names::fields::{ASSOCIATIONS, CLASS_VARIABLES, GLOBALS, METHOD_DICTIONARY, METHODS};
use sqz_object::ObjectIndex;
use sqz_trace::Marks;
use std::alloc::AllocError;

/// Returns one mark per object of an image: marked are the method dictionaries of live classes, and
/// the dictionaries of global variables and of class variables, each with its array.
pub(crate) fn quiet_in(inspector: &Inspector<'_>) -> Result<Marks, AllocError> {
    let heap = inspector.live.graph.heap;
    let mut quiet = Vec::new(inspector.alloc);
    add_dictionary(inspector, heap.special(), GLOBALS, ASSOCIATIONS, &mut quiet)?;
    for class in 0..heap.len() {
        if inspector.names.is_class(class) && inspector.live.marks.has(class) {
            add_dictionary(inspector, class, METHOD_DICTIONARY, METHODS, &mut quiet)?;
            add_dictionary(inspector, class, CLASS_VARIABLES, ASSOCIATIONS, &mut quiet)?;
        }
    }
    Marks::listed(inspector.alloc, heap, &quiet)
}

/// Adds the dictionary that a field of its owner points to, and the array that a field of the
/// dictionary points to.
fn add_dictionary(
    inspector: &Inspector<'_>,
    owner: ObjectIndex,
    field: u32,
    array_field: u32,
    quiet: &mut Vec<ObjectIndex>,
) -> Result<(), AllocError>
    requires { IsObjectOf inspector.now owner }
{
    let Some(dictionary) = field_of(inspector, owner, field) else {
        return Ok(());
    };
    quiet.push(dictionary)?;
    if let Some(array) = field_of(inspector, dictionary, array_field) {
        quiet.push(array)?;
    }
    Ok(())
}
