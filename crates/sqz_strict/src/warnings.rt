//! The warnings about the live objects of an image.

ghost use Rattle.std.specs.Prelude.{◌≡◌, ◌<◌, [], ◌∷◌, ◌++◌, if◌then◌else◌, IfOk, OnOk};
ghost use Rattle.sqz_strict.specs.Shapes.{misfit};
ghost use Rattle.sqz_image.specs.Objects.{object_count};
ghost use Rattle.sqz_strict.specs.Warnings.{AreWarnings, all_warnings, shape_warnings};
ghost use Rattle.sqz_strict.specs.Warnings.{warnings_of as about};

use crate::associations::{arrays_of, elements_in, has_no_key_among, pools_of};
use crate::classless::{has_no_class, lacks_methods_among};
use crate::sets::{classes_of, dictionaries_of, is_short_among};
use crate::shapes::misfit;
use crate::warning::Warning;
use sqz_object::ObjectIndex;
use sqz_trace::{Live, Marks, ObjectGraph};
use std::alloc::{AllocError, Global};

/// The sets of objects that warnings depend on.
#[derive(Drop)]
struct ObjectSets {
    /// The classes of live objects.
    classes: Marks,
    /// The method dictionaries of classes.
    dictionaries: Marks,
    /// The associations of variables.
    associations: Marks,
}

/// Returns the warnings about live objects, by object.
///
/// An object gets `NoClass` if its class is found, and can be no class.
///
/// An object gets `Shape` if it is not as the field 2 of its class states: its format (but for the
/// padding of byte objects and methods); its number of fields, which is the stated one in formats 0
/// and 1, and at least that in formats 2 to 4; and its compact class index, if that is not 0. An
/// object whose class states no number of fixed fields gets none.
///
/// A class gets `NoMethodDictionary` if it can be one, and its field 1 points to nil, or to no
/// object. A class is the class of a live object, or a live object with a name to which field 5 of
/// its class points back. The method dictionary of a class gets `MethodDictionary` if the array in
/// its field 1 has fewer fields than it has keys, which are its fields from field 2 on.
///
/// An association gets `NoKey` if its key, which is its field 0, is nil. The associations are the
/// elements of the array in field 1 of a dictionary: that of the global variables, or one in field
/// 7 of a class.
///
/// Fails only if out of memory.
pub fn warnings_of(alloc: Global, live: &Live<'_>) -> Result<Vec<Warning>, AllocError>
    ensures { IfOk result (λ warnings. AreWarnings live.now.graph.heap.now live.now.graph.weak
        live.now.marks warnings.items) }
{
    let classes = classes_of(alloc, live)?;
    let dictionaries = dictionaries_of(alloc, live, &classes)?;
    let pools = pools_of(alloc, live, &classes)?;
    let arrays = arrays_of(alloc, live.graph.heap, &pools)?;
    let associations = elements_in(alloc, live.graph.heap, &arrays)?;
    let sets = ObjectSets {
        classes,
        dictionaries,
        associations,
    };
    let warnings = warnings_with(alloc, live, &sets)?;
    Ok(warnings)
}

/// Returns the warnings about live objects, by object.
fn warnings_with(
    alloc: Global,
    live: &Live<'_>,
    sets: &ObjectSets,
) -> Result<Vec<Warning>, AllocError>
    ensures { IfOk result (λ warnings. warnings.items
        ≡ all_warnings live.now.graph.heap.now live.now.graph.weak live.now.marks sets.now) }
{
    let mut warnings = Vec::new(alloc);
    for object in 0..live.graph.heap.len() {
        if live.marks.has(object) {
            push_warnings(live, sets, object, &mut warnings)?;
        }
    }
    Ok(warnings)
}

/// Appends the warnings about an object.
fn push_warnings(
    live: &Live<'_>,
    sets: &ObjectSets,
    object: ObjectIndex,
    warnings: &mut Vec<Warning>,
) -> Result<(), AllocError>
    requires { object < object_count live.now.graph.heap.now }
    ensures { OnOk result (warnings.new.items ≡ warnings.old.items
        ++ about live.now.graph.heap.now live.now.graph.weak live.now.marks sets.now object) }
{
    let graph = live.graph;
    let classless = has_no_class(graph, object);
    push_if(classless, Warning::NoClass { object }, warnings)?;
    push_shape(graph, object, warnings)?;
    let methodless = lacks_methods_among(live, &sets.classes, object);
    push_if(methodless, Warning::NoMethodDictionary { object }, warnings)?;
    let short = is_short_among(graph.heap, &sets.dictionaries, object);
    push_if(short, Warning::MethodDictionary { object }, warnings)?;
    let keyless = has_no_key_among(graph.heap, &sets.associations, object);
    push_if(keyless, Warning::NoKey { object }, warnings)?;
    Ok(())
}

/// Appends the warning that an object is not as its class states, if that is so.
fn push_shape(
    graph: ObjectGraph<'_>,
    object: ObjectIndex,
    warnings: &mut Vec<Warning>,
) -> Result<(), AllocError>
    requires { object < object_count graph.heap.now }
    ensures { OnOk result (warnings.new.items ≡ warnings.old.items
        ++ shape_warnings object (misfit graph.entry.heap.now graph.entry.weak object)) }
{
    if let Some(stated) = misfit(graph, object) {
        warnings.push(Warning::Shape { object, stated })?;
    }
    Ok(())
}

/// Appends a warning if a condition holds.
fn push_if(holds: bool, warning: Warning, warnings: &mut Vec<Warning>) -> Result<(), AllocError>
    ensures { OnOk result (warnings.new.items
        ≡ warnings.old.items ++ (if holds then warning ∷ [] else [])) }
{
    if holds {
        warnings.push(warning)?;
    }
    Ok(())
}
