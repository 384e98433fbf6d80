//! Global variables and class variables.

ghost use Rattle.std.specs.Prelude.{◌≡◌, ◌<◌, length, All, Contains, IfOk, IfSome, Some};
ghost use Rattle.std.proofs.Props.{props};
ghost use Rattle.sqz_image.specs.Objects.{object_count};
ghost use Rattle.sqz_names.specs.Structures.{associations_of, dictionary_of};
ghost use Rattle.sqz_names.specs.declared.variable_name.VariableName.{VariableName};
ghost use Rattle.sqz_names.specs.NameLists.{ListsArray, ListsArrays};
ghost use Rattle.sqz_names.specs.Names.{IsOwner, IsVariableName, ListsVariablesOf};

use crate::bytes::is_bytes;
use crate::fields::{ASSOCIATIONS, CLASS_VARIABLES, GLOBALS, KEY};
use crate::object_set::ObjectSet;
use crate::targets::field_target;
use crate::variable_name::VariableName;
use sqz_image::Heap;
use sqz_object::ObjectIndex;
use sqz_trace::ObjectGraph;
use std::alloc::{AllocError, Global};

/// Returns the dictionary of the global variables, or of the class variables of `class`.
pub(crate) fn dictionary_of(heap: &Heap, class: Option<ObjectIndex>) -> Option<ObjectIndex>
    requires { IfSome class (λ class. class < object_count heap.now) }
    ensures dictionary { result ≡ dictionary_of heap.now class }
    ensures inside { IfSome result (λ found. found < object_count heap.now) }
{
    match class {
        Some(class) => field_target(heap, class, CLASS_VARIABLES),
        None => field_target(heap, heap.special(), GLOBALS),
    }
}

/// Returns the array of the associations of that dictionary.
pub(crate) fn associations_of(heap: &Heap, class: Option<ObjectIndex>) -> Option<ObjectIndex>
    requires { IfSome class (λ class. class < object_count heap.now) }
    ensures associations { result ≡ associations_of heap.now class }
    ensures inside { IfSome result (λ found. found < object_count heap.now) }
{
    field_target(heap, dictionary_of(heap, class)?, ASSOCIATIONS)
}

/// Global variables, and the class variables of some classes. The associations of an array occur
/// once, as those of the first dictionary that was added with it.
#[derive(Drop)]
pub(crate) struct VariablesFound<'a> {
    pub(crate) graph: ObjectGraph<'a>,
    /// The arrays whose associations were found.
    arrays: ObjectSet,
    pub(crate) names: Vec<VariableName>,
    ghost one_each: { length arrays ≡ object_count graph.heap.now },
    ghost are_variables: { All (IsVariableName graph.heap.now graph.weak) names.items } by { Prim.hlevel props },
    ghost are_all: { ListsArrays graph.heap.now arrays names.items },
}

impl<'a> VariablesFound<'a> {
    /// Returns no variables.
    pub(crate) fn none(alloc: Global, graph: ObjectGraph<'a>) -> Result<Self, AllocError>
        ensures { IfOk result (λ found. found.graph ≡ graph.entry) }
    {
        Ok(VariablesFound {
            graph,
            arrays: ObjectSet::empty(alloc, graph.heap)?,
            names: Vec::new(alloc),
        })
    }

    /// Adds the global variables, or the class variables of `class`, in the order of their
    /// dictionary, unless those of its array were added before.
    pub(crate) fn add(&mut self, class: Option<ObjectIndex>) -> Result<(), AllocError>
        requires { IsOwner self.old.graph.heap.now self.old.graph.weak class }
        ensures graph { self.new.graph ≡ self.old.graph }
        ensures keeps { (name : VariableName) → Contains self.old.names.items name
            → Contains self.new.names.items name }
        ensures all { IfOk result (λ unit.
            ListsVariablesOf self.old.graph.heap.now self.new.names.items class) }
    {
        let Some(array) = associations_of(self.graph.heap, class) else {
            return Ok(());
        };
        if !self.arrays.contains(array) {
            push_variables(self.graph, class, array, &mut self.names)?;
            self.arrays.insert(array);
        }
        Ok(())
    }
}

/// Appends the variables of `class`, or the global ones, in the order of the array of their
/// dictionary.
fn push_variables(
    graph: ObjectGraph<'_>,
    class: Option<ObjectIndex>,
    array: ObjectIndex,
    found: &mut Vec<VariableName>,
) -> Result<(), AllocError>
    requires class { IsOwner graph.heap.now graph.weak class }
    requires array { associations_of graph.heap.now class ≡ Some array }
    requires inside { array < object_count graph.heap.now }
    requires variables { All (IsVariableName graph.heap.now graph.weak) found.old.items }
    ensures variables { All (IsVariableName graph.entry.heap.now graph.entry.weak)
        found.new.items }
    ensures keeps { (name : VariableName) → Contains found.old.items name
        → Contains found.new.items name }
    ensures all { IfOk result (λ unit. ListsArray graph.entry.heap.now array found.new.items) }
{
    let heap = graph.heap;
    for field in 0..heap.fields(array) {
        let Some(association) = field_target(heap, array, field) else {
            continue;
        };
        let Some(key) = field_target(heap, association, KEY) else {
            continue;
        };
        if is_bytes(heap, key) {
            found.push(VariableName {
                association,
                class,
                key,
            })?;
        }
    }
    Ok(())
}
