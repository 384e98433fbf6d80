//! The methods that classes have.

ghost use Rattle.std.specs.Prelude.{◌≡◌, ◌<◌, ◌++◌, ◌||◌, ℕ, [], length, replicate};
ghost use Rattle.std.specs.Prelude.{All, Bool, Contains, IfOk, Some, true, false};
ghost use Rattle.sqz_image.specs.declared.slot.Slot.TheVariants.{Field};
ghost use Rattle.sqz_image.specs.Objects.{object_count};
ghost use Rattle.sqz_trace.specs.Graph.{is_marked};
ghost use Rattle.sqz_trace.specs.Targets.{target};
ghost use Rattle.sqz_names.specs.Fields.{method_dictionary_field};
ghost use Rattle.sqz_names.specs.Structures.{IsClass};
ghost use Rattle.sqz_names.specs.declared.method_name.MethodName.{MethodName};
ghost use Rattle.sqz_names.specs.MethodOrder.{has_dictionary, methods_in, new_methods};
ghost use Rattle.sqz_names.specs.NameLists.{ListsDictionaries, ListsDictionary};
ghost use Rattle.sqz_names.specs.Names.{AreOfClasses, IsMethodName, ListsMethodsOf};

use crate::bytes::{is_bytes, is_method};
use crate::fields::{FIRST_SELECTOR, METHOD_DICTIONARY, METHODS};
use crate::method_name::MethodName;
use crate::object_set::ObjectSet;
use crate::targets::field_target;
use sqz_object::ObjectIndex;
use sqz_trace::ObjectGraph;
use std::alloc::{AllocError, Global};

/// The methods of some classes. The methods of a shared dictionary are listed once, for the first
/// class that was added with it.
#[derive(Drop)]
pub(crate) struct MethodsFound<'a> {
    pub(crate) graph: ObjectGraph<'a>,
    /// The method dictionaries whose methods were found.
    dictionaries: ObjectSet,
    pub(crate) names: Vec<MethodName>,
    ghost one_each: { length dictionaries ≡ object_count graph.heap.now },
    ghost are_methods: { All (IsMethodName graph.heap.now graph.weak) names.items },
    ghost are_all: { ListsDictionaries graph.heap.now dictionaries names.items },
}

impl<'a> MethodsFound<'a> {
    /// Returns the methods of no class.
    pub(crate) fn none(alloc: Global, graph: ObjectGraph<'a>) -> Result<Self, AllocError>
        ensures graph { IfOk result (λ found. found.graph ≡ graph.entry) }
        ensures empty { IfOk result (λ found. found.names.items ≡ []) }
        ensures none { IfOk result (λ found. found.dictionaries
            ≡ replicate (object_count graph.entry.heap.now) false) }
    {
        Ok(MethodsFound {
            graph,
            dictionaries: ObjectSet::empty(alloc, graph.heap)?,
            names: Vec::new(alloc),
        })
    }

    /// Adds the methods of a class, in the order of its method dictionary, unless those of the
    /// dictionary were added before.
    pub(crate) fn add(&mut self, class: ObjectIndex) -> Result<(), AllocError>
        requires inside { class < object_count self.old.graph.heap.now }
        requires class { IsClass self.old.graph.heap.now self.old.graph.weak class }
        ensures graph { self.new.graph ≡ self.old.graph }
        ensures classes { (test : ℕ → Bool) → test class ≡ true
            → AreOfClasses test self.old.names.items → AreOfClasses test self.new.names.items }
        ensures keeps { (name : MethodName) → Contains self.old.names.items name
            → Contains self.new.names.items name }
        ensures all { IfOk result (λ unit.
            ListsMethodsOf self.old.graph.heap.now self.new.names.items class) }
        ensures listed { IfOk result (λ unit. self.new.names.items ≡ self.old.names.items
            ++ new_methods self.old.graph.heap.now (is_marked self.old.dictionaries) class) }
        ensures dictionaries { IfOk result (λ unit. (dictionary : ℕ)
            → is_marked self.new.dictionaries dictionary
            ≡ is_marked self.old.dictionaries dictionary
            || has_dictionary self.old.graph.heap.now dictionary class) }
    {
        let Some(dictionary) = field_target(self.graph.heap, class, METHOD_DICTIONARY) else {
            return Ok(());
        };
        if !self.dictionaries.contains(dictionary) {
            push_methods(self.graph, class, dictionary, &mut self.names)?;
            self.dictionaries.insert(dictionary);
        }
        Ok(())
    }
}

/// Appends the methods of a class, in the order of its method dictionary.
fn push_methods(
    graph: ObjectGraph<'_>,
    class: ObjectIndex,
    dictionary: ObjectIndex,
    found: &mut Vec<MethodName>,
) -> Result<(), AllocError>
    requires class_inside { class < object_count graph.heap.now }
    requires class { IsClass graph.heap.now graph.weak class }
    requires inside { dictionary < object_count graph.heap.now }
    requires dictionary { target graph.heap.now class (Field method_dictionary_field)
        ≡ Some dictionary }
    requires methods { All (IsMethodName graph.heap.now graph.weak) found.old.items }
    ensures methods { All (IsMethodName graph.entry.heap.now graph.entry.weak) found.new.items }
    ensures classes { (test : ℕ → Bool) → test class ≡ true
        → AreOfClasses test found.old.items → AreOfClasses test found.new.items }
    ensures keeps { (name : MethodName) → Contains found.old.items name
        → Contains found.new.items name }
    ensures all { IfOk result (λ unit.
        ListsDictionary graph.entry.heap.now dictionary found.new.items) }
    ensures listed { IfOk result (λ unit. found.new.items
        ≡ found.old.items ++ methods_in graph.entry.heap.now class dictionary) }
{
    let heap = graph.heap;
    let Some(methods) = field_target(heap, dictionary, METHODS) else {
        return Ok(());
    };
    for field in FIRST_SELECTOR..heap.fields(dictionary) {
        let Some(selector) = field_target(heap, dictionary, field) else {
            continue;
        };
        let Some(method) = field_target(heap, methods, field - FIRST_SELECTOR) else {
            continue;
        };
        if is_bytes(heap, selector) && is_method(heap, method) {
            found.push(MethodName {
                method,
                class,
                selector,
            })?;
        }
    }
    Ok(())
}
