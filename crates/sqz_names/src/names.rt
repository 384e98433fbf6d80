//! The names of an image.

ghost use Rattle.std.specs.Prelude.{◌≡◌, ◌<◌, ◌&&◌, ℕ, length, All, Bool, IfOk, IsTrue};
ghost use Rattle.std.specs.Prelude.{List, true};
ghost use Rattle.std.specs.List.Sorted.{IsNonDecreasingBy};
ghost use Rattle.std.proofs.Props.{props};
ghost use Rattle.sqz_image.specs.Objects.{object_count};
ghost use Rattle.std.specs.String.{string_bytes};
ghost use Rattle.sqz_trace.specs.Graph.{is_marked};
ghost use Rattle.sqz_names.specs.ByteTexts.{name_of_class};
ghost use Rattle.sqz_names.specs.Texts.{shown_class_name};
ghost use Rattle.sqz_names.specs.Structures.{AreClasses, IsClass};
ghost use Rattle.sqz_names.specs.MethodOrder.{methods_by_class};
ghost use Rattle.sqz_names.specs.Names.{AreOfClasses, IsMethodName, IsVariableName, ListsMethods};
ghost use Rattle.sqz_names.specs.Names.{ListsMethodsOf, ListsVariables};

use crate::class_names::{name_of_class, name_of_class_of};
use crate::classes::classes_in;
use crate::method_name::MethodName;
use crate::methods::MethodsFound;
use crate::object_set::ObjectSet;
use crate::variable_name::VariableName;
use crate::variables::VariablesFound;
use sqz_object::ObjectIndex;
use sqz_trace::{Live, Marks, ObjectGraph};
use std::alloc::{AllocError, Global};

/// The names of what an image holds.
#[derive(Drop)]
pub struct Names<'a> {
    pub(crate) alloc: Global,
    /// The objects of the image.
    pub graph: ObjectGraph<'a>,
    pub(crate) classes: ObjectSet,
    /// Sorted by method, then by the address of the class. The methods of a shared dictionary are
    /// listed once, for the first class that has it.
    pub(crate) methods: Vec<MethodName>,
    /// By association, and global variables first. The associations of an array occur once.
    pub(crate) variables: Vec<VariableName>,
    ghost one_each: { length classes ≡ object_count graph.heap.now },
    ghost are_classes: { AreClasses graph.heap.now graph.weak classes },
    ghost are_methods: { All (IsMethodName graph.heap.now graph.weak) methods.items },
    ghost are_variables: { All (IsVariableName graph.heap.now graph.weak) variables.items } by { Prim.hlevel props },
    ghost methods_in_order: { IsNonDecreasingBy (λ name. name.method) methods.items },
    ghost variables_in_order: { IsNonDecreasingBy (λ name. name.association) variables.items } by { Prim.hlevel props },
    ghost all_methods: { ListsMethods graph.heap.now graph.weak methods.items },
    ghost all_variables: { ListsVariables graph.heap.now graph.weak variables.items } by { Prim.hlevel props },
}

impl<'a> Names<'a> {
    /// Returns the names of an image. An object is a class if it is the class of a live object, or
    /// the instance of a metaclass, with a name of its own.
    pub fn of(alloc: Global, live: &Live<'a>) -> Result<Self, AllocError>
        ensures { IfOk result (λ names. names.graph ≡ live.now.graph) }
    {
        let graph = live.graph;
        let classes = classes_in(alloc, live)?;
        let mut methods = MethodsFound::none(alloc, graph)?;
        let mut variables = VariablesFound::none(alloc, graph)?;
        variables.add(None)?;
        for class in 0..graph.heap.len() {
            if classes.contains(class) {
                methods.add(class)?;
                variables.add(Some(class))?;
            }
        }
        let (mut methods, mut variables) = (methods.names, variables.names);
        methods.sort_by_key(|name: &MethodName| -> ObjectIndex { name.method })?;
        variables.sort_by_key(|name: &VariableName| -> ObjectIndex { name.association })?;
        Ok(Names {
            alloc,
            graph,
            classes,
            methods,
            variables,
        })
    }

    /// Returns the methods of the marked classes, sorted by the address of the class, and those of
    /// a class in the order of its method dictionary, one for each place. The methods of a shared
    /// dictionary are listed once, for the first marked class that has it.
    pub fn methods_of_marked(&self, marks: &Marks) -> Result<Vec<MethodName>, AllocError>
        ensures methods { IfOk result (λ found.
            All (IsMethodName self.now.graph.heap.now self.now.graph.weak) found.items) }
        ensures marked { IfOk result (λ found.
            AreOfClasses (is_marked marks.now) found.items) }
        ensures all { IfOk result (λ found. (class : ℕ) → class < object_count self.now.graph.heap.now
            → IsClass self.now.graph.heap.now self.now.graph.weak class
            → is_marked marks.now class ≡ true
            → ListsMethodsOf self.now.graph.heap.now found.items class) }
        ensures listed { IfOk result (λ found. (classes : List Bool)
            → AreClasses self.now.graph.heap.now self.now.graph.weak classes
            → found.items ≡ methods_by_class self.now.graph.heap.now
            (λ class. is_marked classes class && is_marked marks.now class)
            (object_count self.now.graph.heap.now)) }
    {
        let mut methods = MethodsFound::none(self.alloc, self.graph)?;
        for class in 0..self.graph.heap.len() {
            if self.classes.contains(class) && marks.has(class) {
                methods.add(class)?;
            }
        }
        Ok(methods.names)
    }

    /// Returns the global variables and the class variables, by the address of the association. An
    /// association that is in several arrays occurs once for each.
    pub fn variables(&self) -> &[VariableName]
        ensures variables { All (IsVariableName self.now.graph.heap.now self.now.graph.weak)
            result.now }
        ensures all { ListsVariables self.now.graph.heap.now self.now.graph.weak result.now }
    {
        &self.variables
    }

    /// Returns whether the object is a class.
    pub fn is_class(&self, object: ObjectIndex) -> bool
        requires { object < object_count self.now.graph.heap.now }
        ensures sound { IsTrue result
            → IsClass self.now.graph.heap.now self.now.graph.weak object }
        ensures complete { IsClass self.now.graph.heap.now self.now.graph.weak object
            → IsTrue result }
    {
        self.classes.contains(object)
    }

    /// Returns the name of an object's class as it is printed, and `compact K` with the compact
    /// index if the object has no class.
    pub fn name_of_class_of(&self, object: ObjectIndex) -> Result<String, AllocError>
        requires { object < object_count self.now.graph.heap.now }
        ensures { IfOk result (λ name. string_bytes name
            ≡ shown_class_name self.now.graph.heap.now self.now.graph.weak object) }
    {
        name_of_class_of(self.alloc, self.graph, object)
    }

    /// Returns the name of a class as it is printed.
    pub fn name_of_class(&self, class: ObjectIndex) -> Result<String, AllocError>
        requires { class < object_count self.now.graph.heap.now }
        ensures { IfOk result (λ name. string_bytes name
            ≡ name_of_class self.now.graph.heap.now self.now.graph.weak class) }
    {
        name_of_class(self.alloc, self.graph, class)
    }
}
