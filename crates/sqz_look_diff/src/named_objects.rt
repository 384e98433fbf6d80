//! The live objects of an image that have names.

ghost use Rattle.sqz_look_view.specs.Inspectors.{IsObjectOf};

use crate::texts::{Age, Texts};
use sqz_changes::{Name, Named};
use sqz_look_view::Inspector;
use sqz_names::{Label, MethodName};
use sqz_object::ObjectIndex;
use sqz_trace::Marks;
use std::alloc::AllocError;

/// A method with its name as numbers.
#[derive(Clone, Copy)]
pub(crate) struct NamedMethod {
    pub(crate) named: Named<Name>,
    pub(crate) method: MethodName,
}

/// The live objects of an image that have names.
#[derive(Drop)]
pub(crate) struct NamedObjects {
    /// Classes and metaclasses by address, associations of variables, methods and symbols.
    pub(crate) all: Vec<Named<Name>>,
    /// The methods among them, in the same order.
    pub(crate) methods: Vec<NamedMethod>,
}

impl NamedObjects {
    /// Returns the live objects of an image that have names.
    pub(crate) fn of(
        inspector: &Inspector<'_>,
        texts: &mut Texts,
        age: Age,
    ) -> Result<Self, AllocError> {
        let mut all = Vec::new(inspector.alloc);
        add_classes(inspector, texts, age, &mut all)?;
        add_variables(inspector, texts, age, &mut all)?;
        let methods = named_methods(inspector, texts, age)?;
        for method in &methods {
            all.push(method.named)?;
        }
        add_symbols(inspector, texts, age, &mut all)?;
        Ok(NamedObjects { all, methods })
    }
}

/// Adds the live classes and metaclasses, by address.
fn add_classes(
    inspector: &Inspector<'_>,
    texts: &mut Texts,
    age: Age,
    found: &mut Vec<Named<Name>>,
) -> Result<(), AllocError> {
    for object in 0..inspector.live.graph.heap.len() {
        if !inspector.names.is_class(object) || !inspector.live.marks.has(object) {
            continue;
        }
        let class = texts.of_class(inspector, age, object)?;
        let name = match inspector.names.label_of(object)? {
            Label::Class => Name::Class(class.name),
            Label::Metaclass => Name::Metaclass(class.name),
            _ => continue,
        };
        found.push(Named { name, object })?;
    }
    Ok(())
}

/// Adds the live associations of variables, by address.
fn add_variables(
    inspector: &Inspector<'_>,
    texts: &mut Texts,
    age: Age,
    found: &mut Vec<Named<Name>>,
) -> Result<(), AllocError> {
    let mut last = None;
    for variable in inspector.names.variables() {
        let object = variable.association;
        if last == Some(object) || !inspector.live.marks.has(object) {
            continue;
        }
        last = Some(object);
        if inspector.names.variable(object)?.is_some()
            && let Some(key) = texts.of_object(inspector, age, variable.key)?
        {
            let name = match variable.class {
                Some(class) => { Name::ClassVariable(texts.of_class(inspector, age, class)?, key) }
                None => Name::Global(key),
            };
            found.push(Named { name, object })?;
        }
    }
    Ok(())
}

/// Returns the live methods of live classes, by the address of the class.
fn named_methods(
    inspector: &Inspector<'_>,
    texts: &mut Texts,
    age: Age,
) -> Result<Vec<NamedMethod>, AllocError> {
    let marks = &inspector.live.marks;
    let mut found = Vec::new(inspector.alloc);
    for method in &inspector.names.methods_of_marked(marks)? {
        let object = method.method;
        if !marks.has(object) {
            continue;
        }
        if let Some(selector) = texts.of_object(inspector, age, method.selector)? {
            let class = texts.of_class(inspector, age, method.class)?;
            let name = Name::Method(class, selector);
            found.push(NamedMethod {
                named: Named { name, object },
                method: *method,
            })?;
        }
    }
    Ok(found)
}

/// Adds the live symbols, by address.
fn add_symbols(
    inspector: &Inspector<'_>,
    texts: &mut Texts,
    age: Age,
    found: &mut Vec<Named<Name>>,
) -> Result<(), AllocError> {
    let graph = inspector.live.graph;
    let classes = symbol_classes(inspector)?;
    for object in 0..graph.heap.len() {
        if !inspector.live.marks.has(object) || !has_class_in(inspector, object, &classes) {
            continue;
        }
        if inspector.names.label_of(object)? == Label::Symbol
            && let Some(text) = texts.of_object(inspector, age, object)?
        {
            let name = Name::Symbol(text);
            found.push(Named { name, object })?;
        }
    }
    Ok(())
}

/// Returns whether the class of an object is marked.
fn has_class_in(inspector: &Inspector<'_>, object: ObjectIndex, classes: &Marks) -> bool
    requires { IsObjectOf inspector.now object }
{
    match inspector.live.graph.class_of(object) {
        Some(class) => classes.has(class),
        None => false,
    }
}

/// Returns one mark per object: marked are the classes whose byte objects are symbols.
fn symbol_classes(inspector: &Inspector<'_>) -> Result<Marks, AllocError> {
    let heap = inspector.live.graph.heap;
    let mut classes = Vec::new(inspector.alloc);
    for class in 0..heap.len() {
        if inspector.names.is_class(class) {
            let name = inspector.names.name_of_class(class)?;
            if name.as_str() == "Symbol" || name.as_str() == "ByteSymbol" {
                classes.push(class)?;
            }
        }
    }
    Marks::listed(inspector.alloc, heap, &classes)
}
