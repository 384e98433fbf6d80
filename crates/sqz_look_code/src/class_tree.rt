//! The tree of all classes.

ghost use Rattle.sqz_look_view.specs.Inspectors.{IsObjectOf};

use crate::live_methods::live_methods;
use sqz_histogram::{Group, histogram};
use sqz_image::Sink;
use sqz_look_view::{Inspector, Out, PrintError, category_of, field_of};
use sqz_names::fields::SUPERCLASS;
use sqz_names::{Categories, Label};
use sqz_object::ObjectIndex;
use std::alloc::{AllocError, Global};
use std::collections::BTreeMap;
use std::thread::Threads;

/// The maximum number of levels by which a class is indented.
const MOST_INDENTED: usize = 30;

/// A class.
#[derive(Drop)]
struct ClassRow {
    class: String,
    address: u32,
    category: Option<String>,
    /// The number of its live methods.
    methods: u32,
    /// The number of its live instances.
    instances: u32,
    object: ObjectIndex,
    superclass: Option<ObjectIndex>,
}

/// The classes by name, and on a tie by address.
type Classes = BTreeMap<(String, u32), ClassRow>;

/// How often each object was counted.
#[derive(Drop)]
struct Counts {
    /// The number of each object that was counted.
    numbers: BTreeMap<ObjectIndex, u32>,
}

impl Counts {
    /// Returns 0 for each object.
    fn none(alloc: Global) -> Self {
        Counts {
            numbers: BTreeMap::new(alloc),
        }
    }

    /// Counts an object.
    fn add(&mut self, object: ObjectIndex) -> Result<(), AllocError> {
        let number = self.numbers.entry(object)?.or_insert(0u32);
        *number = number.saturating_add(1);
        Ok(())
    }

    /// Returns how often an object was counted.
    fn of(&self, object: ObjectIndex) -> u32 {
        self.numbers.get(&object).copied().unwrap_or_default()
    }
}

/// Returns the number of live methods of each class.
fn count_methods(inspector: &Inspector<'_>) -> Result<Counts, AllocError> {
    let names = live_methods(inspector)?;
    let mut methods = Counts::none(inspector.alloc);
    for name in &names {
        methods.add(name.class)?;
    }
    Ok(methods)
}

/// Returns the number of live instances of each class: those of the class histogram.
fn count_instances(
    rt: &(impl Threads + Sync),
    inspector: &Inspector<'_>,
) -> Result<Counts, AllocError> {
    let live = &inspector.live;
    let mut instances = Counts::none(inspector.alloc);
    for total in &histogram(rt, inspector.alloc, live.graph, &live.marks)? {
        if let Group::Class(class) = total.group {
            instances.numbers.insert(class, total.count)?;
        }
    }
    Ok(instances)
}

/// Returns the live classes that are no metaclasses, by name.
fn classes_of(
    rt: &(impl Threads + Sync),
    inspector: &Inspector<'_>,
) -> Result<Classes, AllocError> {
    let methods = count_methods(inspector)?;
    let instances = count_instances(rt, inspector)?;
    let categories = Categories::of_classes(inspector.alloc, &inspector.names)?;
    let mut classes = BTreeMap::new(inspector.alloc);
    for object in 0..inspector.live.graph.heap.len() {
        if inspector.live.marks.has(object) {
            let (methods, instances) = (methods.of(object), instances.of(object));
            let row = row_of(inspector, &categories, object, methods, instances)?;
            add_class(&mut classes, row)?;
        }
    }
    Ok(classes)
}

/// Returns a live object with these numbers as a class. None if it is none, or a metaclass.
fn row_of(
    inspector: &Inspector<'_>,
    categories: &Categories<'_, '_>,
    object: ObjectIndex,
    methods: u32,
    instances: u32,
) -> Result<Option<ClassRow>, AllocError>
    requires { IsObjectOf inspector.now object }
{
    if inspector.names.label_of(object)? != Label::Class {
        return Ok(None);
    }
    Ok(Some(ClassRow {
        class: inspector.names.name_of_class(object)?,
        address: inspector.address(object).0,
        category: category_of(inspector, categories, object)?,
        methods,
        instances,
        object,
        superclass: field_of(inspector, object, SUPERCLASS),
    }))
}

/// Adds a class, if there is one.
fn add_class(classes: &mut Classes, row: Option<ClassRow>) -> Result<(), AllocError> {
    if let Some(row) = row {
        classes.insert((row.class.clone()?, row.address), row)?;
    }
    Ok(())
}

/// The links of a tree: for each class, by its place, the first class below it and the next one
/// beside it.
#[derive(Drop)]
struct Links {
    first: Vec<Option<usize>>,
    next: Vec<Option<usize>>,
    /// The first class that has no superclass.
    root: Option<usize>,
}

impl Links {
    /// Returns the links of classes in order: those below one class are in this order.
    fn of(alloc: Global, classes: &[&ClassRow]) -> Result<Self, AllocError> {
        let mut places = BTreeMap::new(alloc);
        for (place, class) in classes.iter().enumerate() {
            places.insert(class.object, place)?;
        }
        let mut links = Links {
            first: vec![in alloc; None; classes.len()]?,
            next: vec![in alloc; None; classes.len()]?,
            root: None,
        };
        for (place, class) in classes.iter().enumerate().rev() {
            let above = match class.superclass {
                Some(superclass) => places.get(&superclass).copied(),
                None => None,
            };
            links.add(place, above);
        }
        Ok(links)
    }

    /// Puts a class before the others below a class, or before the others without a superclass.
    fn add(&mut self, place: usize, above: Option<usize>) {
        let rest = match above {
            Some(above) => replace(&mut self.first, above, Some(place)),
            None => {
                let rest = self.root;
                self.root = Some(place);
                rest
            }
        };
        replace(&mut self.next, place, rest);
    }
}

/// Replaces a link, and returns the old one.
fn replace(links: &mut [Option<usize>], place: usize, new: Option<usize>) -> Option<usize> {
    match links.get_mut(place) {
        Some(link) => {
            let old = *link;
            *link = new;
            old
        }
        None => None,
    }
}

/// A place among classes, and the number of the superclasses of the class there.
#[derive(Clone, Copy)]
struct Listed {
    place: usize,
    depth: usize,
}

/// The order of a tree.
#[derive(Drop)]
struct Order {
    listed: Vec<Listed>,
    is_listed: Vec<bool>,
}

impl Order {
    /// Returns the order of the tree with these links: a class before those below it, and these
    /// before the classes beside it. Classes whose superclasses lead back to them come last.
    fn of(alloc: Global, links: &Links) -> Result<Self, AllocError> {
        let count = links.first.len();
        let mut order = Order {
            listed: Vec::new(alloc),
            is_listed: vec![in alloc; false; count]?,
        };
        if let Some(root) = links.root {
            order.add_from(alloc, links, root)?;
        }
        for place in 0..count {
            order.add_from(alloc, links, place)?;
        }
        Ok(order)
    }

    /// Adds a class, those below it and those after it that are beside it, but for those that are
    /// listed.
    fn add_from(&mut self, alloc: Global, links: &Links, start: usize) -> Result<(), AllocError> {
        let mut pending = Vec::new(alloc);
        let mut next = Some(Listed {
            place: start,
            depth: 0,
        });
        // a class that is added has two links
        for _ in 0..links.first.len().saturating_mul(2).saturating_add(1) {
            let Some(Listed { place, depth }) = next else {
                return Ok(());
            };
            if self.add(Listed { place, depth })? {
                if let Some(place) = link(&links.next, place) {
                    pending.push(Listed { place, depth })?;
                }
                if let Some(place) = link(&links.first, place) {
                    let depth = depth.saturating_add(1);
                    pending.push(Listed { place, depth })?;
                }
            }
            next = pending.pop();
        }
        Ok(())
    }

    /// Adds a class, and returns whether it was not listed.
    fn add(&mut self, listed: Listed) -> Result<bool, AllocError> {
        match self.is_listed.get_mut(listed.place) {
            Some(is_listed) if !*is_listed => *is_listed = true,
            _ => return Ok(false),
        }
        self.listed.push(listed)?;
        Ok(true)
    }
}

/// Returns where a link of a class leads.
fn link(links: &[Option<usize>], place: usize) -> Option<usize> {
    match links.get(place) {
        Some(link) => *link,
        None => None,
    }
}

/// Prints the live classes that are no metaclasses as a tree, those below one class by name, with
/// the numbers of their live methods and instances.
pub fn print_class_tree<C: Sink>(
    rt: &(impl Threads + Sync),
    inspector: &Inspector<'_>,
    out: &mut Out<'_, C>,
) -> Result<(), PrintError> {
    let named = classes_of(rt, inspector)?;
    print_tree(inspector.alloc, &named, out)
}

/// Prints classes as a tree.
fn print_tree<C: Sink>(
    alloc: Global,
    named: &Classes,
    out: &mut Out<'_, C>,
) -> Result<(), PrintError> {
    let classes = in_order(alloc, named)?;
    let links = Links::of(alloc, &classes)?;
    let order = Order::of(alloc, &links)?;
    print_rows(&classes, &order.listed, out)
}

/// Returns the classes in the order of their names.
fn in_order(alloc: Global, named: &Classes) -> Result<Vec<&ClassRow>, AllocError> {
    let mut classes = Vec::new(alloc);
    for class in named.values() {
        classes.push(class)?;
    }
    Ok(classes)
}

/// Prints classes in this order.
fn print_rows<C: Sink>(
    classes: &[&ClassRow],
    order: &[Listed],
    out: &mut Out<'_, C>,
) -> Result<(), PrintError> {
    out.heading("  methods  instances  address   class");
    for listed in order.iter().take(out.shown(classes.len())) {
        if let Some(class) = classes.get(listed.place) {
            print_row(class, listed.depth, out);
        }
    }
    out.rest(classes.len(), "row");
    out.end()
}

/// Prints a class with this number of superclasses.
fn print_row<C: Sink>(class: &ClassRow, depth: usize, out: &mut Out<'_, C>) {
    out.word("class", class.class.as_str());
    out.hex("address", class.address);
    out.word_or_null(
        "category",
        class.category.as_ref().map(|category| category.as_str()),
    );
    out.number("depth", depth as u64);
    out.number("methods", u64::from(class.methods));
    out.number("instances", u64::from(class.instances));
    out.indent("indent", depth.min(MOST_INDENTED));
    out.line("{methods:>9}  {instances:>9}  {address}  {indent}{class}");
}
