//! What the objects of two images are matched by: the names of their classes, and their layouts.

ghost use Rattle.std.specs.Prelude.{◌≡◌, IfOk, length};
ghost use Rattle.sqz_image.specs.Objects.{object_count};
ghost use Rattle.sqz_look_view.specs.Inspectors.{IsObjectOf};

use crate::texts::{Age, Texts};
use sqz_changes::ClassName;
use sqz_look_view::Inspector;
use sqz_object::{Layout, ObjectIndex, base_of};
use std::alloc::{AllocError, Global};
use std::collections::BTreeMap;

/// Numbers for the kinds of objects: the names of their classes with a number for the layout.
#[derive(Drop)]
pub(crate) struct Kinds {
    numbers: BTreeMap<(ClassName, u8), usize>,
}

impl Kinds {
    /// Returns numbers that no kind has.
    pub(crate) fn new(alloc: Global) -> Self {
        Kinds {
            numbers: BTreeMap::new(alloc),
        }
    }

    /// Returns a number for each object of an image: two objects, also of different images, have
    /// the same number if their classes have the same name and they have the same layout. Byte
    /// objects of all lengths have one layout.
    pub(crate) fn of(
        &mut self,
        inspector: &Inspector<'_>,
        texts: &mut Texts,
        age: Age,
    ) -> Result<Vec<usize>, AllocError>
        ensures { IfOk result (λ kinds.
            length kinds.items ≡ object_count inspector.now.live.graph.heap.now) }
    {
        let heap = inspector.live.graph.heap;
        let mut known = BTreeMap::new(inspector.alloc);
        let mut kinds = Vec::with_capacity(inspector.alloc, heap.len() as usize)?;
        for object in 0..heap.len() {
            let key = key_of(inspector, object);
            let found = known.get(&key).copied();
            let kind = match found {
                Some(kind) => kind,
                None => {
                    let kind = self.kind_of(inspector, texts, age, object)?;
                    known.insert(key, kind)?;
                    kind
                }
            };
            kinds.push(kind)?;
        }
        Ok(kinds)
    }

    /// Returns the number of the kind of an object.
    fn kind_of(
        &mut self,
        inspector: &Inspector<'_>,
        texts: &mut Texts,
        age: Age,
        object: ObjectIndex,
    ) -> Result<usize, AllocError>
        requires { IsObjectOf inspector.now object }
    {
        let graph = inspector.live.graph;
        let class = match graph.class_of(object) {
            Some(class) => texts.of_class(inspector, age, class)?,
            None => texts.of_text(inspector.names.name_of_class_of(object)?)?,
        };
        let layout = number_of(graph.heap.object(object).layout());
        let next = self.numbers.len();
        Ok(*self.numbers.entry((class, layout))?.or_insert(next))
    }
}

/// Returns what objects of one kind in an image have in common: the class or the compact index, and
/// the layout.
fn key_of(inspector: &Inspector<'_>, object: ObjectIndex) -> (bool, u32, u8)
    requires { IsObjectOf inspector.now object }
{
    let graph = inspector.live.graph;
    let chunk = graph.heap.object(object);
    let layout = number_of(chunk.layout());
    match graph.class_of(object) {
        Some(class) => (true, class, layout),
        None => (false, base_of(chunk.header().base).compact, layout),
    }
}

/// Returns a number for each layout.
fn number_of(layout: Layout) -> u8 {
    match layout {
        Layout::Fields => 0,
        Layout::Weak => 1,
        Layout::Context => 2,
        Layout::Words => 3,
        Layout::Bytes { .. } => 4,
        Layout::Method => 5,
    }
}
