//! The texts of two images as numbers.

ghost use Rattle.sqz_look_view.specs.Inspectors.{IsObjectOf};

use sqz_changes::ClassName;
use sqz_histogram::{ClassName as TextObject, first_bytes, naming};
use sqz_look_view::Inspector;
use sqz_object::ObjectIndex;
use std::alloc::{AllocError, Global};
use std::collections::BTreeMap;

/// Which of the two images.
#[derive(Clone, Copy, PartialEq, Eq, PartialOrd, Ord)]
pub(crate) enum Age {
    Old,
    New,
}

/// Numbers for the texts of two images: equal texts have equal numbers. The text of each object is
/// read once.
#[derive(Drop)]
pub(crate) struct Texts {
    numbers: BTreeMap<Vec<u8>, usize>,
    /// The number of the text of each object that was asked for.
    known: BTreeMap<(Age, ObjectIndex), usize>,
}

impl Texts {
    /// Returns numbers that no text has.
    pub(crate) fn new(alloc: Global) -> Self {
        Texts {
            numbers: BTreeMap::new(alloc),
            known: BTreeMap::new(alloc),
        }
    }

    /// Returns the number of the text of a byte object. None for any other object.
    pub(crate) fn of_object(
        &mut self,
        inspector: &Inspector<'_>,
        age: Age,
        object: ObjectIndex,
    ) -> Result<Option<usize>, AllocError>
        requires { IsObjectOf inspector.now object }
    {
        if let Some(number) = self.known.get(&(age, object)) {
            return Ok(Some(*number));
        }
        let (alloc, heap) = (inspector.alloc, inspector.live.graph.heap);
        let bytes = first_bytes(alloc, heap.order(), &heap.object(object), usize::MAX)?;
        let Some(bytes) = bytes else {
            return Ok(None);
        };
        let number = self.number_of(bytes)?;
        self.known.insert((age, object), number)?;
        Ok(Some(number))
    }

    /// Returns the name of a class. One without a name has the name that is printed.
    pub(crate) fn of_class(
        &mut self,
        inspector: &Inspector<'_>,
        age: Age,
        class: ObjectIndex,
    ) -> Result<ClassName, AllocError>
        requires { IsObjectOf inspector.now class }
    {
        let (object, is_meta) = match naming(inspector.live.graph, class) {
            Some(TextObject::Own(object)) => (object, false),
            Some(TextObject::OfInstance(object)) => (object, true),
            None => return self.of_text(inspector.names.name_of_class(class)?),
        };
        match self.of_object(inspector, age, object)? {
            Some(name) => Ok(ClassName { name, is_meta }),
            None => self.of_text(inspector.names.name_of_class(class)?),
        }
    }

    /// Returns the name of a class that has this text.
    pub(crate) fn of_text(&mut self, text: String) -> Result<ClassName, AllocError> {
        let name = self.number_of(text.into_bytes())?;
        Ok(ClassName {
            name,
            is_meta: false,
        })
    }

    /// Returns the number of a text.
    fn number_of(&mut self, text: Vec<u8>) -> Result<usize, AllocError> {
        let next = self.numbers.len();
        Ok(*self.numbers.entry(text)?.or_insert(next))
    }
}
