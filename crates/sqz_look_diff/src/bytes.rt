//! The bytes of objects.

ghost use Rattle.sqz_look_view.specs.Inspectors.{IsObjectOf};

use sqz_look_view::Inspector;
use sqz_object::{ObjectIndex, Order, Words, base_of, put_word};

/// The first bytes of the fields of an object.
#[derive(Drop)]
pub(crate) struct Bytes<'a> {
    pub(crate) order: Order,
    pub(crate) fields: Words<'a>,
    /// The number of bytes.
    pub(crate) count: usize,
}

impl<'a> Bytes<'a> {
    /// Returns the bytes of all fields of an object, padding included.
    pub(crate) fn of(inspector: &Inspector<'a>, object: ObjectIndex) -> Self
        requires { IsObjectOf inspector.now object }
    {
        let heap = inspector.live.graph.heap;
        let fields = heap.object(object).fields();
        Bytes {
            order: heap.order(),
            count: 4 * fields.len(),
            fields,
        }
    }

    /// Returns the bytes of a byte object, without padding.
    pub(crate) fn of_text(inspector: &Inspector<'a>, object: ObjectIndex) -> Self
        requires { IsObjectOf inspector.now object }
    {
        let base = base_of(inspector.live.graph.heap.chunk(object).base);
        let mut bytes = Bytes::of(inspector, object);
        bytes.count = bytes.count.saturating_sub(base.padding() as usize);
        bytes
    }

    /// Returns the byte at a place, counted from 0. None if there are fewer bytes.
    pub(crate) fn get(&self, place: usize) -> Option<u8> {
        if place >= self.count {
            return None;
        }
        let word = self.fields.get(place / 4)?;
        Some(put_word(self.order, word)[place % 4])
    }

    /// Returns the first place from `start` on at which two objects have different bytes, or only
    /// one has a byte. None if there is none.
    pub(crate) fn first_difference(&self, other: &Bytes<'_>, start: usize) -> Option<usize> {
        for place in start..self.count.max(other.count) {
            if self.get(place) != other.get(place) {
                return Some(place);
            }
        }
        None
    }
}
