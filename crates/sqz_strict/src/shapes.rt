//! Whether objects are as their classes state.

ghost use Rattle.std.specs.Prelude.{◌≡◌, ◌<◌};
ghost use Rattle.sqz_image.specs.Objects.{object_count};
ghost use Rattle.sqz_strict.specs.Shapes.{stated_shape, unpadded, has_fixed, fits, misfit};

use crate::class_shape::ClassShape;
use sqz_image::{Heap, Object};
use sqz_object::{BitField, ObjectIndex, base_of};
use sqz_trace::{ObjectGraph, fixed_by};

/// The field of a class that states the shape of its instances.
const INSTANCE_SHAPE: u32 = 2;

/// The bits of that word with the format.
const FORMAT: BitField = BitField {
    lowest: 8,
    width: 4,
};

/// The bits of that word with the compact class index.
const COMPACT: BitField = BitField {
    lowest: 12,
    width: 5,
};

/// Returns what the class of an object states, if the object is not so. None also if it has no
/// class, or if the class states no number of fixed fields.
pub(crate) fn misfit(graph: ObjectGraph<'_>, object: ObjectIndex) -> Option<ClassShape>
    requires { object < object_count graph.heap.now }
    ensures { result ≡ misfit graph.entry.heap.now graph.entry.weak object }
{
    let class = graph.class_of(object)?;
    let stated = stated_shape(graph.heap, class)?;
    if fits(&graph.heap.object(object), stated) {
        None
    } else {
        Some(stated)
    }
}

/// Returns what a class states of its instances. None if it states no number of fixed fields.
fn stated_shape(heap: &Heap, class: ObjectIndex) -> Option<ClassShape>
    requires { class < object_count heap.now }
    ensures { result ≡ stated_shape heap.now class }
{
    let fixed = fixed_by(heap, Some(class))?;
    let word = heap.field(class, INSTANCE_SHAPE);
    Some(ClassShape {
        format: FORMAT.get(word),
        fixed,
        compact: COMPACT.get(word),
    })
}

/// Returns whether an object is as its class states: its format but for the padding, its number of
/// fields, and its compact class index, if that is not 0.
fn fits(object: &Object<'_>, stated: ClassShape) -> bool
    ensures { result ≡ fits object.now stated }
{
    let base = base_of(object.header().base);
    unpadded(base.format) == unpadded(stated.format)
        && has_fixed(base.format, stated.fixed, object.fields().len() as u32)
        && (base.compact == 0 || base.compact == stated.compact)
}

/// Returns the format without the number of padding bytes.
fn unpadded(format: u32) -> u32
    ensures { result ≡ unpadded format }
{
    if format < 8 {
        format
    } else {
        format - format % 4
    }
}

/// Returns whether an object of this format and with this number of fields has the fixed ones: in
/// formats 0 and 1 no others, in formats 2 to 4 at least these. True for the other formats.
fn has_fixed(format: u32, fixed: u32, count: u32) -> bool
    ensures { result ≡ has_fixed format fixed count }
{
    match format {
        0 | 1 => count == fixed,
        2..=4 => count >= fixed,
        _ => true,
    }
}
