//! The defects of an object.

ghost use Rattle.std.specs.Prelude.{◌≡◌, ◌<◌, length, IfSome};
ghost use Rattle.sqz_object.specs.Chunk.{fields};
ghost use Rattle.sqz_object.specs.Value.{value_of};
ghost use Rattle.sqz_image.specs.Objects.{object_count, object_at};
ghost use Rattle.sqz_trace.specs.Slots.{traced, field_slots};
ghost use Rattle.sqz_trace.specs.Strong.{fixed_by};
ghost use Rattle.sqz_trace.specs.Defects.{lacks_class, states_too_many, is_bad_method};
ghost use Rattle.sqz_trace.specs.Defects.{is_bad_context, is_bad_value};
ghost use Rattle.sqz_trace.specs.Defects.{first_bad, bad_slot, defect, lacks_nil};

use crate::classes::class_of;
use crate::contexts::context_fields;
use crate::fixed::{fixed_by, is_weak};
use crate::methods::method_fields;
use crate::out_edges::nil;
use crate::slots::{class_address, traced_fields};
use crate::weak::Weak;
use sqz_image::{Fault, Heap, Object, Slot};
use sqz_object::{Kind, Layout, ObjectIndex, Value, base_of, value_of};

/// Returns the first defect of an object: `NoClass`, else `BadMethod` or `BadContext`, else, if
/// weak slots are cleared, `BadWeak`, else `BadPointer` with its first slot, weak or not, that
/// holds neither a SmallInteger nor the address of an object. None if it has no defect.
pub fn defect(heap: &Heap, weak: Weak, object: ObjectIndex) -> Option<Fault>
    requires { object < object_count heap.now }
    ensures { result ≡ defect heap.now weak (object_at heap.now object) }
{
    let chunk = heap.object(object);
    let address = heap.address(object);
    if lacks_class(&chunk) {
        return Some(Fault::NoClass { address });
    }
    if is_bad_method(&chunk) {
        return Some(Fault::BadMethod { address });
    }
    if is_bad_context(&chunk) {
        return Some(Fault::BadContext { address });
    }
    if is_weak(weak, &chunk) && states_bad_count(heap, class_of(heap, weak, &chunk), &chunk) {
        return Some(Fault::BadWeak { address });
    }
    let slot = bad_slot(heap, &chunk)?;
    Some(Fault::BadPointer { address, slot })
}

/// Returns whether the object's header has neither a class word nor a compact class index.
pub(crate) fn lacks_class(object: &Object<'_>) -> bool
    ensures { result ≡ lacks_class object.now }
{
    let header = object.header();
    header.kind == Kind::Short && base_of(header.base).compact == 0
}

/// Returns whether the object is a method that states no number of traced fields, or more than it
/// has.
pub(crate) fn is_bad_method(object: &Object<'_>) -> bool
    ensures { result ≡ is_bad_method object.now }
{
    let fields = object.fields();
    matches!(object.layout(), Layout::Method)
        && states_too_many(method_fields(&fields), fields.len() as u32)
}

/// Returns whether the object is a context that states no number of traced fields, or more than it
/// has.
pub(crate) fn is_bad_context(object: &Object<'_>) -> bool
    ensures { result ≡ is_bad_context object.now }
{
    let fields = object.fields();
    matches!(object.layout(), Layout::Context)
        && states_too_many(context_fields(&fields), fields.len() as u32)
}

/// Returns whether the class of an object states no number of fixed fields, or more than the
/// object has.
fn states_bad_count(heap: &Heap, class: Option<ObjectIndex>, object: &Object<'_>) -> bool
    requires { IfSome class (λ class. class < object_count heap.now) }
    ensures { result ≡ states_too_many (fixed_by heap.now class) (length (fields object.now)) }
{
    states_too_many(fixed_by(heap, class), object.fields().len() as u32)
}

/// Returns whether no number is stated, or a number above this count.
fn states_too_many(stated: Option<u32>, count: u32) -> bool
    ensures { result ≡ states_too_many stated count }
{
    match stated {
        None => true,
        Some(stated) => stated > count,
    }
}

/// Returns whether a word is neither a SmallInteger nor the address of an object.
pub(crate) fn is_bad_word(heap: &Heap, word: u32) -> bool
    ensures { result ≡ is_bad_value heap.now (value_of word) }
{
    match value_of(word) {
        Value::Int(_) => false,
        Value::Pointer(address) => heap.find(address).is_none(),
        Value::Odd(_) => true,
    }
}

/// Returns the first slot of the object that holds a bad word.
fn bad_slot(heap: &Heap, object: &Object<'_>) -> Option<Slot>
    ensures { result ≡ bad_slot heap.now object.now }
{
    if let Some(class) = class_address(object)
        && is_bad_word(heap, class)
    {
        return Some(Slot::ClassWord);
    }
    bad_field(heap, object)
}

/// Returns the slot of the first traced field of the object that holds a bad word.
fn bad_field(heap: &Heap, object: &Object<'_>) -> Option<Slot>
    ensures { result ≡ first_bad heap.now object.now (field_slots 0 (traced object.now)) }
{
    let fields = object.fields();
    for index in 0..traced_fields(object) {
        if is_bad_word(heap, fields.at(index as usize)) {
            return Some(Slot::Field(index));
        }
    }
    None
}

/// Returns whether weak slots are cleared and there is no nil to clear them to.
pub fn lacks_nil(heap: &Heap, weak: Weak) -> bool
    ensures { result ≡ lacks_nil heap.now weak }
{
    match weak {
        Weak::Keep => false,
        Weak::Clear => nil(heap, weak).is_none(),
    }
}
