//! Objects that are hashed.

ghost use Rattle.std.specs.Prelude.{◌≡◌, ◌<◌, ℕ, [], ◌∷◌, List, None, OnOk};
ghost use Rattle.sqz_object.specs.Bytes.{spelling_of};
ghost use Rattle.sqz_object.specs.declared.order.Order.TheVariants.{Little};
ghost use Rattle.sqz_image.specs.Objects.{object_count, chunk_words};
ghost use Rattle.sqz_alike.specs.Seen.{seen};
ghost use Rattle.sqz_alike.specs.Found.{slots_of};
ghost use Rattle.sqz_alike.specs.Written.{kind_number, slot_words, header_bytes};
ghost use Rattle.sqz_alike.specs.Written.{untraced_order, untraced_bytes};
ghost use Rattle.sqz_alike.specs.Hashing.{Takes, HashesSlots, HashesObject};
ghost use Rattle.sqz_alike.specs.Numbering.{NumbersFound};

use crate::hashing::walk::Walk;
use crate::hashing::words::{hash_pair, hash_words};
use crate::seen::seen_target;
use crate::words::untraced;
use sha2::Sha256;
use sqz_image::{Object, Slot};
use sqz_object::{Kind, Layout, ObjectIndex, Order, base_of};
use sqz_trace::{Live, slot_word, traced_fields};
use std::alloc::AllocError;

/// Hashes an object. The walk finds the objects that its slots lead to.
pub(crate) fn hash_object(
    live: &Live<'_>,
    object: ObjectIndex,
    walk: &mut Walk,
    hasher: &mut Sha256,
) -> Result<(), AllocError>
    requires inside { object < object_count live.now.graph.heap.now }
    requires walk { NumbersFound live.now walk.old }
    ensures walk { OnOk result (NumbersFound live.now walk.new) }
    ensures hashed { OnOk result (HashesObject (seen live.now) object
        walk.old.found.items walk.new.found.items hasher.old hasher.new) }
{
    let heap = live.graph.heap;
    let chunk = heap.object(object);
    hash_header(&chunk, hasher);
    hash_slots(live, object, walk, hasher)?;
    hash_untraced(heap.order(), &chunk, hasher);
    Ok(())
}

/// Hashes what the header of an object states, and the number of its traced fields.
fn hash_header(object: &Object<'_>, hasher: &mut Sha256)
    ensures { Takes hasher.old hasher.new (header_bytes object.now) }
{
    let header = object.header();
    let base = base_of(header.base);
    hash_pair(kind_number(header.kind), header.length, hasher);
    hash_pair(base.format, base.compact, hasher);
    hash_pair(base.hash, traced_fields(object), hasher);
}

/// Returns the number that stands for a kind of header.
fn kind_number(kind: Kind) -> u32
    ensures { result ≡ kind_number kind }
{
    match kind {
        Kind::Three => 0,
        Kind::Two => 1,
        Kind::Free => 2,
        Kind::Short => 3,
    }
}

/// Hashes the slots of an object, in order.
fn hash_slots(
    live: &Live<'_>,
    object: ObjectIndex,
    walk: &mut Walk,
    hasher: &mut Sha256,
) -> Result<(), AllocError>
    requires inside { object < object_count live.now.graph.heap.now }
    requires walk { NumbersFound live.now walk.old }
    ensures walk { OnOk result (NumbersFound live.now walk.new) }
    ensures hashed { OnOk result (HashesSlots (seen live.now) object
        (slots_of (chunk_words live.now.graph.heap.now object))
        walk.old.found.items walk.new.found.items hasher.old hasher.new) }
{
    let count = traced_fields(&live.graph.heap.object(object));
    hash_slot(live, object, Slot::ClassWord, walk, hasher)?;
    for index in 0..count {
        hash_slot(live, object, Slot::Field(index), walk, hasher)?;
    }
    Ok(())
}

/// Hashes a slot: 1 and the place of the object that it leads to, or 0 and its word if it leads to
/// none. Hashes nothing if the object has no such slot.
fn hash_slot(
    live: &Live<'_>,
    object: ObjectIndex,
    slot: Slot,
    walk: &mut Walk,
    hasher: &mut Sha256,
) -> Result<(), AllocError>
    requires inside { object < object_count live.now.graph.heap.now }
    requires walk { NumbersFound live.now walk.old }
    ensures walk { OnOk result (NumbersFound live.now walk.new) }
    ensures hashed { OnOk result (HashesSlots (seen live.now) object (slot ∷ [])
        walk.old.found.items walk.new.found.items hasher.old hasher.new) }
{
    match seen_target(live, object, slot) {
        Some(target) => {
            let place = walk.place(target)?;
            hash_pair(1, place, hasher);
            Ok(())
        }
        None => {
            hash_simple(slot_word(live.graph.heap, object, slot), hasher);
            Ok(())
        }
    }
}

/// Hashes a slot that leads to no object: 0 and its word. Hashes nothing if there is no such slot.
fn hash_simple(word: Option<u32>, hasher: &mut Sha256)
    ensures { (found : List ℕ) → Takes hasher.old hasher.new
        (spelling_of Little (slot_words found None word)) }
{
    if let Some(word) = word {
        hash_pair(0, word, hasher);
    }
}

/// Hashes the words of an object after its traced fields. `order` is the byte order of the file.
fn hash_untraced(order: Order, object: &Object<'_>, hasher: &mut Sha256)
    ensures { Takes hasher.old hasher.new (untraced_bytes order object.now) }
{
    let order = untraced_order(object.layout(), order);
    hash_words(&untraced(object), order, hasher);
}

/// Returns the byte order in which the untraced words of an object are hashed, by the layout of its
/// fields and the byte order of the file: bytes are hashed as they are in the file.
fn untraced_order(layout: Layout, order: Order) -> Order
    ensures { result ≡ untraced_order layout order }
{
    match layout {
        Layout::Bytes { .. } | Layout::Method => order,
        Layout::Fields | Layout::Weak | Layout::Context | Layout::Words => Order::Little,
    }
}
