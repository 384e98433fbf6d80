//! Where a fault of an image is.

ghost use Rattle.std.specs.Prelude.{◌≡◌, ◌<◌, ◌^◌, IfSome};
ghost use Rattle.sqz_image.specs.Objects.{object_at, object_count};
ghost use Rattle.sqz_damage.specs.Faults.{fault_address, fault_place, fault_slot};
ghost use Rattle.sqz_damage.specs.Words.{word_of};

use crate::places::bytes::byte_of_word;
use sqz_image::{Fault, Heap, Image, Slot};
use sqz_object::{Address, ObjectIndex};

/// Where a fault of an image is.
#[derive(Clone, Copy)]
pub struct FaultPlace {
    /// The object that is at fault.
    pub object: ObjectIndex,
    /// The slot that is at fault. None if the fault is that of the object.
    pub slot: Option<Slot>,
    /// Where the word of the slot, or else of the base header, begins in the file, in bytes.
    pub byte: u64,
}

/// Returns where a fault of an image is. None if the fault names no object of the image.
pub fn fault_place(image: &Image, fault: Fault) -> Option<FaultPlace>
    ensures place { result ≡ fault_place image.now fault }
    ensures inside { IfSome result
        (λ place. place.object < object_count image.now.memory) }
{
    let heap = image.heap();
    let object = heap.find(fault_address(fault)?)?;
    let slot = fault_slot(fault);
    let word = word_of(heap, object, slot);
    Some(FaultPlace {
        object,
        slot,
        byte: byte_of_word(image.prefix().len(), word),
    })
}

/// Returns the address of the object that is at fault.
fn fault_address(fault: Fault) -> Option<Address>
    ensures { result ≡ fault_address fault }
{
    match fault {
        Fault::NoClass { address }
        | Fault::BadMethod { address }
        | Fault::BadContext { address }
        | Fault::BadWeak { address }
        | Fault::BadPointer { address, .. } => Some(address),
        _ => None,
    }
}

/// Returns the slot that is at fault.
fn fault_slot(fault: Fault) -> Option<Slot>
    ensures { result ≡ fault_slot fault }
{
    match fault {
        Fault::BadPointer { slot, .. } => Some(slot),
        _ => None,
    }
}

/// Returns the index of the word of a slot of an object, or of its base header, among the data
/// words.
fn word_of(heap: &Heap, object: ObjectIndex, slot: Option<Slot>) -> u64
    requires { object < object_count heap.now }
    ensures word { result ≡ word_of (object_at heap.now object) slot }
    ensures few { result < 2 ^ 33 }
{
    let before = heap.chunk(object).before;
    let place = match slot {
        None => u64::from(before),
        Some(Slot::ClassWord) => u64::from(before.saturating_sub(1)),
        Some(Slot::Field(index)) => u64::from(before) + 1 + u64::from(index),
    };
    u64::from(heap.first(object)) + place
}
