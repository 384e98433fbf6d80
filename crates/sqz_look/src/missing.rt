//! Messages about words that stand for nothing.

ghost use Rattle.std.specs.Prelude.{◌≡◌, All, None};
ghost use Rattle.sqz_image.specs.Objects.{find};
ghost use Rattle.sqz_names.specs.Found.{IsMissing};
ghost use Rattle.sqz_look_view.specs.Inspectors.{IsObjectOf};

use crate::near_names::{near_classes, near_names};
use sqz_facts::{Site, site_of};
use sqz_look_view::{Hex, Inspector};
use sqz_names::Missing;
use sqz_object::{Address, ObjectIndex};
use std::alloc::AllocError;
use std::fmt::Write;

/// The maximum number of addresses in the message that a name is ambiguous.
const MOST_ADDRESSES: usize = 10;

/// Returns the message that words stand for nothing, and why.
pub fn missing_message(
    inspector: &Inspector<'_>,
    words: &str,
    missing: &Missing,
) -> Result<String, AllocError>
    requires { IsMissing inspector.now.live.graph.heap.now missing.now }
{
    let alloc = inspector.alloc;
    match missing {
        Missing::NoObjectAt(address) => no_object_at(inspector, *address),
        Missing::NoClassAt(address) => format!(in alloc; "{} is not a class", Hex(*address)),
        Missing::NoSpecialObject(field) => {
            format!(in alloc; "there is no special object {field}")
        }
        Missing::Ambiguous(objects) => ambiguous(inspector, words, objects),
        Missing::NoObjectNamed => {
            let near = near_names(inspector, words)?;
            format!(in alloc; "no object is named {words}{near}")
        }
        Missing::NoClassNamed => {
            let near = near_classes(inspector, words)?;
            format!(in alloc; "no class is named {words}{near}")
        }
    }
}

/// Returns the message that no object has an address, and what is there instead.
fn no_object_at(inspector: &Inspector<'_>, address: Address) -> Result<String, AllocError>
    requires { find inspector.now.live.graph.heap.now address ≡ None }
{
    let (alloc, heap) = (inspector.alloc, inspector.live.graph.heap);
    heap.data(); // each chunk is well formed, so an object is found at its address
    let what = match site_of(heap, address) {
        Site::Object(_) => unreachable!(),
        Site::HeaderWord(object) => {
            let object = address_and_class(inspector, object)?;
            format!(in alloc; "a header word of {object}")?
        }
        Site::Field { object, field } => {
            let object = address_and_class(inspector, object)?;
            format!(in alloc; "field {field} of {object}")?
        }
        Site::FreeChunk { address, bytes } => {
            format!(in alloc; "inside a free chunk of {bytes} bytes at {}", Hex(address))?
        }
        Site::Outside => String::from_str(alloc, "outside the data")?,
    };
    format!(in alloc; "no object at {}: {what}", Hex(address))
}

/// Returns the address of an object and the name of its class.
fn address_and_class(inspector: &Inspector<'_>, object: ObjectIndex) -> Result<String, AllocError>
    requires { IsObjectOf inspector.now object }
{
    let address = inspector.address(object);
    let class = inspector.names.name_of_class_of(object)?;
    format!(in inspector.alloc; "{address} {class}")
}

/// Returns the message that several objects have a name, with the addresses of the first ones: live
/// ones before others.
fn ambiguous(
    inspector: &Inspector<'_>,
    name: &str,
    objects: &[ObjectIndex],
) -> Result<String, AllocError>
    requires { All (λ object. IsObjectOf inspector.now object) objects.now }
{
    let mut message = format!(in inspector.alloc; "{name} is ambiguous")?;
    let mut count = 0;
    for is_live in [true, false] {
        for object in objects {
            if count < MOST_ADDRESSES && inspector.live.marks.has(*object) == is_live {
                message.push_str(if count == 0 { ": " } else { ", " })?;
                write!(message, "{}", inspector.address(*object))?;
                count += 1;
            }
        }
    }
    if objects.len() > count {
        write!(message, " and {} more", objects.len() - count)?;
    }
    Ok(message)
}
