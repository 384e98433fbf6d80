//! What is known of the cause of a fault.

ghost use Rattle.std.specs.Prelude.{◌<◌};
ghost use Rattle.sqz_image.specs.Objects.{object_count};

use sqz_damage::near_object;
use sqz_facts::slot_facts;
use sqz_image::{Sink, Slot};
use sqz_look_view::Out;
use sqz_names::name_of_class_of;
use sqz_object::ObjectIndex;
use sqz_trace::ObjectGraph;
use std::alloc::{AllocError, Global};

/// What is known of the cause of a fault.
#[derive(Drop)]
pub(crate) enum Cause {
    File(FileKind),
    Pointer(BadWord),
    /// Why a file cannot be read.
    Read(&'static str),
}

/// What an unsupported file is.
#[derive(Clone, Copy)]
pub(crate) enum FileKind {
    /// A file that begins as those of an archiver do: `gzip` or `zip`.
    Archive(&'static str),
    /// An image of another version, and what such images are called.
    Image { version: u32, name: &'static str },
}

/// A word that is no pointer to an object.
#[derive(Drop)]
pub(crate) struct BadWord {
    word: u32,
    /// The object whose address differs from the word in one bit, if it is clear which one.
    near: Option<NearObject>,
}

/// An object whose address is near.
#[derive(Drop)]
pub(crate) struct NearObject {
    address: u32,
    class: String,
}

impl Cause {
    /// Returns the cause as text that follows that of the fault.
    pub(crate) fn text(&self, alloc: Global) -> Result<String, AllocError> {
        match self {
            Cause::File(FileKind::Archive(kind)) => format!(in alloc; " (a {kind} file)"),
            Cause::File(FileKind::Image { version, name }) => {
                format!(in alloc; " (version {version}, {name})")
            }
            Cause::Pointer(bad) => bad.text(alloc),
            Cause::Read(reason) => format!(in alloc; ": {reason}"),
        }
    }

    /// Adds the cause.
    pub(crate) fn add<C: Sink>(&self, out: &mut Out<'_, C>) {
        out.begin_object("cause");
        match self {
            Cause::File(FileKind::Archive(kind)) => out.word("file", kind),
            Cause::File(FileKind::Image { version, name }) => {
                out.number("version", u64::from(*version));
                out.word("name", name);
            }
            Cause::Pointer(bad) => {
                out.hex("word", bad.word);
                add_near(bad.near.as_ref(), out);
            }
            Cause::Read(reason) => out.word("reason", reason),
        }
        out.end_object();
    }
}

impl BadWord {
    /// Returns what a bad slot of an object holds, and the object whose address is one bit away.
    /// None if the object has no such slot.
    pub(crate) fn of(
        alloc: Global,
        graph: ObjectGraph<'_>,
        object: ObjectIndex,
        slot: Slot,
    ) -> Result<Option<Self>, AllocError>
        requires { object < object_count graph.heap.now }
    {
        let Some(facts) = slot_facts(graph.heap, object, slot) else {
            return Ok(None);
        };
        let near = NearObject::of(alloc, graph, slot, facts.word)?;
        let word = facts.word;
        Ok(Some(BadWord { word, near }))
    }

    /// Returns the word as text that follows that of a fault.
    fn text(&self, alloc: Global) -> Result<String, AllocError> {
        let (word, near) = (self.word, near_text(alloc, self.near.as_ref())?);
        format!(in alloc; ": word {word:08x}{near}")
    }
}

impl NearObject {
    /// Returns the object that is near the word of a slot, if one is.
    pub(crate) fn of(
        alloc: Global,
        graph: ObjectGraph<'_>,
        slot: Slot,
        word: u32,
    ) -> Result<Option<Self>, AllocError> {
        let Some(near) = near_object(graph.heap, slot, word) else {
            return Ok(None);
        };
        Ok(Some(NearObject {
            address: graph.heap.address(near),
            class: name_of_class_of(alloc, graph, near)?,
        }))
    }
}

/// Adds the object that is near a word, if one is.
pub(crate) fn add_near<C: Sink>(near: Option<&NearObject>, out: &mut Out<'_, C>) {
    match near {
        Some(near) => {
            out.begin_object("near");
            out.hex("address", near.address);
            out.word("class", near.class.as_str());
            out.end_object();
        }
        None => out.null("near"),
    }
}

/// Returns the object that is near a word as text; nothing if there is none.
pub(crate) fn near_text(alloc: Global, near: Option<&NearObject>) -> Result<String, AllocError> {
    match near {
        Some(near) => {
            let (address, class) = (near.address, near.class.as_str());
            format!(in alloc; ", one bit from {address:08x} {class}")
        }
        None => Ok(String::new(alloc)),
    }
}
