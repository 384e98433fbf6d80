//! A fault, and where it is.

ghost use Rattle.std.specs.Prelude.{◌<◌};
ghost use Rattle.sqz_image.specs.Objects.{object_count};
ghost use Rattle.sqz_look_view.specs.Inspectors.{IsObjectOf};

use crate::causes::{BadWord, Cause};
use sqz_damage::{FaultPlace, fault_place};
use sqz_image::{Fault, Sink, Slot};
use sqz_look_view::{Inspector, Out, SlotNames, Subject, add_path};
use sqz_names::Label;
use sqz_object::ObjectIndex;
use sqz_trace::ObjectGraph;
use std::alloc::{AllocError, Global};

/// A fault, and where it is in its file.
#[derive(Drop)]
pub(crate) struct FaultFacts {
    fault: Fault,
    /// The address of the object or the word that is at fault.
    pub(crate) address: Option<u32>,
    /// Where this is in the file, in bytes.
    pub(crate) byte: Option<u64>,
    cause: Option<Cause>,
}

impl FaultFacts {
    /// Returns a fault that has no place.
    pub(crate) fn of(fault: Fault, cause: Option<Cause>) -> Self {
        FaultFacts {
            fault,
            address: None,
            byte: None,
            cause,
        }
    }

    /// Returns a fault of an object of an image.
    fn at(
        alloc: Global,
        graph: ObjectGraph<'_>,
        fault: Fault,
        place: FaultPlace,
    ) -> Result<Self, AllocError>
        requires { place.object < object_count graph.heap.now }
    {
        let cause = match place.slot {
            Some(slot) => BadWord::of(alloc, graph, place.object, slot)?.map(Cause::Pointer),
            None => None,
        };
        Ok(FaultFacts {
            fault,
            address: Some(graph.heap.address(place.object)),
            byte: Some(place.byte),
            cause,
        })
    }

    /// Returns the fault as a message, with its number and its place in the file.
    pub(crate) fn message(&self, alloc: Global) -> Result<String, AllocError> {
        let (number, fault, cause) = (self.fault.number(), self.fault, self.cause_text(alloc)?);
        match self.byte {
            Some(byte) => format!(in alloc; "fault {number}: {fault} (byte {byte}){cause}"),
            None => format!(in alloc; "fault {number}: {fault}{cause}"),
        }
    }

    /// Adds the fault with its place in the file and its cause: as text, the message.
    pub(crate) fn add<C: Sink>(&self, alloc: Global, out: &mut Out<'_, C>) {
        if !out.is_json() {
            return out.text("fault", self.message(alloc));
        }
        out.number("number", u64::from(self.fault.number()));
        out.text("text", self.text(alloc));
        out.hex_or_null("address", self.address);
        out.number_or_null("byte", self.byte);
        match &self.cause {
            Some(cause) => cause.add(out),
            None => out.null("cause"),
        }
    }

    /// Adds the fault of a file from which no image could be read.
    pub(crate) fn add_without_owner<C: Sink>(&self, alloc: Global, out: &mut Out<'_, C>) {
        self.add(alloc, out);
        out.null("owner");
        out.null("path");
    }

    /// Returns the text of the fault and its cause.
    fn text(&self, alloc: Global) -> Result<String, AllocError> {
        let (fault, cause) = (self.fault, self.cause_text(alloc)?);
        format!(in alloc; "{fault}{cause}")
    }

    /// Returns the cause as text; nothing if it is not known.
    fn cause_text(&self, alloc: Global) -> Result<String, AllocError> {
        match &self.cause {
            Some(cause) => cause.text(alloc),
            None => Ok(String::new(alloc)),
        }
    }
}

/// Returns the first fault of an image as a message, with its place in the file and its cause.
pub fn fault_message(subject: &Subject<'_>, fault: Fault) -> Result<String, AllocError> {
    let (alloc, graph) = (subject.alloc, subject.live.graph);
    let facts = match fault_place(subject.image, fault) {
        Some(place) => FaultFacts::at(alloc, graph, fault, place)?,
        None => FaultFacts::of(fault, None),
    };
    facts.message(alloc)
}

/// Adds a fault of an image, and what has the object that is at fault: its name if it has one, else
/// a path to it if `finds_path`.
pub(crate) fn add_fault<C: Sink>(
    inspector: &Inspector<'_>,
    fault: Fault,
    finds_path: bool,
    out: &mut Out<'_, C>,
) -> Result<(), AllocError> {
    let (alloc, graph) = (inspector.alloc, inspector.live.graph);
    let Some(place) = fault_place(inspector.image, fault) else {
        FaultFacts::of(fault, None).add_without_owner(alloc, out);
        return Ok(());
    };
    FaultFacts::at(alloc, graph, fault, place)?.add(alloc, out);
    match owner_of(inspector, place.object, place.slot)? {
        Some(owner) => {
            out.word("owner", owner.as_str());
            out.null("path");
        }
        None => {
            out.null("owner");
            if finds_path {
                add_path(inspector, "path", place.object, out)?;
            } else {
                out.null("path");
            }
        }
    }
    Ok(())
}

/// Returns the name of an object, if it has one, and the slot.
fn owner_of(
    inspector: &Inspector<'_>,
    object: ObjectIndex,
    slot: Option<Slot>,
) -> Result<Option<String>, AllocError>
    requires { IsObjectOf inspector.now object }
{
    if inspector.names.label_of(object)? == Label::Other {
        return Ok(None);
    }
    let label = inspector.names.label(object)?;
    let Some(slot) = slot else {
        return Ok(Some(label));
    };
    let slot = SlotNames::of(inspector, object)?.text(slot)?;
    Ok(Some(format!(in inspector.alloc; "{label}, {slot}")?))
}
