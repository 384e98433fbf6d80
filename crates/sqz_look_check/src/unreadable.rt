//! A file from which no image could be read.

ghost use Rattle.sqz_image.specs.Unread.{IsUnread};

use crate::causes::{Cause, FileKind};
use crate::faults::FaultFacts;
use crate::file_kinds::kind_of;
use crate::skipped::{add_loss, place_of_loss};
use sqz_damage::{
    GapPlace, RecoverError, RepairSummary, bytes_in_gaps, image_in, mend_file, repair_summary,
    unread_place,
};
use sqz_image::{Fault, Header, Sink, UnreadFile};
use sqz_look_view::Out;
use sqz_object::Address;
use sqz_trace::Weak;
use std::alloc::{AllocError, Global};
use std::thread::Threads;

/// A file from which no image could be read: its fault, and what could be read of it.
#[derive(Drop)]
pub struct Unreadable {
    pub(crate) fault: Fault,
    pub(crate) header: Option<Header>,
    kind: Option<FileKind>,
    /// The address of the last object before a chunk that cannot be read.
    pub(crate) last_object: Option<Address>,
    /// How much can be read past what cannot be read, if that was asked for.
    pub(crate) extent: Option<Extent>,
    /// What `mend --nil` keeps and clears, if that was asked for.
    pub(crate) repair: Option<RepairSummary>,
}

/// How much of a file can be read past what cannot be read.
#[derive(Clone, Copy)]
pub(crate) struct Extent {
    /// The bytes of the data that cannot be read, and those that the file does not have.
    unreadable_bytes: u64,
    missing_bytes: u32,
    /// Where the bytes are missing, if that is clear and not the end.
    missing_at: Option<GapPlace>,
    /// The objects that can be read.
    objects: u32,
}

impl Extent {
    /// Adds how much can be read; null if that is not known.
    pub(crate) fn add<C: Sink>(extent: Option<Self>, out: &mut Out<'_, C>) {
        let Some(extent) = extent else {
            return out.null("readable");
        };
        out.begin_object("readable");
        out.amount("unreadable_bytes", extent.unreadable_bytes);
        out.amount("missing_bytes", u64::from(extent.missing_bytes));
        add_loss(extent.missing_at, out);
        out.number("objects", u64::from(extent.objects));
        out.end_object();
    }

    /// Returns the template of the line of a fault with how much can be read past it.
    pub(crate) fn template(&self) -> &'static str {
        match (self.missing_bytes, self.missing_at) {
            (0, _) => {
                "{image}: {fault}: {unreadable_bytes#byte} cannot be read; {objects#object} before \
                 and after"
            }
            (_, None) => {
                "{image}: {fault}: {missing_bytes#byte} are missing, {unreadable_bytes#byte} cannot \
                 be read; {objects#object} before and after"
            }
            (_, Some(_)) => {
                "{image}: {fault}: {missing_bytes#byte} are missing at word {word} (byte {byte}), \
                 {unreadable_bytes#byte} cannot be read; {objects#object} before and after"
            }
        }
    }
}

impl Unreadable {
    /// Returns what could be read of a file, how much of it can be read past a chunk that cannot be
    /// read, and what `mend --nil` keeps of it.
    pub fn measured<T: Threads + Sync>(
        rt: &T,
        alloc: Global,
        file: UnreadFile,
        weak: Weak,
    ) -> Result<Self, AllocError>
        requires { IsUnread file.bytes.items file }
    {
        let mut unreadable = Unreadable::of(alloc, &file)?;
        if is_damage(&unreadable.fault) {
            unreadable.measure(rt, alloc, file.bytes, weak)?;
        }
        Ok(unreadable)
    }

    /// Finds how much can be read of the file with these bytes, and what `mend --nil` keeps of it.
    /// Finds nothing if no special objects array can be read.
    fn measure<T: Threads + Sync>(
        &mut self,
        rt: &T,
        alloc: Global,
        bytes: Vec<u8>,
        weak: Weak,
    ) -> Result<(), AllocError> {
        let mended = match mend_file(rt, alloc, bytes, weak) {
            Ok(mended) => mended,
            Err(RecoverError::NoImage(_)) => return Ok(()),
            Err(RecoverError::OutOfMemory) => return Err(AllocError),
        };
        let Ok(image) = image_in(alloc, &mended.bytes)? else {
            return Ok(());
        };
        self.extent = Some(Extent {
            unreadable_bytes: bytes_in_gaps(&mended.damage.gaps),
            missing_bytes: mended.damage.missing,
            missing_at: place_of_loss(&mended.header, &mended.damage),
            objects: image.heap().len(),
        });
        drop(image);
        self.repair = repair_summary(rt, alloc, mended.bytes, weak)?;
        Ok(())
    }

    /// Returns what could be read of a file.
    pub fn of(alloc: Global, file: &UnreadFile) -> Result<Self, AllocError>
        requires { IsUnread file.now.bytes.items file.now }
    {
        let kind = match file.fault {
            Fault::BadVersion => kind_of(&file.bytes),
            _ => None,
        };
        let last_object = match file.readable(alloc)? {
            Some(readable) => readable.last,
            None => None,
        };
        Ok(Unreadable {
            fault: file.fault,
            header: file.header,
            kind,
            last_object,
            extent: None,
            repair: None,
        })
    }

    /// Returns the fault with its place in the file.
    pub(crate) fn facts(&self) -> FaultFacts {
        let mut facts = FaultFacts::of(self.fault, self.kind.map(Cause::File));
        let Some(header) = self.header else {
            return facts;
        };
        if let Some(place) = unread_place(&header, self.fault) {
            facts.address = Some(place.address);
            facts.byte = Some(place.byte);
        }
        if self.fault == Fault::BadSpecialObjects {
            facts.address = Some(header.special());
        }
        facts
    }

    /// Returns the fault as a message, with its place in the file.
    pub fn message(&self, alloc: Global) -> Result<String, AllocError> {
        self.facts().message(alloc)
    }
}

/// Returns whether a fault is that of data that cannot be read, or that are not there.
fn is_damage(fault: &Fault) -> bool {
    matches!(
        fault,
        Fault::Truncated
            | Fault::ZeroSize { .. }
            | Fault::HeaderMismatch { .. }
            | Fault::Overrun { .. }
    )
}
