//! A page that shows an image.

ghost use Rattle.std.specs.Prelude.{◌≡◌, ◌⊎◌, ◌<◌, IfOk};
ghost use Rattle.sqz_image.specs.Objects.{object_count};
ghost use Rattle.sqz_look_files.specs.Warnings.{IsSilent, most_objects};

use sqz_cli::DONE;
use sqz_image::Sink;
use sqz_look_explore::{FileNotes, print_explore};
use sqz_look_files::{Failure, ReadFile, Session, fault_text, warn, warn_if_large};
use sqz_look_view::{Inspector, Out, Subject};
use std::alloc::AllocError;
use std::io::Read;
use std::rt::Files;
use std::thread::Threads;

/// Prints a page that shows the image in the file with this path, and returns the exit 0.
pub(crate) fn explore<T: Files + Threads + Sync, C: Sink, E: Sink>(
    session: &Session<'_, T>,
    path: &str,
    min: Option<u32>,
    out: &mut Out<'_, C>,
    err: &mut E,
) -> Result<u8, Failure>
    ensures exit { IfOk result (λ exit. exit ≡ DONE) }
    ensures silent { IfOk result (λ exit. exit ≡ 0
        → IsSilent T.File.remaining session.now.weak session.now.past_damage
        err.old err.new) }
{
    match session.read(path, false, out, err)? {
        ReadFile::Image(read) => {
            let subject = session.subject(&read.image)?;
            warn(session.rt, &subject, path, err)?;
            warn_of_page(&subject, path, min, err)?;
            let fault = fault_text(session.rt, &subject)?;
            let inspector = Inspector::of(subject)?;
            let notes = notes_of(path, fault.as_deref(), read.skipped.as_deref());
            print_explore(session.rt, &inspector, notes, min, out)?;
            Ok(DONE)
        }
        ReadFile::Unreadable(unreadable) => {
            Err(Failure::NotThere(unreadable.message(session.alloc)?))
        }
    }
}

/// Returns what a page says about a file with this path.
fn notes_of<'a>(path: &'a str, fault: Option<&'a str>, skipped: Option<&'a str>) -> FileNotes<'a> {
    FileNotes {
        path,
        fault,
        skipped,
    }
}

/// Prints a line on `err` if a page has all objects, and these are likely too many.
fn warn_of_page<E: Sink>(
    subject: &Subject<'_>,
    path: &str,
    min: Option<u32>,
    err: &mut E,
) -> Result<(), AllocError>
    ensures { (err.new ≡ err.old)
        ⊎ (most_objects < object_count subject.now.live.graph.heap.now) }
{
    match min {
        None | Some(0) => warn_if_large(subject, path, err),
        Some(_) => Ok(()),
    }
}
