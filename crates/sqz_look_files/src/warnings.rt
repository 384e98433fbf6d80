//! Warnings of images that are not sound, or large.

ghost use Rattle.std.specs.Prelude.{◌≡◌, ◌≢◌, ◌⊎◌, ◌<◌, None};
ghost use Rattle.sqz_image.specs.Objects.{object_count};
ghost use Rattle.sqz_look_files.specs.Warnings.{most_objects};
ghost use Rattle.sqz_trace.specs.Faults.{first_fault};

use crate::messages::print_message;
use sqz_image::Sink;
use sqz_look_check::fault_message;
use sqz_look_view::Subject;
use sqz_trace::first_fault;
use std::alloc::AllocError;
use std::thread::Threads;

/// The most objects of which a page is written without a warning.
const MOST_OBJECTS: u32 = 4_000_000;

/// Prints a line on `err` if an image is not sound, with its path and its first fault.
pub fn warn<T: Threads + Sync, E: Sink>(
    rt: &T,
    subject: &Subject<'_>,
    path: &str,
    err: &mut E,
) -> Result<(), AllocError>
    ensures { (err.new ≡ err.old) ⊎ (first_fault subject.now.live.graph.heap.now
        subject.now.live.graph.weak subject.now.live.marks ≢ None) }
{
    let Some(fault) = first_fault(rt, &subject.live) else {
        return Ok(());
    };
    let fault = fault_message(subject, fault)?;
    let message = format!(in subject.alloc; "not sound: {fault}")?;
    print_message(Some(path), message.as_str(), err);
    Ok(())
}

/// Prints a line on `err` if an image has more objects than a page in a browser is likely to show.
pub fn warn_if_large<E: Sink>(
    subject: &Subject<'_>,
    path: &str,
    err: &mut E,
) -> Result<(), AllocError>
    ensures { (err.new ≡ err.old)
        ⊎ (most_objects < object_count subject.now.live.graph.heap.now) }
{
    let objects = subject.live.graph.heap.len();
    if objects <= MOST_OBJECTS {
        return Ok(());
    }
    let message = format!(in subject.alloc;
        "{objects} objects are likely too many for a browser; --min BYTES leaves out those that \
         retain less"
    )?;
    print_message(Some(path), message.as_str(), err);
    Ok(())
}

/// Returns the first fault of an image as text. None if the image is sound.
pub fn fault_text<T: Threads + Sync>(
    rt: &T,
    subject: &Subject<'_>,
) -> Result<Option<String>, AllocError> {
    match first_fault(rt, &subject.live) {
        Some(fault) => Ok(Some(fault_message(subject, fault)?)),
        None => Ok(None),
    }
}
