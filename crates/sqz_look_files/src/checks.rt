//! Whether images are sound.

ghost use Rattle.std.specs.Prelude.{◌≡◌, length, IfOk, IfErr};
ghost use Rattle.sqz_look_files.specs.Verdicts.{EndsChecks, IsChecked, IsImageExit, StopsChecks};

use crate::failure::Failure;
use crate::session::{ReadFile, Session};
use sqz_cli::{BAD_IMAGE, DEVICE_FAILED, DONE};
use sqz_damage::{RepairSummary, summary_of};
use sqz_image::Sink;
use sqz_look_check::{
    CheckOptions, print_check, print_check_missing, print_check_too_large, print_check_unreadable,
};
use sqz_look_view::{Out, PrintError, Subject};
use sqz_trace::first_fault;
use std::alloc::AllocError;
use std::io::Read;
use std::rt::Files;
use std::thread::Threads;

/// The exit if memory ran out for an image.
const OUT_OF_MEMORY: u8 = 4;

/// Prints whether the images in some files are sound, each before the next is read, and the warnings
/// about them if these are asked for. Returns the exit: that of the worst image.
pub fn check_all<T: Files + Threads + Sync, C: Sink, E: Sink>(
    session: &Session<'_, T>,
    paths: &[&str],
    options: CheckOptions,
    out: &mut Out<'_, C>,
    err: &mut E,
) -> Result<u8, Failure>
    ensures checked { EndsChecks T.File.remaining session.now.weak session.now.past_damage
        options.strict (length paths.now) result }
    ensures silent { IfOk result (λ exit. exit ≡ 0 → err.new ≡ err.old) }
{
    let mut exit = DONE;
    for path in paths {
        exit = exit.max(check_next(session, path, options, out, err)?);
        // what was found of this image is not lost if the next one stops the check
        out.flush()?;
    }
    Ok(exit)
}

/// Prints whether the image in a file is sound, or that memory is out for it, and returns the exit.
fn check_next<T: Files + Threads + Sync, C: Sink, E: Sink>(
    session: &Session<'_, T>,
    path: &str,
    options: CheckOptions,
    out: &mut Out<'_, C>,
    err: &mut E,
) -> Result<u8, Failure>
    ensures checked { IfOk result (IsChecked T.File.remaining session.now.weak
        session.now.past_damage options.strict) }
    ensures silent { IfOk result (λ exit. exit ≡ 0 → err.new ≡ err.old) }
    ensures stopped { IfErr result StopsChecks }
{
    match check_one(session, path, options, out, err) {
        Err(Failure::OutOfMemory) => {
            print_check_too_large(session.alloc, path, out)?;
            Ok(OUT_OF_MEMORY)
        }
        checked => checked,
    }
}

/// Prints whether the image in a file is sound, and returns the exit.
fn check_one<T: Files + Threads + Sync, C: Sink, E: Sink>(
    session: &Session<'_, T>,
    path: &str,
    options: CheckOptions,
    out: &mut Out<'_, C>,
    err: &mut E,
) -> Result<u8, Failure>
    ensures checked { IfOk result (IsChecked T.File.remaining session.now.weak
        session.now.past_damage options.strict) }
    ensures silent { IfOk result (λ exit. exit ≡ 0 → err.new ≡ err.old) }
    ensures stopped { IfErr result StopsChecks }
{
    match session.read(path, true, out, err) {
        Ok(ReadFile::Image(read)) => {
            let file = read.file;
            let subject = session.subject(&read.image)?;
            let repair = repair_of(session, &subject, file)?;
            let rt = session.rt;
            Ok(check_image(rt, subject, path, read.is_whole, repair, options, out)?)
        }
        Ok(ReadFile::Unreadable(unreadable)) => {
            print_check_unreadable(session.alloc, &unreadable, path, out)?;
            Ok(BAD_IMAGE)
        }
        Err(failure) => match failure {
            Failure::NotRead(why) => {
                print_check_missing(session.alloc, path, why, out)?;
                Ok(DEVICE_FAILED)
            }
            _ => Err(failure),
        },
    }
}

/// Returns what `mend --nil` keeps and clears of the file of an image with a fault, if its bytes are
/// given.
fn repair_of<T: Threads + Sync>(
    session: &Session<'_, T>,
    subject: &Subject<'_>,
    file: Option<Vec<u8>>,
) -> Result<Option<RepairSummary>, AllocError> {
    match file {
        Some(file) if first_fault(session.rt, &subject.live).is_some() => {
            summary_of(session.rt, session.alloc, file, session.weak)
        }
        _ => Ok(None),
    }
}

/// Prints whether an image is sound, and returns the exit. `is_whole` is whether nothing of its file
/// was skipped, and `repair` is what `mend --nil` keeps and clears, if that was found.
fn check_image<T: Threads + Sync, C: Sink>(
    rt: &T,
    subject: Subject<'_>,
    path: &str,
    is_whole: bool,
    repair: Option<RepairSummary>,
    options: CheckOptions,
    out: &mut Out<'_, C>,
) -> Result<u8, PrintError>
    ensures { IfOk result (IsImageExit subject.entry.live.graph.heap.now
        subject.entry.live.graph.weak subject.entry.live.marks is_whole options.strict) }
{
    let verdict = print_check(rt, subject, path, is_whole, repair, options, out)?;
    Ok(if verdict.is_sound && !verdict.has_warnings {
        DONE
    } else {
        BAD_IMAGE
    })
}
