//! A question about each of some images.

ghost use Rattle.std.specs.Prelude.{◌≡◌, length, IfErr, IfOk};
ghost use Rattle.sqz_look_files.specs.Failures.{IsAnswerExit, IsReadFailure};
ghost use Rattle.sqz_look_files.specs.Verdicts.{StopsChecks};
ghost use Rattle.sqz_look_files.specs.Warnings.{IsSilent};
ghost use Rattle.sqz_look_cli.specs.Each.{EndsEach, IsAnswered};

use sqz_cli::{BAD_IMAGE, DONE};
use sqz_image::Sink;
use sqz_look::{print_census, print_dead_census, print_retained_census};
use sqz_look_args::{Counting, Grouping};
use sqz_look_check::{print_digest, print_info, print_info_unreadable};
use sqz_look_files::{Failure, ReadFile, Session, explain_failure, print_message, warn};
use sqz_look_view::{Inspector, Out, PrintError};
use std::io::Read;
use std::rt::Files;
use std::thread::Threads;

/// What is asked about each of some images.
#[derive(Clone, Copy)]
pub(crate) enum EachQuestion {
    /// The format, the size and the first fault.
    Info,
    /// A class histogram.
    Census(Counting, Grouping),
    /// The digest of the live objects.
    Digest,
}

/// A file with an image that is asked about.
#[derive(Clone, Copy)]
struct ImageFile<'a> {
    path: &'a str,
    is_one_of_several: bool,
}

impl ImageFile<'_> {
    /// Prints the line of the text form before the answer, if there are several files.
    fn print_heading<C: Sink>(&self, out: &mut Out<'_, C>) {
        if self.is_one_of_several && !out.is_json() {
            out.path("path", self.path);
            out.heading("{path}:");
        }
    }
}

/// Prints the answer to a question about the image in each of some files, each before the next is
/// read, and returns the exit: that of the worst image. If a file cannot be read or holds no image,
/// a line on `err` says so, and the next one has its answer all the same.
pub(crate) fn answer_each<T: Files + Threads + Sync, C: Sink, E: Sink>(
    session: &Session<'_, T>,
    paths: &[&str],
    question: EachQuestion,
    out: &mut Out<'_, C>,
    err: &mut E,
) -> Result<u8, Failure>
    ensures exits { IfOk result IsAnswerExit }
    ensures answered { EndsEach T.File.remaining session.now.weak session.now.past_damage
        (length paths.now) result }
    ensures silent { IfOk result (λ exit. exit ≡ 0
        → IsSilent T.File.remaining session.now.weak session.now.past_damage
        err.old err.new) }
{
    let mut exit = DONE;
    for path in paths {
        let file = ImageFile {
            path,
            is_one_of_several: paths.len() > 1,
        };
        exit = exit.max(answer_one(session, file, question, out, err)?);
        out.flush()?;
    }
    Ok(exit)
}

/// Prints the answer to a question about the image in a file, or why there is none, and returns the
/// exit. Fails if memory runs out or the answer cannot be printed.
fn answer_one<T: Files + Threads + Sync, C: Sink, E: Sink>(
    session: &Session<'_, T>,
    file: ImageFile<'_>,
    question: EachQuestion,
    out: &mut Out<'_, C>,
    err: &mut E,
) -> Result<u8, Failure>
    ensures exits { IfOk result IsAnswerExit }
    ensures answered { IfOk result (IsAnswered T.File.remaining session.now.weak
        session.now.past_damage) }
    ensures stopped { IfErr result StopsChecks }
    ensures silent { IfOk result (λ exit. exit ≡ 0
        → IsSilent T.File.remaining session.now.weak session.now.past_damage
        err.old err.new) }
{
    match answer_about(session, file, question, out, err) {
        Ok(exit) => Ok(exit),
        Err(Failure::OutOfMemory) => Err(Failure::OutOfMemory),
        Err(Failure::NotPrinted) => Err(Failure::NotPrinted),
        Err(failure) => Ok(explain_failure(&failure, Some(file.path), err)),
    }
}

/// Prints the answer to a question about the image in a file, and returns the exit.
fn answer_about<T: Files + Threads + Sync, C: Sink, E: Sink>(
    session: &Session<'_, T>,
    file: ImageFile<'_>,
    question: EachQuestion,
    out: &mut Out<'_, C>,
    err: &mut E,
) -> Result<u8, Failure>
    ensures exits { IfOk result IsAnswerExit }
    ensures answered { IfOk result (IsAnswered T.File.remaining session.now.weak
        session.now.past_damage) }
    ensures failed { IfErr result IsReadFailure }
    ensures silent { IfOk result (λ exit. exit ≡ 0
        → IsSilent T.File.remaining session.now.weak session.now.past_damage
        err.old err.new) }
{
    let path = file.path;
    match session.read(path, false, out, err)? {
        ReadFile::Image(read) => {
            let subject = session.subject(&read.image)?;
            match question {
                EachQuestion::Info => {
                    file.print_heading(out);
                    print_info(session.rt, subject, path, out)?;
                }
                EachQuestion::Digest => {
                    warn(session.rt, &subject, path, err)?;
                    print_digest(&subject, path, out)?;
                }
                EachQuestion::Census(counting, by) => {
                    warn(session.rt, &subject, path, err)?;
                    file.print_heading(out);
                    let inspector = Inspector::of(subject)?;
                    print_census_of(session.rt, &inspector, path, counting, by, out)?;
                }
            }
            Ok(DONE)
        }
        ReadFile::Unreadable(unreadable) => {
            match question {
                EachQuestion::Info => {
                    file.print_heading(out);
                    print_info_unreadable(session.alloc, &unreadable, path, out)?;
                }
                EachQuestion::Census(..) | EachQuestion::Digest => {
                    let message = unreadable.message(session.alloc)?;
                    print_message(Some(path), message.as_str(), err);
                }
            }
            Ok(BAD_IMAGE)
        }
    }
}

/// Prints a class histogram of an image.
fn print_census_of<T: Threads + Sync, C: Sink>(
    rt: &T,
    inspector: &Inspector<'_>,
    path: &str,
    counting: Counting,
    by: Grouping,
    out: &mut Out<'_, C>,
) -> Result<(), PrintError> {
    match counting {
        Counting::Live => print_census(rt, inspector, path, by, out),
        Counting::Retained => print_retained_census(rt, inspector, path, out),
        Counting::Dead => print_dead_census(rt, inspector, path, by, out),
    }
}
