//! Questions about objects.

ghost use Rattle.std.specs.Prelude.{◌≡◌, ◌≤◌, map, string_bytes, All, IfErr, IfOk};
ghost use Rattle.sqz_alike.specs.Seen.{seen};
ghost use Rattle.sqz_look_files.specs.Warnings.{IsSilent};
ghost use Rattle.sqz_look_cli.specs.Comparison.{IfNotThere};
ghost use Rattle.sqz_look_cli.specs.Objects.{EndsObjects, HasAbsent, StandsFor};
ghost use Rattle.sqz_look_view.specs.Inspectors.{IsObjectOf};

use crate::meant::the_object;
use crate::opening::open;
use sqz_cli::{BAD_IMAGE, DONE};
use sqz_image::Sink;
use sqz_look::{print_refs, print_show, print_why};
use sqz_look_files::{Failure, Session, print_message};
use sqz_look_view::{Inspector, Out, PrintError};
use sqz_object::ObjectIndex;
use std::io::Read;
use std::rt::Files;
use std::thread::Threads;

/// What is asked about each of some objects.
#[derive(Clone, Copy)]
pub(crate) enum ObjectQuestion {
    /// What it is, and what its slots hold.
    Show,
    /// A shortest path to it; each step if `raw`.
    Why { raw: bool },
    /// The live objects that point to it.
    Refs,
}

/// Prints the answer to a question about each of some objects in the image of a file, with an empty
/// line between two, and returns the exit: 1 if one of them is not there. A line on `err` says so,
/// and the next one has its answer all the same.
pub(crate) fn answer_about_objects<T: Files + Threads + Sync, C: Sink, E: Sink>(
    session: &Session<'_, T>,
    path: &str,
    objects: &[String],
    question: ObjectQuestion,
    out: &mut Out<'_, C>,
    err: &mut E,
) -> Result<u8, Failure>
    ensures exit { IfOk result (λ exit. exit ≤ BAD_IMAGE) }
    ensures objects { EndsObjects T.File.remaining session.now.weak session.now.past_damage
        (map string_bytes objects.now) result }
    ensures silent { IfOk result (λ exit. exit ≡ 0
        → IsSilent T.File.remaining session.now.weak session.now.past_damage
        err.old err.new) }
{
    let mut slot = None;
    let inspector = open(session, path, &mut slot, out, err)?;
    answer_about_each(&inspector, path, objects, question, out, err)
}

/// Prints the answer to a question about each of some objects, with an empty line between two, and
/// returns the exit: 1 if one of them is not there.
fn answer_about_each<C: Sink, E: Sink>(
    inspector: &Inspector<'_>,
    path: &str,
    objects: &[String],
    question: ObjectQuestion,
    out: &mut Out<'_, C>,
    err: &mut E,
) -> Result<u8, Failure>
    ensures exit { IfOk result (λ exit. exit ≤ BAD_IMAGE) }
    ensures silent { IfOk result (λ exit. exit ≡ 0 → err.new ≡ err.old) }
    ensures there { IfOk result (λ exit. exit ≡ 0
        → All (StandsFor (seen inspector.now.live)) (map string_bytes objects.now)) }
    ensures absent { IfOk result (λ exit. exit ≡ 1
        → HasAbsent (seen inspector.now.live) (map string_bytes objects.now)) }
    ensures failed { IfErr result (λ failure. IfNotThere failure ⊥) }
{
    let mut exit = DONE;
    let mut is_first = true;
    for words in objects {
        match the_object(inspector, words.as_str()) {
            Ok(object) => {
                if !is_first {
                    out.heading("");
                }
                is_first = false;
                print_about(inspector, object, question, out)?;
            }
            Err(Failure::NotThere(message)) => {
                print_message(Some(path), message.as_str(), err);
                exit = BAD_IMAGE;
            }
            Err(failure) => return Err(failure),
        }
        out.flush()?;
    }
    Ok(exit)
}

/// Prints the answer to a question about an object.
fn print_about<C: Sink>(
    inspector: &Inspector<'_>,
    object: ObjectIndex,
    question: ObjectQuestion,
    out: &mut Out<'_, C>,
) -> Result<(), PrintError>
    requires { IsObjectOf inspector.now object }
{
    match question {
        ObjectQuestion::Show => print_show(inspector, object, out),
        ObjectQuestion::Why { raw } => print_why(inspector, object, raw, out),
        ObjectQuestion::Refs => print_refs(inspector, object, out),
    }
}
