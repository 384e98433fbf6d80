//! The program.

ghost use Rattle.std.specs.Prelude.{◌≡◌, ◌<◌, ◌≤◌, ◌∷◌, [], Bool, List, Some};
ghost use Rattle.std.specs.Prelude.{false, true, length, map};
ghost use Rattle.std.specs.Prelude.{IfErr, IfOk, codes, string_bytes};
ghost use Rattle.clap.specs.Words.{Row, kind_of, subcommand_of, subcommand_rows_of, takes};
ghost use Rattle.sqz_look_args.specs.CommandLine.{look_line};
ghost use Rattle.sqz_look_args.specs.Requests.{AsksCheck, AsksDiff, HasCommand, given, has_flag};
ghost use Rattle.sqz_look_files.specs.Verdicts.{AreChecked};
ghost use Rattle.sqz_look_cli.specs.Comparison.{IsCompared};
ghost use Rattle.sqz_look_cli.specs.Endings.{HasPassedOn};
ghost use Rattle.sqz_look_files.specs.Warnings.{IsSilent};
ghost use Rattle.sqz_trace.specs.declared.weak.Weak.{Weak};
ghost use Rattle.sqz_trace.specs.WeakSlots.{weak_of};

use crate::answering::answer_request;
use crate::lines::words_apart;
use clap::error::ErrorKind;
use clap::{ArgMatches, Error};
use sqz_cli::{BAD_ARGUMENTS, DONE, explain};
use sqz_image::{Fault, Sink, write_all};
use sqz_look_args::{BadRequest, Request, command};
use sqz_look_files::{print_about_words, print_fault, print_names};
use std::alloc::Global;
use std::rt::Files;
use std::thread::Threads;

/// Answers the question that a command line asks about images, and returns the exit: 0 if the
/// answer was printed, and the images are sound or alike if that is the question; 1 if an image is
/// not sound or not readable, or does not hold what is asked about, or if two images differ; 2 if
/// the words are wrong; 3 if a file could not be read or the answer not printed; and 4 if out of
/// memory. The first word is the program's name; `out` and `err` stand for standard output and
/// standard error.
///
/// A failure is one line on `err`, with the name of the program and of the file. So is a warning of
/// an image that is not sound.
pub fn look<T: Files + Threads + Sync, C: Sink, E: Sink>(
    rt: &T,
    alloc: Global,
    words: &[String],
    out: &mut C,
    err: &mut E,
) -> u8
    ensures exits { result ≤ 4 }
    ensures check { (rows : List Row) → AsksCheck (map string_bytes words.now) rows → result ≤ 1
        → AreChecked T.File.remaining (weak_of (has_flag (codes "clear-weak") rows))
        (has_flag (codes "past-damage") rows) (has_flag (codes "strict") rows)
        (length (given (codes "IMAGE") rows)) result }
    ensures diff { (rows : List Row) → AsksDiff (map string_bytes words.now) rows → result ≤ 1
        → IsCompared T.File.remaining (weak_of (has_flag (codes "clear-weak") rows))
        (has_flag (codes "past-damage") rows) result }
    ensures whole { result ≡ 0 → HasPassedOn (C.state out.new) }
    ensures silent { result ≡ 0
        → (weak : Weak) × (past : Bool) × IsSilent T.File.remaining weak past err.old err.new }
{
    match matches_of(alloc, words) {
        Ok(matches) => {
            let asked = Asked {
                matches: &matches,
                apart: words_apart(words),
            };
            answer_matches(rt, alloc, asked, out, err)
        }
        Err(error) => explain_words(&error, out, err),
    }
}

/// What the words of a command line say: the matches, and how many words stand apart, after `--`.
#[derive(Clone, Copy)]
struct Asked<'a, 'b> {
    matches: &'a ArgMatches<'b>,
    apart: usize,
}

/// Parses the words of a command line.
fn matches_of<'a>(alloc: Global, words: &'a [String]) -> Result<ArgMatches<'a>, Error>
    ensures subcommand { IfOk result (λ matches. subcommand_rows_of matches
        ≡ subcommand_of look_line (map string_bytes words.entry.now)) }
    ensures command { IfOk result HasCommand }
    ensures accepted { IfErr result (λ error.
        takes look_line (map string_bytes words.entry.now) ≡ true
        → kind_of error ≡ ErrorKind.OutOfMemory) }
{
    command(alloc)?.try_get_matches_from(words)
}

/// Prints the help, or what is wrong with the words, and returns the exit.
fn explain_words<C: Sink, E: Sink>(error: &Error, out: &mut C, err: &mut E) -> u8
    ensures exits { result ≤ 4 }
    ensures memory { kind_of error.now ≡ ErrorKind.OutOfMemory → result ≡ 4 }
    ensures whole { result ≡ 0 → HasPassedOn (C.state out.new) }
    ensures silent { result ≡ 0 → err.new ≡ err.old }
{
    if error.kind() == ErrorKind::OutOfMemory {
        return print_fault(None, &Fault::OutOfMemory, err);
    }
    if is_wrong(error.kind()) {
        print_names(None, err);
    }
    let exit = explain(error, out, err);
    if exit == DONE && write_all(out, b"").is_err() {
        return print_fault(None, &Fault::WriteFailed, err);
    }
    exit
}

/// Answers the question of a command line that was parsed, and returns the exit. The last words may
/// stand apart, after `--`.
fn answer_matches<T: Files + Threads + Sync, C: Sink, E: Sink>(
    rt: &T,
    alloc: Global,
    asked: Asked<'_, '_>,
    out: &mut C,
    err: &mut E,
) -> u8
    requires { HasCommand asked.matches.now }
    ensures exits { result ≤ 4 }
    ensures check { (rows : List Row)
        → subcommand_rows_of asked.entry.matches.now ≡ Some (codes "check", rows)
        → result ≤ 1
        → AreChecked T.File.remaining (weak_of (has_flag (codes "clear-weak") rows))
        (has_flag (codes "past-damage") rows) (has_flag (codes "strict") rows)
        (length (given (codes "IMAGE") rows)) result }
    ensures diff { (rows : List Row)
        → subcommand_rows_of asked.entry.matches.now ≡ Some (codes "diff", rows)
        → result ≤ 1
        → IsCompared T.File.remaining (weak_of (has_flag (codes "clear-weak") rows))
        (has_flag (codes "past-damage") rows) result }
    ensures whole { result ≡ 0 → HasPassedOn (C.state out.new) }
    ensures silent { result ≡ 0
        → (weak : Weak) × (past : Bool) × IsSilent T.File.remaining weak past err.old err.new }
{
    match Request::of(alloc, asked.matches, asked.apart) {
        Ok(request) => answer_request(rt, alloc, &request, out, err),
        Err(bad) => explain_request(alloc, bad, err),
    }
}

/// Returns whether the text of an error says what is wrong, and is not the help or the version.
fn is_wrong(kind: ErrorKind) -> bool
    ensures help { kind ≡ ErrorKind.DisplayHelp → result ≡ false }
    ensures version { kind ≡ ErrorKind.DisplayVersion → result ≡ false }
{
    match kind {
        ErrorKind::DisplayHelp
        | ErrorKind::DisplayVersion
        | ErrorKind::DisplayHelpOnMissingArgumentOrSubcommand => false,
        _ => true,
    }
}

/// Prints why words that were parsed are no request, and returns the exit.
fn explain_request<E: Sink>(alloc: Global, bad: BadRequest<'_>, err: &mut E) -> u8
    ensures exits { result ≤ 4 }
    ensures failed { 1 < result }
    ensures memory { bad.entry ≡ BadRequest.OutOfMemory → result ≡ 4 }
{
    let message = match bad {
        BadRequest::OutOfMemory => return print_fault(None, &Fault::OutOfMemory, err),
        _ => bad.to_string(alloc),
    };
    match message {
        Ok(message) => {
            print_about_words(message.as_str(), err);
            BAD_ARGUMENTS
        }
        Err(_) => print_fault(None, &Fault::OutOfMemory, err),
    }
}
