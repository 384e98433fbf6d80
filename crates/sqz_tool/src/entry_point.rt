//! The program.

ghost use Rattle.std.specs.Prelude.{◌≡◌, ◌≢◌, ◌⊎◌, ◌<◌, ◌≤◌, [], map, string_bytes, IfErr, IsOk};
ghost use Rattle.std.specs.Prelude.{MatchResult};
ghost use Rattle.clap.specs.Words.{fault_of, matches_of};
ghost use Rattle.sqz_compact_args.specs.CommandLine.{command_line};
ghost use Rattle.sqz_cli.specs.Exits.{IsExitBy, exit_of};
ghost use Rattle.sqz_cli.specs.Lines.{PrintsFault};
ghost use Rattle.sqz_tool.specs.Endings.{AreTaken, Ends};
ghost use Rattle.sqz_tool.specs.Plans.{AsksForCensus, AsksForPlan};

use crate::compact_files::compact;
use crate::file_views::FileViews;
use crate::summary::Summary;
use sqz_cli::{DONE, OutputFile, explain, refuse};
use sqz_compact_args::read_arguments;
use sqz_image::{Fault, Sink};
use sqz_workers::OpenGate;
use std::alloc::Global;
use std::rt::Files;
use std::thread::Threads;

/// Does what the command line asks for, and returns the exit code: 0 if the image was written or
/// the help was printed, 1 if the image is at fault, 2 if the command line is, 3 if a file could
/// not be read or written, and 4 if out of memory. The first word is the program's name; `out` and
/// `err` stand for standard output and standard error.
///
/// The words are parsed first, then the number of workers and the size of a region are checked,
/// and then the image is read. The output file is created, or truncated, only when the first bytes
/// of the compacted image can be written. The census is printed on `out` after the image is written. A
/// fault is printed as one line on `err`, and the help on `out`. If `err` fails, or `out` while
/// the help is printed, the exit code is the same.
pub fn program<'a, T: Files + Threads + Sync, C: Sink, E: Sink>(
    rt: &'a T,
    alloc: Global,
    words: &[String],
    out: &mut C,
    err: &mut E,
) -> u8
    ensures exits { result ≤ 4 }
    ensures refused { let kinds = fault_of command_line (map string_bytes words.now) in
        kinds ≢ [] → IsExitBy kinds result }
    ensures taken { AreTaken (map string_bytes words.now)
        → AsksForPlan (matches_of command_line (map string_bytes words.now)) → result ≢ 2 }
    ensures wrong { AreTaken (map string_bytes words.now)
        → (AsksForPlan (matches_of command_line (map string_bytes words.now)) → ⊥) → (result ≡ 2)
        ⊎ (result ≡ 4) }
    ensures ends { let views = ⟦<OutputFile<'a, T> as FileViews<T::File>>⟧.views in
        AreTaken (map string_bytes words.now)
        → Ends views (map string_bytes words.now) result (C.state out.old) (C.state out.new)
        (E.state err.old) (E.state err.new) }
    ensures unused { AreTaken (map string_bytes words.now)
        → (AsksForCensus (matches_of command_line (map string_bytes words.now)) → ⊥)
        → C.state out.new ≡ C.state out.old }
    ensures silent { result ≡ 0 → err.new ≡ err.old }
    ensures quiet { 0 < result → result ≢ 3 → C.state out.new ≡ C.state out.old }
{
    match read_arguments(alloc, words) {
        Ok(arguments) => finish(compact(rt, alloc, &arguments, out, &OpenGate), err),
        Err(error) => explain(&error, out, err),
    }
}

/// Prints the line of the fault that stopped a run, if one did, and returns the exit code.
fn finish<E: Sink>(outcome: Result<Summary, Fault>, err: &mut E) -> u8
    ensures exit { MatchResult outcome (λ _. result ≡ 0) (λ fault. result ≡ exit_of fault) }
    ensures line { IfErr outcome (λ fault. PrintsFault (E.state err.old) (E.state err.new) fault) }
    ensures silent { IsOk outcome → err.new ≡ err.old }
{
    match outcome {
        Ok(_) => DONE,
        Err(fault) => refuse(&fault, err),
    }
}
