//! The command line.

ghost use Rattle.std.specs.Prelude.{◌≡◌, ◌↔◌, IfOk, IsTrue, Some, codes, map, string_bytes};
ghost use Rattle.clap.specs.Words.{FailsBy, IsParsedFrom, app_of, fault_of, first_of, matches_of};
ghost use Rattle.clap.specs.Words.{one_of};
ghost use Rattle.clap.specs.declared.parser.matches.ArgMatches.{ArgMatches};
ghost use Rattle.sqz_compact_args.specs.CommandLine.{GivesAll, IsFlag, IsNumber, IsRequired};
ghost use Rattle.sqz_compact_args.specs.CommandLine.{ReadsNumber, command_line};

use clap::{Arg, ArgAction, Command, Error, value_parser};
use std::alloc::{AllocError, Global};

/// What a command line asks for.
#[derive(Clone, Copy)]
pub struct Arguments<'a> {
    /// The path of the image that is read.
    pub input: &'a str,
    /// The path of the image that is written.
    pub output: &'a str,
    /// The number of workers that mark and move the objects.
    pub workers: u32,
    /// The number of words of a region.
    pub region_words: u32,
    /// Whether a census is asked for.
    pub census: bool,
    /// Whether weak slots are cleared, so that they keep nothing alive.
    pub clear_weak: bool,
}

/// Parses the words of a command line; the first is the program's name.
///
/// Fails with what is to be printed: the help if it was asked for, else what is wrong.
pub fn read_arguments<'a>(alloc: Global, words: &'a [String]) -> Result<Arguments<'a>, Error>
    ensures input { IfOk result (λ arguments.
        first_of (codes "IN") (matches_of command_line (map string_bytes words.entry.now))
        ≡ Some arguments.input.now) }
    ensures output { IfOk result (λ arguments.
        first_of (codes "OUT") (matches_of command_line (map string_bytes words.entry.now))
        ≡ Some arguments.output.now) }
    ensures workers { IfOk result (λ arguments.
        let rows = matches_of command_line (map string_bytes words.entry.now) in
        ReadsNumber rows (codes "workers") arguments.workers) }
    ensures region_words { IfOk result (λ arguments.
        let rows = matches_of command_line (map string_bytes words.entry.now) in
        ReadsNumber rows (codes "region-words") arguments.region_words) }
    ensures census { IfOk result (λ arguments.
        let rows = matches_of command_line (map string_bytes words.entry.now) in
        IsTrue arguments.census ↔ (one_of (codes "census") rows ≡ Some (codes "true"))) }
    ensures clear_weak { IfOk result (λ arguments.
        let rows = matches_of command_line (map string_bytes words.entry.now) in
        IsTrue arguments.clear_weak ↔ (one_of (codes "clear-weak") rows ≡ Some (codes "true"))) }
    ensures refused { FailsBy (fault_of command_line (map string_bytes words.entry.now)) result }
{
    let matches = command(alloc)?.try_get_matches_from(words)?;
    Ok(Arguments {
        input: matches.get_str("IN").unwrap(),
        output: matches.get_str("OUT").unwrap(),
        workers: matches.get_one("workers").unwrap(),
        region_words: matches.get_one("region-words").unwrap(),
        census: matches.get_flag("census"),
        clear_weak: matches.get_flag("clear-weak"),
    })
}

/// Returns the command line that the program accepts.
fn command<'a>(alloc: Global) -> Result<Command<'a>, AllocError>
    ensures shape { IfOk result (λ command. app_of command ≡ command_line) }
    ensures given { IfOk result (λ command.
        (m : ArgMatches) → IsParsedFrom command m → GivesAll m) }
{
    Command::new(alloc, "sqzcompact")
        .version("1.0.0")
        .about("Write a Squeak image without its garbage")
        .arg(required(alloc, "IN", "The image to read"))?
        .arg(required(
            alloc,
            "OUT",
            "The image to write; may be /dev/stdout or /dev/null",
        ))?
        .arg(number(alloc, "workers", "4", "Use N workers, from 1 to 64"))?
        .arg(number(
            alloc,
            "region-words",
            "65536",
            "Share regions of N words among the workers, from 1 to 2^30",
        ))?
        .arg(flag(alloc, "census", "Print a class histogram"))?
        .arg(flag(
            alloc,
            "clear-weak",
            "Clear weak references to objects that nothing else keeps",
        ))
}

/// Returns a required positional argument.
fn required<'a>(alloc: Global, name: &'a str, help: &'a str) -> Arg<'a>
    ensures { IsRequired name.entry.now result }
{
    Arg::new(alloc, name)
        .help(help)
        .required(true)
        .action(ArgAction::Set)
}

/// Returns an option with a 32-bit number and a default.
fn number<'a>(alloc: Global, name: &'a str, default: &'a str, help: &'a str) -> Arg<'a>
    ensures { IsNumber name.entry.now default.entry.now result }
{
    Arg::new(alloc, name)
        .long(name)
        .value_name("N")
        .help(help)
        .action(ArgAction::Set)
        .value_parser(value_parser!(u32))
        .default_value(default)
}

/// Returns an option without a value.
fn flag<'a>(alloc: Global, name: &'a str, help: &'a str) -> Arg<'a>
    ensures { IsFlag name.entry.now result }
{
    Arg::new(alloc, name)
        .long(name)
        .help(help)
        .action(ArgAction::SetTrue)
        .value_parser(value_parser!(bool))
}
