//! The arguments of subcommands.

ghost use Rattle.std.specs.Prelude.{IfOk, codes};
ghost use Rattle.sqz_look_args.specs.CommandLine.{HasRule, argument_rule, exclusive_flag};
ghost use Rattle.sqz_look_args.specs.CommandLine.{flag_option, number_option, optional_words};
ghost use Rattle.sqz_look_args.specs.CommandLine.{required_word, required_words, value_option};

use clap::builder::ValueParser;
use clap::{Arg, ArgAction, value_parser};
use std::alloc::{AllocError, Global};

/// An argument of a subcommand.
#[derive(Clone, Copy)]
pub(crate) enum Argument {
    Image,
    Images,
    Old,
    New,
    Object,
    Root,
    Class,
    ClassOrMethod,
    Selector,
    Pattern,
    Nil,
    Strict,
    Classes,
    Unsent,
    Unimplemented,
    AllFaults,
    All,
    Dead,
    Retained,
    DeadInstances,
    By,
    GroupBy,
    Raw,
    Depth,
    Min,
    MinBytes,
    Folded,
}

/// Returns an argument.
pub(crate) fn arg_of<'a>(alloc: Global, argument: Argument) -> Result<Arg<'a>, AllocError>
    ensures { IfOk result (HasRule (argument_rule argument)) }
{
    match argument {
        Argument::Image => Ok(required(alloc, "IMAGE", "The image to inspect")),
        Argument::Images => Ok(several(alloc, "IMAGE", "The images to inspect")),
        Argument::Old => Ok(required(alloc, "OLD", "The old image")),
        Argument::New => Ok(required(alloc, "NEW", "The new image")),
        Argument::Object => Ok(several(
            alloc,
            "OBJECT",
            "An address in hexadecimal digits, a class, or a method as Point>>+; after `--` each \
             word is an object, and `-` takes those of standard input, one on each line",
        )),
        Argument::Root => Ok(optional(
            alloc,
            "OBJECT",
            "The object of the first row, as for `why` [default: the special objects array]",
        )),
        Argument::Class => Ok(several(
            alloc,
            "CLASS",
            "A class by its name or address, or `compact K`",
        )),
        Argument::ClassOrMethod => Ok(optional(
            alloc,
            "CODE",
            "A class, or a method as Point>>+ [default: the tree of all classes]",
        )),
        Argument::Selector => Ok(required(alloc, "SELECTOR", "A selector, as at:put:")),
        Argument::Pattern => Ok(required(
            alloc,
            "REGEX",
            "A regular expression with the syntax of Rust's regex crate, for bytes",
        )),
        Argument::Nil => Ok(flag(
            alloc,
            "nil",
            "Replace the pointers of live objects that lead nowhere by nil",
        )),
        Argument::Strict => Ok(flag(
            alloc,
            "strict",
            "Warn about what a virtual machine would trip over, too",
        )),
        Argument::Classes => classes(alloc),
        Argument::Unsent => unsent(alloc),
        Argument::Unimplemented => unimplemented(alloc),
        Argument::AllFaults => Ok(flag(
            alloc,
            "all",
            "Print the first fault of every object, and not only that of the first",
        )),
        Argument::All => Ok(flag(alloc, "all", "Print all, and not only the first 20 rows")),
        Argument::Dead => Ok(flag(alloc, "dead", "Count the objects that are not live")),
        Argument::Retained => retained(alloc),
        Argument::DeadInstances => Ok(flag(alloc, "dead", "List the instances that are not live")),
        Argument::By => Ok(by(
            alloc,
            "ORDER",
            "List first those that retain most, or the largest: retained or size",
        )),
        Argument::GroupBy => Ok(by(
            alloc,
            "GROUP",
            "Print a row for each class, or the sums of each category of classes: class or category",
        )),
        Argument::Raw => Ok(flag(alloc, "raw", "Print each step of the path")),
        Argument::Depth => Ok(depth(alloc)),
        Argument::Min => Ok(min(alloc)),
        Argument::MinBytes => Ok(min_bytes(alloc)),
        Argument::Folded => folded(alloc),
    }
}

/// Returns the option that asks for the tree of all classes.
fn classes<'a>(alloc: Global) -> Result<Arg<'a>, AllocError>
    ensures { IfOk result (HasRule (exclusive_flag (codes "classes"))) }
{
    flag(
        alloc,
        "classes",
        "Print the tree of all classes, with their numbers of methods and instances",
    )
    .conflicts_with("CODE")
}

/// Returns the option that asks for methods that are not sent.
fn unsent<'a>(alloc: Global) -> Result<Arg<'a>, AllocError>
    ensures { IfOk result (HasRule (exclusive_flag (codes "unsent"))) }
{
    flag(
        alloc,
        "unsent",
        "Print the methods whose selectors no method sends or names",
    )
    .conflicts_with("CODE")?
    .conflicts_with("classes")
}

/// Returns the option that asks for selectors that no class implements.
fn unimplemented<'a>(alloc: Global) -> Result<Arg<'a>, AllocError>
    ensures { IfOk result (HasRule (exclusive_flag (codes "unimplemented"))) }
{
    flag(
        alloc,
        "unimplemented",
        "Print the selectors that methods send and no class implements",
    )
    .conflicts_with("CODE")?
    .conflicts_with("unsent")?
    .conflicts_with("classes")
}

/// Returns the option with the number of levels of a tree.
fn depth<'a>(alloc: Global) -> Arg<'a>
    ensures { HasRule (number_option (codes "depth") 100) result }
{
    Arg::new(alloc, "depth")
        .long("depth")
        .value_name("N")
        .help("Print N levels below the first row, at most 100 [default: 4]")
        .action(ArgAction::Set)
        .value_parser(ValueParser::unsigned(0, 100))
}

/// Returns the option with the least share of the first row's bytes that is a row of a tree.
fn min<'a>(alloc: Global) -> Arg<'a>
    ensures { HasRule (value_option (codes "min")) result }
{
    Arg::new(alloc, "min")
        .long("min")
        .value_name("PERCENT")
        .help("Print rows of at least PERCENT of the first row's bytes [default: 1]")
        .action(ArgAction::Set)
}

/// Returns the option with the least number of bytes that an object of a page retains.
fn min_bytes<'a>(alloc: Global) -> Arg<'a>
    ensures { HasRule (number_option (codes "min") 4294967295) result }
{
    Arg::new(alloc, "min")
        .long("min")
        .value_name("BYTES")
        .help("Leave out the objects that retain fewer than BYTES [default: 0]")
        .action(ArgAction::Set)
        .value_parser(ValueParser::unsigned(0, 4_294_967_295))
}

/// Returns the option with the order of a list, or with what rows are about.
fn by<'a>(alloc: Global, value: &'a str, help: &'a str) -> Arg<'a>
    ensures { HasRule (value_option (codes "by")) result }
{
    Arg::new(alloc, "by")
        .long("by")
        .value_name(value)
        .help(help)
        .action(ArgAction::Set)
}

/// Returns the option that adds to a class histogram what instances retain.
fn retained<'a>(alloc: Global) -> Result<Arg<'a>, AllocError>
    ensures { IfOk result (HasRule (exclusive_flag (codes "retained"))) }
{
    flag(
        alloc,
        "retained",
        "Print what the instances of each class retain, the classes that retain most first",
    )
    .conflicts_with("dead")?
    .conflicts_with("by")
}

/// Returns the option that asks for folded stacks.
fn folded<'a>(alloc: Global) -> Result<Arg<'a>, AllocError>
    ensures { IfOk result (HasRule (exclusive_flag (codes "folded"))) }
{
    flag(
        alloc,
        "folded",
        "Print folded stacks, which tools for flame graphs read",
    )
    .conflicts_with("json")
}

/// Returns a required positional argument.
fn required<'a>(alloc: Global, name: &'a str, help: &'a str) -> Arg<'a>
    ensures { HasRule (required_word name.entry.now) result }
{
    Arg::new(alloc, name)
        .help(help)
        .required(true)
        .action(ArgAction::Set)
}

/// Returns a positional argument that takes one word or more.
fn several<'a>(alloc: Global, name: &'a str, help: &'a str) -> Arg<'a>
    ensures { HasRule (required_words name.entry.now) result }
{
    required(alloc, name, help).num_args(1..)
}

/// Returns a positional argument that takes any number of words.
fn optional<'a>(alloc: Global, name: &'a str, help: &'a str) -> Arg<'a>
    ensures { HasRule (optional_words name.entry.now) result }
{
    Arg::new(alloc, name)
        .help(help)
        .action(ArgAction::Set)
        .num_args(1..)
}

/// Returns an option without a value.
pub(crate) fn flag<'a>(alloc: Global, name: &'a str, help: &'a str) -> Arg<'a>
    ensures { HasRule (flag_option name.entry.now) result }
{
    Arg::new(alloc, name)
        .long(name)
        .help(help)
        .action(ArgAction::SetTrue)
        .value_parser(value_parser!(bool))
}
