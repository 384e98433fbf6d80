//! The command line that the program accepts.

ghost use Rattle.std.specs.Prelude.{◌≡◌, IfOk};
ghost use Rattle.clap.specs.Words.{app_of};
ghost use Rattle.sqz_look_args.specs.CommandLine.{HasShape, listed_of, look_line};
ghost use Rattle.sqz_look_args.specs.CommandLine.{shape_of_listed};

use crate::arguments::{arg_of, flag};
use crate::subcommands::{Subcommand, subcommands};
use clap::Command;
use std::alloc::{AllocError, Global};

/// Returns the command line that the program accepts.
pub fn command<'a>(alloc: Global) -> Result<Command<'a>, AllocError>
    ensures { IfOk result (λ command. app_of command ≡ look_line) }
{
    let mut command = Command::new(alloc, "sqzlook")
        .version("1.0.0")
        .about("Inspect Squeak images")
        .subcommand_required(true)
        .arg_required_else_help(true)
        .propagate_version(true)
        .disable_help_subcommand(true);
    for subcommand in subcommands() {
        command = command.subcommand(command_of(alloc, subcommand)?)?;
    }
    Ok(command)
}

/// Returns the command line of a subcommand.
fn command_of<'a>(alloc: Global, subcommand: Subcommand) -> Result<Command<'a>, AllocError>
    ensures { IfOk result (HasShape (shape_of_listed (listed_of subcommand))) }
{
    let mut command = Command::new(alloc, subcommand.word)
        .about(subcommand.about)
        .after_help(subcommand.example);
    for argument in subcommand.arguments {
        command = command.arg(arg_of(alloc, *argument)?)?;
    }
    command
        .arg(flag(
            alloc,
            "clear-weak",
            "Treat weak references to objects that nothing else keeps as cleared",
        ))?
        .arg(flag(alloc, "human", "Print numbers of bytes in KB and MB"))?
        .arg(flag(alloc, "json", "Print lines of JSON"))?
        .arg(flag(
            alloc,
            "past-damage",
            "Read what a damaged image still holds, and say what was skipped",
        ))
}
