//! What a command line asks for.

ghost use Rattle.std.specs.Prelude.{◌≡◌, ◌∷◌, [], List, IfOk, MatchResult, Some, codes};
ghost use Rattle.clap.specs.Words.{Row, subcommand_rows_of};
ghost use Rattle.sqz_look_args.specs.declared.bad_request.BadRequest.TheVariants.{OutOfMemory};
ghost use Rattle.sqz_look_args.specs.Requests.{AsksChanges, AsksSoundness, HasCommand, is_json};

use crate::bad_request::BadRequest;
use crate::question::Question;
use crate::questions::question_of;
use crate::subcommands::Name;
use crate::values::flag_of;
use clap::ArgMatches;
use std::alloc::Global;

/// What a command line asks for.
#[derive(Drop)]
pub struct Request<'a> {
    pub question: Question<'a>,
    /// The path of the image, if the words have one as IMAGE.
    pub image: Option<&'a str>,
    /// Whether weak slots are cleared, so that they keep nothing alive.
    pub clear_weak: bool,
    /// Whether a damaged image is read past what cannot be read.
    pub past_damage: bool,
    /// Whether the answer is lines of JSON: if that is asked for, and always for a dump, but never
    /// for a page.
    pub json: bool,
    /// Whether all rows of the text form are asked for.
    pub all: bool,
    /// Whether numbers of bytes are in KB and MB in the text form.
    pub human: bool,
}

impl<'a> Request<'a> {
    /// Returns what the matches of `command` ask for. The last words of a line may stand apart,
    /// after `--`: each is an object of its own. Fails if out of memory, and if an argument is
    /// missing or an option does not have a value that it takes.
    pub fn of(alloc: Global, matches: &ArgMatches<'a>, apart: usize) -> Result<Self, BadRequest<'a>>
        requires { HasCommand matches.now }
        ensures check { (rows : List Row)
            → subcommand_rows_of matches.now ≡ Some (codes "check", rows)
            → MatchResult result (AsksSoundness rows) (λ bad. bad ≡ OutOfMemory) }
        ensures diff { (rows : List Row)
            → subcommand_rows_of matches.now ≡ Some (codes "diff", rows)
            → IfOk result (AsksChanges rows) }
    {
        let (word, matches) = matches.subcommand().unwrap();
        let name = Name::of(word).unwrap();
        let question = question_of(alloc, name, matches, apart)?;
        Ok(Request {
            json: is_json(&question, flag_of(matches, "json")),
            question,
            image: only_image(matches),
            clear_weak: flag_of(matches, "clear-weak"),
            past_damage: flag_of(matches, "past-damage"),
            all: flag_of(matches, "all"),
            human: flag_of(matches, "human"),
        })
    }
}

/// Returns whether the answer to a question is lines of JSON, given whether that is asked for.
fn is_json(question: &Question<'_>, asked: bool) -> bool
    ensures { result ≡ is_json question.now asked }
{
    match question {
        Question::Dump { .. } => true,
        Question::Explore { .. } => false,
        _ => asked,
    }
}

/// Returns the path of the image that matches have, if they have one.
fn only_image<'a>(matches: &ArgMatches<'a>) -> Option<&'a str> {
    match matches.get_strs("IMAGE") {
        Some([path]) => Some(*path),
        _ => None,
    }
}
