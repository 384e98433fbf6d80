//! The question that each subcommand asks.

ghost use Rattle.std.specs.Prelude.{◌≡◌, IfOk, MatchResult};
ghost use Rattle.clap.specs.Words.{found_of, rows_of};
ghost use Rattle.sqz_look_args.specs.declared.bad_request.BadRequest.TheVariants.{OutOfMemory};
ghost use Rattle.sqz_look_args.specs.Requests.{IsCheckOf, IsDiffOf};

use crate::bad_request::BadRequest;
use crate::counting::Counting;
use crate::grouping::Grouping;
use crate::list_order::ListOrder;
use crate::percent::Percent;
use crate::question::{Instances, Question};
use crate::subcommands::Name;
use crate::top_options::{TopForm, TopOptions};
use crate::values::{flag_of, joined, pattern_of, value_of, values_of};
use clap::ArgMatches;
use std::alloc::{AllocError, Global};

/// Returns the question that a subcommand asks.
pub(crate) fn question_of<'a>(
    alloc: Global,
    name: Name,
    matches: &ArgMatches<'a>,
    apart: usize,
) -> Result<Question<'a>, BadRequest<'a>>
    ensures check { let rows = rows_of (found_of matches.now) in name ≡ Name.Check
        → MatchResult result (IsCheckOf rows) (λ bad. bad ≡ OutOfMemory) }
    ensures diff { let rows = rows_of (found_of matches.now) in name ≡ Name.Diff
        → IfOk result (IsDiffOf rows) }
{
    match name {
        Name::Check => check(alloc, matches),
        Name::Mend => mend(matches),
        Name::Info => info(alloc, matches),
        Name::Census => census(alloc, matches),
        Name::Digest => digest(alloc, matches),
        Name::List => list(alloc, matches),
        Name::Show => show(alloc, matches, apart),
        Name::Why => why(alloc, matches, apart),
        Name::Refs => refs(alloc, matches, apart),
        Name::Top => top(alloc, matches),
        Name::Diff => diff(matches),
        Name::Code => code(alloc, matches),
        Name::Senders => senders(matches),
        Name::Implementors => implementors(matches),
        Name::Stacks => stacks(matches),
        Name::Find => find(alloc, matches),
        Name::Dump => dump(matches),
        Name::Explore => explore(matches),
    }
}

/// Returns the question whether images are sound.
fn check<'a>(alloc: Global, matches: &ArgMatches<'a>) -> Result<Question<'a>, BadRequest<'a>>
    ensures { MatchResult result (IsCheckOf (rows_of (found_of matches.now)))
        (λ bad. bad ≡ OutOfMemory) }
{
    Ok(Question::Check {
        images: values_of(alloc, matches, "IMAGE")?,
        all: flag_of(matches, "all"),
        strict: flag_of(matches, "strict"),
    })
}

/// Returns the request to mend an image.
fn mend<'a>(matches: &ArgMatches<'a>) -> Result<Question<'a>, BadRequest<'a>> {
    Ok(Question::Mend {
        image: value_of(matches, "IMAGE")?,
        nil: flag_of(matches, "nil"),
    })
}

/// Returns the question what format and size images have.
fn info<'a>(alloc: Global, matches: &ArgMatches<'a>) -> Result<Question<'a>, BadRequest<'a>> {
    Ok(Question::Info {
        images: values_of(alloc, matches, "IMAGE")?,
    })
}

/// Returns the question how many objects each class has.
fn census<'a>(alloc: Global, matches: &ArgMatches<'a>) -> Result<Question<'a>, BadRequest<'a>> {
    Ok(Question::Census {
        images: values_of(alloc, matches, "IMAGE")?,
        counting: Counting::asked(matches),
        by: grouping_of(matches)?,
    })
}

/// Returns the question which digest images have.
fn digest<'a>(alloc: Global, matches: &ArgMatches<'a>) -> Result<Question<'a>, BadRequest<'a>> {
    Ok(Question::Digest {
        images: values_of(alloc, matches, "IMAGE")?,
    })
}

/// Returns the question which instances a class has.
fn list<'a>(alloc: Global, matches: &ArgMatches<'a>) -> Result<Question<'a>, BadRequest<'a>> {
    Ok(Question::List {
        image: value_of(matches, "IMAGE")?,
        class: joined(alloc, &values_of(alloc, matches, "CLASS")?)?,
        which: instances_of(matches)?,
    })
}

/// Returns the question what objects are.
fn show<'a>(
    alloc: Global,
    matches: &ArgMatches<'a>,
    apart: usize,
) -> Result<Question<'a>, BadRequest<'a>> {
    Ok(Question::Show {
        image: value_of(matches, "IMAGE")?,
        objects: objects_of(alloc, matches, apart)?,
    })
}

/// Returns the question what keeps objects. JSON has each step of a path.
fn why<'a>(
    alloc: Global,
    matches: &ArgMatches<'a>,
    apart: usize,
) -> Result<Question<'a>, BadRequest<'a>> {
    Ok(Question::Why {
        image: value_of(matches, "IMAGE")?,
        objects: objects_of(alloc, matches, apart)?,
        raw: flag_of(matches, "raw") || flag_of(matches, "json"),
    })
}

/// Returns the question what points to objects.
fn refs<'a>(
    alloc: Global,
    matches: &ArgMatches<'a>,
    apart: usize,
) -> Result<Question<'a>, BadRequest<'a>> {
    Ok(Question::Refs {
        image: value_of(matches, "IMAGE")?,
        objects: objects_of(alloc, matches, apart)?,
    })
}

/// Returns the question what retains most.
fn top<'a>(alloc: Global, matches: &ArgMatches<'a>) -> Result<Question<'a>, BadRequest<'a>> {
    Ok(Question::Top {
        image: value_of(matches, "IMAGE")?,
        object: object_of(alloc, matches, "OBJECT")?,
        options: top_options(matches)?,
    })
}

/// Returns the question what changed between two images.
fn diff<'a>(matches: &ArgMatches<'a>) -> Result<Question<'a>, BadRequest<'a>>
    ensures { IfOk result (IsDiffOf (rows_of (found_of matches.now))) }
{
    Ok(Question::Diff {
        old: value_of(matches, "OLD")?,
        new: value_of(matches, "NEW")?,
    })
}

/// Returns the question about code. Without words and options, that is the tree of all classes.
fn code<'a>(alloc: Global, matches: &ArgMatches<'a>) -> Result<Question<'a>, BadRequest<'a>> {
    let image = value_of(matches, "IMAGE")?;
    Ok(match object_of(alloc, matches, "CODE")? {
        Some(object) => Question::Code { image, object },
        None if flag_of(matches, "unsent") => Question::Unsent { image },
        None if flag_of(matches, "unimplemented") => Question::Unimplemented { image },
        None => Question::Classes { image },
    })
}

/// Returns the question which methods send a selector.
fn senders<'a>(matches: &ArgMatches<'a>) -> Result<Question<'a>, BadRequest<'a>> {
    Ok(Question::Senders {
        image: value_of(matches, "IMAGE")?,
        selector: selector_of(matches)?,
    })
}

/// Returns the question which methods have a selector.
fn implementors<'a>(matches: &ArgMatches<'a>) -> Result<Question<'a>, BadRequest<'a>> {
    Ok(Question::Implementors {
        image: value_of(matches, "IMAGE")?,
        selector: selector_of(matches)?,
    })
}

/// Returns the question which processes there are.
fn stacks<'a>(matches: &ArgMatches<'a>) -> Result<Question<'a>, BadRequest<'a>> {
    Ok(Question::Stacks {
        image: value_of(matches, "IMAGE")?,
    })
}

/// Returns the question which strings match a regular expression.
fn find<'a>(alloc: Global, matches: &ArgMatches<'a>) -> Result<Question<'a>, BadRequest<'a>> {
    Ok(Question::Find {
        image: value_of(matches, "IMAGE")?,
        pattern: pattern_of(alloc, matches)?,
    })
}

/// Returns the request for all live objects.
fn dump<'a>(matches: &ArgMatches<'a>) -> Result<Question<'a>, BadRequest<'a>> {
    Ok(Question::Dump {
        image: value_of(matches, "IMAGE")?,
    })
}

/// Returns the request for a page. Without `--min`, all objects are on it.
fn explore<'a>(matches: &ArgMatches<'a>) -> Result<Question<'a>, BadRequest<'a>> {
    Ok(Question::Explore {
        image: value_of(matches, "IMAGE")?,
        min: matches.get_one("min"),
    })
}

/// Returns the selector that the matches have, with or without `#` before it.
fn selector_of<'a>(matches: &ArgMatches<'a>) -> Result<&'a str, BadRequest<'a>> {
    let word = value_of(matches, "SELECTOR")?;
    Ok(word.strip_prefix("#").unwrap_or(word))
}

/// Returns the words of an argument, joined by spaces. None if there are none.
fn object_of(
    alloc: Global,
    matches: &ArgMatches<'_>,
    id: &str,
) -> Result<Option<String>, AllocError> {
    let words = values_of(alloc, matches, id)?;
    if words.is_empty() {
        return Ok(None);
    }
    Ok(Some(joined(alloc, &words)?))
}

/// Returns the objects that the matches have: the words before `--` stand for one together, and
/// each of the words that stand apart stands for one.
fn objects_of(
    alloc: Global,
    matches: &ArgMatches<'_>,
    apart: usize,
) -> Result<Vec<String>, AllocError> {
    let words = values_of(alloc, matches, "OBJECT")?;
    let (together, others) = words.split_at(words.len() - apart.min(words.len()));
    let mut objects = Vec::new(alloc);
    if !together.is_empty() {
        objects.push(joined(alloc, together)?)?;
    }
    for word in others {
        objects.push(String::from_str(alloc, word)?)?;
    }
    Ok(objects)
}

/// Returns which instances are asked for.
fn instances_of<'a>(matches: &ArgMatches<'a>) -> Result<Instances, BadRequest<'a>> {
    let order = match matches.get_str("by") {
        Some(text) => match text.parse() {
            Ok(order) => order,
            Err(_) => return Err(BadRequest::NoOrder(text)),
        },
        None => ListOrder::Retained,
    };
    Ok(if flag_of(matches, "dead") {
        Instances::Dead
    } else {
        Instances::Live(order)
    })
}

/// Returns what is asked for of a tree.
fn top_options<'a>(matches: &ArgMatches<'a>) -> Result<TopOptions, BadRequest<'a>> {
    let form = if flag_of(matches, "folded") {
        TopForm::Folded
    } else {
        TopForm::Rows
    };
    Ok(TopOptions {
        form,
        depth: matches.get_one("depth"),
        min: min_of(matches)?,
    })
}

/// Returns what `--by` says that rows are about.
fn grouping_of<'a>(matches: &ArgMatches<'a>) -> Result<Grouping, BadRequest<'a>> {
    match matches.get_str("by") {
        Some(text) => match text.parse() {
            Ok(grouping) => Ok(grouping),
            Err(_) => Err(BadRequest::NoGrouping(text)),
        },
        None => Ok(Grouping::Class),
    }
}

/// Returns the percentage that `--min` has.
fn min_of<'a>(matches: &ArgMatches<'a>) -> Result<Option<Percent>, BadRequest<'a>> {
    match matches.try_get_one::<Percent>("min") {
        Ok(min) => Ok(min),
        Err(_) => Err(BadRequest::NoPercentage(matches.get_str("min").unwrap())),
    }
}
