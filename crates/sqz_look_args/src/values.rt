//! The values of arguments.

ghost use Rattle.std.specs.Prelude.{◌≡◌, IfOk, Some};
ghost use Rattle.clap.specs.Walk.{texts};
ghost use Rattle.clap.specs.Words.{found_of, rows_of};
ghost use Rattle.sqz_look_args.specs.Requests.{first_given, given, has_flag};

use crate::bad_request::BadRequest;
use clap::ArgMatches;
use regex::bytes::Regex;
use regex::{Error, RegexBuilder};
use std::alloc::{AllocError, Global};

/// Returns the value of a required argument.
pub(crate) fn value_of<'a>(
    matches: &ArgMatches<'a>,
    id: &'static str,
) -> Result<&'a str, BadRequest<'a>>
    ensures { IfOk result (λ value. first_given id.now (rows_of (found_of matches.now))
        ≡ Some value.now) }
{
    match matches.get_str(id) {
        Some(value) => Ok(value),
        None => Err(BadRequest::Missing(id)),
    }
}

/// Returns the regular expression of a command line: for bytes, of which each is a character.
pub(crate) fn pattern_of<'a>(
    alloc: Global,
    matches: &ArgMatches<'a>,
) -> Result<Regex, BadRequest<'a>> {
    let text = value_of(matches, "REGEX")?;
    match RegexBuilder::new(text).unicode(false).build_bytes(alloc) {
        Ok(pattern) => Ok(pattern),
        Err(Error::OutOfMemory) => Err(BadRequest::OutOfMemory),
        Err(error) => Err(BadRequest::NoPattern(text, error)),
    }
}

/// Returns the values of an argument.
pub(crate) fn values_of<'a>(
    alloc: Global,
    matches: &ArgMatches<'a>,
    id: &str,
) -> Result<Vec<&'a str>, AllocError>
    ensures { IfOk result (λ values. texts values.items
        ≡ given id.now (rows_of (found_of matches.now))) }
{
    match matches.get_strs(id) {
        Some(values) => Vec::from_slice(alloc, values),
        None => Ok(Vec::new(alloc)),
    }
}

/// Returns whether an option without a value is given.
pub(crate) fn flag_of(matches: &ArgMatches<'_>, id: &str) -> bool
    ensures { result ≡ has_flag id.now (rows_of (found_of matches.now)) }
{
    // the contract of `get_flag` is silent about other texts than `true` and `false`
    matches.get_one(id) == Some(true)
}

/// Returns words joined by spaces.
pub(crate) fn joined(alloc: Global, words: &[&str]) -> Result<String, AllocError> {
    let mut text = String::new(alloc);
    for (index, word) in words.iter().enumerate() {
        if index > 0 {
            text.push(' ')?;
        }
        text.push_str(word)?;
    }
    Ok(text)
}
