//! Why words are no request.

ghost use Rattle.std.specs.Prelude.{◌≡◌};
ghost use Rattle.sqz_look_args.specs.declared.bad_request.BadRequest.TheVariants.{OutOfMemory};

use std::alloc::AllocError;
use std::fmt;

/// Why the words of a command line are no request.
#[derive(Clone, Copy)]
pub enum BadRequest<'a> {
    /// Memory ran out.
    OutOfMemory,
    /// The command takes this argument.
    Missing(&'static str),
    /// The value of `--min` is no percentage.
    NoPercentage(&'a str),
    /// The value of `--by` is no order.
    NoOrder(&'a str),
    /// The value of `--by` is nothing that rows are about.
    NoGrouping(&'a str),
    /// The word is no regular expression, and why.
    NoPattern(&'a str, regex::Error),
}

impl From<AllocError> for BadRequest<'_> {
    ghost from_gives = { λ _ bad. bad ≡ OutOfMemory };

    fn from(_error: AllocError) -> Self {
        BadRequest::OutOfMemory
    }
}

impl fmt::Display for BadRequest<'_> {
    fn fmt<W: fmt::Write>(&self, f: &mut fmt::Formatter<W>) -> fmt::Result {
        match self {
            BadRequest::OutOfMemory => f.write_str("out of memory"),
            BadRequest::Missing(id) => write!(f, "this command takes {id}"),
            BadRequest::NoPercentage(text) => {
                write!(f, "--min takes 0 to 100 percent, as 0.2: {text}")
            }
            BadRequest::NoOrder(text) => write!(f, "--by takes retained or size: {text}"),
            BadRequest::NoGrouping(text) => write!(f, "--by takes class or category: {text}"),
            BadRequest::NoPattern(text, error) => {
                write!(f, "not a regular expression: {text}: {error}")
            }
        }
    }
}
