//! The strings and symbols that match a regular expression.

ghost use Rattle.std.specs.Prelude.{IfSome};
ghost use Rattle.sqz_facts.specs.Matches.{IsText};
ghost use Rattle.sqz_look_view.specs.Inspectors.{IsObjectOf};

use crate::slot_holders::referrer_text;
use regex::bytes::Regex;
use sqz_facts::{Referrer, first_referrers_of, matches_of, text_of};
use sqz_image::Sink;
use sqz_look_view::{Inspector, Out, PrintError};
use sqz_names::{Label, escaped};
use sqz_object::ObjectIndex;
use std::alloc::AllocError;

/// The maximum number of bytes that are printed as text, as in labels.
const MOST_BYTES: usize = 40;

/// The number of bytes that are printed before a match.
const BYTES_BEFORE: usize = 10;

/// Prints the live strings and symbols that match a regular expression, by address, each with the
/// first slot of a live object that points to it.
pub fn print_matches<C: Sink>(
    inspector: &Inspector<'_>,
    pattern: &Regex,
    out: &mut Out<'_, C>,
) -> Result<(), PrintError> {
    let (alloc, live) = (inspector.alloc, &inspector.live);
    let matches = matches_of(alloc, live, pattern)?;
    let shown = &matches[..out.shown(matches.len())];
    let referrers = first_referrers_of(alloc, live, shown)?;
    out.heading("address   text");
    for (object, referrers) in shown.iter().zip(&referrers) {
        print_match(inspector, *object, pattern, referrers.first, out);
    }
    out.rest(matches.len(), "string");
    out.end()
}

/// Prints a string or symbol: to JSON all its bytes as text, and as text its label, or the bytes
/// around the first match if that begins after those of the label.
fn print_match<C: Sink>(
    inspector: &Inspector<'_>,
    object: ObjectIndex,
    pattern: &Regex,
    referrer: Option<Referrer>,
    out: &mut Out<'_, C>,
)
    requires text { IsText inspector.now.live.graph.heap.now inspector.now.live.graph.weak object }
    requires referrer { IfSome referrer (λ referrer.
        IsObjectOf inspector.now referrer.object) }
{
    let alloc = inspector.alloc;
    out.hex("address", inspector.address(object).0);
    out.text("class", inspector.names.name_of_class_of(object));
    match text_of(alloc, inspector.live.graph, object) {
        Ok(Some(bytes)) if out.is_json() => out.text("text", escaped(alloc, &bytes)),
        Ok(Some(bytes)) => out.text("text", matched_text(inspector, object, &bytes, pattern)),
        Ok(None) => unreachable!(),
        Err(error) => out.need(Err(error)),
    }
    match referrer {
        Some(referrer) => out.text("holder", referrer_text(inspector, referrer)),
        None => out.null("holder"),
    }
    out.line("{address}  {text}{holder/  in }");
}

/// Returns the label of a string or symbol with these bytes, or the bytes around the first match if
/// that begins after those of the label.
fn matched_text(
    inspector: &Inspector<'_>,
    object: ObjectIndex,
    bytes: &[u8],
    pattern: &Regex,
) -> Result<String, AllocError>
    requires { IsObjectOf inspector.now object }
{
    if bytes.len() > MOST_BYTES
        && let Some(found) = pattern.matcher(inspector.alloc)?.find(bytes)
        && found.start() >= MOST_BYTES
    {
        return text_around(inspector, object, bytes, found.start());
    }
    inspector.names.label(object)
}

/// Returns the bytes around a match that begins at `start`: those of a string in quotes.
fn text_around(
    inspector: &Inspector<'_>,
    object: ObjectIndex,
    bytes: &[u8],
    start: usize,
) -> Result<String, AllocError>
    requires { IsObjectOf inspector.now object }
{
    let alloc = inspector.alloc;
    let (_, rest) = bytes.split_at(start.saturating_sub(BYTES_BEFORE).min(bytes.len()));
    let (around, after) = rest.split_at(MOST_BYTES.min(rest.len()));
    let around = escaped(alloc, around)?;
    let dots = if after.is_empty() { "" } else { ".." };
    if inspector.names.label_of(object)? == Label::Symbol {
        format!(in alloc; "#..{around}{dots}")
    } else {
        format!(in alloc; "..'{around}'{dots}")
    }
}
