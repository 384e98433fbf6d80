//! The strings and symbols that match a regular expression.

ghost use Rattle.std.specs.Prelude.{◌≡◌, ◌<◌, All, IfOk};
ghost use Rattle.regex.specs.Bytes.{matcher_pattern, regex_pattern};
ghost use Rattle.sqz_image.specs.Objects.{object_count};
ghost use Rattle.sqz_facts.specs.Matches.{IsText, is_match, matches};

use crate::texts::text_of;
use regex::bytes::{Matcher, Regex};
use sqz_object::ObjectIndex;
use sqz_trace::Live;
use std::alloc::{AllocError, Global};

/// Returns the live strings and symbols that match a regular expression, by index. A character of
/// the expression is a byte. Fails only if out of memory.
pub fn matches_of(
    alloc: Global,
    live: &Live<'_>,
    pattern: &Regex,
) -> Result<Vec<ObjectIndex>, AllocError>
    ensures matches { IfOk result (λ found. found.items ≡ matches live.now.graph.heap.now
        live.now.graph.weak live.now.marks (regex_pattern pattern.now)) }
    ensures texts { IfOk result (λ found.
        All (IsText live.now.graph.heap.now live.now.graph.weak) found.items) }
{
    let mut matcher = pattern.matcher(alloc)?;
    let mut found = Vec::new(alloc);
    for object in 0..live.graph.heap.len() {
        if is_match(alloc, live, &mut matcher, object)? {
            found.push(object)?;
        }
    }
    Ok(found)
}

/// Returns whether an object is a live string or symbol that matches.
fn is_match(
    alloc: Global,
    live: &Live<'_>,
    matcher: &mut Matcher<'_>,
    object: ObjectIndex,
) -> Result<bool, AllocError>
    requires { object < object_count live.now.graph.heap.now }
    ensures found { IfOk result (λ is. is ≡ is_match live.now.graph.heap.now live.now.graph.weak
        live.now.marks (matcher_pattern matcher.old) object) }
    ensures same { matcher_pattern matcher.new ≡ matcher_pattern matcher.old }
{
    if !live.marks.has(object) {
        return Ok(false);
    }
    match text_of(alloc, live.graph, object)? {
        Some(text) => Ok(matcher.is_match(&text)),
        None => Ok(false),
    }
}
