//! Two texts that differ, cut so that their first difference is printed.

use std::alloc::{AllocError, Global};

/// What an object or a slot was, and what it is, as printed.
#[derive(Drop)]
pub(crate) struct Printed {
    pub(crate) old: String,
    pub(crate) new: String,
}

/// Returns two texts with at most `most` characters each, from the first one in which they differ
/// on unless that is among the first `most`. `is_rest` says that both are rests of longer texts,
/// which begin alike.
pub(crate) fn cut(
    alloc: Global,
    old: &str,
    new: &str,
    is_rest: bool,
    most: usize,
) -> Result<Printed, AllocError> {
    let pairs = old.chars().zip(new.chars());
    let same = pairs.take_while(|(one, other)| one == other).count();
    let is_cut = is_rest || same >= most;
    let start = if is_cut { same } else { 0 };
    Ok(Printed {
        old: cut_one(alloc, old, start, is_cut, most)?,
        new: cut_one(alloc, new, start, is_cut, most)?,
    })
}

/// Returns a text from a character on, with `..` in place of what is left out before and after.
fn cut_one(
    alloc: Global,
    text: &str,
    start: usize,
    is_cut: bool,
    most: usize,
) -> Result<String, AllocError> {
    let mut part = String::from_str(alloc, if is_cut { ".." } else { "" })?;
    let mut rest = text.chars().skip(start);
    for character in rest.by_ref().take(most) {
        part.push(character)?;
    }
    if rest.next().is_some() {
        part.push_str("..")?;
    }
    Ok(part)
}
