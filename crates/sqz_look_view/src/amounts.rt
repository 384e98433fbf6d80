//! Numbers of bytes as text.

use std::alloc::{AllocError, Global};

/// The bytes of a kilobyte.
const KILOBYTE: u64 = 1 << 10;

/// The bytes of a megabyte.
const MEGABYTE: u64 = 1 << 20;

/// Returns a number of bytes as text: the number, or if `is_human` in bytes, KB or MB, with one
/// decimal.
pub(crate) fn amount_text(alloc: Global, bytes: u64, is_human: bool) -> Result<String, AllocError> {
    if !is_human {
        return format!(in alloc; "{bytes}");
    }
    if bytes < KILOBYTE {
        return format!(in alloc; "{bytes} B");
    }
    let (unit, name) = if bytes < MEGABYTE {
        (KILOBYTE, "KB")
    } else {
        (MEGABYTE, "MB")
    };
    let (whole, tenth) = (bytes / unit, bytes % unit * 10 / unit);
    format!(in alloc; "{whole}.{tenth} {name}")
}

/// Returns the difference of two numbers of bytes with its sign, as text in the form of
/// `amount_text`.
pub(crate) fn difference_text(
    alloc: Global,
    old: u64,
    new: u64,
    is_human: bool,
) -> Result<String, AllocError> {
    let sign = if new >= old { '+' } else { '-' };
    let bytes = amount_text(alloc, old.abs_diff(new), is_human)?;
    format!(in alloc; "{sign}{bytes}")
}
