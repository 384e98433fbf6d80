//! Shares.

use std::alloc::{AllocError, Global};

/// Returns a part of a whole as a percentage with one digit after the point.
pub(crate) fn share_text(alloc: Global, part: u64, whole: u64) -> Result<String, AllocError> {
    let whole = whole.max(1);
    let tenths = part.saturating_mul(1000).saturating_add(whole / 2) / whole;
    format!(in alloc; "{}.{}", tenths / 10, tenths % 10)
}
