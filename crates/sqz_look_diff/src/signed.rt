//! Differences with a sign.

use std::alloc::{AllocError, Global};

/// Returns the difference of two numbers with its sign.
pub(crate) fn signed_difference(alloc: Global, old: u64, new: u64) -> Result<String, AllocError> {
    if new >= old {
        format!(in alloc; "+{}", new - old)
    } else {
        format!(in alloc; "-{}", old - new)
    }
}
