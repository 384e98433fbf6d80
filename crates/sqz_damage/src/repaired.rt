//! Image files in which no pointer leads nowhere: words that do become pointers to nil.

mod patched;
mod reading;
mod repairing;
mod sizes;
mod summary;

pub use repairing::{RepairError, Repaired, repair};
pub use sizes::LiveSize;
pub use summary::{RepairSummary, repair_summary, summary_of};
