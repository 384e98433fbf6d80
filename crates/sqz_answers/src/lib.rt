//! What `sqzlook` answers about an image, as data: each number, object and slot of an answer is
//! what a definition says.
#![tactic(auto)]

mod changes;
mod cut_off;
mod differences;
mod findings;
mod group_counts;
mod group_keys;
mod histograms;
pub mod laws;
mod levels;
mod limits;
mod listing;
mod named;
mod objects;
mod outermost;
mod references;
mod retained_histograms;
mod rows;
mod sizes;
mod slots;
mod smaller;
mod together;
mod top_tree;
mod variable_parts;

pub use changes::{Change, changes_of};
pub use differences::{bytes_or_none, sort_by_difference};
pub use findings::{Findings, findings_of};
pub use group_counts::{GroupCount, objects_after};
pub use histograms::{Histogram, dead_histogram, live_histogram};
pub use limits::{MOST_DEPTH, TopLimits};
pub use listing::{DeadListing, Listed, Listing, dead_listing_of, listing_of, sort_by_retained};
pub use named::{NamedTotal, sizes_by_name};
pub use objects::{Shown, shown_object};
pub use references::{Reference, references_to};
pub use retained_histograms::{RetainedHistogram, RetainedTotal, retained_histogram};
pub use rows::{TopObjects, TopRow, TopRows, top_rows};
pub use sizes::{InBytes, Size, size_or_nothing};
pub use slots::{ShownSlot, slot_at, slot_count};
pub use variable_parts::VariableParts;
