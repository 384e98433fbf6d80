//! Answers about an image, printed as text for a person or as lines of JSON: its classes and their
//! instances, what an object is, what keeps it, what points to it, and which strings match.
#![tactic(auto)]

mod category_sums;
mod census;
mod dump;
mod holders;
mod list;
mod matches;
mod method_header;
mod missing;
mod near_names;
mod path_rows;
mod paths;
mod preview_fields;
mod refs;
mod show;
mod slot_holders;
mod slot_rows;
mod why;

pub use census::{print_census, print_dead_census, print_retained_census};
pub use dump::print_dump;
pub use list::{print_dead_list, print_list};
pub use matches::print_matches;
pub use missing::missing_message;
pub use refs::print_refs;
pub use show::print_show;
pub use why::print_why;
