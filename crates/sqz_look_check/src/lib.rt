//! Whether an image is sound and what its file holds, printed as text for a person or as lines of
//! JSON; also for files from which no image can be read.
#![tactic(auto)]

mod causes;
mod check;
mod digest;
mod faults;
mod file_kinds;
mod info;
mod read_failure;
mod repaired;
mod skipped;
mod unreadable;
mod versions;
mod warnings;

pub use check::{
    CheckOptions, Verdict, print_check, print_check_missing, print_check_too_large,
    print_check_unreadable,
};
pub use digest::print_digest;
pub use faults::fault_message;
pub use info::{print_info, print_info_unreadable};
pub use read_failure::ReadFailure;
pub use repaired::repaired_text;
pub use skipped::{print_skipped, skipped_text};
pub use unreadable::Unreadable;
