//! What is done with the files of images: reading, checking and mending them.
#![tactic(auto)]

mod checks;
mod failure;
mod loading;
mod mending;
mod messages;
mod session;
mod warnings;

pub use checks::check_all;
pub use failure::Failure;
pub use mending::mend;
pub use messages::{explain_failure, print_about_words, print_fault, print_message, print_names};
pub use session::{ReadFile, ReadImage, Session};
pub use warnings::{fault_text, warn, warn_if_large};
