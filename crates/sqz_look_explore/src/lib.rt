//! A page that shows an image in a browser: the page itself, and after it what the image holds, in
//! blocks of JSON that the page reads.
#![tactic(auto)]

mod classes;
mod counters;
mod explore;
mod head;
mod objects;
mod page;
mod page_out;
mod places;
mod shown;

pub use explore::{FileNotes, print_explore};
