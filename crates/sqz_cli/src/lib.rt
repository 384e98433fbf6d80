//! What the programs share: the words of the command line, the output file, fault lines and exit
//! codes.
#![tactic(auto)]

mod exits;
mod fault_line;
mod output_file;
mod printing;
mod refusals;
mod words;
mod wrong_words;

pub use exits::{BAD_ARGUMENTS, BAD_IMAGE, DEVICE_FAILED, DONE};
pub use output_file::OutputFile;
pub use printing::print;
pub use refusals::{explain, refuse};
pub use words::words_or_exit;
pub use wrong_words::refuse_words;
