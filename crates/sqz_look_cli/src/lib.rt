//! Questions about images, as a command line asks them, and their answers.
#![tactic(auto)]

mod answering;
mod answers;
mod comparison;
mod each;
mod entry_point;
mod images;
mod lines;
mod meant;
mod objects;
mod opening;
mod page;
mod quiet_pipe;
mod words;

pub use answering::answer_request;
pub use entry_point::look;
pub use lines::with_lines;
pub use quiet_pipe::QuietPipe;
pub use words::look_words;
