//! What a command line of `sqzcompact` asks for.
#![tactic(auto)]

mod arguments;
pub mod laws;

pub use arguments::{Arguments, read_arguments};
