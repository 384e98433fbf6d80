//! What retains most in an image: the dominator tree from the special objects array, printed as
//! rows of text, as lines of JSON, or as folded stacks.
#![tactic(auto)]

mod folded;
mod options;
mod rows;
mod share;
mod smaller;
mod top;
mod variables;

pub use top::print_top;
