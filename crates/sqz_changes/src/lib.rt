//! What changed between two images: the names that one image alone has, and where partners differ,
//! by the objects with names that own them.
#![tactic(auto)]

mod anchors;
mod bytecodes;
mod change;
mod changes;
mod comparison;
mod headers;
pub mod laws;
mod leads;
mod name;
mod named;
mod owners;
mod pairs;
mod place;
mod places;
mod singles;
mod tallies;
mod tally;

pub use change::{Change, Changes};
pub use changes::changes_between;
pub use comparison::Comparison;
pub use leads::Step;
pub use name::{ClassName, Name};
pub use named::{Named, named_pairs, only_in};
pub use place::{Difference, Place};
