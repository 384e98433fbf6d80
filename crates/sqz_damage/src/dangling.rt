//! Pointers of live objects that lead nowhere: the data words that have to be written anew so that
//! they point to nil, and writing them.

mod dangling;
mod lost;
mod nil_error;
mod patch;
mod patches;
mod pushing;
mod untraceable;
mod writing;

pub use nil_error::NilError;
pub use patch::{Becomes, Patch};
pub use patches::nil_patches;
pub use writing::write_patches;
