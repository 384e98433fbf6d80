//! Two images side by side: whether they are alike, that is, whether their live objects correspond
//! one to one; if not, which objects are partners, and what grew from one image to the other. Alike
//! images have the same digest.
#![tactic(auto)]

mod alikeness;
mod growth;
mod hashing;
mod holder;
mod holders;
pub mod laws;
mod matching;
mod new_objects;
mod objects;
mod partners;
mod seen;
mod sides;
mod words;

pub use alikeness::{Alikeness, compare};
pub use growth::Growth;
pub use hashing::digest;
pub use holder::{Holder, objects_of};
pub use holders::find_holders;
pub use matching::{Matching, Pair};
pub use new_objects::mark_new;
pub use partners::partners_of;
pub use seen::seen_target;
pub use sides::Sides;
pub use words::{bytes_match, untraced, untraced_match};
