//! The live objects at their new addresses, moved by workers that share the regions.
#![tactic(auto)]

mod moved_words;
mod mover;
mod piece_sizes;
mod pieces;
mod shared_regions;
mod sliding;

pub use moved_words::moved_word;
pub use pieces::Pieces;
pub use sliding::slide;
