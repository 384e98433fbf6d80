//! The regions of an object memory, the number of live words of each, and the new addresses of
//! live objects.
#![tactic(auto)]

mod cut;
mod forward;
mod region_bases;
mod regions;
mod sums;

pub use cut::Cut;
pub use forward::Forward;
pub use region_bases::bases;
pub use regions::Regions;
pub use sums::live_words;
