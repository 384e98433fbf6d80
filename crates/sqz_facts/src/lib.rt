//! Facts about an image as data: what its file holds, what an object and a slot hold, what lies at
//! an address, the live objects of a class, the references to an object and the first ones to each of
//! many, which objects can be classes, which strings match a regular expression, and all defects.
#![tactic(auto)]

mod all_defects;
mod classes;
mod files;
mod first_referrers;
mod groups;
pub mod laws;
mod matches;
mod members;
mod objects;
mod placed;
mod referrers;
mod sites;
mod slots;
mod sums;
mod texts;

pub use all_defects::defects_of;
pub use classes::can_be_class;
pub use files::{FileFacts, file_facts};
pub use first_referrers::{FirstReferrers, first_referrers_of};
pub use groups::group_of;
pub use matches::matches_of;
pub use members::{Member, members_of};
pub use objects::{ObjectFacts, object_facts};
pub use referrers::{Referrer, referrers_of};
pub use sites::{Site, site_of};
pub use slots::{Held, SlotFacts, slot_facts};
pub use sums::marked_bytes;
pub use texts::text_of;
