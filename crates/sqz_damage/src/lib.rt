//! A damaged image file: the best reading of its data words as chunks and gaps, where words were lost,
//! where faults are, the file that is mended of it, the pointers that point to no object, and the
//! image that is repaired.
#![tactic(auto)]

mod dangling;
mod filling;
mod fit;
mod fits;
mod gap;
mod gaps;
pub mod laws;
mod loss;
mod mend;
mod places;
mod reading;
mod repaired;
mod split;
mod step;
mod steps;
mod voted;
mod votes;

pub use dangling::{Becomes, NilError, Patch, nil_patches, write_patches};
pub use filling::fill_gaps;
pub use gap::Gap;
pub use gaps::gaps_of;
pub use loss::loss_in;
pub use mend::{
    Damage, DataRange, MendedFile, RecoverError, Recovered, fault_of, image_in, mend_file, recover,
};
pub use places::{
    FaultPlace, GapPlace, UnreadPlace, byte_of_word, bytes_in_gaps, fault_place, gap_place,
    near_object, unread_place,
};
pub use repaired::{
    LiveSize, RepairError, RepairSummary, Repaired, repair, repair_summary, summary_of,
};
