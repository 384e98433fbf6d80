//! Where the words of an image are: those that a fault, a gap or a bad pointer is about, among the
//! data words, in memory and in the file.

mod bytes;
mod faults;
mod gaps;
mod near;
mod unread;

pub use bytes::byte_of_word;
pub use faults::{FaultPlace, fault_place};
pub use gaps::{GapPlace, bytes_in_gaps, gap_place};
pub use near::near_object;
pub use unread::{UnreadPlace, unread_place};
