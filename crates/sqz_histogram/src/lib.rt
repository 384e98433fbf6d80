//! The class histogram of marked objects, the names of classes, and the bytes of byte objects.
#![tactic(auto)]

mod bytes;
mod classes;
mod entries;
mod group;
pub mod laws;
mod names;
mod object_classes;
mod shares;
mod tallies;
mod totals;

pub use bytes::first_bytes;
pub use group::{Group, GroupTotal};
pub use names::{ClassName, class_name, compact_name, naming};
pub use object_classes::ObjectClasses;
pub use totals::histogram;
