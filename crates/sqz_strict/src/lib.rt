//! What a virtual machine would trip over in an image that the format allows.
#![tactic(auto)]

mod associations;
mod class_shape;
mod classless;
mod findings;
mod sets;
mod shapes;
mod warning;
mod warnings;

pub use class_shape::ClassShape;
pub use findings::{Findings, findings_of};
pub use warning::Warning;
pub use warnings::warnings_of;
