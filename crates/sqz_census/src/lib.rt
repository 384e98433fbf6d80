//! The census of an image: the class histogram of its live objects with the new addresses and the
//! names of classes, and its text.
#![tactic(auto)]

pub mod laws;
mod printing;
mod row;
mod row_maker;
mod rows;

pub use printing::print;
pub use row::Row;
pub use rows::census;
