//! What changed between two images, printed as text or as lines of JSON: objects and bytes,
//! classes, what variables retain, and what differs between partners, by the objects with names
//! that own it. Nothing is compared by address.
#![tactic(auto)]

mod alone;
mod aspects;
mod bytes;
mod categories;
mod changed;
mod changed_rows;
mod classes;
mod compared;
mod cut;
mod definitions;
mod diff;
mod first_difference;
mod found;
mod holder_rows;
mod holders;
mod keys;
mod kinds;
mod matched;
mod methods;
mod named_objects;
mod names;
mod owners;
mod paths;
mod quiet;
mod rows;
mod signed;
mod texts;
mod variables;
mod whole_names;
mod words;

pub use diff::print_diff;
