//! Worked images: how small files are encoded, what their compactions are, and why they are
//! rejected. Each is the contract of a function that returns images of `sqz_test_fixtures`.
#![tactic(auto)]

mod compacted;
mod defects;
mod dominators;
mod facts;
mod marking;
mod memories;
mod moved_objects;
mod prefixes;
mod questions;
mod unreadable;
mod weak_slots;
mod words;
