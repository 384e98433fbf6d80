//! The mark table that workers share, and their passes.
//!
//! The mark table can be used without workers in threads. In this example one pass marks a heap,
//! with a list of the objects that it won; an object is won at most once, so there are no more
//! turns than objects:
//!
//! ```text
//! let (table, mut pass) = MarkTable::new(alloc, heap, weak, &regions, Workers::new(1)?)?;
//! let mut won = Vec::new(alloc);
//! won.push(heap.special())?;
//! for _ in 0..heap.len() {
//!     let Some(object) = won.pop() else { break };
//!     let edges = table.edges(object);
//!     for slot in edges.slots() {
//!         if let Claim::Won(found) = table.claim_of(&mut pass, &edges, slot) {
//!             table.count(&mut pass, found);
//!             won.push(found)?;
//!         }
//!     }
//!     table.blacken(&mut pass, object);
//! }
//! match table.close(alloc, pass) {
//!     Ok(closed) => Ok((closed.shades, closed.live_words)),
//!     Err(_) => Err(Fault::OutOfMemory),
//! }
//! ```
//!
//! Several workers each take a part of the pass with `split_off`, and give it back with
//! `join_into`. The example is proved as a test, in `alone` of `sqz_test_marks`.
#![tactic(auto)]

mod claim;
mod closed;
pub mod laws;
mod pass;
mod plays;
mod sharing;
mod table;
mod view;
mod workers;

pub use claim::Claim;
pub use closed::Closed;
pub use pass::Pass;
pub use table::MarkTable;
pub use view::View;
pub use workers::Workers;
