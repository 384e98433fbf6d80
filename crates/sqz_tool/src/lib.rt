//! Compacts an image: reads it, finds its reachable objects, and writes them without gaps; and the
//! program that does so with files.
#![tactic(auto)]

mod compact_files;
mod compaction;
mod entry_point;
mod file_views;
pub mod laws;
mod observer;
mod opened;
mod plan;
mod running;
mod session;
mod summary;

pub use compact_files::compact;
pub use entry_point::program;
pub use file_views::FileViews;
pub use observer::{NoObserver, Stage, StageObserver};
pub use plan::Plan;
pub use running::{run, run_observed};
pub use session::Session;
pub use summary::Summary;
