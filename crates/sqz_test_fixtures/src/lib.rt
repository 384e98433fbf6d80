//! Small images for tests: their chunks, their files, and what becomes of them.
#![tactic(auto)]

pub mod accepted;
mod chunks;
mod files;
mod images;
mod tables;
pub mod unreadable;
pub mod with_bad_contexts;
pub mod with_bad_headers;
pub mod with_bad_methods;
pub mod with_classes;
pub mod with_contexts;
pub mod with_defects;
pub mod with_formats;
pub mod with_other_bytes;
pub mod with_weak_classes;
pub mod with_weak_objects;
mod worked;

pub use chunks::{Chunk, LEAF, NIL, ODD};
pub use files::{
    Before, PLAIN, TestFile, bytes_of, file_in, file_of, image_of, put_header, put_words,
};
pub use images::{Change, Compaction, EMPTY, TestImage, with_word, words_of};
pub use tables::worked_tables;
pub use worked::{Contents, Folder, Outcome, WorkedImage};
