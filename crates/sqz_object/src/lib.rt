//! Words, values, header words and chunks of a 32-bit Squeak object memory.
//!
//! No function of this crate allocates memory.
#![tactic(auto)]

mod base;
mod bit_field;
mod chunk;
pub mod laws;
mod layout;
mod order;
mod units;
mod value;
mod word;
mod word_list;
mod words;

pub use base::{Base, base_of};
pub use bit_field::BitField;
pub use chunk::{Chunk, ChunkFault, Kind, chunk_at, chunk_in, known_chunk};
pub use layout::Layout;
pub use order::Order;
pub use units::{Address, ObjectIndex, WordIndex};
pub use value::{Value, value_of};
pub use word::{put_word, word_at};
pub use word_list::WordList;
pub use words::{WordIter, Words};
