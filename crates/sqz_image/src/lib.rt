//! Image files of the 32-bit Squeak object memory, version 6502: byte sources and sinks, the file
//! as bytes, and the objects that it holds.
#![tactic(auto)]

mod data_bytes;
mod device;
mod fault;
mod file_parts;
mod header;
mod heap;
mod image;
mod index;
pub mod laws;
mod memory_sink;
mod memory_source;
mod object;
mod ranks;
mod read_source;
mod read_whole;
mod readable;
mod reading;
mod sink_calls;
mod slot;
mod source_calls;
mod starts;
mod write_sink;
mod write_whole;
mod write_words;
mod writing;

pub use device::{DeviceFault, Sink, Source};
pub use fault::Fault;
pub use header::{HEADER_SIZE, Header};
pub use heap::Heap;
pub use image::Image;
pub use memory_sink::MemorySink;
pub use memory_source::MemorySource;
pub use object::Object;
pub use read_source::ReadSource;
pub use read_whole::{read_all, read_image_bytes};
pub use readable::Readable;
pub use reading::{UnreadFile, image_of_file, image_or_file, read_image};
pub use sink_calls::SinkCalls;
pub use slot::Slot;
pub use write_sink::WriteSink;
pub use write_whole::write_all;
pub use writing::write_image;
