//! The digest of an image.

mod image;
mod object;
mod walk;
mod words;

pub use image::digest;
