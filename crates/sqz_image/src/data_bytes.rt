//! The data bytes of an image, kept inside the bytes of its file.

ghost use Rattle.std.specs.Prelude.{◌≡◌, ◌-◌, ◌≤◌, take, drop, vec_len};

use std::marker::Model;

/// The data bytes of an image, as a range of all bytes of its file. Contracts see the data bytes.
#[derive(Drop)]
pub(crate) struct DataBytes {
    file: Vec<u8>,
    start: usize,
    end: usize,
}

impl Model for DataBytes {
    ghost use Rattle.std.specs.Prelude.{ℕ, ◌-◌, ◌≤◌, List, take, drop, vec_len};

    ghost Value = { List ℕ };

    ghost view = { λ bytes. take (bytes.end - bytes.start) (drop bytes.start bytes.file.items) };

    ghost invariant = { λ bytes. (bytes.start ≤ bytes.end) × (bytes.end ≤ vec_len bytes.file) };
}

impl DataBytes {
    /// Returns the bytes of `file` from offset `start` up to `end`.
    pub(crate) fn of(file: Vec<u8>, start: usize, end: usize) -> Self
        requires ordered { start ≤ end }
        requires inside { end ≤ vec_len file }
        ensures { result ≡ take (end - start) (drop start file.items) }
    {
        DataBytes { file, start, end }
    }

    /// Returns the data bytes.
    pub(crate) fn as_slice(&self) -> &[u8]
        ensures { result.now ≡ self.now }
    {
        &self.file[self.start..self.end]
    }
}
