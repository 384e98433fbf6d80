//! Lists of words, independent of how they are stored.

ghost use Rattle.std.specs.Prelude.{◌≡◌, ℕ, ◌<◌, List, length, slice_index};

/// A list of 32-bit words that are read by index.
pub trait WordList {
    /// The words.
    ghost words: { Self → List ℕ };

    /// Returns the number of words.
    fn count(&self) -> usize
        ensures { result ≡ length (words self.now) };

    /// Returns word `k`.
    fn word(&self, k: usize) -> u32
        requires { k < length (words self.now) }
        ensures { result ≡ slice_index (words self.now) k };
}

impl WordList for &[u32] {
    ghost words = { λ s. s.now };

    fn count(&self) -> usize {
        self.len()
    }

    fn word(&self, k: usize) -> u32 {
        self[k]
    }
}
