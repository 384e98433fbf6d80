//! Numbers of objects and bytes.

ghost use Rattle.std.specs.Prelude.{◌≡◌, unwrap_or};
ghost use Rattle.sqz_answers.specs.Differences.{bytes_or_none};
ghost use Rattle.sqz_answers.specs.Sizes.{no_size};

/// A number of objects, and the bytes of their chunks, header words included.
#[derive(Clone, Copy, Debug, PartialEq, Eq)]
pub struct Size {
    pub objects: u64,
    pub bytes: u64,
}

/// The size of nothing.
pub(crate) const NOTHING: Size = Size {
    objects: 0,
    bytes: 0,
};

/// Returns a size. What is missing has no objects and no bytes.
pub fn size_or_nothing(size: Option<Size>) -> Size
    ensures is { result ≡ unwrap_or size no_size }
    ensures bytes { result.bytes ≡ bytes_or_none (λ size. size.bytes) size }
{
    size.unwrap_or(NOTHING)
}

/// A value with a number of bytes.
pub trait InBytes {
    ghost use Rattle.std.specs.Prelude.{◌≡◌, ℕ};

    ghost bytes_of: { Self → ℕ };

    /// Returns the number of bytes.
    fn bytes(&self) -> u64
        ensures { result ≡ bytes_of self.now };
}

impl InBytes for Size {
    ghost bytes_of = { λ size. size.bytes };

    fn bytes(&self) -> u64 {
        self.bytes
    }
}

impl InBytes for u64 {
    ghost bytes_of = { λ bytes. bytes };

    fn bytes(&self) -> u64 {
        *self
    }
}
