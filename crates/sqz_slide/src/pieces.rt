//! The words of the live objects of each region.

ghost use Rattle.std.specs.Prelude.{◌≡◌, map};

use std::marker::Model;

/// The words of the live objects after the move: one piece per region, in order. Contracts see the
/// list of the pieces.
#[derive(Drop)]
pub struct Pieces {
    pieces: Vec<Vec<u32>>,
}

impl Model for Pieces {
    ghost use Rattle.std.specs.Prelude.{ℕ, List, map};

    ghost Value = { List (List ℕ) };

    ghost view = { λ pieces. map (λ piece. piece.items) pieces.pieces.items };
}

impl Pieces {
    /// Wraps these pieces.
    pub(crate) fn new(pieces: Vec<Vec<u32>>) -> Pieces
        ensures { result ≡ map (λ piece. piece.items) pieces.items }
    {
        Pieces { pieces }
    }

    /// Returns the pieces. The piece of a region without live objects is empty.
    pub fn as_slice(&self) -> &[Vec<u32>]
        ensures { map (λ piece. piece.items) result.now ≡ self.now }
    {
        &self.pieces
    }
}
