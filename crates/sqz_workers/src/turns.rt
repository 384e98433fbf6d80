//! The number of turns that a worker takes, in either way of marking.

ghost use Rattle.std.specs.Prelude.{◌≡◌, ◌↔◌, ◌+◌, ◌*◌, ◌^◌, ◌<◌, ◌≤◌, if◌then◌else◌};
ghost use Rattle.std.specs.Prelude.{IsSome, IsNone, IfSome};
ghost use Rattle.sqz_image.specs.Objects.{object_count};

use sqz_image::Heap;

/// The most turns in a row that may find no object: after these a worker leaves.
const MOST_EMPTY_TURNS: u32 = 64;

/// How far a worker has come in its turns. It leaves after 64 turns in a row that found no object,
/// or after the most turns that it may take.
#[derive(Drop)]
pub(crate) struct Turns {
    /// The number of the next turn, counted from 0.
    turn: u64,
    /// The most turns that it may take.
    most: u64,
    /// How many turns in a row, up to the last one, found no object.
    empty: u32,
}

impl Turns {
    /// Returns the state before the first turn. A worker may take four turns for each object of
    /// the heap and 4096 more.
    pub fn new(heap: &Heap) -> Self
        ensures first { result.turn ≡ 0 }
        ensures most { result.most ≡ 4 * object_count heap.now + 4096 }
        ensures few { result.most ≤ 2 ^ 33 }
        ensures empty { result.empty ≡ 0 }
    {
        Turns {
            turn: 0,
            most: 4 * u64::from(heap.len()) + 4096,
            empty: 0,
        }
    }

    /// Begins the next turn. Returns its number, counted from 0, or None if the worker leaves.
    pub fn next(&mut self) -> Option<u64>
        ensures limits { IsSome result ↔
            ((self.old.turn < self.old.most) × (self.old.empty < MOST_EMPTY_TURNS)) }
        ensures turn { IfSome result (λ turn. turn ≡ self.old.turn) }
        ensures begun { IfSome result (λ turn.
            self.new ≡ record self.old { turn = self.old.turn + 1 }) }
        ensures left { IsNone result → self.new ≡ self.old }
    {
        if self.empty >= MOST_EMPTY_TURNS || self.turn >= self.most {
            return None;
        }
        let turn = self.turn;
        self.turn += 1;
        Some(turn)
    }

    /// Records whether the turn that began last found an object.
    pub fn note(&mut self, found: bool)
        requires { self.old.empty < MOST_EMPTY_TURNS }
        ensures { self.new ≡ record self.old { empty = if found then 0 else self.old.empty + 1 } }
    {
        self.empty = if found { 0 } else { self.empty + 1 };
    }
}
