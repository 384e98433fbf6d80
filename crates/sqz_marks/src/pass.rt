//! A worker's handle on the mark table.

ghost use Rattle.std.specs.Prelude.{◌≡◌, ◌≤◌, ◌==◌};

use crate::view::View;
use crate::workers::Workers;
use atomic_table::Seat;
use std::marker::Model;

/// A worker's handle on the mark table: the share of one or more workers in the marking. It can be
/// split and joined. Contracts see what it knows.
#[derive(Drop)]
pub struct Pass {
    pub(crate) seat: Seat<(), View>,
    pub(crate) weight: u32,
    pub(crate) workers: Workers,
}

impl Model for Pass {
    ghost use Rattle.std.specs.Prelude.{◌≡◌, ◌≤◌, []};
    ghost use Rattle.sqz_marks.specs.Table.{HeldPass};

    ghost Value = { HeldPass };

    ghost view = { λ pass. record {
      table = pass.seat.table_id;
      workers = pass.workers;
      view =
          pass.seat.me.0;
    } };

    ghost invariant = { λ pass. (pass.seat.me.1 ≡ []) × (pass.weight ≡ pass.seat.me.0.weight)
        × (1 ≤ pass.weight) };
}

impl Pass {
    /// Returns the number of workers whose share it is, at least 1.
    pub fn weight(&self) -> u32
        ensures weight { result ≡ self.now.view.weight }
        ensures some { 1 ≤ result }
    {
        self.weight
    }

    /// Returns whether it is the share of all workers.
    pub fn is_whole(&self) -> bool
        ensures { result ≡ (self.now.view.weight == self.now.workers) }
    {
        self.workers.number() == self.weight()
    }
}
