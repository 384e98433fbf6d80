//! How workers share a pass out.

ghost use Rattle.std.specs.Prelude.{◌≡◌, ◌<◌, ◌≤◌, []};
ghost use Rattle.sqz_marks.specs.Core.{kept_of, part_of, joined};
ghost use Rattle.sqz_marks.specs.Table.{IsPassOf, knowing};

use crate::pass::Pass;
use crate::plays::{Joining, Parting, Share, Weigh};
use crate::table::MarkTable;
use crate::view::View;
use atomic_table::Seat;
use std::marker::Brand;

impl MarkTable<'_> {
    /// Gives part of the pass's weight to a new pass, which knows nothing.
    pub fn split_off(&self, pass: &mut Pass, weight: u32) -> Pass
        requires of { IsPassOf self.now pass.old }
        requires positive { 1 ≤ weight }
        requires rest { weight < pass.old.view.weight }
        ensures kept { pass.new ≡ knowing pass.old (kept_of weight pass.old.view) }
        ensures part { result ≡ knowing pass.old (part_of weight) }
    {
        let seat = self.part::<Brand>(&mut pass.seat, weight);
        pass.weight -= weight;
        Pass {
            seat,
            weight,
            workers: pass.workers,
        }
    }

    /// Splits a pass in two: the first keeps what it knows and the rest of the weight, the second
    /// has this weight and knows nothing.
    pub fn split(&self, mut pass: Pass, weight: u32) -> (Pass, Pass)
        requires of { IsPassOf self.now pass }
        requires positive { 1 ≤ weight }
        requires rest { weight < pass.view.weight }
        ensures kept { result.0 ≡ knowing pass (kept_of weight pass.view) }
        ensures part { result.1 ≡ knowing pass (part_of weight) }
    {
        let part = self.split_off(&mut pass, weight);
        (pass, part)
    }

    /// Takes in another pass: what it knows, and its weight.
    pub fn join_into(&self, pass: &mut Pass, other: Pass)
        requires of { IsPassOf self.now pass.old }
        requires other { IsPassOf self.now other }
        ensures joined { pass.new ≡ knowing pass.old (joined pass.old.view other.view) }
    {
        let Pass {
            seat,
            weight,
            workers: _,
        } = other;
        self.table.shared.join_seat::<Joining>(&mut pass.seat, seat);
        self.table.shared.load::<Weigh>(&mut pass.seat, 0);
        pass.weight += weight;
    }

    /// Joins two passes into one, which knows what both know and has the weight of both.
    pub fn join(&self, mut pass: Pass, other: Pass) -> Pass
        requires of { IsPassOf self.now pass }
        requires other { IsPassOf self.now other }
        ensures joined { result ≡ knowing pass (joined pass.view other.view) }
    {
        self.join_into(&mut pass, other);
        pass
    }

    /// Returns the seat of a new pass with this weight.
    fn part<W: Share>(&self, seat: &mut Seat<(), View>, weight: u32) -> Seat<(), View>
        requires of { seat.old.table_id ≡ self.now.table }
        requires weight { weight ≡ W.weight }
        requires positive { 1 ≤ weight }
        requires rest { weight < seat.old.me.0.weight }
        ensures kept { (seat.new.table_id ≡ seat.old.table_id)
            × (seat.new.me ≡ (kept_of weight seat.old.me.0, seat.old.me.1)) }
        ensures part { (result.table_id ≡ seat.old.table_id) × (result.me ≡ (part_of weight, [])) }
    {
        let _ = weight;
        self.table.shared.split_seat::<Parting<W>>(seat)
    }
}
