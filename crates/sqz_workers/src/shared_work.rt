//! What workers that mark share, and their turns: a team is split until it has one worker.

ghost use Rattle.std.specs.Prelude.{◌≡◌, ◌≤◌, length};
ghost use Rattle.std.specs.Thread.{IsSync};
ghost use Rattle.sqz_marks.specs.Table.{IsPassOf};
ghost use Rattle.sqz_workers.specs.Gains.{HasGained};
ghost use Rattle.sqz_workers.specs.Teams.{IsTeamOf, HasMarked};

use crate::gate::{Gate, Phase};
use crate::scanning::scan_if_grey;
use crate::team::Team;
use crate::turns::Turns;
use crossbeam_deque::{Steal, Stealer, Worker};
use sqz_marks::{MarkTable, Pass};
use sqz_object::ObjectIndex;
use std::thread::{Threads, join_mut};

/// What all workers share as they mark.
#[derive(Drop)]
pub(crate) struct SharedWork<'a, 't, R, G> {
    pub rt: &'a R,
    pub table: &'a MarkTable<'t>,
    /// Steals from each worker's deque, in the order of the workers' numbers.
    pub stealers: &'a [Stealer<ObjectIndex>],
    pub gate: &'a G,
}

impl<R: Threads + Sync, G: Gate> SharedWork<'_, '_, R, G> {
    /// Runs the workers of a team, each in a thread of its own if one can be started.
    #[cycle(teams)]
    pub fn run_team(&self, team: &mut Team<'_>)
        requires { IsTeamOf self.now.table.now team.old }
        ensures { HasMarked team.old team.new }
    {
        if team.pass.weight() == 1 {
            let deques = &mut *team.deques;
            team.won[0] = self.run_worker(team.pass, &mut deques[0], team.first);
        } else {
            self.run_halves(team);
        }
    }

    /// Splits a team of at least two workers into halves, and runs both.
    #[cycle(teams)]
    fn run_halves(&self, team: &mut Team<'_>)
        requires team { IsTeamOf self.now.table.now team.old }
        requires two { 2 ≤ length team.old.won.now }
        ensures { HasMarked team.old team.new }
    {
        let shares = team.pass.weight();
        let high = shares / 2;
        let low = shares - high;
        let mut part = self.table.split_off(team.pass, high);
        let deques = &mut *team.deques;
        let won = &mut *team.won;
        let (low_deques, high_deques) = deques.split_at_mut(low as usize);
        let (low_won, high_won) = won.split_at_mut(low as usize);
        let mut low_team = Team {
            first: team.first,
            pass: &mut *team.pass,
            deques: low_deques,
            won: low_won,
        };
        let mut high_team = Team {
            first: team.first + low,
            pass: &mut part,
            deques: high_deques,
            won: high_won,
        };
        self.run_both(&mut low_team, &mut high_team);
        self.table.join_into(team.pass, part);
    }

    /// Runs the workers of two teams at one time.
    #[cycle(teams)]
    fn run_both(&self, team: &mut Team<'_>, other: &mut Team<'_>)
        requires team { IsTeamOf self.now.table.now team.old }
        requires other { IsTeamOf self.now.table.now other.old }
        ensures team { HasMarked team.old team.new }
        ensures other { HasMarked other.old other.new }
    {
        let mut front = ||
            requires { IsSync R.row × IsSync G.row × IsTeamOf self.now.table.now team.now }
            ensures { HasMarked team.entry.now team.exit.now }
        { self.run_team(team) };
        let mut back = ||
            requires { IsSync R.row × IsSync G.row × IsTeamOf self.now.table.now other.now }
            ensures { HasMarked other.entry.now other.exit.now }
        { self.run_team(other) };
        join_mut(self.rt, &mut front, &mut back);
    }
}

impl<R, G: Gate> SharedWork<'_, '_, R, G> {
    /// Takes the turns of a worker. In each it passes the gate, takes an object from its own deque,
    /// or else from another's, and scans it. It leaves after 64 turns in a row that found no
    /// object, or after four turns for each object and 4096 more. Returns how many objects it won.
    fn run_worker(&self, pass: &mut Pass, deque: &mut Worker<ObjectIndex>, worker: u32) -> u64
        requires { IsPassOf self.now.table.now pass.old }
        ensures { HasGained pass.old pass.new result }
    {
        let mut won = 0u64;
        let mut turns = Turns::new(self.table.heap());
        while let Some(turn) = turns.next() {
            self.gate.pass(Phase::Mark, worker, turn);
            let Some(object) = self.next_object(deque, worker) else {
                turns.note(false);
                continue;
            };
            turns.note(true);
            let more = scan_if_grey(self.table, pass, deque, object).unwrap_or(0);
            won += u64::from(more);
        }
        won
    }

    /// Returns an index from the worker's own deque, or else from the first of the others that
    /// gives one.
    fn next_object(&self, deque: &mut Worker<ObjectIndex>, worker: u32) -> Option<ObjectIndex> {
        match deque.pop() {
            Some(object) => Some(object),
            None => self.steal(worker),
        }
    }

    /// Returns an index from the first of the other workers' deques that gives one.
    fn steal(&self, worker: u32) -> Option<ObjectIndex> {
        for (other, stealer) in self.stealers.iter().enumerate() {
            if other != worker as usize {
                if let Steal::Success(object) = stealer.steal() {
                    return Some(object);
                }
            }
        }
        None
    }
}
