//! A gate that counts the turns of each worker, and holds workers until others have come.

use sqz_workers::{Gate, Phase};
use std::sync::atomic::{AtomicU64, Ordering};
use std::thread;

/// How many workers a gate watches: those with the lowest numbers.
const WATCHED: usize = 8;

/// How often a worker that is held looks for the turn that it is held for.
const MOST_LOOKS: u32 = 10_000_000;

/// A turn of a worker. Both are counted from 0.
#[derive(Clone, Copy, PartialEq, Eq)]
pub(crate) struct Turn {
    pub worker: u32,
    pub turn: u64,
}

/// The turn of a worker.
pub(crate) const fn turn_of(worker: u32, turn: u64) -> Turn {
    Turn { worker, turn }
}

/// Holds a worker at a turn until another turn was called.
#[derive(Clone, Copy)]
pub(crate) struct Hold {
    pub at: Turn,
    pub until: Turn,
}

/// Holds each of two workers at its first turn until the other one has come to its own.
pub(crate) const MEETING: [Hold; 2] = [
    Hold {
        at: Turn { worker: 0, turn: 0 },
        until: Turn { worker: 1, turn: 0 },
    },
    Hold {
        at: Turn { worker: 1, turn: 0 },
        until: Turn { worker: 0, turn: 0 },
    },
];

/// Holds the first of two workers at its first turn until the other one has taken its turn 67.
pub(crate) const FIRST_IS_HELD: [Hold; 1] = [Hold {
    at: Turn { worker: 0, turn: 0 },
    until: Turn {
        worker: 1,
        turn: 67,
    },
}];

/// Whether workers did what is wanted, how many turns the first two of them took and how many were
/// not the next one of their worker, and how often a worker was held until a turn was called and
/// how often it was let through before.
pub(crate) type Seen = (bool, (u64, u64, u64), (u64, u64));

/// A gate for one phase.
#[derive(Drop)]
pub(crate) struct TurnGate<'a> {
    phase: Phase,
    holds: &'a [Hold],
    called: [AtomicU64; WATCHED],
    out_of_order: AtomicU64,
    met: AtomicU64,
    missed: AtomicU64,
}

impl<'a> TurnGate<'a> {
    /// A gate that no worker came to yet.
    pub(crate) fn new(phase: Phase, holds: &'a [Hold]) -> TurnGate<'a> {
        TurnGate {
            phase,
            holds,
            called: [
                AtomicU64::new(0),
                AtomicU64::new(0),
                AtomicU64::new(0),
                AtomicU64::new(0),
                AtomicU64::new(0),
                AtomicU64::new(0),
                AtomicU64::new(0),
                AtomicU64::new(0),
            ],
            out_of_order: AtomicU64::new(0),
            met: AtomicU64::new(0),
            missed: AtomicU64::new(0),
        }
    }

    /// How many turns of a worker were called.
    pub(crate) fn turns(&self, worker: u32) -> u64 {
        match self.called.get(worker as usize) {
            Some(called) => called.load(Ordering::SeqCst),
            None => 0,
        }
    }

    /// How many turns of the first two workers were called, and how many turns of all workers that
    /// are not the next one of their worker.
    pub(crate) fn turns_of_two(&self) -> (u64, u64, u64) {
        let out_of_order = self.out_of_order.load(Ordering::SeqCst);
        (self.turns(0), self.turns(1), out_of_order)
    }

    /// How often a worker was held until the turn was called, and how often it was let through
    /// though the turn was not called.
    pub(crate) fn held(&self) -> (u64, u64) {
        (
            self.met.load(Ordering::SeqCst),
            self.missed.load(Ordering::SeqCst),
        )
    }

    /// Waits until a turn was called, but not for ever.
    fn hold(&self, until: Turn) {
        for _ in 0..MOST_LOOKS {
            if self.turns(until.worker) > until.turn {
                self.met.fetch_add(1, Ordering::SeqCst);
                return;
            }
            thread::yield_now();
        }
        self.missed.fetch_add(1, Ordering::SeqCst);
    }
}

impl Gate for TurnGate<'_> {
    fn pass(&self, phase: Phase, worker: u32, turn: u64) {
        if phase != self.phase {
            return;
        }
        if let Some(called) = self.called.get(worker as usize)
            && called.fetch_add(1, Ordering::SeqCst) != turn
        {
            self.out_of_order.fetch_add(1, Ordering::SeqCst);
        }
        for hold in self.holds {
            if hold.at == (Turn { worker, turn }) {
                self.hold(hold.until);
            }
        }
    }
}
