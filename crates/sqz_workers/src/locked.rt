//! Marking by workers that take turns under a lock.

ghost use Rattle.std.specs.Prelude.{◌≡◌, ◌<◌, IfOk, IfErr};
ghost use Rattle.sqz_image.specs.declared.fault.Fault.TheVariants.{OutOfMemory};
ghost use Rattle.sqz_trace.specs.Reachability.{IsReachability};

use crate::gate::{Gate, Phase};
use crate::locked_marking::{LockedMarking, MarkedMemory};
use crate::turns::Turns;
use sqz_image::{Fault, Heap};
use sqz_marks::Workers;
use sqz_trace::{Marks, Weak};
use std::alloc::Global;
use std::marker::Brand;
use std::sync::{Mutex, Wait};
use std::thread;
use std::thread::Threads;

/// Marks the reachable objects of a heap with `workers` workers, each in a thread of its own if
/// one can be started. In a turn a worker passes the gate, takes the lock, takes one object from a
/// list, and marks what that object points to. It leaves after 64 turns in a row that found the
/// list empty, or after four turns for each object and 4096 more. It may wait for the lock. Fails
/// only if out of memory.
pub fn mark_locked<R: Threads + Wait + Sync, G: Gate>(
    rt: &R,
    alloc: Global,
    heap: &Heap,
    weak: Weak,
    workers: Workers,
    gate: &G,
) -> Result<Marks, Fault>
    ensures reachable { IfOk result (λ marks. IsReachability heap.now weak marks) }
    ensures refused { IfErr result (λ fault. fault ≡ OutOfMemory) }
{
    LockedWork { rt, heap, gate }.run_workers::<Brand>(alloc, weak, workers)
}

/// What all workers share as they mark under a lock, besides the value under the lock.
#[derive(Drop)]
struct LockedWork<'a, R, G> {
    rt: &'a R,
    heap: &'a Heap,
    gate: &'a G,
}

impl<R: Threads + Wait + Sync, G: Gate> LockedWork<'_, R, G> {
    /// Runs the workers, each in a thread of its own if one can be started, and returns the
    /// reachable objects. The brand stands for the heap and the policy on weak slots.
    fn run_workers<M: MarkedMemory + Send + Sync>(
        &self,
        alloc: Global,
        weak: Weak,
        workers: Workers,
    ) -> Result<Marks, Fault>
        requires heap { self.now.heap.now ≡ M.memory }
        requires weak { weak ≡ M.weak }
        ensures reachable { IfOk result (λ marks. IsReachability M.memory M.weak marks) }
        ensures refused { IfErr result (λ fault. fault ≡ OutOfMemory) }
    {
        let marking = Mutex::new(LockedMarking::<M>::new(alloc, self.heap, weak)?);
        thread::map_indices(
            self.rt,
            alloc,
            workers.number() as usize,
            &|worker: usize|
                requires { worker < 64 }
            { self.run_worker(&marking, worker as u32) },
        )?;
        Ok(marking.into_inner().finish())
    }

    /// Takes the turns of a worker.
    fn run_worker<M: MarkedMemory>(&self, marking: &Mutex<LockedMarking<'_, M>>, worker: u32) {
        let mut turns = Turns::new(self.heap);
        while let Some(turn) = turns.next() {
            self.gate.pass(Phase::Mark, worker, turn);
            let found = marking.lock(self.rt).turn();
            turns.note(found);
        }
    }
}
