//! Marking by workers that share the mark table and steal from each other's deques.

ghost use Rattle.std.specs.Prelude.{◌≡◌, ◌+◌, ◌*◌, ◌^◌, ◌≤◌, length, sum, count_by, IfOk, IfErr};
ghost use Rattle.sqz_image.specs.declared.fault.Fault.TheVariants.{OutOfMemory};
ghost use Rattle.sqz_trace.specs.Reachability.{IsReachability};
ghost use Rattle.sqz_regions.specs.Bases.{AreSums};
ghost use Rattle.sqz_trace.specs.Live.{live_words};

use crate::gate::Gate;
use crate::marked::Marked;
use crate::remaining::scan_remaining;
use crate::shared_work::SharedWork;
use crate::team::Team;
use crossbeam_deque::{Stealer, Worker};
use sqz_image::{Fault, Heap};
use sqz_marks::{MarkTable, Workers};
use sqz_object::ObjectIndex;
use sqz_regions::Regions;
use sqz_trace::Weak;
use std::alloc::{AllocError, Global};
use std::thread::Threads;

/// Marks the reachable objects of a heap with `workers` workers, each in a thread of its own if
/// one can be started. In a turn a worker passes the gate, takes an object from its own deque or
/// else from another's, and claims what that object points to. It leaves after 64 turns in a row
/// that found no object, or after four turns for each object and 4096 more; the caller's thread
/// marks what is grey then. No worker waits for another. Fails only if out of memory.
pub fn mark<R: Threads + Sync, G: Gate>(
    rt: &R,
    alloc: Global,
    heap: &Heap,
    weak: Weak,
    regions: &Regions<'_>,
    workers: Workers,
    gate: &G,
) -> Result<Marked, Fault>
    requires { regions.now.memory ≡ heap.now }
    ensures reachable { IfOk result (λ marked. IsReachability heap.now weak marked.marks) }
    ensures sums { IfOk result (λ marked.
        AreSums regions.now marked.marks marked.live_words.items) }
    ensures whole { IfOk result (λ marked.
        sum marked.live_words.items ≡ live_words heap.now marked.marks) }
    ensures room { IfOk result (λ marked.
        heap.now.base + 4 * sum marked.live_words.items ≤ 2 ^ 32) }
    ensures claims { IfOk result (λ marked. length marked.claims.items ≡ workers) }
    ensures all { IfOk result (λ marked.
        sum marked.claims.items + marked.finished ≡ count_by (λ mark. mark) marked.marks) }
    ensures refused { IfErr result (λ fault. fault ≡ OutOfMemory) }
{
    let count = workers.number() as usize;
    let (mut deques, stealers) = deques_of(alloc, count)?;
    let mut worklist = Vec::with_capacity(alloc, heap.len() as usize)?;
    let mut numbers = vec![in alloc; 0u64; count]?;
    let won = numbers.as_mut_slice();
    let (table, mut pass) = MarkTable::new(alloc, heap, weak, regions, workers)?;
    // If this push fails, the object stays grey, and `scan_remaining` finds it.
    let _push = deques[0].push(heap.special());
    let work = SharedWork {
        rt,
        table: &table,
        stealers: &stealers,
        gate,
    };
    let mut team = Team {
        first: 0,
        pass: &mut pass,
        deques: &mut deques,
        won: &mut *won,
    };
    work.run_team(&mut team);
    scan_remaining(&table, &mut pass, &mut worklist);
    let Ok(closed) = table.close(alloc, pass) else {
        return Err(Fault::OutOfMemory);
    };
    Ok(Marked::of_closed(alloc, heap, weak, closed, won)?)
}

/// Returns a deque for each worker, and a stealer for each deque, in the order of the workers.
fn deques_of(
    alloc: Global,
    count: usize,
) -> Result<(Vec<Worker<ObjectIndex>>, Vec<Stealer<ObjectIndex>>), AllocError>
    ensures { IfOk result (λ made. length made.0.items ≡ count) }
{
    let mut deques = Vec::with_capacity(alloc, count)?;
    let mut stealers = Vec::with_capacity(alloc, count)?;
    for _ in 0..count {
        let deque = Worker::new_fifo(alloc, 1)?;
        stealers.push(deque.stealer()?)?;
        deques.push(deque)?;
    }
    Ok((deques, stealers))
}
