//! Workers that move the live objects of their regions.

ghost use Rattle.std.specs.Prelude.{◌≡◌, ◌<◌, ◌≤◌, Bool, List, map, length, IfOk, IfErr};
ghost use Rattle.std.specs.List.{concat};
ghost use Rattle.std.specs.Thread.{IsSync};
ghost use Rattle.sqz_image.specs.declared.fault.Fault.TheVariants.{OutOfMemory};
ghost use Rattle.sqz_image.specs.Objects.{object_count};
ghost use Rattle.sqz_trace.specs.declared.weak.Weak.{Weak};
ghost use Rattle.sqz_regions.specs.Bases.{ArePlacesOf};
ghost use Rattle.sqz_regions.specs.Regions.{Regioning};
ghost use Rattle.sqz_slide.specs.Moved.{moved_objects};
ghost use Rattle.sqz_slide.specs.Pieces.{IsShareOf, AreShares, ArePieces};

use crate::mover::Mover;
use crate::pieces::Pieces;
use crate::shared_regions::SharedRegions;
use sqz_image::{Fault, Heap};
use sqz_marks::Workers;
use sqz_regions::{Forward, Regions};
use sqz_trace::Weak;
use sqz_workers::Gate;
use std::alloc::{AllocError, Global};
use std::thread;
use std::thread::Threads;

/// Moves the live objects of each region to their new addresses, and returns the pieces. Each
/// worker runs in a thread of its own if one can be started. With `R` regions and `n` workers,
/// worker `w` has the regions from `w * R / n` up to `(w + 1) * R / n`, and passes the gate before
/// each. Fails only if out of memory.
pub fn slide<'a, R: Threads + Sync, G: Gate>(
    rt: &R,
    alloc: Global,
    heap: &'a Heap,
    weak: Weak,
    regions: &'a Regions<'a>,
    forward: &'a Forward,
    workers: Workers,
    gate: &G,
) -> Result<Pieces, Fault>
    requires regions { regions.now.memory ≡ heap.now }
    requires one_each { length forward.now ≡ object_count heap.now }
    ensures pieces { IfOk result (λ pieces. (marks : List Bool)
        → ArePlacesOf heap.now marks forward.now
        → ArePieces regions.now weak marks pieces) }
    ensures whole { IfOk result (λ pieces. (marks : List Bool)
        → ArePlacesOf heap.now marks forward.now
        → length marks ≡ object_count heap.now
        → concat pieces ≡ concat (moved_objects heap.now weak marks)) }
    ensures refused { IfErr result (λ fault. fault ≡ OutOfMemory) }
{
    let mover = Mover {
        heap,
        weak,
        forward,
    };
    let shared = SharedRegions {
        mover,
        regions,
        workers,
        gate,
    };
    let shares = thread::map_indices(
        rt,
        alloc,
        workers.number() as usize,
        &|worker: usize| -> Result<Vec<Vec<u32>>, AllocError>
            requires worker { worker < shared.workers }
            requires few { shared.workers ≤ 64 }
            ensures { IfOk result (λ pieces. (marks : List Bool)
                → ArePlacesOf shared.entry.mover.heap.now marks shared.entry.mover.forward.now
                → IsShareOf shared.entry.regions.now shared.entry.mover.weak marks
                shared.entry.workers worker (map (λ piece. piece.items) pieces.items)) }
        { shared.pieces_of_worker(alloc, worker as u32) },
    )?;
    Ok(Pieces::new(concat_shares(alloc, regions.count(), shares)?))
}

/// Returns the pieces of all workers, in the order of the workers. Room for `count` pieces is
/// allocated at once.
fn concat_shares(
    alloc: Global,
    count: u32,
    shares: Vec<Result<Vec<Vec<u32>>, AllocError>>,
) -> Result<Vec<Vec<u32>>, AllocError>
    requires some { 0 < length shares.items }
    ensures { IfOk result (λ pieces. (regions : Regioning) (weak : Weak) (marks : List Bool)
        → AreShares regions weak marks shares.items
        → ArePieces regions weak marks (map (λ piece. piece.items) pieces.items)) }
{
    let mut pieces = Vec::with_capacity(alloc, count as usize)?;
    for share in shares {
        pieces.append(&mut share?)?;
    }
    Ok(pieces)
}
