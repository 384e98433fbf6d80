//! The regions that workers share as they move objects.

ghost use Rattle.std.specs.Prelude.{◌≡◌, ◌<◌, ◌≤◌, Bool, List, map, IfOk};
ghost use Rattle.sqz_regions.specs.Bases.{ArePlacesOf};
ghost use Rattle.sqz_slide.specs.Pieces.{first_region, IsShareOf};

use crate::mover::Mover;
use sqz_marks::Workers;
use sqz_regions::Regions;
use sqz_workers::{Gate, Phase};
use std::alloc::{AllocError, Global};

/// What all workers share as they move the objects of regions.
#[derive(Drop)]
pub(crate) struct SharedRegions<'a, 'g, G> {
    pub mover: Mover<'a>,
    pub regions: &'a Regions<'a>,
    pub workers: Workers,
    pub gate: &'g G,
    ghost same_heap: { regions.now.memory ≡ mover.heap.now },
    ghost few: { workers ≤ 64 },
}

impl<G: Gate> SharedRegions<'_, '_, G> {
    /// Returns the pieces of the worker with this number. The worker passes the gate before it
    /// allocates memory, and then before each region except its first.
    pub(crate) fn pieces_of_worker(
        &self,
        alloc: Global,
        worker: u32,
    ) -> Result<Vec<Vec<u32>>, AllocError>
        requires { worker < self.now.workers }
        ensures { IfOk result (λ pieces. (marks : List Bool)
            → ArePlacesOf self.now.mover.heap.now marks self.now.mover.forward.now
            → IsShareOf self.now.regions.now self.now.mover.weak marks self.now.workers worker
            (map (λ piece. piece.items) pieces.items)) }
    {
        let count = self.regions.count();
        let from = first_region(worker, self.workers, count);
        let to = first_region(worker + 1, self.workers, count);
        self.gate.pass(Phase::Slide, worker, 0);
        let mut pieces = Vec::with_capacity(alloc, (to - from) as usize)?;
        for region in from..to {
            if region > from {
                let turn = u64::from(region - from);
                self.gate.pass(Phase::Slide, worker, turn);
            }
            pieces.push(self.mover.piece_of(alloc, self.regions, region)?)?;
        }
        Ok(pieces)
    }
}

/// Returns the first region of a worker. `regions` is the number of regions.
fn first_region(worker: u32, workers: Workers, regions: u32) -> u32
    requires { worker ≤ workers }
    ensures { result ≡ first_region regions workers worker }
{
    (u64::from(worker) * u64::from(regions) / u64::from(workers.number())) as u32
}
