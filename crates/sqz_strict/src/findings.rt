//! What a strict check finds of an image.

ghost use Rattle.std.specs.Prelude.{◌↔◌, ◌<◌, All, IfOk, IsTrue};
ghost use Rattle.sqz_image.specs.Objects.{object_count};
ghost use Rattle.sqz_strict.specs.Findings.{AreFindings, IsNothing};
ghost use Rattle.sqz_strict.specs.Warnings.{object_of};

use crate::warning::Warning;
use crate::warnings::warnings_of;
use sqz_damage::{Gap, gaps_of};
use sqz_image::laws::heap_bounds;
use sqz_trace::Live;
use std::alloc::{AllocError, Global};

/// What a strict check finds of an image.
#[derive(Drop)]
pub struct Findings {
    /// The warnings about live objects, by object.
    pub warnings: Vec<Warning>,
    /// The gaps of the reading of the data words that contradicts the fewest pointers, in ascending
    /// order.
    pub gaps: Vec<Gap>,
}

impl Findings {
    /// Returns whether nothing was found.
    pub fn is_empty(&self) -> bool
        ensures { IsTrue result ↔ IsNothing self.now }
    {
        self.warnings.is_empty() && self.gaps.is_empty()
    }
}

/// Returns what a strict check finds of an image: the warnings about its live objects, and the gaps
/// of the best reading of its data words. Fails only if out of memory.
pub fn findings_of(alloc: Global, live: &Live<'_>) -> Result<Findings, AllocError>
    ensures exact { IfOk result (AreFindings live.now.graph.heap.now live.now.graph.weak
        live.now.marks) }
    ensures inside { IfOk result (λ findings. All (λ warning.
        object_of warning < object_count live.now.graph.heap.now) findings.warnings.items) }
{
    let heap = live.graph.heap;
    heap_bounds(heap); // fewer than 2^30 data words, all below address 2^32
    let gaps = gaps_of(alloc, heap.base(), &heap.data())?;
    let warnings = warnings_of(alloc, live)?;
    Ok(Findings { warnings, gaps })
}
