//! All that is wrong with the live objects of an image.

ghost use Rattle.std.specs.Prelude.{◌≡◌, IfOk};
ghost use Rattle.sqz_facts.specs.AllDefects.{defects};

use sqz_image::Fault;
use sqz_trace::{Live, defect};
use std::alloc::{AllocError, Global};

/// Returns the defect of each live object that has one, by address. The first is the one for which
/// a compaction rejects the image.
pub fn defects_of(alloc: Global, live: &Live<'_>) -> Result<Vec<Fault>, AllocError>
    ensures { IfOk result (λ found.
        found.items ≡ defects live.now.graph.heap.now live.now.graph.weak live.now.marks) }
{
    let graph = live.graph;
    let mut found = Vec::new(alloc);
    for object in 0..graph.heap.len() {
        if live.marks.has(object) {
            if let Some(fault) = defect(graph.heap, graph.weak, object) {
                found.push(fault)?;
            }
        }
    }
    Ok(found)
}
