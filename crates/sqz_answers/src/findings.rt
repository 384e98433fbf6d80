//! Whether an image is sound.

ghost use Rattle.std.specs.Prelude.{◌≡◌, ◌↔◌, [], IfOk, IsTrue, None};
ghost use Rattle.sqz_image.specs.Objects.{object_count};
ghost use Rattle.sqz_trace.specs.Faults.{first_fault};
ghost use Rattle.sqz_answers.specs.Findings.{all_faults, faults_found, faults_with};
ghost use Rattle.sqz_answers.specs.Findings.{marked_bytes, marked_count};

use sqz_facts::{defects_of, marked_bytes};
use sqz_image::Fault;
use sqz_trace::{Live, first_fault, lacks_nil};
use std::alloc::{AllocError, Global};
use std::thread::Threads;

/// What was found about an image.
#[derive(Drop)]
pub struct Findings {
    /// The number of objects.
    pub objects: u32,
    /// The number of live objects.
    pub live_objects: u32,
    /// The bytes of the live objects, header words included.
    pub live_bytes: u64,
    /// The faults for which a compaction rejects the image; empty if it is sound.
    pub faults: Vec<Fault>,
}

impl Findings {
    /// Returns whether the image is sound.
    pub fn is_sound(&self) -> bool
        ensures { IsTrue result ↔ (self.now.faults.items ≡ []) }
    {
        self.faults.is_empty()
    }
}

/// Returns what is wrong with an image: its first fault, or each if `all`.
pub fn findings_of(
    rt: &(impl Threads + Sync),
    alloc: Global,
    live: &Live<'_>,
    all: bool,
) -> Result<Findings, AllocError>
    ensures objects { IfOk result (λ found.
        found.objects ≡ object_count live.now.graph.heap.now) }
    ensures live_objects { IfOk result (λ found.
        found.live_objects ≡ marked_count live.now.graph.heap.now live.now.marks) }
    ensures live_bytes { IfOk result (λ found.
        found.live_bytes ≡ marked_bytes live.now.graph.heap.now live.now.marks) }
    ensures faults { IfOk result (λ found. found.faults.items
        ≡ faults_found all live.now.graph.heap.now live.now.graph.weak live.now.marks) }
    ensures sound { IfOk result (λ found. (found.faults.items ≡ []) ↔ (first_fault
        live.now.graph.heap.now live.now.graph.weak live.now.marks ≡ None)) }
{
    let faults = if all {
        all_faults(alloc, live)?
    } else {
        faults_with(alloc, first_fault(rt, live))?
    };
    Ok(Findings {
        objects: live.graph.heap.len(),
        live_objects: live.marks.count(),
        live_bytes: marked_bytes(live.graph.heap, &live.marks),
        faults,
    })
}

/// Returns each fault of an image.
fn all_faults(alloc: Global, live: &Live<'_>) -> Result<Vec<Fault>, AllocError>
    ensures { IfOk result (λ faults. faults.items
        ≡ all_faults live.now.graph.heap.now live.now.graph.weak live.now.marks) }
{
    let missing = if lacks_nil(live.graph.heap, live.graph.weak) {
        Some(Fault::NoNil)
    } else {
        None
    };
    let mut faults = faults_with(alloc, missing)?;
    faults.extend_from_slice(&defects_of(alloc, live)?)?;
    Ok(faults)
}

/// Returns a fault as a list, which is empty if there is none.
fn faults_with(alloc: Global, fault: Option<Fault>) -> Result<Vec<Fault>, AllocError>
    ensures { IfOk result (λ faults. faults.items ≡ faults_with fault) }
{
    let mut faults = Vec::new(alloc);
    if let Some(fault) = fault {
        faults.push(fault)?;
    }
    Ok(faults)
}
