//! The mark table as a marker without threads: one pass, and a list of the objects that it won.

ghost use Rattle.std.specs.Prelude.{◌≡◌, IfOk, IfErr};
ghost use Rattle.sqz_image.specs.Objects.{object_count};
ghost use Rattle.sqz_image.specs.declared.fault.Fault.TheVariants.{OutOfMemory};
ghost use Rattle.sqz_trace.specs.Shades.{marks_of, AreLawfulOf};
ghost use Rattle.sqz_regions.specs.Bases.{AreSums};

use super::steps::{assert_closed, assert_dead_cycle, new_cut};
use super::targets::mark_targets;
use sqz_image::{Fault, Heap};
use sqz_marks::{Closed, MarkTable, Workers};
use sqz_regions::{Cut, Regions};
use sqz_test_fixtures::accepted::DEAD_CYCLE;
use sqz_test_fixtures::image_of;
use sqz_trace::Weak;
use std::alloc::Global;
use std::process::Abort;
use std::test::Fail;

/// Marks a heap with one pass. Each object is won at most once, so there are no more turns than
/// objects. Fails only if out of memory.
fn mark_alone(
    alloc: Global,
    heap: &Heap,
    weak: Weak,
    regions: &Regions<'_>,
) -> Result<Closed, Fault>
    requires { regions.now.memory ≡ heap.now }
    ensures lawful { IfOk result (λ closed. AreLawfulOf heap.now weak closed.shades.items) }
    ensures sums { IfOk result (λ closed.
        AreSums regions.now (marks_of closed.shades.items) closed.live_words.items) }
    ensures refused { IfErr result (λ fault. fault ≡ OutOfMemory) }
{
    let (table, mut pass) = MarkTable::new(alloc, heap, weak, regions, Workers::new(1)?)?;
    let mut won = Vec::new(alloc);
    won.push(heap.special())?;
    for _ in 0..heap.len() {
        let Some(object) = won.pop() else {
            break;
        };
        mark_targets(&table, &mut pass, object, &mut won)?;
    }
    match table.close(alloc, pass) {
        Ok(closed) => Ok(closed),
        Err(_) => Err(Fault::OutOfMemory),
    }
}

/// Asserts what one pass marks of the dead cycle's image, under a cut.
fn assert_cut_alone<R: Abort + AllocGlobal>(rt: &R, heap: &Heap, cut: &Cut) -> Result<(), Fail>
    requires { object_count heap.now ≡ 6 }
{
    let regions = Regions::of(rt.alloc(), heap, cut)?;
    assert_closed(
        rt,
        heap,
        &mark_alone(rt.alloc(), heap, Weak::Keep, &regions)?,
    );
    Ok(())
}

#[test]
fn one_pass_marks_a_heap(rt: HostRuntime) -> Result<(), Fail> {
    let image = image_of(rt.alloc(), &DEAD_CYCLE)?;
    let heap = image.heap();
    assert_dead_cycle(&rt, heap);
    assert_cut_alone(&rt, heap, &new_cut(rt.alloc())?)
}
