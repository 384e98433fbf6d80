//! What is written of an image: its live objects at their new addresses.

ghost use Rattle.std.specs.Prelude.{◌≡◌, ◌⊎◌, ◌+◌, ◌*◌, ◌^◌, ◌<◌, ◌≤◌, true, false, length, sum};
ghost use Rattle.std.specs.Prelude.{None, option_map, IfOk, IfErr};
ghost use Rattle.std.specs.List.{AllByRecursion};
ghost use Rattle.sqz_object.specs.Chunk.{IsChunk};
ghost use Rattle.sqz_image.specs.declared.fault.Fault.TheVariants.{OutOfMemory};
ghost use Rattle.sqz_image.specs.Objects.{object_count};
ghost use Rattle.sqz_trace.specs.Reachability.{IsReachability};
ghost use Rattle.sqz_trace.specs.Defects.{first_defect, lacks_nil};
ghost use Rattle.sqz_trace.specs.Live.{live_words};
ghost use Rattle.sqz_regions.specs.Bases.{AreSums, ArePlacesOf};
ghost use Rattle.sqz_tool.specs.Headline.{IsCompaction, IsReportIfAsked, LacksNilIn, HasDefectIn};

use crate::observer::{Stage, StageObserver};
use crate::plan::Plan;
use crate::session::Session;
use crate::summary::Summary;
use sqz_census::{census, print};
use sqz_image::laws::heap_bounds;
use sqz_image::{Fault, Heap, Image};
use sqz_object::Address;
use sqz_regions::{Forward, Regions, bases};
use sqz_slide::{Pieces, slide};
use sqz_trace::{Marks, first_defect, lacks_nil};
use sqz_workers::{Gate, Marked, mark};
use std::alloc::Global;
use std::thread::Threads;

/// The data of a compacted image, and what its header states about them.
#[derive(Drop)]
pub(crate) struct Compaction {
    /// The new address of the special objects array.
    pub special: Address,
    /// The words of the live objects, in order.
    pub pieces: Pieces,
    pub summary: Summary,
    /// The text of the census, if the plan asks for one.
    pub census: Option<Vec<u8>>,
}

/// Returns the compaction of an image. Fails with `NoNil` if weak slots are to be cleared and
/// there is no nil, else with the defect of the lowest reachable object that has one. Otherwise
/// fails only if out of memory.
pub(crate) fn compaction_of<T: Threads + Sync, G: Gate, O: StageObserver>(
    session: &mut Session<'_, T, G, O>,
    plan: &Plan,
    image: &Image,
) -> Result<Compaction, Fault>
    requires { AllByRecursion IsChunk image.now.memory.chunks }
    ensures compaction { IfOk result (λ c.
        IsCompaction plan.now.weak plan.now.census image.now c.special c.pieces c.summary
        (option_map (λ text. text.items) c.census)) }
    ensures refused { IfErr result (λ fault. (fault ≡ OutOfMemory)
        ⊎ LacksNilIn plan.now.weak image.now fault ⊎ HasDefectIn plan.now.weak image.now fault) }
{
    let heap = image.heap();
    if lacks_nil(heap, plan.weak) {
        return Err(Fault::NoNil);
    }
    let regions = Regions::of(session.alloc, heap, &plan.cut)?;
    session.observer.finished(Stage::Cut);
    let marked = sound_marks(session, plan, image, &regions)?;
    move_live_objects(session, plan, image, &regions, &marked)
}

/// Returns the result of marking. Fails with the defect of the lowest reachable object that has
/// one. Otherwise fails only if out of memory.
fn sound_marks<T: Threads + Sync, G: Gate, O: StageObserver>(
    session: &mut Session<'_, T, G, O>,
    plan: &Plan,
    image: &Image,
    regions: &Regions<'_>,
) -> Result<Marked, Fault>
    requires regions { regions.now.memory ≡ image.now.memory }
    requires has_nil { lacks_nil image.now.memory plan.now.weak ≡ false }
    ensures reachable { IfOk result (λ marked.
        IsReachability image.now.memory plan.now.weak marked.marks) }
    ensures sound { IfOk result (λ marked.
        first_defect image.now.memory plan.now.weak marked.marks ≡ None) }
    ensures sums { IfOk result (λ marked.
        AreSums regions.now marked.marks marked.live_words.items) }
    ensures whole { IfOk result (λ marked.
        sum marked.live_words.items ≡ live_words image.now.memory marked.marks) }
    ensures room { IfOk result (λ marked.
        image.now.memory.base + 4 * sum marked.live_words.items ≤ 2 ^ 32) }
    ensures refused { IfErr result (λ fault.
        (fault ≡ OutOfMemory) ⊎ HasDefectIn plan.now.weak image.now fault) }
{
    let heap = image.heap();
    let marked = mark(
        session.rt,
        session.alloc,
        heap,
        plan.weak,
        regions,
        plan.workers,
        session.gate,
    )?;
    session.observer.finished(Stage::Mark);
    if let Some(fault) = first_defect(session.rt, heap, plan.weak, &marked.marks) {
        return Err(fault);
    }
    session.observer.finished(Stage::Check);
    Ok(marked)
}

/// Returns the compaction of an image; `marked` is the result of marking it. Fails only if out of
/// memory.
fn move_live_objects<T: Threads + Sync, G: Gate, O: StageObserver>(
    session: &mut Session<'_, T, G, O>,
    plan: &Plan,
    image: &Image,
    regions: &Regions<'_>,
    marked: &Marked,
) -> Result<Compaction, Fault>
    requires chunks { AllByRecursion IsChunk image.now.memory.chunks }
    requires regions { regions.now.memory ≡ image.now.memory }
    requires has_nil { lacks_nil image.now.memory plan.now.weak ≡ false }
    requires reachable { IsReachability image.now.memory plan.now.weak marked.now.marks }
    requires sound { first_defect image.now.memory plan.now.weak marked.now.marks ≡ None }
    requires sums { AreSums regions.now marked.now.marks marked.now.live_words.items }
    requires whole { sum marked.now.live_words.items
        ≡ live_words image.now.memory marked.now.marks }
    requires room { image.now.memory.base + 4 * sum marked.now.live_words.items ≤ 2 ^ 32 }
    ensures compaction { IfOk result (λ c.
        IsCompaction plan.now.weak plan.now.census image.now c.special c.pieces c.summary
        (option_map (λ text. text.items) c.census)) }
    ensures refused { IfErr result (λ fault. fault ≡ OutOfMemory) }
{
    let heap = image.heap();
    let weak = plan.weak;
    heap_bounds(heap); // fewer than 2^30 words, with addresses up to 2^32
    let forward = places_of(session.rt, session.alloc, heap, regions, marked)?;
    session.observer.finished(Stage::Place);
    let pieces = slide(
        session.rt,
        session.alloc,
        heap,
        weak,
        regions,
        &forward,
        plan.workers,
        session.gate,
    )?;
    session.observer.finished(Stage::Slide);
    let census = census_text(session, plan, heap, &marked.marks, &forward)?;
    let special = forward.place(heap.special()).unwrap();
    let summary = Summary {
        objects: heap.len(),
        kept: marked.marks.count(),
        data_before: image.data_size(),
        data_after: 4 * total(&marked.live_words),
    };
    Ok(Compaction {
        special,
        pieces,
        summary,
        census,
    })
}

/// Returns the new addresses of the marked objects. Fails only if out of memory.
fn places_of(
    rt: &(impl Threads + Sync),
    alloc: Global,
    heap: &Heap,
    regions: &Regions<'_>,
    marked: &Marked,
) -> Result<Forward, Fault>
    requires regions { regions.now.memory ≡ heap.now }
    requires sized { length marked.now.marks ≡ object_count heap.now }
    requires sums { AreSums regions.now marked.now.marks marked.now.live_words.items }
    requires room { heap.now.base + 4 * sum marked.now.live_words.items ≤ 2 ^ 32 }
    ensures places { IfOk result (λ forward. ArePlacesOf heap.now marked.now.marks forward) }
    ensures refused { IfErr result (λ fault. fault ≡ OutOfMemory) }
{
    let bases = bases(alloc, heap.base(), &marked.live_words)?;
    Forward::build(rt, alloc, heap, regions, &marked.marks, &bases)
}

/// Returns the text of the census, if the plan asks for one. Fails only if out of memory.
fn census_text<T: Threads + Sync, G: Gate, O: StageObserver>(
    session: &mut Session<'_, T, G, O>,
    plan: &Plan,
    heap: &Heap,
    marks: &Marks,
    forward: &Forward,
) -> Result<Option<Vec<u8>>, Fault>
    requires sized { length marks.now ≡ object_count heap.now }
    requires one_each { length forward.now ≡ object_count heap.now }
    ensures text { IfOk result (λ text. IsReachability heap.now plan.now.weak marks.now
        → ArePlacesOf heap.now marks.now forward.now
        → IsReportIfAsked plan.now.census heap.now plan.now.weak marks.now (option_map (λ text.
        text.items) text)) }
    ensures refused { IfErr result (λ fault. fault ≡ OutOfMemory) }
{
    if !plan.census {
        return Ok(None);
    }
    let rows = census(session.rt, session.alloc, heap, plan.weak, marks, forward)?;
    let text = print(session.alloc, &rows)?;
    session.observer.finished(Stage::Census);
    Ok(Some(text))
}

/// Returns the sum of the numbers.
fn total(numbers: &[u32]) -> u32
    requires { sum numbers.now < 2 ^ 32 }
    ensures { result ≡ sum numbers.now }
{
    numbers.iter().sum()
}
