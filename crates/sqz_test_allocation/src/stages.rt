//! The stages of a run over an image in memory, each called by itself, under allocation failures.

ghost use Rattle.std.specs.Prelude.{◌≡◌, ◌+◌, ◌*◌, ◌^◌, ◌≤◌, length, sum, IfOk};
ghost use Rattle.sqz_image.specs.Objects.{object_count};
ghost use Rattle.sqz_regions.specs.Bases.{AreSums, AreBases, AreBasesOf};

use super::again::again;
use super::dead_cycle::{assert_six_objects, image_in, new_cut, regions_of};
use super::rows::DEAD_CYCLE;
use sqz_census::{Row, census, print};
use sqz_image::{Fault, Heap};
use sqz_marks::Workers;
use sqz_regions::{Cut, Forward, Regions, bases, live_words};
use sqz_slide::{Pieces, slide};
use sqz_trace::{Marks, Weak, mark_plain};
use sqz_workers::{Marked, OpenGate, mark, mark_locked};
use std::process::Abort;
use std::sync::Wait;
use std::test::Fail;
use std::thread::Threads;

/// Which objects of the dead cycle's image are reachable.
const MARKS: [bool; 6] = [true, true, false, true, false, true];

/// How many live words each region has.
const SUMS: [u32; 3] = [1, 2, 5];

/// The first address of each region's live words.
const BASES: [u64; 3] = [0x1000, 0x1004, 0x100C];

/// The new addresses of the objects.
const PLACES: [Option<u32>; 6] = [
    Some(0x1000),
    Some(0x1004),
    None,
    Some(0x100C),
    None,
    Some(0x1014),
];

/// The live words of each region in their new places.
const PIECES: [&[u32]; 3] = [
    &[0x1007],
    &[0x110B, 0x100C],
    &[0x110B, 0x1004, 0x320F, 0x1000, 0x1004],
];

/// The marks of one worker alone.
fn plain_marks<R: Print + AllocGlobal>(rt: &R, heap: &Heap, weak: Weak) -> Result<Marks, Fail>
    ensures { IfOk result (λ marks. length marks ≡ object_count heap.now) }
{
    again!(rt, "mark_plain", mark_plain(rt.alloc(), heap, weak))
}

/// The marks of workers that take turns under a lock.
fn locked_marks<R: Threads + Wait + Sync + Print + AllocGlobal>(
    rt: &R,
    heap: &Heap,
    weak: Weak,
    workers: Workers,
) -> Result<Marks, Fail>
    ensures { IfOk result (λ marks. length marks ≡ object_count heap.now) }
{
    again!(
        rt,
        "mark_locked",
        mark_locked(rt, rt.alloc(), heap, weak, workers, &OpenGate)
    )
}

/// What marking by workers that steal returns.
fn marked_by<R: Threads + Sync + Print + AllocGlobal>(
    rt: &R,
    heap: &Heap,
    weak: Weak,
    regions: &Regions<'_>,
    workers: Workers,
) -> Result<Marked, Fail>
    requires { regions.now.memory ≡ heap.now }
    ensures { IfOk result (λ marked. length marked.marks ≡ object_count heap.now) }
{
    again!(
        rt,
        "mark",
        mark(rt, rt.alloc(), heap, weak, regions, workers, &OpenGate)
    )
}

/// The live words of each region.
fn sums_of<R: Print + AllocGlobal>(
    rt: &R,
    heap: &Heap,
    regions: &Regions<'_>,
    marks: &Marks,
) -> Result<Vec<u32>, Fail>
    requires regions { regions.now.memory ≡ heap.now }
    requires sized { length marks.now ≡ object_count heap.now }
    ensures sums { IfOk result (λ sums. AreSums regions.now marks.now sums.items) }
    ensures room { IfOk result (λ sums. heap.now.base + 4 * sum sums.items ≤ 2 ^ 32) }
{
    again!(
        rt,
        "live_words",
        live_words(rt.alloc(), heap, regions, marks)
    )
}

/// The first address of each region's live words.
fn bases_of<R: Print + AllocGlobal>(rt: &R, base: u32, sums: &[u32]) -> Result<Vec<u64>, Fail>
    requires { base + 4 * sum sums.now ≤ 2 ^ 32 }
    ensures { IfOk result (λ bases. AreBases base sums.now bases.items) }
{
    again!(rt, "bases", bases(rt.alloc(), base, sums))
}

/// The new addresses of the marked objects.
fn places_of<R: Threads + Sync + Print + AllocGlobal>(
    rt: &R,
    heap: &Heap,
    regions: &Regions<'_>,
    marks: &Marks,
    bases: &[u64],
) -> Result<Forward, Fail>
    requires regions { regions.now.memory ≡ heap.now }
    requires sized { length marks.now ≡ object_count heap.now }
    requires bases { AreBasesOf regions.now marks.now bases.now }
    ensures { IfOk result (λ forward. length forward ≡ object_count heap.now) }
{
    again!(
        rt,
        "Forward::build",
        Forward::build(rt, rt.alloc(), heap, regions, marks, bases)
    )
}

/// What the last stages work on.
#[derive(Drop)]
struct Job<'a> {
    heap: &'a Heap,
    weak: Weak,
    regions: &'a Regions<'a>,
    workers: Workers,
}

/// The marked objects in their new places.
fn pieces_of<R: Threads + Sync + Print + AllocGlobal>(
    rt: &R,
    job: &Job<'_>,
    forward: &Forward,
) -> Result<Pieces, Fail>
    requires regions { job.now.regions.now.memory ≡ job.now.heap.now }
    requires one_each { length forward.now ≡ object_count job.now.heap.now }
{
    again!(
        rt,
        "slide",
        slide(
            rt,
            rt.alloc(),
            job.heap,
            job.weak,
            job.regions,
            forward,
            job.workers,
            &OpenGate
        )
    )
}

/// The rows of the census.
fn rows_of<R: Threads + Sync + Print + AllocGlobal>(
    rt: &R,
    heap: &Heap,
    weak: Weak,
    marks: &Marks,
    forward: &Forward,
) -> Result<Vec<Row>, Fail>
    requires sized { length marks.now ≡ object_count heap.now }
    requires one_each { length forward.now ≡ object_count heap.now }
{
    again!(
        rt,
        "census",
        census(rt, rt.alloc(), heap, weak, marks, forward)
    )
}

/// The text of rows.
fn text_of<R: Print + AllocGlobal>(rt: &R, rows: &[Row]) -> Result<Vec<u8>, Fail> {
    again!(rt, "print", print(rt.alloc(), rows))
}

/// Asserts which objects are marked.
fn assert_marks<R: Abort>(rt: &R, marks: &Marks)
    requires { length marks.now ≡ 6 }
{
    for (object, wanted) in MARKS.iter().enumerate() {
        assert_eq!(rt; marks.has(object as u32), *wanted, "object {object}");
    }
}

/// Asserts the new addresses of the objects.
fn assert_places<R: Abort>(rt: &R, forward: &Forward)
    requires { length forward.now ≡ 6 }
{
    for (object, wanted) in PLACES.iter().enumerate() {
        assert_eq!(rt; forward.place(object as u32), *wanted, "object {object}");
    }
}

/// Asserts which words these are.
fn assert_words<R: Abort>(rt: &R, found: &[u32], wanted: &[u32]) {
    assert_eq!(rt; found, wanted);
}

/// Asserts where the live words of each region begin.
fn assert_bases<R: Abort>(rt: &R, bases: &[u64]) {
    assert_eq!(rt; bases, BASES.as_slice());
}

/// Asserts which words each region has.
fn assert_pieces<R: Abort>(rt: &R, pieces: &Pieces) {
    let pieces = pieces.as_slice();
    assert_eq!(rt; pieces.len(), PIECES.len());
    for (piece, wanted) in pieces.iter().zip(&PIECES) {
        assert_words(rt, piece, wanted);
    }
}

/// Asserts what marking by workers that steal returns.
fn assert_stolen<R: Abort>(rt: &R, marked: &Marked)
    requires { length marked.now.marks ≡ 6 }
{
    assert_marks(rt, &marked.marks);
    assert_words(rt, &marked.live_words, &SUMS);
    assert_eq!(rt; marked.claims.len(), 2);
}

/// Asserts what each way to mark returns.
fn assert_marked<R: Threads + Wait + Sync + Abort + Print + AllocGlobal>(
    rt: &R,
    heap: &Heap,
    weak: Weak,
    regions: &Regions<'_>,
    workers: Workers,
) -> Result<(), Fail>
    requires memory { regions.now.memory ≡ heap.now }
    requires count { object_count heap.now ≡ 6 }
{
    assert_marks(rt, &locked_marks(rt, heap, weak, workers)?);
    assert_stolen(rt, &marked_by(rt, heap, weak, regions, workers)?);
    Ok(())
}

/// The new addresses of the reachable objects. Asserts what each stage up to there returns.
fn placed<R: Threads + Sync + Abort + Print + AllocGlobal>(
    rt: &R,
    heap: &Heap,
    regions: &Regions<'_>,
    marks: &Marks,
) -> Result<Forward, Fail>
    requires memory { regions.now.memory ≡ heap.now }
    requires count { object_count heap.now ≡ 6 }
    requires sized { length marks.now ≡ 6 }
    ensures { IfOk result (λ forward. length forward ≡ 6) }
{
    let sums = sums_of(rt, heap, regions, marks)?;
    assert_words(rt, &sums, &SUMS);
    let bases = bases_of(rt, heap.base(), &sums)?;
    assert_bases(rt, &bases);
    let forward = places_of(rt, heap, regions, marks, &bases)?;
    assert_places(rt, &forward);
    Ok(forward)
}

/// Asserts what the text of rows is.
fn assert_census<R: Abort + Print + AllocGlobal>(rt: &R, rows: &[Row]) -> Result<(), Fail> {
    let text = text_of(rt, rows)?;
    assert_eq!(rt; text.as_slice(), DEAD_CYCLE.census.as_bytes());
    Ok(())
}

/// Asserts what the stages return that need the new addresses of the marked objects.
fn assert_last_stages<R: Threads + Sync + Abort + Print + AllocGlobal>(
    rt: &R,
    job: &Job<'_>,
    marks: &Marks,
    forward: &Forward,
) -> Result<(), Fail>
    requires memory { job.now.regions.now.memory ≡ job.now.heap.now }
    requires sized { length marks.now ≡ object_count job.now.heap.now }
    requires one_each { length forward.now ≡ object_count job.now.heap.now }
{
    assert_pieces(rt, &pieces_of(rt, job, forward)?);
    assert_census(rt, &rows_of(rt, job.heap, job.weak, marks, forward)?)
}

/// Asserts what one worker's marks are, and what each stage after them returns.
fn assert_later_stages<R: Threads + Sync + Abort + Print + AllocGlobal>(
    rt: &R,
    job: &Job<'_>,
) -> Result<(), Fail>
    requires memory { job.now.regions.now.memory ≡ job.now.heap.now }
    requires count { object_count job.now.heap.now ≡ 6 }
{
    let marks = plain_marks(rt, job.heap, job.weak)?;
    assert_marks(rt, &marks);
    let forward = placed(rt, job.heap, job.regions, &marks)?;
    assert_last_stages(rt, job, &marks, &forward)
}

/// Asserts what each stage returns.
fn assert_stages<R: Threads + Wait + Sync + Abort + Print + AllocGlobal>(
    rt: &R,
    heap: &Heap,
    weak: Weak,
    regions: &Regions<'_>,
) -> Result<(), Fail>
    requires memory { regions.now.memory ≡ heap.now }
    requires count { object_count heap.now ≡ 6 }
{
    let workers = Workers::new(2)?;
    assert_marked(rt, heap, weak, regions, workers)?;
    let job = Job {
        heap,
        weak,
        regions,
        workers,
    };
    assert_later_stages(rt, &job)
}

/// Asserts what each stage returns under each policy on weak slots.
fn assert_each_policy<R: Threads + Wait + Sync + Abort + Print + AllocGlobal>(
    rt: &R,
    heap: &Heap,
    cut: &Cut,
) -> Result<(), Fail>
    requires { object_count heap.now ≡ 6 }
{
    let regions = regions_of(rt, heap, cut)?;
    for weak in [Weak::Keep, Weak::Clear] {
        assert_stages(rt, heap, weak, &regions)?;
    }
    Ok(())
}

#[test]
fn stages_serve_again(rt: HostRuntime) -> Result<(), Fail> {
    let image = image_in(&rt, DEAD_CYCLE.file)?;
    let heap = image.heap();
    assert_six_objects(&rt, heap);
    assert_each_policy(&rt, heap, &new_cut(&rt)?)
}
