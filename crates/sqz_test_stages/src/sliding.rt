//! The pieces of small images, and their words one by one.

ghost use Rattle.std.specs.Prelude.{◌≡◌, ◌<◌, length, IfOk};
ghost use Rattle.sqz_image.specs.Objects.{object_count};

use super::cuts::{CutBy, cut_by};
use super::images::{
    CLASS_WORDS, CLASS_WORDS_ANSWER, THREE_WEAK_SLOTS, THREE_WEAK_SLOTS_CLEARED,
    THREE_WEAK_SLOTS_KEPT,
};
use super::regions::{Placed, places_of};
use sqz_image::{Fault, Heap};
use sqz_marks::Workers;
use sqz_regions::{Cut, Forward, Regions};
use sqz_slide::{Pieces, moved_word, slide};
use sqz_test_fixtures::accepted::{DEAD_ARRAY, DEAD_CYCLE, DEAD_CYCLE_ANSWER, NIL_ALONE};
use sqz_test_fixtures::{TestImage, image_of, words_of};
use sqz_trace::Weak;
use sqz_workers::{Gate, OpenGate};
use std::alloc::{AllocError, Global};
use std::test::Fail;
use std::thread::Threads;

/// This many workers, who pass a gate.
#[derive(Drop)]
pub(crate) struct Team<'a, G> {
    pub(crate) workers: u32,
    pub(crate) gate: &'a G,
}

/// The pieces of a heap under a cut, moved by a team.
pub(crate) fn slid<R: Threads + Sync + AllocGlobal, G: Gate>(
    rt: &R,
    heap: &Heap,
    weak: Weak,
    by: CutBy,
    team: &Team<'_, G>,
) -> Result<Pieces, Fault> {
    let cut = cut_by(rt.alloc(), by)?;
    let regions = Regions::of(rt.alloc(), heap, &cut)?;
    slid_in(rt, heap, weak, &regions, team)
}

/// The pieces of a heap's regions, moved by a team.
fn slid_in<R: Threads + Sync + AllocGlobal, G: Gate>(
    rt: &R,
    heap: &Heap,
    weak: Weak,
    regions: &Regions<'_>,
    team: &Team<'_, G>,
) -> Result<Pieces, Fault>
    requires { regions.now.memory ≡ heap.now }
{
    let workers = Workers::new(team.workers)?;
    let placed = places_of(rt, heap, weak, regions)?;
    let forward = &placed.forward;
    slide(
        rt,
        rt.alloc(),
        heap,
        weak,
        regions,
        forward,
        workers,
        team.gate,
    )
}

/// The words of all pieces.
fn joined(alloc: Global, pieces: &[Vec<u32>]) -> Result<Vec<u32>, AllocError> {
    let mut words = Vec::new(alloc);
    for piece in pieces {
        words.extend_from_slice(piece)?;
    }
    Ok(words)
}

/// Whether the pieces have this many words each.
pub(crate) fn have_sizes(pieces: &Pieces, sizes: &[usize]) -> bool {
    let pieces = pieces.as_slice();
    pieces.len() == sizes.len()
        && pieces
            .iter()
            .zip(sizes)
            .all(|(piece, size)| piece.len() == *size)
}

/// Whether words are those of an image.
fn are_words(alloc: Global, words: &[u32], wanted: &TestImage) -> Result<bool, AllocError> {
    let wanted = words_of(alloc, wanted)?;
    Ok(words == wanted.as_slice())
}

/// Whether the pieces have this many words each, and together those of an image.
pub(crate) fn are_pieces(
    alloc: Global,
    pieces: &Pieces,
    sizes: &[usize],
    wanted: &TestImage,
) -> Result<bool, AllocError> {
    let words = joined(alloc, pieces.as_slice())?;
    Ok(have_sizes(pieces, sizes) && are_words(alloc, &words, wanted)?)
}

/// Adds the words of an object after the move to a list, one by one.
fn put_moved_words(
    words: &mut Vec<u32>,
    heap: &Heap,
    weak: Weak,
    forward: &Forward,
    object: u32,
) -> Result<(), AllocError>
    requires object { object < object_count heap.now }
    requires one_each { length forward.now ≡ object_count heap.now }
{
    for k in 0..heap.chunk(object).length {
        words.push(moved_word(heap, weak, forward, object, k))?;
    }
    Ok(())
}

/// The words of the objects that have a place, after the move, one by one.
fn placed_words(
    alloc: Global,
    heap: &Heap,
    weak: Weak,
    forward: &Forward,
) -> Result<Vec<u32>, AllocError>
    requires { length forward.now ≡ object_count heap.now }
{
    let mut words = Vec::new(alloc);
    for object in 0..heap.len() {
        if forward.place(object).is_some() {
            put_moved_words(&mut words, heap, weak, forward, object)?;
        }
    }
    Ok(words)
}

/// Where the reachable objects go, by regions of one word.
fn placed_by_words<R: Threads + Sync + AllocGlobal>(
    rt: &R,
    heap: &Heap,
    weak: Weak,
) -> Result<Placed, Fault>
    ensures { IfOk result (λ placed. length placed.forward ≡ object_count heap.now) }
{
    let cut = Cut::every(1)?;
    let regions = Regions::of(rt.alloc(), heap, &cut)?;
    places_of(rt, heap, weak, &regions)
}

/// The words of the reachable objects after the move, one by one.
fn moved_words<R: Threads + Sync + AllocGlobal>(
    rt: &R,
    heap: &Heap,
    weak: Weak,
) -> Result<Vec<u32>, Fault> {
    let placed = placed_by_words(rt, heap, weak)?;
    Ok(placed_words(rt.alloc(), heap, weak, &placed.forward)?)
}

/// An image, the policy on weak slots, and what workers move it to.
struct Case {
    name: &'static str,
    image: &'static TestImage,
    weak: Weak,
    workers: u32,
    /// Where the image is cut.
    points: &'static [u32],
    /// The number of words of each piece.
    sizes: &'static [usize],
    words: &'static TestImage,
}

/// The dead cycle in three pieces.
const DEAD_CYCLE_BY_ONE: Case = Case {
    name: "dead cycle by one worker",
    image: &DEAD_CYCLE,
    weak: Weak::Keep,
    workers: 1,
    points: &[1, 3],
    sizes: &[1, 2, 5],
    words: &DEAD_CYCLE_ANSWER,
};

/// Images, and what they are moved to.
const CASES: &[Case] = &[
    DEAD_CYCLE_BY_ONE,
    Case {
        name: "dead cycle by two workers",
        workers: 2,
        ..DEAD_CYCLE_BY_ONE
    },
    Case {
        name: "dead cycle by 64 workers",
        workers: 64,
        ..DEAD_CYCLE_BY_ONE
    },
    Case {
        name: "region of dead objects alone",
        image: &DEAD_ARRAY,
        weak: Weak::Keep,
        workers: 4,
        points: &[1, 4],
        sizes: &[1, 0, 2],
        words: &NIL_ALONE,
    },
    Case {
        name: "class words and headers of three words",
        image: &CLASS_WORDS,
        weak: Weak::Keep,
        workers: 2,
        points: &[9],
        sizes: &[6, 7],
        words: &CLASS_WORDS_ANSWER,
    },
    // A weak slot that points to a dead object points to nil, at its new address. One that points
    // to a live object still points to it, and an integer and the class word are as if slots were
    // kept.
    Case {
        name: "weak slots are cleared",
        image: &THREE_WEAK_SLOTS,
        weak: Weak::Clear,
        workers: 2,
        points: &[12],
        sizes: &[7, 9],
        words: &THREE_WEAK_SLOTS_CLEARED,
    },
    Case {
        name: "weak slots are kept",
        image: &THREE_WEAK_SLOTS,
        weak: Weak::Keep,
        workers: 2,
        points: &[12],
        sizes: &[9, 9],
        words: &THREE_WEAK_SLOTS_KEPT,
    },
];

/// Whether the pieces of a heap are as wanted.
fn is_slid<R: Threads + Sync + AllocGlobal>(
    rt: &R,
    heap: &Heap,
    case: &Case,
) -> Result<bool, Fault> {
    let team = Team {
        workers: case.workers,
        gate: &OpenGate,
    };
    let pieces = slid(rt, heap, case.weak, CutBy::At(case.points), &team)?;
    Ok(are_pieces(rt.alloc(), &pieces, case.sizes, case.words)?)
}

/// Whether the words of a heap, one by one, are as wanted.
fn is_moved<R: Threads + Sync + AllocGlobal>(
    rt: &R,
    heap: &Heap,
    case: &Case,
) -> Result<bool, Fault> {
    let words = moved_words(rt, heap, case.weak)?;
    Ok(are_words(rt.alloc(), &words, case.words)?)
}

/// Whether the pieces of a heap are as wanted, and its words one by one.
fn are_moved<R: Threads + Sync + AllocGlobal>(
    rt: &R,
    heap: &Heap,
    case: &Case,
) -> Result<(bool, bool), Fault> {
    Ok((is_slid(rt, heap, case)?, is_moved(rt, heap, case)?))
}

/// Whether the pieces of an image are as wanted, and its words one by one.
fn are_moved_in<R: Threads + Sync + AllocGlobal>(
    rt: &R,
    case: &Case,
) -> Result<(bool, bool), Fault> {
    let image = image_of(rt.alloc(), case.image)?;
    are_moved(rt, image.heap(), case)
}

#[test]
fn pieces_and_words_one_by_one(rt: HostRuntime) -> Result<(), Fail> {
    for case in CASES {
        assert_eq!(rt; are_moved_in(&rt, case)?, (true, true), "{}", case.name);
    }
    Ok(())
}
