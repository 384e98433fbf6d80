//! Regions of small images, their live words and bases, and the places of their objects.

ghost use Rattle.std.specs.Prelude.{◌≡◌, length, IfOk};
ghost use Rattle.sqz_image.specs.Objects.{object_count};

use super::cuts::{CutBy, cut_by};
use super::images::{FREE_AT_THE_END, LONG_HEADER};
use sqz_image::{Fault, Heap};
use sqz_regions::{Forward, Regions, bases, live_words};
use sqz_test_fixtures::accepted::{DEAD_CYCLE, SPECIAL_ARRAY_ALONE, THREE_WORD_HEADER};
use sqz_test_fixtures::{TestImage, image_of};
use sqz_trace::{Marks, Weak, mark_plain};
use std::alloc::Global;
use std::test::Fail;
use std::thread::Threads;

/// Where the reachable objects of an image go, by regions.
#[derive(Drop)]
pub(crate) struct Placed {
    /// How many live words each region has.
    pub sums: Vec<u32>,
    /// The first address of each region's live words.
    pub bases: Vec<u64>,
    pub forward: Forward,
}

/// The places of the reachable objects.
pub(crate) fn places_of<R: Threads + Sync + AllocGlobal>(
    rt: &R,
    heap: &Heap,
    weak: Weak,
    regions: &Regions<'_>,
) -> Result<Placed, Fault>
    requires { regions.now.memory ≡ heap.now }
    ensures { IfOk result (λ placed. length placed.forward ≡ object_count heap.now) }
{
    let marks = mark_plain(rt.alloc(), heap, weak)?;
    placed_by(rt, heap, regions, &marks)
}

/// The places of the marked objects.
fn placed_by<R: Threads + Sync + AllocGlobal>(
    rt: &R,
    heap: &Heap,
    regions: &Regions<'_>,
    marks: &Marks,
) -> Result<Placed, Fault>
    requires regions { regions.now.memory ≡ heap.now }
    requires sized { length marks.now ≡ object_count heap.now }
    ensures { IfOk result (λ placed. length placed.forward ≡ object_count heap.now) }
{
    let sums = live_words(rt.alloc(), heap, regions, marks)?;
    let bases = bases(rt.alloc(), heap.base(), &sums)?;
    let forward = Forward::build(rt, rt.alloc(), heap, regions, marks, &bases)?;
    Ok(Placed {
        sums,
        bases,
        forward,
    })
}

/// An image under a cut, and where its reachable objects go.
struct Placing {
    name: &'static str,
    image: &'static TestImage,
    by: CutBy,
    /// How many live words each region has.
    sums: &'static [u32],
    /// The first address of each region's live words.
    bases: &'static [u64],
    /// The place of each object that has one.
    places: &'static [Option<u32>],
}

/// The new addresses of the live objects of the dead cycle's image.
const DEAD_CYCLE_PLACES: &[Option<u32>] = &[
    Some(0x1000),
    Some(0x1004),
    None,
    Some(0x100C),
    None,
    Some(0x1014),
];

/// Those of the image with free chunks at the end.
const FREE_PLACES: &[Option<u32>] = &[Some(0x1000), Some(0x1004)];

/// Those of the image with a long header. The third object has six words, three of them header
/// words.
const LONG_HEADER_PLACES: &[Option<u32>] = &[Some(0x1000), None, Some(0x100C), Some(0x101C)];

/// Images under cuts, and where their objects go.
const PLACINGS: &[Placing] = &[
    Placing {
        name: "dead cycle",
        image: &DEAD_CYCLE,
        by: CutBy::At(&[1, 3]),
        sums: &[1, 2, 5],
        bases: &[0x1000, 0x1004, 0x100C],
        places: DEAD_CYCLE_PLACES,
    },
    Placing {
        name: "dead cycle in regions of one word",
        image: &DEAD_CYCLE,
        by: CutBy::Every(1),
        sums: &[1, 2, 0, 0, 0, 2, 0, 0, 0, 3, 0, 0],
        bases: &[
            0x1000, 0x1004, 0x100C, 0x100C, 0x100C, 0x100C, 0x1014, 0x1014, 0x1014, 0x1014, 0x1020,
            0x1020,
        ],
        places: DEAD_CYCLE_PLACES,
    },
    Placing {
        name: "cut points inside objects",
        image: &THREE_WORD_HEADER,
        by: CutBy::At(&[2, 6, 40]),
        sums: &[1, 66, 0, 3],
        bases: &[0x1000, 0x1004, 0x110C, 0x110C],
        places: &[Some(0x1000), None, Some(0x100C), Some(0x110C)],
    },
    Placing {
        name: "cut points in small objects",
        image: &LONG_HEADER,
        by: CutBy::At(&[2, 6, 8]),
        sums: &[1, 6, 0, 3],
        bases: &[0x1000, 0x1004, 0x101C, 0x101C],
        places: LONG_HEADER_PLACES,
    },
    Placing {
        name: "cut points at first and last words",
        image: &LONG_HEADER,
        by: CutBy::At(&[4, 9, 1 << 30]),
        sums: &[1, 6, 3, 0],
        bases: &[0x1000, 0x1004, 0x101C, 0x1028],
        places: LONG_HEADER_PLACES,
    },
    Placing {
        name: "one object, cut at its end",
        image: &SPECIAL_ARRAY_ALONE,
        by: CutBy::At(&[1]),
        sums: &[1, 0],
        bases: &[0x1000, 0x1004],
        places: &[Some(0x1000)],
    },
    Placing {
        name: "one object, cut after its end",
        image: &SPECIAL_ARRAY_ALONE,
        by: CutBy::At(&[5]),
        sums: &[1, 0],
        bases: &[0x1000, 0x1004],
        places: &[Some(0x1000)],
    },
    Placing {
        name: "free chunks at the end",
        image: &FREE_AT_THE_END,
        by: CutBy::At(&[]),
        sums: &[3],
        bases: &[0x1000],
        places: FREE_PLACES,
    },
    Placing {
        name: "cut before free chunks at the end",
        image: &FREE_AT_THE_END,
        by: CutBy::At(&[1, 3]),
        sums: &[1, 2, 0],
        bases: &[0x1000, 0x1004, 0x100C],
        places: FREE_PLACES,
    },
];

/// Whether the objects of a heap have these places.
fn have_places(heap: &Heap, forward: &Forward, places: &[Option<u32>]) -> bool
    requires { length forward.now ≡ object_count heap.now }
{
    if heap.len() as usize != places.len() {
        return false;
    }
    for (object, place) in places.iter().enumerate() {
        if forward.place(object as u32) != *place {
            return false;
        }
    }
    true
}

/// Whether regions have these live words and bases, and their objects these places.
fn have_placing<R: Threads + Sync + AllocGlobal>(
    rt: &R,
    heap: &Heap,
    regions: &Regions<'_>,
    case: &Placing,
) -> Result<bool, Fault>
    requires { regions.now.memory ≡ heap.now }
{
    let placed = places_of(rt, heap, Weak::Keep, regions)?;
    Ok(
        regions.count() as usize == case.sums.len()
            && placed.sums.as_slice() == case.sums
            && placed.bases.as_slice() == case.bases
            && have_places(heap, &placed.forward, case.places),
    )
}

/// The same, for the regions of a heap.
fn has_placing<R: Threads + Sync + AllocGlobal>(
    rt: &R,
    heap: &Heap,
    case: &Placing,
) -> Result<bool, Fault> {
    let cut = cut_by(rt.alloc(), case.by)?;
    let regions = Regions::of(rt.alloc(), heap, &cut)?;
    have_placing(rt, heap, &regions, case)
}

/// The same, for those of an image.
fn is_placed<R: Threads + Sync + AllocGlobal>(rt: &R, case: &Placing) -> Result<bool, Fault> {
    let image = image_of(rt.alloc(), case.image)?;
    has_placing(rt, image.heap(), case)
}

#[test]
fn places(rt: HostRuntime) -> Result<(), Fail> {
    for case in PLACINGS {
        assert!(rt; is_placed(&rt, case)?, "{}", case.name);
    }
    Ok(())
}

/// An image under a cut, and what its regions are.
struct Objects {
    name: &'static str,
    image: &'static TestImage,
    by: CutBy,
    /// Which objects each region has: the index of the first, and that after the last.
    objects: &'static [(u32, u32)],
    /// The region of each object.
    regions: &'static [u32],
}

/// Images under cuts, and what their regions are.
const OBJECTS: &[Objects] = &[
    // One cut point is inside the dead second object, and two are inside the third, which has 66
    // words: at its base header, and among its fields.
    Objects {
        name: "cut points inside objects",
        image: &THREE_WORD_HEADER,
        by: CutBy::At(&[2, 6, 40]),
        objects: &[(0, 2), (2, 3), (3, 3), (3, 4)],
        regions: &[0, 0, 1, 3],
    },
    Objects {
        name: "no cut point",
        image: &DEAD_CYCLE,
        by: CutBy::At(&[]),
        objects: &[(0, 6)],
        regions: &[0; 6],
    },
    Objects {
        name: "one word",
        image: &SPECIAL_ARRAY_ALONE,
        by: CutBy::Every(1),
        objects: &[(0, 1)],
        regions: &[0],
    },
    Objects {
        name: "one word, cut after its end",
        image: &SPECIAL_ARRAY_ALONE,
        by: CutBy::At(&[5]),
        objects: &[(0, 1), (1, 1)],
        regions: &[0],
    },
];

/// Whether the regions have these objects.
fn have_objects(regions: &Regions<'_>, wanted: &[(u32, u32)]) -> bool {
    if regions.count() as usize != wanted.len() {
        return false;
    }
    for (region, objects) in wanted.iter().enumerate() {
        if regions.objects(region as u32) != *objects {
            return false;
        }
    }
    true
}

/// Whether the objects of a heap are in these regions.
fn are_in(heap: &Heap, regions: &Regions<'_>, wanted: &[u32]) -> bool
    requires { regions.now.memory ≡ heap.now }
{
    if heap.len() as usize != wanted.len() {
        return false;
    }
    for (object, region) in wanted.iter().enumerate() {
        if regions.region(object as u32) != *region {
            return false;
        }
    }
    true
}

/// For a heap under a cut, whether each region has these objects, and whether each object is in
/// this region.
fn are_regions(alloc: Global, heap: &Heap, case: &Objects) -> Result<(bool, bool), Fault> {
    let cut = cut_by(alloc, case.by)?;
    let regions = Regions::of(alloc, heap, &cut)?;
    Ok((
        have_objects(&regions, case.objects),
        are_in(heap, &regions, case.regions),
    ))
}

/// The same, for an image.
fn are_regions_in(alloc: Global, case: &Objects) -> Result<(bool, bool), Fault> {
    let image = image_of(alloc, case.image)?;
    are_regions(alloc, image.heap(), case)
}

#[test]
fn objects_of_regions(rt: HostRuntime) -> Result<(), Fail> {
    for case in OBJECTS {
        let found = are_regions_in(rt.alloc(), case)?;
        assert_eq!(rt; found, (true, true), "{}", case.name);
    }
    Ok(())
}
