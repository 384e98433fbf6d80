//! The calls of a mark table one by one, by one pass.

ghost use Rattle.std.specs.Prelude.{◌≡◌, ◌≢◌, ◌<◌, true, OnOk};
ghost use Rattle.sqz_trace.specs.declared.shades.Shade.TheVariants.{White};
ghost use Rattle.sqz_image.specs.Objects.{object_count};
ghost use Rattle.sqz_marks.specs.Core.{HasSeen};
ghost use Rattle.sqz_marks.specs.Table.{IsPassOf, HasCountedAll, start_of};
ghost use Rattle.sqz_test_marks.specs.Passes.{IsLater, Knows};

use super::targets::mark_targets;
use sqz_image::{Fault, Heap, Slot};
use sqz_marks::{Claim, Closed, MarkTable, Pass, Workers};
use sqz_regions::{Cut, Regions};
use sqz_test_fixtures::accepted::DEAD_CYCLE;
use sqz_test_fixtures::image_of;
use sqz_trace::{Shade, Weak};
use std::alloc::Global;
use std::process::Abort;
use std::test::Fail;

/// The shades of the dead cycle's image when it is marked.
const DEAD_CYCLE_SHADES: [Shade; 6] = [
    Shade::Black,
    Shade::Black,
    Shade::White,
    Shade::Black,
    Shade::White,
    Shade::Black,
];

/// How many words the marked objects of it have in each region, which is cut before objects 1 and
/// 2.
const DEAD_CYCLE_WORDS: [u32; 3] = [1, 2, 5];

/// The cut of it before objects 1 and 2.
pub(crate) fn new_cut(alloc: Global) -> Result<Cut, Fail> {
    Ok(Cut::at([1, 3].to_vec(alloc)?)?)
}

/// Asserts that a heap has six objects, the special objects array last, as that of the dead cycle.
pub(crate) fn assert_dead_cycle<R: Abort>(rt: &R, heap: &Heap)
    ensures count { object_count heap.now ≡ 6 }
    ensures start { start_of heap.now ≡ 5 }
{
    assert_eq!(rt; heap.len(), 6);
    assert_eq!(rt; heap.special(), 5);
}

/// Asserts what a look at an object finds.
pub(crate) fn assert_looks<R: Abort>(
    rt: &R,
    table: &MarkTable<'_>,
    pass: &mut Pass,
    object: u32,
    wanted: Shade,
)
    requires of { IsPassOf table.now pass.old }
    requires inside { object < object_count table.now.heap.memory }
    ensures later { IsLater pass.old pass.new }
    ensures marked { wanted ≢ White → HasSeen pass.new.view object }
{
    assert_eq!(rt; table.look(pass, object), wanted, "object {object}");
}

/// What a claim of the object that a slot points to finds. If the pass won it, it is counted.
pub(crate) fn claim(table: &MarkTable<'_>, pass: &mut Pass, parent: u32, slot: Slot) -> Claim
    requires of { IsPassOf table.now pass.old }
    requires inside { parent < object_count table.now.heap.memory }
    requires seen { HasSeen pass.old.view parent }
    ensures later { IsLater pass.old pass.new }
    ensures knows { Knows pass.new.view result }
{
    let found = table.claim(pass, parent, slot);
    if let Claim::Won(object) = found {
        table.count(pass, object);
    }
    found
}

/// Whether two claims found the same.
pub(crate) fn is_same(found: Claim, wanted: Claim) -> bool
    ensures { result ≡ true → found ≡ wanted }
{
    match (found, wanted) {
        (Claim::Won(found), Claim::Won(wanted)) => found == wanted,
        (Claim::Seen(found), Claim::Seen(wanted)) => found == wanted,
        (Claim::Nothing, Claim::Nothing) => true,
        _ => false,
    }
}

/// Asserts that an object is marked, as a look finds.
fn assert_marked<R: Abort>(rt: &R, table: &MarkTable<'_>, pass: &mut Pass, object: u32)
    requires of { IsPassOf table.now pass.old }
    requires inside { object < object_count table.now.heap.memory }
    ensures later { IsLater pass.old pass.new }
    ensures marked { HasSeen pass.new.view object }
{
    let shade = table.look(pass, object);
    assert!(rt; shade != Shade::White, "object {object}");
}

/// Asserts that an object is marked, and what a claim of the object that a slot of it points to
/// finds. `from` is the object with the slot.
pub(crate) fn assert_claims<R: Abort>(
    rt: &R,
    table: &MarkTable<'_>,
    pass: &mut Pass,
    from: (u32, Slot),
    wanted: Claim,
)
    requires of { IsPassOf table.now pass.old }
    requires inside { from.0 < object_count table.now.heap.memory }
    ensures later { IsLater pass.old pass.new }
    ensures knows { Knows pass.new.view wanted }
{
    let (parent, slot) = from;
    assert_marked(rt, table, pass, parent);
    let found = claim(table, pass, parent, slot);
    assert!(rt;
        is_same(found, wanted),
        "object {parent}, slot {slot:?}: {found:?}"
    );
}

/// Asserts that an object is grey, claims all that it points to, asserts that this won these
/// objects, and makes the object black.
fn assert_blackens<R: Abort + AllocGlobal>(
    rt: &R,
    table: &MarkTable<'_>,
    pass: &mut Pass,
    object: u32,
    wanted: &[u32],
) -> Result<(), Fail>
    requires of { IsPassOf table.now pass.old }
    requires inside { object < object_count table.now.heap.memory }
    ensures { OnOk result (IsLater pass.old pass.new) }
{
    assert_looks(rt, table, pass, object, Shade::Grey);
    let mut won = Vec::new(rt.alloc());
    mark_targets(table, pass, object, &mut won)?;
    assert_eq!(rt; won.as_slice(), wanted, "object {object}");
    Ok(())
}

/// Asserts it of objects of an image of six, one after the other: which they are, and what each of
/// them wins.
fn assert_each_blackens<R: Abort + AllocGlobal>(
    rt: &R,
    table: &MarkTable<'_>,
    pass: &mut Pass,
    each: &[(u32, &[u32])],
) -> Result<(), Fail>
    requires of { IsPassOf table.now pass.old }
    requires count { object_count table.now.heap.memory ≡ 6 }
    ensures { OnOk result (IsLater pass.old pass.new) }
{
    for (object, wanted) in each {
        assert!(rt; *object < 6);
        assert_blackens(rt, table, pass, *object, wanted)?;
    }
    Ok(())
}

/// What is left of a table. After an allocation failure, memory is asked for again: table and pass
/// are as before.
pub(crate) fn close_again(alloc: Global, table: MarkTable<'_>, pass: Pass) -> Result<Closed, Fault>
    requires of { IsPassOf table pass }
    requires whole { pass.view.weight ≡ table.workers }
    requires counted { HasCountedAll pass.view }
{
    let (table, pass) = match table.close(alloc, pass) {
        Ok(closed) => return Ok(closed),
        Err(refused) => refused,
    };
    let Ok(closed) = table.close(alloc, pass) else {
        return Err(Fault::OutOfMemory);
    };
    Ok(closed)
}

/// What is left of the table of an image of six objects when these have been made black, as is
/// asserted of them.
pub(crate) fn closed_after<R: Abort + AllocGlobal>(
    rt: &R,
    table: MarkTable<'_>,
    mut pass: Pass,
    each: &[(u32, &[u32])],
) -> Result<Closed, Fail>
    requires of { IsPassOf table pass }
    requires count { object_count table.heap.memory ≡ 6 }
    requires whole { pass.view.weight ≡ table.workers }
    requires counted { HasCountedAll pass.view }
{
    assert_each_blackens(rt, &table, &mut pass, each)?;
    Ok(close_again(rt.alloc(), table, pass)?)
}

/// How many words these objects have in each region, as the heap has it.
fn dead_cycle_words(heap: &Heap) -> [u32; 3]
    requires { object_count heap.now ≡ 6 }
{
    let third = heap.chunk(3).length + heap.chunk(5).length;
    [heap.chunk(0).length, heap.chunk(1).length, third]
}

/// Asserts that this is what is left of a table on which the dead cycle's image was marked.
pub(crate) fn assert_closed<R: Abort>(rt: &R, heap: &Heap, closed: &Closed)
    requires { object_count heap.now ≡ 6 }
{
    assert_eq!(rt; dead_cycle_words(heap), DEAD_CYCLE_WORDS);
    let found = (closed.live_words.as_slice(), closed.shades.as_slice());
    let wanted = (DEAD_CYCLE_WORDS.as_slice(), DEAD_CYCLE_SHADES.as_slice());
    assert_eq!(rt; found, wanted);
}

/// What the pass does with the special objects array.
fn mark_special<R: Abort + AllocGlobal>(
    rt: &R,
    table: &MarkTable<'_>,
    pass: &mut Pass,
) -> Result<(), Fail>
    requires of { IsPassOf table.now pass.old }
    requires count { object_count table.now.heap.memory ≡ 6 }
    ensures { OnOk result (IsLater pass.old pass.new) }
{
    assert_looks(rt, table, pass, 5, Shade::Grey);
    assert_claims(rt, table, pass, (5, Slot::Field(0)), Claim::Won(0));
    assert_claims(rt, table, pass, (5, Slot::Field(0)), Claim::Seen(0));
    assert_claims(rt, table, pass, (5, Slot::ClassWord), Claim::Nothing);
    assert_claims(rt, table, pass, (5, Slot::Field(1)), Claim::Won(1));
    assert_blackens(rt, table, pass, 5, &[])?;
    Ok(())
}

/// What the pass does with the objects that the special objects array points to.
fn mark_named<R: Abort>(rt: &R, table: &MarkTable<'_>, pass: &mut Pass)
    requires of { IsPassOf table.now pass.old }
    requires count { object_count table.now.heap.memory ≡ 6 }
    ensures { IsLater pass.old pass.new }
{
    assert_looks(rt, table, pass, 5, Shade::Black);
    assert_looks(rt, table, pass, 2, Shade::White);
    assert_claims(rt, table, pass, (1, Slot::Field(0)), Claim::Won(3));
    assert_claims(rt, table, pass, (3, Slot::Field(0)), Claim::Seen(1));
}

/// The objects that are grey then. None of them wins another.
const REST: &[(u32, &[u32])] = &[(0, &[]), (1, &[]), (3, &[])];

/// Marks the dead cycle's image with one pass, which is this many workers' share.
fn mark_dead_cycle<R: Abort + AllocGlobal>(
    rt: &R,
    heap: &Heap,
    regions: &Regions<'_>,
    workers: Workers,
) -> Result<Closed, Fail>
    requires memory { regions.now.memory ≡ heap.now }
    requires count { object_count heap.now ≡ 6 }
{
    let (table, mut pass) = MarkTable::new(rt.alloc(), heap, Weak::Keep, regions, workers)?;
    mark_special(rt, &table, &mut pass)?;
    mark_named(rt, &table, &mut pass);
    closed_after(rt, table, pass, REST)
}

/// Asserts what is left of a table if the pass is the share of one worker, of two, or of the most
/// that there can be.
fn assert_one_pass<R: Abort + AllocGlobal>(rt: &R, heap: &Heap, cut: &Cut) -> Result<(), Fail>
    requires { object_count heap.now ≡ 6 }
{
    let regions = Regions::of(rt.alloc(), heap, cut)?;
    for number in [1, 2, 64] {
        let closed = mark_dead_cycle(rt, heap, &regions, Workers::new(number)?)?;
        assert_closed(rt, heap, &closed);
    }
    Ok(())
}

#[test]
fn one_pass(rt: HostRuntime) -> Result<(), Fail> {
    let image = image_of(rt.alloc(), &DEAD_CYCLE)?;
    let heap = image.heap();
    assert_dead_cycle(&rt, heap);
    assert_one_pass(&rt, heap, &new_cut(rt.alloc())?)
}
