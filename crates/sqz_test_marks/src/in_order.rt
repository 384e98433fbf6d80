//! The calls that mark the dead cycle's image, one by one: a look, a claim, a count or a blackening
//! each.

ghost use Rattle.std.specs.Prelude.{◌≡◌, ◌<◌};
ghost use Rattle.sqz_image.specs.Objects.{object_count};
ghost use Rattle.sqz_image.specs.declared.slot.Slot.TheVariants.{Field};
ghost use Rattle.sqz_trace.specs.declared.weak.Weak.TheVariants.{Keep};
ghost use Rattle.sqz_trace.specs.Edges.{strong_target};
ghost use Rattle.sqz_marks.specs.Core.{first_view};
ghost use Rattle.sqz_marks.specs.Table.{IsPassOf, knowing, start_of};
ghost use Rattle.sqz_test_marks.specs.InOrder.{HasDeadCycle, HasFields, nil_seen, first_counted};
ghost use Rattle.sqz_test_marks.specs.InOrder.{special_black, all_black};

use super::passes::{assert_parts, assert_whole};
use super::steps::{assert_closed, assert_dead_cycle, close_again, is_same, new_cut};
use sqz_image::{Heap, Slot};
use sqz_marks::{Claim, Closed, MarkTable, Pass, Workers};
use sqz_regions::{Cut, Regions};
use sqz_test_fixtures::accepted::DEAD_CYCLE;
use sqz_test_fixtures::image_of;
use sqz_trace::{OutEdges, Shade, Weak, strong};
use std::process::Abort;
use std::test::Fail;

/// Asserts how many strong fields an object has, and that its class word points to no object.
fn assert_fields<R: Abort>(rt: &R, heap: &Heap, object: u32, fields: u32)
    requires { object < object_count heap.now }
    ensures { HasFields heap.now Keep object fields }
{
    let class = OutEdges::of(heap, Weak::Keep, object).target(Slot::ClassWord);
    assert!(rt;
        strong(heap, Weak::Keep, object) == fields && class.is_none(),
        "object {object}"
    );
}

/// Asserts how many strong fields each live object of the dead cycle's image has.
fn assert_each_fields<R: Abort>(rt: &R, heap: &Heap)
    requires { object_count heap.now ≡ 6 }
    ensures { HasDeadCycle heap.now Keep }
{
    assert_fields(rt, heap, 5, 2);
    assert_fields(rt, heap, 0, 0);
    assert_fields(rt, heap, 1, 1);
    assert_fields(rt, heap, 3, 1);
}

/// Asserts which shade a look found.
fn assert_shade<R: Abort>(rt: &R, found: Shade, wanted: Shade)
    ensures { found ≡ wanted }
{
    assert_eq!(rt; found, wanted);
}

/// Asserts what a claim returned.
fn assert_claim<R: Abort>(rt: &R, found: Claim, wanted: Claim)
    ensures { found ≡ wanted }
{
    assert!(rt; is_same(found, wanted), "{found:?} and not {wanted:?}");
}

/// Looks at the special objects array, and claims nil, which it points to, twice.
fn claim_nil<R: Abort>(rt: &R, table: &MarkTable<'_>, pass: &mut Pass)
    requires of { IsPassOf table.now pass.old }
    requires cycle { HasDeadCycle table.now.heap.memory table.now.weak }
    requires opened { pass.old.view ≡ first_view 2 5 }
    ensures known { pass.new ≡ knowing pass.old nil_seen }
    ensures target { strong_target table.now.heap.memory table.now.weak 5 (Field 0) ≡ Some 0 }
{
    assert_shade(rt, table.look(pass, 5), Shade::Grey);
    assert_claim(rt, table.claim(pass, 5, Slot::Field(0)), Claim::Won(0));
    assert_claim(rt, table.claim(pass, 5, Slot::Field(0)), Claim::Seen(0));
    assert_claim(rt, table.claim(pass, 5, Slot::ClassWord), Claim::Nothing);
}

/// Counts nil, and claims and counts the other object that the special objects array points to.
fn claim_first<R: Abort>(rt: &R, table: &MarkTable<'_>, pass: &mut Pass)
    requires of { IsPassOf table.now pass.old }
    requires cycle { HasDeadCycle table.now.heap.memory table.now.weak }
    requires known { pass.old.view ≡ nil_seen }
    ensures known { pass.new ≡ knowing pass.old first_counted }
    ensures target { strong_target table.now.heap.memory table.now.weak 5 (Field 1) ≡ Some 1 }
{
    table.count(pass, 0);
    assert_claim(rt, table.claim(pass, 5, Slot::Field(1)), Claim::Won(1));
    table.count(pass, 1);
}

/// Blackens the special objects array, and looks at it and at a dead object.
fn blacken_special<R: Abort>(rt: &R, table: &MarkTable<'_>, pass: &mut Pass)
    requires of { IsPassOf table.now pass.old }
    requires cycle { HasDeadCycle table.now.heap.memory table.now.weak }
    requires known { pass.old.view ≡ first_counted }
    requires nil { strong_target table.now.heap.memory table.now.weak 5 (Field 0) ≡ Some 0 }
    requires first { strong_target table.now.heap.memory table.now.weak 5 (Field 1) ≡ Some 1 }
    ensures { pass.new ≡ knowing pass.old special_black }
{
    table.blacken(pass, 5);
    assert_shade(rt, table.look(pass, 5), Shade::Black);
    assert_shade(rt, table.look(pass, 2), Shade::White);
}

/// Marks what the special objects array points to, and then that array.
fn mark_special<R: Abort>(rt: &R, table: &MarkTable<'_>, pass: &mut Pass)
    requires of { IsPassOf table.now pass.old }
    requires cycle { HasDeadCycle table.now.heap.memory table.now.weak }
    requires opened { pass.old.view ≡ first_view 2 5 }
    ensures { pass.new ≡ knowing pass.old special_black }
{
    claim_nil(rt, table, pass);
    claim_first(rt, table, pass);
    blacken_special(rt, table, pass);
}

/// Marks the other live objects.
fn mark_others<R: Abort>(rt: &R, table: &MarkTable<'_>, pass: &mut Pass)
    requires of { IsPassOf table.now pass.old }
    requires cycle { HasDeadCycle table.now.heap.memory table.now.weak }
    requires marked { pass.old.view ≡ special_black }
    ensures { pass.new ≡ knowing pass.old all_black }
{
    assert_claim(rt, table.claim(pass, 1, Slot::Field(0)), Claim::Won(3));
    table.count(pass, 3);
    assert_claim(rt, table.claim(pass, 3, Slot::Field(0)), Claim::Seen(1));
    table.blacken(pass, 0);
    table.blacken(pass, 1);
    table.blacken(pass, 3);
}

/// What is left of a new table when one pass has marked all live objects.
fn closed_in_order<R: Abort + AllocGlobal>(
    rt: &R,
    table: MarkTable<'_>,
    mut pass: Pass,
) -> Result<Closed, Fail>
    requires of { IsPassOf table pass }
    requires two { table.workers ≡ 2 }
    requires cycle { HasDeadCycle table.heap.memory table.weak }
    requires opened { pass.view ≡ first_view 2 5 }
{
    mark_special(rt, &table, &mut pass);
    mark_others(rt, &table, &mut pass);
    Ok(close_again(rt.alloc(), table, pass)?)
}

/// The pass of a new table, as it is, or split into two passes, which are not whole, and joined
/// again.
fn opened<R: Abort>(rt: &R, table: &MarkTable<'_>, pass: Pass, splits: bool) -> Pass
    requires of { IsPassOf table.now pass }
    requires opened { pass.view ≡ first_view 2 5 }
    ensures { result ≡ pass }
{
    if !splits {
        return pass;
    }
    let (first, second) = table.split(pass, 1);
    assert_parts(rt, &first, &second);
    let whole = table.join(first, second);
    assert_whole(rt, &whole);
    whole
}

/// Asserts what is left of a new table after the calls by one pass, which is split before or not.
fn assert_in_order<R: Abort + AllocGlobal>(
    rt: &R,
    heap: &Heap,
    regions: &Regions<'_>,
    workers: Workers,
    splits: bool,
) -> Result<(), Fail>
    requires memory { regions.now.memory ≡ heap.now }
    requires cycle { HasDeadCycle heap.now Keep }
    requires start { start_of heap.now ≡ 5 }
    requires two { workers ≡ 2 }
{
    let (table, pass) = MarkTable::new(rt.alloc(), heap, Weak::Keep, regions, workers)?;
    let pass = opened(rt, &table, pass, splits);
    assert_closed(rt, heap, &closed_in_order(rt, table, pass)?);
    Ok(())
}

/// Asserts it under a cut.
fn assert_cut_in_order<R: Abort + AllocGlobal>(rt: &R, heap: &Heap, cut: &Cut) -> Result<(), Fail>
    requires cycle { HasDeadCycle heap.now Keep }
    requires start { start_of heap.now ≡ 5 }
{
    let workers = Workers::new(2)?;
    let regions = Regions::of(rt.alloc(), heap, cut)?;
    for splits in [false, true] {
        assert_in_order(rt, heap, &regions, workers, splits)?;
    }
    Ok(())
}

#[test]
fn calls_one_by_one(rt: HostRuntime) -> Result<(), Fail> {
    let image = image_of(rt.alloc(), &DEAD_CYCLE)?;
    let heap = image.heap();
    assert_dead_cycle(&rt, heap);
    assert_each_fields(&rt, heap);
    assert_cut_in_order(&rt, heap, &new_cut(rt.alloc())?)
}
