//! A pass that is split, and two threads that claim one object.

ghost use Rattle.std.specs.Prelude.{◌≡◌, ◌<◌};
ghost use Rattle.sqz_image.specs.Objects.{object_count};
ghost use Rattle.sqz_marks.specs.Core.{HasSeen};
ghost use Rattle.sqz_marks.specs.Table.{IsPassOf, HasCountedAll, start_of};
ghost use Rattle.sqz_test_marks.specs.Passes.{IsLater, Knows};

use super::steps::{assert_closed, assert_dead_cycle, assert_looks, claim, closed_after, new_cut};
use sqz_image::{Heap, Slot};
use sqz_marks::{Claim, Closed, MarkTable, Pass, Workers};
use sqz_regions::{Cut, Regions};
use sqz_test_fixtures::accepted::DEAD_CYCLE;
use sqz_test_fixtures::image_of;
use sqz_trace::{Shade, Weak};
use std::process::Abort;
use std::test::Fail;
use std::thread::{Threads, join_mut};

/// How often two threads claim one object.
const RACES: u32 = 200;

/// The objects that are grey after a race, in the order in which they are made black, and what each
/// of them wins.
const REST: &[(u32, &[u32])] = &[(5, &[0]), (1, &[3]), (3, &[]), (0, &[])];

/// Two passes claim what a slot of the special objects array points to, each in a thread of its
/// own.
fn claim_by_both<R: Threads>(
    rt: &R,
    table: &MarkTable<'_>,
    first: &mut Pass,
    second: &mut Pass,
) -> (Claim, Claim)
    requires first { IsPassOf table.now first.old }
    requires second { IsPassOf table.now second.old }
    requires inside { 5 < object_count table.now.heap.memory }
    requires first_saw { HasSeen first.old.view 5 }
    requires second_saw { HasSeen second.old.view 5 }
    ensures first { IsLater first.old first.new }
    ensures second { IsLater second.old second.new }
    ensures first_knows { Knows first.new.view result.0 }
    ensures second_knows { Knows second.new.view result.1 }
{
    join_mut(
        rt,
        &mut || claim(table, first, 5, Slot::Field(1)),
        &mut || claim(table, second, 5, Slot::Field(1)),
    )
}

/// Asserts that a pass is all of its table's.
pub(crate) fn assert_whole<R: Abort>(rt: &R, pass: &Pass) {
    assert!(rt; pass.is_whole());
}

/// Asserts that each of two passes is one worker's share, and not all of its table's.
pub(crate) fn assert_parts<R: Abort>(rt: &R, first: &Pass, second: &Pass) {
    assert!(rt; !first.is_whole() && !second.is_whole());
    assert_eq!(rt; (first.weight(), second.weight()), (1, 1));
}

/// Asserts that a pass of two workers' share is whole, that its parts are not, and that they are
/// joined to a whole one.
fn assert_splits<R: Abort>(rt: &R, table: &MarkTable<'_>, pass: Pass)
    requires of { IsPassOf table.now pass }
    requires two { pass.view.weight ≡ 2 }
    requires count { object_count table.now.heap.memory ≡ 6 }
{
    assert_whole(rt, &pass);
    let (first, mut second) = table.split(pass, 1);
    assert_parts(rt, &first, &second);
    assert_looks(rt, table, &mut second, 5, Shade::Grey);
    assert_whole(rt, &table.join(first, second));
}

/// Asserts it of the pass of a new table.
fn assert_new_splits<R: Abort + AllocGlobal>(
    rt: &R,
    heap: &Heap,
    regions: &Regions<'_>,
    workers: Workers,
) -> Result<(), Fail>
    requires memory { regions.now.memory ≡ heap.now }
    requires count { object_count heap.now ≡ 6 }
    requires two { workers ≡ 2 }
{
    let (table, pass) = MarkTable::new(rt.alloc(), heap, Weak::Keep, regions, workers)?;
    assert_splits(rt, &table, pass);
    Ok(())
}

/// Asserts it under a cut.
fn assert_cut_splits<R: Abort + AllocGlobal>(rt: &R, heap: &Heap, cut: &Cut) -> Result<(), Fail>
    requires { object_count heap.now ≡ 6 }
{
    let workers = Workers::new(2)?;
    assert_new_splits(rt, heap, &Regions::of(rt.alloc(), heap, cut)?, workers)
}

#[test]
fn split_and_join(rt: HostRuntime) -> Result<(), Fail> {
    let image = image_of(rt.alloc(), &DEAD_CYCLE)?;
    let heap = image.heap();
    assert_dead_cycle(&rt, heap);
    assert_cut_splits(&rt, heap, &new_cut(rt.alloc())?)
}

/// Asserts that one of two claims won object 1, and that the other one saw it.
fn assert_one_wins<R: Abort>(rt: &R, answers: (Claim, Claim)) {
    let first_wins = answers == (Claim::Won(1), Claim::Seen(1));
    let second_wins = answers == (Claim::Seen(1), Claim::Won(1));
    assert!(rt; first_wins || second_wins, "{answers:?}");
}

/// A pass of two workers' share that was split and is joined again. One of its parts won object 1
/// and counted it, and the other one saw it, whichever came first.
fn raced<R: Threads + Abort>(rt: &R, table: &MarkTable<'_>, pass: Pass) -> Pass
    requires of { IsPassOf table.now pass }
    requires two { pass.view.weight ≡ 2 }
    requires count { object_count table.now.heap.memory ≡ 6 }
    requires saw { HasSeen pass.view 5 }
    requires counted { HasCountedAll pass.view }
    ensures of { IsPassOf table.now result }
    ensures two { result.view.weight ≡ 2 }
    ensures counted { HasCountedAll result.view }
{
    let (mut first, mut second) = table.split(pass, 1);
    assert_looks(rt, table, &mut second, 5, Shade::Grey);
    let answers = claim_by_both(rt, table, &mut first, &mut second);
    assert_one_wins(rt, answers);
    table.join(first, second)
}

/// What is left of a table after two passes claim one object.
fn race<R: Threads + Abort + AllocGlobal>(
    rt: &R,
    heap: &Heap,
    regions: &Regions<'_>,
    workers: Workers,
) -> Result<Closed, Fail>
    requires memory { regions.now.memory ≡ heap.now }
    requires count { object_count heap.now ≡ 6 }
    requires start { start_of heap.now ≡ 5 }
    requires two { workers ≡ 2 }
{
    let (table, pass) = MarkTable::new(rt.alloc(), heap, Weak::Keep, regions, workers)?;
    let pass = raced(rt, &table, pass);
    closed_after(rt, table, pass, REST)
}

/// Asserts of many races what is left of the table.
fn assert_races<R: Threads + Abort + AllocGlobal>(
    rt: &R,
    heap: &Heap,
    cut: &Cut,
) -> Result<(), Fail>
    requires count { object_count heap.now ≡ 6 }
    requires start { start_of heap.now ≡ 5 }
{
    let workers = Workers::new(2)?;
    let regions = Regions::of(rt.alloc(), heap, cut)?;
    for _ in 0..RACES {
        assert_closed(rt, heap, &race(rt, heap, &regions, workers)?);
    }
    Ok(())
}

#[test]
fn two_threads_claim_one_object(rt: HostRuntime) -> Result<(), Fail> {
    let image = image_of(rt.alloc(), &DEAD_CYCLE)?;
    let heap = image.heap();
    assert_dead_cycle(&rt, heap);
    assert_races(&rt, heap, &new_cut(rt.alloc())?)
}
