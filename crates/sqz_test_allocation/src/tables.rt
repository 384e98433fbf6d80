//! A mark table, under allocation failures.

ghost use Rattle.std.specs.Prelude.{◌≡◌, IfOk};
ghost use Rattle.sqz_marks.specs.Table.{IsPassOf, HasCountedAll};

use super::again::{again, print_refused};
use super::dead_cycle::{assert_six_objects, image_in, new_cut, regions_of};
use super::rows::DEAD_CYCLE;
use sqz_image::{Fault, Heap};
use sqz_marks::{Closed, MarkTable, Pass, Workers};
use sqz_regions::{Cut, Regions};
use sqz_trace::{Shade, Weak};
use std::process::Abort;
use std::test::Fail;

/// The shades at which marking begins: the special objects array alone is marked.
const FIRST_SHADES: [Shade; 6] = [
    Shade::White,
    Shade::White,
    Shade::White,
    Shade::White,
    Shade::White,
    Shade::Grey,
];

/// The live words of each region at which marking begins.
const FIRST_WORDS: [u32; 3] = [0, 0, 3];

/// The table at which marking begins, and the pass that is two workers' share.
fn new_table<'a, R: Print + AllocGlobal>(
    rt: &R,
    heap: &'a Heap,
    regions: &'a Regions<'a>,
    workers: Workers,
) -> Result<(MarkTable<'a>, Pass), Fail>
    requires { regions.now.memory ≡ heap.now }
    ensures of { IfOk result (λ made. IsPassOf made.0 made.1) }
    ensures whole { IfOk result (λ made. made.1.view.weight ≡ made.0.workers) }
    ensures counted { IfOk result (λ made. HasCountedAll made.1.view) }
{
    again!(
        rt,
        "MarkTable::new",
        MarkTable::new(rt.alloc(), heap, Weak::Keep, regions, workers)
    )
}

/// What is left of a table.
fn closed<R: Print + AllocGlobal>(rt: &R, table: MarkTable<'_>, pass: Pass) -> Result<Closed, Fail>
    requires of { IsPassOf table pass }
    requires whole { pass.view.weight ≡ table.workers }
    requires counted { HasCountedAll pass.view }
{
    let (table, pass) = match table.close(rt.alloc(), pass) {
        Ok(closed) => return Ok(closed),
        Err(refused) => refused,
    };
    print_refused(rt, "MarkTable::close")?;
    let Ok(closed) = table.close(rt.alloc(), pass) else {
        return Err(Fault::OutOfMemory.into());
    };
    Ok(closed)
}

/// Asserts that this is what is left of the table at which marking begins.
fn assert_closed<R: Abort>(rt: &R, closed: &Closed) {
    let found = (closed.shades.as_slice(), closed.live_words.as_slice());
    let wanted = (FIRST_SHADES.as_slice(), FIRST_WORDS.as_slice());
    assert_eq!(rt; found, wanted);
}

/// Asserts what is left of the table at which marking begins, if it is closed at once.
fn assert_table<R: Abort + Print + AllocGlobal>(
    rt: &R,
    heap: &Heap,
    cut: &Cut,
) -> Result<(), Fail> {
    let regions = regions_of(rt, heap, cut)?;
    let (table, pass) = new_table(rt, heap, &regions, Workers::new(2)?)?;
    assert_closed(rt, &closed(rt, table, pass)?);
    Ok(())
}

#[test]
fn mark_table_serves_again(rt: HostRuntime) -> Result<(), Fail> {
    let image = image_in(&rt, DEAD_CYCLE.file)?;
    let heap = image.heap();
    assert_six_objects(&rt, heap);
    assert_table(&rt, heap, &new_cut(&rt)?)
}
