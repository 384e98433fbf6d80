//! The scan of what the workers left grey.

ghost use Rattle.std.specs.Prelude.{◌≡◌, ℕ, ◌<◌, true, false, vec_capacity};
ghost use Rattle.sqz_image.specs.Objects.{object_count};
ghost use Rattle.sqz_marks.specs.Table.{IsPassOf};
ghost use Rattle.sqz_workers.specs.Gains.{HasGainedSome, HasScannedAll, HasBlackenedMore};

use crate::scanning::scan_if_grey;
use sqz_marks::{MarkTable, Pass};
use sqz_object::ObjectIndex;

/// Scans what the workers left grey, and all that becomes grey meanwhile, until no object is grey.
/// The worklist takes what becomes grey. The sweep over all objects is repeated until it finds no
/// grey object, so it also finds what the worklist had no room for. It allocates nothing: the
/// worklist never grows.
pub(crate) fn scan_remaining(
    table: &MarkTable<'_>,
    pass: &mut Pass,
    worklist: &mut Vec<ObjectIndex>,
)
    requires of { IsPassOf table.now pass.old }
    ensures gained { HasGainedSome pass.old pass.new }
    ensures scanned { HasScannedAll (object_count table.now.heap.memory) pass.new.view }
    ensures room { vec_capacity worklist.new ≡ vec_capacity worklist.old }
{
    while sweep(table, pass, worklist) {}
}

/// Goes over all objects once; scans each grey one, and then what waits in the worklist. Returns
/// whether there was a grey one.
fn sweep(table: &MarkTable<'_>, pass: &mut Pass, worklist: &mut Vec<ObjectIndex>) -> bool
    requires of { IsPassOf table.now pass.old }
    ensures gained { HasGainedSome pass.old pass.new }
    ensures more { result ≡ true →
        HasBlackenedMore (object_count table.now.heap.memory) pass.old.view pass.new.view }
    ensures scanned { result ≡ false →
        HasScannedAll (object_count table.now.heap.memory) pass.new.view }
    ensures room { vec_capacity worklist.new ≡ vec_capacity worklist.old }
{
    let mut found = false;
    for object in 0..table.heap().len() {
        if scan_if_grey(table, pass, worklist, object).is_some() {
            drain(table, pass, worklist);
            found = true;
        }
    }
    found
}

/// Scans the objects of a worklist until it is empty, or until it has taken as many objects from it
/// as the heap has.
fn drain(table: &MarkTable<'_>, pass: &mut Pass, worklist: &mut Vec<ObjectIndex>)
    requires of { IsPassOf table.now pass.old }
    ensures gained { HasGainedSome pass.old pass.new }
    ensures room { vec_capacity worklist.new ≡ vec_capacity worklist.old }
{
    for _ in 0..table.heap().len() {
        let Some(object) = worklist.pop() else {
            break;
        };
        scan_if_grey(table, pass, worklist, object);
    }
}
