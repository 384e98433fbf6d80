//! The summaries of runs: objects read and kept, and bytes of data before and after.

use super::prefixes::with_tail;
use super::runs::assert_writes;
use sqz_object::Order;
use sqz_test_fixtures::accepted::{DEAD_ARRAY, NIL_ALONE};
use sqz_test_fixtures::file_in;
use sqz_tool::Summary;
use sqz_trace::Weak;
use std::process::Abort;
use std::sync::Wait;
use std::test::Fail;
use std::thread::Threads;

/// Asserts that a run over a file in this order writes `NIL_ALONE`, and what its summary is.
fn assert_summary<R: Threads + Wait + Sync + Abort + AllocGlobal>(
    rt: &R,
    order: Order,
    file: Vec<u8>,
    wanted: Summary,
) -> Result<(), Fail> {
    let answer = file_in(rt.alloc(), order, &NIL_ALONE)?;
    let summary = assert_writes(rt, Weak::Keep, file, &answer)?;
    assert_eq!(rt; summary, wanted);
    Ok(())
}

#[test]
fn dead_array_in_either_order(rt: HostRuntime) -> Result<(), Fail> {
    let wanted = Summary {
        objects: 3,
        kept: 2,
        data_before: 24,
        data_after: 12,
    };
    for order in [Order::Little, Order::Big] {
        let file = file_in(rt.alloc(), order, &DEAD_ARRAY)?;
        assert_summary(&rt, order, file, wanted)?;
    }
    Ok(())
}

/// The five bytes after the data are neither counted nor written.
#[test]
fn bytes_after_the_data(rt: HostRuntime) -> Result<(), Fail> {
    let file = with_tail(file_in(rt.alloc(), Order::Little, &NIL_ALONE)?)?;
    assert_eq!(rt; file.len(), 81);
    let wanted = Summary {
        objects: 2,
        kept: 2,
        data_before: 12,
        data_after: 12,
    };
    assert_summary(&rt, Order::Little, file, wanted)
}
