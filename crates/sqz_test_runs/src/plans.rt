//! One image by several plans: the answer is the same.

use super::runs::{SOUND, Written, assert_writes_both, nine_plans};
use super::weak_censuses::{WEAK_CLASS, WEAK_CLASS_CENSUS, WEAK_CLASS_CLEARED};
use sqz_image::Fault;
use sqz_marks::Workers;
use sqz_regions::Cut;
use sqz_test_fixtures::accepted::{DEAD_CYCLE, DEAD_CYCLE_ANSWER, DEAD_CYCLE_CENSUS};
use sqz_test_fixtures::{TestImage, file_of};
use sqz_tool::Plan;
use sqz_trace::Weak;
use std::alloc::Global;
use std::process::Abort;
use std::sync::Wait;
use std::test::Fail;
use std::thread::Threads;

/// An image, and what a run over it writes: the answer, and the text of the census.
#[derive(Clone, Copy)]
pub(crate) struct Case {
    pub image: TestImage,
    pub answer: TestImage,
    pub text: &'static str,
}

/// Asserts what a run by a plan writes.
fn assert_answer<R: Threads + Wait + Sync + Abort + AllocGlobal>(
    rt: &R,
    plan: &Plan,
    case: &Case,
) -> Result<(), Fail> {
    let file = file_of(rt.alloc(), &case.image)?;
    let wanted = file_of(rt.alloc(), &case.answer)?;
    let wanted = Written {
        image: &wanted,
        census: case.text,
    };
    assert_writes_both(rt, plan, &SOUND, file, wanted)
}

/// Asserts it of 1, 2 and 64 workers, and of regions of one word, of 65536 words and of all words.
pub(crate) fn assert_answers<R: Threads + Wait + Sync + Abort + AllocGlobal>(
    rt: &R,
    weak: Weak,
    case: &Case,
) -> Result<(), Fail> {
    for plan in &nine_plans(rt.alloc(), weak)? {
        assert_answer(rt, plan, case)?;
    }
    Ok(())
}

/// The dead cycle's image.
const DEAD_CYCLE_CASE: Case = Case {
    image: DEAD_CYCLE,
    answer: DEAD_CYCLE_ANSWER,
    text: DEAD_CYCLE_CENSUS,
};

#[test]
fn same_answer_for_each_plan(rt: HostRuntime) -> Result<(), Fail> {
    assert_answers(&rt, Weak::Keep, &DEAD_CYCLE_CASE)
}

/// A plan with this many workers, and given cut points.
fn plan_with_points(alloc: Global, workers: u32) -> Result<Plan, Fault> {
    Ok(Plan {
        workers: Workers::new(workers)?,
        cut: Cut::at(Vec::from_slice(alloc, &[1, 3])?)?,
        weak: Weak::Keep,
        census: true,
    })
}

/// Asserts what a run by such a plan writes.
fn assert_answer_with_points<R: Threads + Wait + Sync + Abort + AllocGlobal>(
    rt: &R,
    workers: u32,
) -> Result<(), Fail> {
    let plan = plan_with_points(rt.alloc(), workers)?;
    assert_answer(rt, &plan, &DEAD_CYCLE_CASE)
}

#[test]
fn same_answer_where_cut_points_are_given(rt: HostRuntime) -> Result<(), Fail> {
    for workers in [1, 2, 64] {
        assert_answer_with_points(&rt, workers)?;
    }
    Ok(())
}

#[test]
fn same_answer_where_weak_slots_are_cleared(rt: HostRuntime) -> Result<(), Fail> {
    let case = Case {
        image: WEAK_CLASS,
        answer: WEAK_CLASS_CLEARED,
        text: WEAK_CLASS_CENSUS,
    };
    assert_answers(&rt, Weak::Clear, &case)
}
