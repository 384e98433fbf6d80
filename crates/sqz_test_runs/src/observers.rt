//! The stages that an observer of a run sees.

use super::runs::plan_of;
use sqz_image::{Fault, MemorySink, MemorySource};
use sqz_test_fixtures::accepted::DEAD_ARRAY;
use sqz_test_fixtures::with_defects::ODD_FIELD;
use sqz_test_fixtures::{TestImage, file_of};
use sqz_tool::{Plan, Session, Stage, StageObserver, Summary, run_observed};
use sqz_trace::Weak;
use sqz_workers::OpenGate;
use std::process::Abort;
use std::sync::Wait;
use std::test::Fail;
use std::thread::Threads;

/// Keeps the stages reported to it.
#[derive(Drop)]
struct Recorder {
    stages: Vec<Stage>,
}

impl StageObserver for Recorder {
    fn finished(&mut self, stage: Stage) {
        let _ = self.stages.push(stage);
    }
}

/// What a run over an image returns, and the stages that ended.
fn observed<R: Threads + Wait + Sync + AllocGlobal>(
    rt: &R,
    plan: &Plan,
    image: &TestImage,
) -> Result<(Result<Summary, Fault>, Vec<Stage>), Fail> {
    let alloc = rt.alloc();
    let mut source = MemorySource::new(file_of(alloc, image)?, 40, None);
    let mut sink = MemorySink::new(alloc, 4096, None)?;
    let mut report = MemorySink::new(alloc, 4096, None)?;
    let mut recorder = Recorder {
        stages: Vec::new(alloc),
    };
    let mut session = Session {
        rt,
        alloc,
        gate: &OpenGate,
        observer: &mut recorder,
    };
    let answer = run_observed(&mut session, plan, &mut source, &mut sink, &mut report);
    Ok((answer, recorder.stages))
}

/// Asserts that these stages ended.
fn assert_stages<R: Abort>(rt: &R, found: &[Stage], wanted: &[Stage]) {
    assert_eq!(rt; found, wanted);
}

#[test]
fn all_stages_with_a_census(rt: HostRuntime) -> Result<(), Fail> {
    let (answer, stages) = observed(&rt, &plan_of(Weak::Keep, true)?, &DEAD_ARRAY)?;
    assert!(rt; answer.is_ok());
    assert_stages(
        &rt,
        &stages,
        &[
            Stage::Read,
            Stage::Index,
            Stage::Cut,
            Stage::Mark,
            Stage::Check,
            Stage::Place,
            Stage::Slide,
            Stage::Census,
            Stage::Write,
        ],
    );
    Ok(())
}

#[test]
fn no_census_unless_it_is_asked_for(rt: HostRuntime) -> Result<(), Fail> {
    let (answer, stages) = observed(&rt, &plan_of(Weak::Keep, false)?, &DEAD_ARRAY)?;
    assert!(rt; answer.is_ok());
    assert_eq!(rt; stages.len(), 8);
    assert!(rt; !stages.contains(&Stage::Census));
    Ok(())
}

#[test]
fn a_defect_ends_the_run_after_marking(rt: HostRuntime) -> Result<(), Fail> {
    let (answer, stages) = observed(&rt, &plan_of(Weak::Keep, true)?, &ODD_FIELD)?;
    assert!(rt; answer.is_err());
    assert_stages(
        &rt,
        &stages,
        &[Stage::Read, Stage::Index, Stage::Cut, Stage::Mark],
    );
    Ok(())
}
