//! An observer of the stages of a run.

/// A stage of a run. They come in this order; a census is made only if the plan asks for one.
#[derive(Clone, Copy, Debug, PartialEq, Eq)]
pub enum Stage {
    /// The bytes are read.
    Read,
    /// The objects are found among the bytes.
    Index,
    /// The data are cut into regions.
    Cut,
    /// The reachable objects are marked, and the live words of each region are counted.
    Mark,
    /// The marked objects are searched for a defect.
    Check,
    /// Each live object has its new address.
    Place,
    /// The live objects are moved.
    Slide,
    /// The text of the census is made.
    Census,
    /// The image is written, and after it the census.
    Write,
}

/// Is called when a stage of a run has ended. A run does the same for every observer.
pub trait StageObserver {
    /// A stage has ended.
    fn finished(&mut self, _stage: Stage) {}
}

/// Ignores the end of each stage.
#[derive(Drop)]
pub struct NoObserver;

impl StageObserver for NoObserver {}
