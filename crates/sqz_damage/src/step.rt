//! The steps of a reading of data words.

/// The first part of the best reading of the data words from one word on.
#[derive(Clone, Copy)]
pub(crate) struct Step {
    /// What that reading costs: the contradicted votes, with 4 for each gap, times 2^30, and the
    /// skipped words.
    pub(crate) cost: u64,
    /// The index after the last word of the part.
    pub(crate) end: u32,
    pub(crate) is_gap: bool,
}

/// The best way on from a word within a gap.
#[derive(Clone, Copy)]
pub(crate) struct WayOn {
    /// What it costs, without the 4 votes for the gap.
    pub(crate) cost: u64,
    /// The index after the last word of the gap.
    pub(crate) end: u32,
}
