//! What changed.

ghost use Rattle.std.specs.Prelude.{◌≡◌, IfOk, slice_index_or};
ghost use Rattle.sqz_changes.specs.Owners.{path_to};

use crate::leads::Step;
use crate::place::Difference;
use std::alloc::{AllocError, Global};

/// The differences that one pair owns.
#[derive(Clone, Copy, Debug, PartialEq, Eq)]
pub struct Change {
    /// The index of the pair that owns them.
    pub owner: u32,
    /// The first of them, in the order of the walk.
    pub first: Difference,
    /// Their number.
    pub count: u64,
}

/// What changed between two images.
#[derive(Drop)]
pub struct Changes {
    /// The step that first leads to each pair; None for a pair that owns itself.
    pub(crate) leads: Vec<Option<Step>>,
    /// The differences that are not quiet, by owner, in the order of their first differences.
    pub shown: Vec<Change>,
    /// The quiet differences, by owner, in the order of their first differences.
    pub quiet: Vec<Change>,
}

impl Changes {
    /// Returns the steps that lead from the owner of a pair to the pair, in order. None for an
    /// owner itself, or an index that is out of range. Fails only if out of memory.
    pub fn path_to(&self, alloc: Global, pair: u32) -> Result<Vec<Step>, AllocError>
        ensures { IfOk result (λ steps. steps.items ≡ path_to self.now.leads.items pair) }
    {
        let mut steps = Vec::new(alloc);
        let mut at = pair;
        for _count in 0..pair {
            match self.lead(at) {
                Some(step) => {
                    steps.push(step)?;
                    at = step.pair;
                }
                None => {
                    steps.reverse();
                    return Ok(steps);
                }
            }
        }
        steps.reverse();
        Ok(steps)
    }

    /// Returns the lead of a pair.
    fn lead(&self, pair: u32) -> Option<Step>
        ensures { result ≡ slice_index_or self.now.leads.items pair None }
    {
        self.leads.get(pair as usize).copied().flatten()
    }
}
