//! What a repair keeps, and what it clears.

ghost use Rattle.std.specs.Prelude.{◌≡◌, IfOk, IfSome};
ghost use Rattle.std.specs.List.{count_by};
ghost use Rattle.sqz_damage.specs.Summaries.{IsSummary, IsSummaryOf, IsSummaryOfMended, becomes_nil};

use crate::repaired::repairing::{RepairError, Repaired, repair};
use crate::repaired::sizes::LiveSize;
use crate::{Becomes, Patch, RecoverError, mend_file};
use sqz_trace::Weak;
use std::alloc::{AllocError, Global};
use std::thread::Threads;

/// What a repair keeps, and what it clears.
#[derive(Clone, Copy, Debug, PartialEq, Eq)]
pub struct RepairSummary {
    /// How much is live before.
    pub before: LiveSize,
    /// How much is live afterwards.
    pub after: LiveSize,
    /// The number of pointers that become nil.
    pub pointers: usize,
    /// The number of live objects that become free chunks.
    pub freed: usize,
}

impl Repaired {
    /// Returns what the repair kept, and what it cleared.
    pub fn summary(&self) -> RepairSummary
        ensures { IsSummary self.now result }
    {
        let pointers = nil_count(&self.patches);
        RepairSummary {
            before: self.before,
            after: self.after,
            pointers,
            freed: self.patches.len() - pointers,
        }
    }
}

/// Returns the number of words that become nil.
fn nil_count(patches: &[Patch]) -> usize
    ensures { result ≡ count_by becomes_nil patches.now }
{
    let mut count = 0;
    for patch in patches {
        if patch.becomes == Becomes::Nil {
            count += 1;
        }
    }
    count
}

/// Returns what is kept and cleared of a file if it is mended as `mend_file` does it, and then
/// repaired as `repair` does it. None if one of both is not possible. Fails only if out of memory.
pub fn summary_of<T: Threads + Sync>(
    rt: &T,
    alloc: Global,
    file: Vec<u8>,
    weak: Weak,
) -> Result<Option<RepairSummary>, AllocError>
    ensures { IfOk result (λ summary. IfSome summary (IsSummaryOfMended weak file.items)) }
{
    match mend_file(rt, alloc, file, weak) {
        Ok(mended) => repair_summary(rt, alloc, mended.bytes, weak),
        Err(RecoverError::OutOfMemory) => Err(AllocError),
        Err(RecoverError::NoImage(_)) => Ok(None),
    }
}

/// Returns what is kept and cleared of a file if it is repaired as `repair` does it. None if that is
/// not possible. Fails only if out of memory.
pub fn repair_summary<T: Threads + Sync>(
    rt: &T,
    alloc: Global,
    file: Vec<u8>,
    weak: Weak,
) -> Result<Option<RepairSummary>, AllocError>
    ensures { IfOk result (λ summary. IfSome summary (IsSummaryOf weak file.items)) }
{
    match repair(rt, alloc, file, weak) {
        Ok(repaired) => Ok(Some(repaired.summary())),
        Err(RepairError::OutOfMemory) => Err(AllocError),
        Err(_) => Ok(None),
    }
}
