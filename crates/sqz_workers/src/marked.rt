//! The result of marking.

ghost use Rattle.std.specs.Prelude.{◌≡◌, ◌+◌, ◌≤◌, sum, count_by, IfOk};
ghost use Rattle.sqz_trace.specs.Reachability.{IsReachability};
ghost use Rattle.sqz_trace.specs.Shades.{marks_of};
ghost use Rattle.sqz_workers.specs.Gains.{HasEnded};

use sqz_image::Heap;
use sqz_marks::Closed;
use sqz_trace::{Marks, Weak, finish};
use std::alloc::{AllocError, Global};

/// The result of marking.
#[derive(Drop)]
pub struct Marked {
    /// The reachable objects.
    pub marks: Marks,
    /// For each region, the total length of its marked objects' chunks in words.
    pub live_words: Vec<u32>,
    /// The number of objects that each worker won.
    pub claims: Vec<u32>,
    /// The number of objects won outside of the workers' turns, including the special objects
    /// array.
    pub finished: u32,
}

impl Marked {
    /// Returns the result of marking, from the closed table and the number of objects that each
    /// worker won.
    pub(crate) fn of_closed(
        alloc: Global,
        heap: &Heap,
        weak: Weak,
        closed: Closed,
        won: &[u64],
    ) -> Result<Self, AllocError>
        requires { HasEnded heap.now weak won.now closed.shades.items }
        ensures reachable { IfOk result (λ marked. IsReachability heap.now weak marked.marks) }
        ensures same { IfOk result (λ marked. marks_of closed.shades.items ≡ marked.marks) }
        ensures words { IfOk result (λ marked.
            marked.live_words.items ≡ closed.live_words.items) }
        ensures claims { IfOk result (λ marked. marked.claims.items ≡ won.now) }
        ensures all { IfOk result (λ marked.
            sum won.now + marked.finished ≡ count_by (λ mark. mark) marked.marks) }
    {
        // No object is grey any more. `finish` is called for its contract: from lawful shades it
        // returns the reachable objects. Here it reads each shade once.
        let marks = finish(heap, weak, closed.shades);
        let (claims, finished) = worker_counts(alloc, won, marks.count())?;
        Ok(Marked {
            marks,
            live_words: closed.live_words,
            claims,
            finished,
        })
    }
}

/// Returns the number of objects that each worker won, and the number of marked objects that no
/// worker won.
fn worker_counts(alloc: Global, won: &[u64], marked: u32) -> Result<(Vec<u32>, u32), AllocError>
    requires { sum won.now ≤ marked }
    ensures claims { IfOk result (λ counts. counts.0.items ≡ won.now) }
    ensures rest { IfOk result (λ counts. sum won.now + counts.1 ≡ marked) }
{
    let mut counts = Vec::with_capacity(alloc, won.len())?;
    let mut rest = marked;
    for objects in won {
        let count = *objects as u32;
        counts.push(count)?;
        rest -= count;
    }
    Ok((counts, rest))
}
