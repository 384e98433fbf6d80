//! Workers that mark at the same time.

use crossbeam_deque::Worker;
use sqz_marks::Pass;
use sqz_object::ObjectIndex;

/// Workers with consecutive numbers. Each has a share of the pass, a deque, and an entry for the
/// number of objects that it wins.
#[derive(Drop)]
pub(crate) struct Team<'a> {
    /// The number of the first worker.
    pub first: u32,
    /// The workers' share of the marking.
    pub pass: &'a mut Pass,
    /// Each worker's deque.
    pub deques: &'a mut [Worker<ObjectIndex>],
    /// The number of objects that each worker wins.
    pub won: &'a mut [u64],
}
