//! Two images with the partners of their objects, and what differs between partners.

ghost use Rattle.sqz_look_view.specs.Inspectors.{IsObjectOf};

use sqz_alike::{Matching, Pair};
use sqz_changes::Changes;
use sqz_look_view::Inspector;

/// Two images with the partners of their objects, and what differs between partners.
#[derive(Clone, Copy)]
pub(crate) struct Compared<'a> {
    pub(crate) old: &'a Inspector<'a>,
    pub(crate) new: &'a Inspector<'a>,
    pub(crate) partners: &'a Matching,
    pub(crate) changes: &'a Changes,
}

impl Compared<'_> {
    /// Returns the pair at an index; the special objects arrays if there is none.
    pub(crate) fn pair(self, index: u32) -> Pair
        ensures old { IsObjectOf self.entry.old.now result.old }
        ensures new { IsObjectOf self.entry.new.now result.new }
    {
        let (old, new) = (self.old, self.new);
        let (heap, other) = (old.live.graph.heap, new.live.graph.heap);
        match self.partners.pairs.get(index as usize) {
            Some(pair) if pair.old < heap.len() && pair.new < other.len() => *pair,
            _ => Pair {
                old: heap.special(),
                new: other.special(),
            },
        }
    }
}
