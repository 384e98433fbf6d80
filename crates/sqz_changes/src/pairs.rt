//! The pairs of a comparison.

ghost use Rattle.std.specs.Prelude.{◌≡◌, ◌<◌, ◌^◌, length};
ghost use Rattle.sqz_image.specs.Objects.{object_count};
ghost use Rattle.sqz_alike.specs.Partners.{pair_at};
ghost use Rattle.sqz_changes.specs.Compared.{common_fields, compared, is_pair};

use crate::comparison::Comparison;
use sqz_alike::Pair;
use sqz_image::laws::heap_bounds;
use sqz_object::ObjectIndex;
use sqz_trace::traced_fields;

impl Comparison<'_> {
    /// Returns the pair at an index.
    pub(crate) fn pair_at(&self, index: u32) -> Pair
        requires { index < length self.now.matching.now.pairs.items }
        ensures pair { result ≡ pair_at self.now.matching.now.pairs.items index }
        ensures old { result.old < object_count self.now.old.now.graph.heap.now }
        ensures new { result.new < object_count self.now.new.now.graph.heap.now }
    {
        let matching = self.matching;
        matching.pairs[index as usize]
    }

    /// Returns the number of pairs.
    pub(crate) fn pair_count(&self) -> u32
        ensures count { result ≡ length self.now.matching.now.pairs.items }
        ensures few { result < 2 ^ 30 }
    {
        let (old, matching) = (self.old, self.matching);
        heap_bounds(old.graph.heap); // fewer than 2^30 objects
        matching.pairs.len() as u32
    }

    /// Returns whether two objects are partners.
    pub(crate) fn are_partners(&self, old: ObjectIndex, new: ObjectIndex) -> bool
        ensures { result ≡ is_pair self.now.matching.now.pairs.items old new }
    {
        let matching = self.matching;
        matching.new_of(old) == Some(new)
    }

    /// Returns the number of fields that are slots of both objects of a pair.
    pub(crate) fn common_fields(&self, pair: Pair) -> u32
        requires old { pair.old < object_count self.now.old.now.graph.heap.now }
        requires new { pair.new < object_count self.now.new.now.graph.heap.now }
        ensures { result ≡ common_fields (compared self.now) pair }
    {
        let (old, new) = (self.old, self.new);
        let object = old.graph.heap.object(pair.old);
        let other = new.graph.heap.object(pair.new);
        traced_fields(&object).min(traced_fields(&other))
    }
}
