//! Where grey objects wait for their scan.

ghost use Rattle.std.specs.Prelude.{◌≡◌, ℕ, ◌<◌, ◌≤◌, [], ◌∷◌, ◌++◌, vec_len, vec_capacity};

use crossbeam_deque::Worker;
use sqz_object::ObjectIndex;

/// Takes objects that became grey. It drops what it has no room for: such an object stays grey.
pub(crate) trait Worklist {
    /// The number of objects that it has room for, which it never exceeds; 0 for a list that grows
    /// as needed.
    ghost room: { Self → ℕ };

    /// Puts an object in, if there is room.
    fn put(&mut self, object: ObjectIndex)
        ensures room { room self.new ≡ room self.old };
}

impl Worklist for Worker<ObjectIndex> {
    ghost room = { λ deque. 0 };

    /// Pushes the object. If there is no memory for it, the object is dropped.
    fn put(&mut self, object: ObjectIndex) {
        let _push = self.push(object);
    }
}

/// A list that stays within its capacity, and so allocates nothing.
impl Worklist for Vec<ObjectIndex> {
    ghost room = { vec_capacity };

    fn put(&mut self, object: ObjectIndex)
        ensures room { vec_capacity self.new ≡ vec_capacity self.old }
        ensures put { vec_len self.old < vec_capacity self.old →
            self.new.items ≡ self.old.items ++ object ∷ [] }
        ensures full { vec_capacity self.old ≤ vec_len self.old →
            self.new.items ≡ self.old.items }
    {
        if self.len() < self.capacity() {
            self.push_reserved(object);
        }
    }
}
