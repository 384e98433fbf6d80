//! What workers that mark under a lock share.

ghost use Rattle.std.specs.Prelude.{◌≡◌, [], IfOk, IfErr};
ghost use Rattle.sqz_object.specs.declared.order.Order.TheVariants.{Little};
ghost use Rattle.sqz_image.specs.declared.fault.Fault.TheVariants.{OutOfMemory};
ghost use Rattle.sqz_image.specs.Objects.{Memory};
ghost use Rattle.sqz_trace.specs.declared.weak.Weak.{Weak};
ghost use Rattle.sqz_trace.specs.declared.weak.Weak.TheVariants.{Keep};
ghost use Rattle.sqz_trace.specs.Reachability.{IsReachability};
ghost use Rattle.sqz_workers.specs.Turns.{IsBegun, IsTurn};

use sqz_image::{Fault, Heap};
use sqz_object::ObjectIndex;
use sqz_trace::{Marks, Shade, Shades, Weak, blacken_listed, finish, first_shades};
use std::alloc::Global;
use std::marker::{Brand, Model, PhantomData};

/// The object memory that is marked, and the policy on weak slots. A type stands for them, since
/// contracts know the value under a lock only by its type.
pub trait MarkedMemory {
    ghost memory: { Memory };

    ghost weak: { Weak };
}

impl MarkedMemory for Brand {
    ghost memory = { record { order = Little; base = 0; special = 0; chunks = [] } };

    ghost weak = { Keep };
}

/// How far the marking of a heap has come. Each worker changes it by turns.
#[derive(Drop)]
pub(crate) struct LockedMarking<'a, M: MarkedMemory> {
    heap: &'a Heap,
    weak: Weak,
    shades: Shades,
    /// Grey objects, with room for all that are white yet.
    list: Vec<ObjectIndex>,
    /// By its type the lock knows which heap and policy these are.
    of: PhantomData<M>,
}

impl<'a, M: MarkedMemory> Model for LockedMarking<'a, M> {
    ghost use Rattle.std.specs.Prelude.{◌≡◌, ◌+◌, ◌≤◌, length, vec_capacity};
    ghost use Rattle.sqz_trace.specs.Shades.{AreLawfulOf};
    ghost use Rattle.sqz_trace.specs.Greying.{white_count};
    ghost use Rattle.sqz_workers.specs.Turns.{Progress};

    ghost Value = { Progress };

    ghost view = { λ marking.
        record { shades = marking.shades.items; list = marking.list.items } };

    ghost invariant = { λ marking. (marking.heap.now ≡ M.memory)
        × (marking.weak ≡ M.weak)
        × AreLawfulOf M.memory M.weak marking.shades.items
        × (length marking.list.items + white_count marking.shades.items
        ≤ vec_capacity marking.list) };
}

impl<'a, M: MarkedMemory> LockedMarking<'a, M> {
    /// Returns the marking at its beginning: the special objects array is grey and the only object
    /// in the list. Fails only if out of memory.
    pub fn new(alloc: Global, heap: &'a Heap, weak: Weak) -> Result<Self, Fault>
        requires heap { heap.now ≡ M.memory }
        requires weak { weak ≡ M.weak }
        ensures begun { IfOk result (λ marking. IsBegun heap.now marking) }
        ensures refused { IfErr result (λ fault. fault ≡ OutOfMemory) }
    {
        let shades = first_shades(alloc, heap)?;
        let mut list = Vec::with_capacity(alloc, shades.len())?;
        list.push(heap.special())?;
        Ok(LockedMarking {
            heap,
            weak,
            shades,
            list,
            of: PhantomData,
        })
    }

    /// Takes one object from the list. If it is grey, its white targets become grey and join the
    /// list, and it becomes black. Returns whether there was one. It allocates nothing.
    pub fn turn(&mut self) -> bool
        ensures { IsTurn M.memory M.weak self.old self.new result }
    {
        let Some(object) = self.list.pop() else {
            return false;
        };
        if let Some(Shade::Grey) = self.shades.get(object as usize) {
            blacken_listed(
                self.heap,
                self.weak,
                object,
                &mut self.shades,
                &mut self.list,
            );
        }
        true
    }

    /// Finishes the marking of what is still grey, and returns the reachable objects.
    pub fn finish(self) -> Marks
        ensures { IsReachability M.memory M.weak result }
    {
        finish(self.heap, self.weak, self.shades)
    }
}
