//! The rule of the mark table, and how its steps change what passes know.

ghost use Rattle.std.specs.Prelude.{ℕ};

use crate::view::View;
use crate::workers::Workers;
use atomic_table::{Join, Play, Split, TableRule};
use sqz_regions::Regions;
use sqz_trace::Weak;
use std::marker::{Brand, PhantomData};
use std::snapshot::Snapshot;

/// What the rule is given once: the regions (and with them the heap), the policy on weak slots,
/// and the workers.
pub(crate) type Key<'a> = (Snapshot<Regions<'a>>, Weak, Workers);

/// The words and the passes are a lawful state of marking.
pub(crate) struct MarkingRule;

impl<'a> TableRule<(), View, Key<'a>> for MarkingRule {
    ghost use Rattle.sqz_marks.specs.Core.{first_view};
    ghost use Rattle.sqz_marks.specs.Table.{IsKept, marking_in, start_of};

    ghost holds = { λ key. IsKept (marking_in key.0.value key.1 key.2) };

    ghost first = { λ key. first_view key.2 (start_of key.0.value.memory) };
}

/// A pass looks at an object.
pub(crate) struct Look;

impl Play<(), View> for Look {
    ghost use Rattle.sqz_marks.specs.Table.{Looked};

    ghost then = { Looked };
}

/// A pass claims an object.
pub(crate) struct Claiming;

impl Play<(), View> for Claiming {
    ghost use Rattle.sqz_marks.specs.Table.{Claimed};

    ghost then = { Claimed };
}

/// The object whose words a pass counts. A type stands for it, as `table.rt` explains.
pub(crate) trait CountedObject {
    ghost object: { ℕ };
}

impl CountedObject for Brand {
    ghost object = { 0 };
}

/// A pass counts an object's words.
pub(crate) struct Counting<O> {
    object: PhantomData<O>,
}

impl<O: CountedObject> Play<(), View> for Counting<O> {
    ghost use Rattle.sqz_marks.specs.Table.{Counted};

    ghost then = { Counted O.object };
}

/// A pass makes an object black.
pub(crate) struct Blacken;

impl Play<(), View> for Blacken {
    ghost use Rattle.sqz_marks.specs.Table.{Blackened};

    ghost then = { Blackened };
}

/// A pass learns that its weight is that of some workers, so at most 64.
pub(crate) struct Weigh;

impl Play<(), View> for Weigh {
    ghost use Rattle.sqz_marks.specs.Table.{Weighed};

    ghost then = { Weighed };
}

/// The weight that a pass gives up. A type stands for it, as `table.rt` explains.
pub(crate) trait Share {
    ghost weight: { ℕ };
}

impl Share for Brand {
    ghost weight = { 1 };
}

/// A part of a pass's weight goes to a new pass.
pub(crate) struct Parting<W> {
    share: PhantomData<W>,
}

impl<W: Share> Split<View> for Parting<W> {
    ghost use Rattle.sqz_marks.specs.Core.{kept_of, part_of};

    ghost left = { kept_of W.weight };

    ghost right = { λ view. part_of W.weight };
}

/// A pass takes in another pass.
pub(crate) struct Joining;

impl Join<View> for Joining {
    ghost use Rattle.sqz_marks.specs.Core.{joined, spent};

    ghost both = { joined };

    ghost spent = { spent };
}
