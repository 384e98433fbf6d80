//! Laws of the definitions. Each is the contract of a function that does nothing.

ghost use Rattle.std.specs.Prelude.{◌≡◌, ℕ, None};
ghost use Rattle.sqz_image.specs.declared.slot.Slot.{Slot};
ghost use Rattle.sqz_image.specs.Objects.{Memory};
ghost use Rattle.sqz_trace.specs.declared.weak.Weak.{Weak};
ghost use Rattle.sqz_trace.specs.declared.weak.Weak.TheVariants.{Keep, Clear};
ghost use Rattle.sqz_trace.specs.Targets.{target};
ghost use Rattle.sqz_trace.specs.Strong.{compact_class};
ghost use Rattle.sqz_trace.specs.Edges.{strong_target};
ghost use Rattle.sqz_trace.specs.CompactClasses.{class_by_targets, IsCircular};

/// The class with compact index `k` is the target of field `k - 1` of the target of field 28 of
/// the special objects array, along strong slots; index 0 stands for no class. If weak slots are
/// kept, every traced slot is strong. If they are cleared, only the class of a weak object says
/// which of its fields are strong. If one of the two arrays is weak and has no class word, a
/// lookup would need its own result; then no index has a class.
pub fn class_by_compact_index()
    ensures kept { (memory : Memory) (index : ℕ) → compact_class memory Keep index
        ≡ class_by_targets memory Keep index }
    ensures all_strong { (memory : Memory) (object : ℕ) (slot : Slot)
        → strong_target memory Keep object slot ≡ target memory object slot }
    ensures cleared { (memory : Memory) (index : ℕ) → compact_class memory Clear index
        ≡ class_by_targets memory Clear index }
    ensures circular { (memory : Memory) (weak : Weak) (index : ℕ) → IsCircular memory weak
        → compact_class memory weak index ≡ None }
{}
