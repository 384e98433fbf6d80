//! What happens to the objects of an image: where each is in the compacted image, and what it
//! points to there.
//!
//! The image is that of [`crate::compacted`] with a dead cycle: objects 2 and 4 are dead, and
//! objects 1 and 3 point to each other.

ghost use Rattle.std.specs.Prelude.{◌≡◌, [], ◌∷◌, map, Some};
ghost use Rattle.sqz_image.specs.declared.slot.Slot.TheVariants.{Field};
ghost use Rattle.sqz_trace.specs.declared.weak.Weak.TheVariants.{Keep};
ghost use Rattle.sqz_trace.specs.Edges.{strong_target};
ghost use Rattle.sqz_regions.specs.Places.{place};
ghost use Rattle.sqz_tool.specs.Correspondence.{new_index, IsMovedObject, HasMovedObjects};
ghost use Rattle.sqz_test_examples.specs.DeadCycle.{dead_cycle};
ghost use Rattle.sqz_test_examples.specs.MovedCycle.{cycle_marks, moved_cycle};

/// The live objects become objects 0 to 3, each at its place (its new address). Object 3, now 2,
/// still points to object 1, which points to it.
fn dead_cycle()
    ensures indexes { map (new_index dead_cycle cycle_marks) (0 ∷ 1 ∷ 3 ∷ 5 ∷ [])
        ≡ 0 ∷ 1 ∷ 2 ∷ 3 ∷ [] }
    ensures places { map (place dead_cycle cycle_marks) (0 ∷ 1 ∷ 3 ∷ 5 ∷ [])
        ≡ 0x1000 ∷ 0x1004 ∷ 0x100C ∷ 0x1014 ∷ [] }
    ensures names { strong_target moved_cycle Keep 2 (Field 0) ≡ Some 1 }
    ensures named { strong_target moved_cycle Keep 1 (Field 0) ≡ Some 2 }
    ensures objects { HasMovedObjects dead_cycle Keep cycle_marks moved_cycle }
{}

/// In the original image, object 5 has not moved.
fn not_moved()
    ensures { IsMovedObject dead_cycle Keep cycle_marks dead_cycle 5 → ⊥ }
{}
