//! What keeps objects alive, and which objects a group of a class histogram has.
//!
//! The images are those of [`crate::compacted`] with a dead cycle and with a class word. In the
//! first, object 5 is the special objects array, whose field 1 points to object 1; objects 1 and 3
//! point to each other, and so do the dead objects 2 and 4. In the second, object 4 is that array,
//! which points to object 3, whose class word points to object 2.

ghost use Rattle.std.specs.Prelude.{[], ◌∷◌};
ghost use Rattle.sqz_image.specs.declared.slot.Slot.TheVariants.{ClassWord, Field};
ghost use Rattle.sqz_trace.specs.declared.weak.Weak.TheVariants.{Keep};
ghost use Rattle.sqz_histogram.specs.declared.group.Group.TheVariants.{Class, Compact};
ghost use Rattle.sqz_dominators.specs.Paths.{IsShortestPath, IsUnreachable};
ghost use Rattle.sqz_facts.specs.Members.{AreMembers};
ghost use Rattle.sqz_test_examples.specs.DeadCycle.{dead_cycle};
ghost use Rattle.sqz_test_examples.specs.ClassEdge.{class_edge, class_edge_marks};

/// The path into the cycle has two steps. The path to the special objects array has none, and no
/// path leads to a dead object.
fn paths_of_a_cycle()
    ensures into { IsShortestPath dead_cycle Keep 3
        (record { slot = Field 1; object = 1 } ∷ record { slot = Field 0; object = 3 } ∷ []) }
    ensures special { IsShortestPath dead_cycle Keep 5 [] }
    ensures dead { IsUnreachable dead_cycle Keep 2 }
{}

/// A path that goes around the cycle once more is not a shortest one, and a step with another slot
/// makes no path.
fn no_shortest_paths()
    ensures round { IsShortestPath dead_cycle Keep 1
        (record { slot = Field 1; object = 1 } ∷ record { slot = Field 0; object = 3 } ∷ record {
          slot = Field 0;
          object = 1;
        } ∷ []) → ⊥ }
    ensures other_slot { IsShortestPath dead_cycle Keep 1 (record { slot = Field 0; object = 1 } ∷
        []) → ⊥ }
{}

/// The class word of an instance keeps its class alive.
fn path_by_a_class_word()
    ensures { IsShortestPath class_edge Keep 2
        (record { slot = Field 1; object = 3 } ∷ record { slot = ClassWord; object = 2 } ∷ []) }
{}

/// The members of a class are its live instances, with their words. Of the objects without a class,
/// those with the same compact index are members of a group; the longer one comes first.
fn members_of_a_group()
    ensures class { AreMembers class_edge Keep class_edge_marks (Class 2)
        (record { object = 3; words = 3 } ∷ []) }
    ensures none { AreMembers class_edge Keep class_edge_marks (Class 0) [] }
    ensures compact { AreMembers class_edge Keep class_edge_marks (Compact 1)
        (record { object = 2; words = 2 } ∷ record { object = 0; words = 1 } ∷ []) }
{}
