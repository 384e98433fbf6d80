//! Immediate dominators in small graphs, and what some of their objects retain.
//!
//! A list has the immediate dominator of each object by its index, or None. What an object retains
//! is counted in objects and bytes. Object 0 is nil, and only the special objects array, the last
//! object, points to it.

ghost use Rattle.std.specs.Prelude.{true, false, [], ◌∷◌, Some, None};
ghost use Rattle.sqz_trace.specs.declared.weak.Weak.TheVariants.{Keep, Clear};
ghost use Rattle.sqz_trace.specs.Avoiding.{IsReachabilityWithout};
ghost use Rattle.sqz_trace.specs.Dead.{IsDifference};
ghost use Rattle.sqz_trace.specs.Reachability.{graph_from};
ghost use Rattle.sqz_dominators.specs.Children.{AreChildren};
ghost use Rattle.sqz_dominators.specs.Dominators.{AreImmediate};
ghost use Rattle.sqz_dominators.specs.Retained.{IsRetained, nothing};
ghost use Rattle.sqz_answers.specs.CutOff.{IsRetainedBy};
ghost use Rattle.sqz_test_examples.specs.DeadCycle.{dead_cycle};
ghost use Rattle.sqz_test_examples.specs.MovedCycle.{cycle_marks};
ghost use Rattle.sqz_test_examples.specs.Shapes.{diamond, chain, cycle_with_two_entries, root_in_cycle};
ghost use Rattle.sqz_test_examples.specs.Shapes.{weak_fields};

/// Two paths lead from object 1 to object 4, one through object 2 and one through object 3. So
/// object 1 dominates object 4, and object 2 does not.
fn diamond_of_four()
    ensures immediate { AreImmediate (graph_from 5 diamond Keep)
        (Some 5 ∷ Some 5 ∷ Some 1 ∷ Some 1 ∷ Some 1 ∷ None ∷ []) }
    ensures top { IsRetained diamond (graph_from 5 diamond Keep) 1
        record { objects = 4; bytes = 36 } }
    ensures side { IsRetained diamond (graph_from 5 diamond Keep) 2
        record { objects = 1; bytes = 8 } }
{}

/// Each object of a chain dominates those after it.
fn chain_of_three()
    ensures immediate { AreImmediate (graph_from 4 chain Keep)
        (Some 4 ∷ Some 4 ∷ Some 1 ∷ Some 2 ∷ None ∷ []) }
    ensures middle { IsRetained chain (graph_from 4 chain Keep) 2
        record { objects = 2; bytes = 16 } }
    ensures root { IsRetained chain (graph_from 4 chain Keep) 4
        record { objects = 5; bytes = 40 } }
{}

/// Neither object of a cycle dominates the other if the special objects array points to both.
fn cycle_entered_at_both()
    ensures immediate { AreImmediate (graph_from 3 cycle_with_two_entries Keep)
        (Some 3 ∷ Some 3 ∷ Some 3 ∷ None ∷ []) }
    ensures retained { IsRetained cycle_with_two_entries (graph_from 3 cycle_with_two_entries Keep)
        1 record { objects = 1; bytes = 8 } }
{}

/// The special objects array has no immediate dominator, even if it is in a cycle.
fn root_of_a_cycle()
    ensures { AreImmediate (graph_from 2 root_in_cycle Keep) (Some 2 ∷ Some 2 ∷ None ∷ []) }
{}

/// Objects 2 and 4 point to each other and are dead: they have no dominators, and retain nothing.
fn dead_objects()
    ensures immediate { AreImmediate (graph_from 5 dead_cycle Keep)
        (Some 5 ∷ Some 5 ∷ None ∷ Some 1 ∷ None ∷ None ∷ []) }
    ensures retained { IsRetained dead_cycle (graph_from 5 dead_cycle Keep) 2 nothing }
{}

/// Only the weak slot of object 3 points to object 2. If weak slots are kept, object 3 dominates
/// it; if they are cleared, object 2 is dead.
fn target_of_a_weak_slot()
    ensures kept { AreImmediate (graph_from 4 weak_fields Keep)
        (Some 4 ∷ Some 3 ∷ Some 3 ∷ Some 4 ∷ None ∷ []) }
    ensures retained_if_kept { IsRetained weak_fields (graph_from 4 weak_fields Keep) 3
        record { objects = 3; bytes = 36 } }
    ensures cleared { AreImmediate (graph_from 4 weak_fields Clear)
        (Some 4 ∷ Some 3 ∷ None ∷ Some 4 ∷ None ∷ []) }
    ensures retained_if_cleared { IsRetained weak_fields (graph_from 4 weak_fields Clear) 3
        record { objects = 2; bytes = 28 } }
{}

/// The children of the objects of the chain. Of two children, the one that retains more comes first.
fn children_in_a_chain()
    ensures { AreChildren record {
      immediate = Some 4 ∷ Some 4 ∷ Some 1 ∷ Some 2 ∷ None ∷ [];
      retained = record { objects = 1; bytes = 4 } ∷ record { objects = 3; bytes = 24 } ∷ record {
        objects = 2;
        bytes = 16;
      } ∷ record { objects = 1; bytes = 8 } ∷ record { objects = 5; bytes = 40 } ∷ [];
    } (record { parent = 1; object = 2 } ∷ record { parent = 2; object = 3 } ∷ record {
      parent =
          4;
      object = 1;
    } ∷ record { parent = 4; object = 0 } ∷ []) }
{}

/// Without object 1, only nil and the special objects array are reachable. Without the special
/// objects array nothing is.
fn reachable_without_an_object()
    ensures one { IsReachabilityWithout dead_cycle Keep
        (false ∷ true ∷ false ∷ false ∷ false ∷ false ∷ [])
        (true ∷ false ∷ false ∷ false ∷ false ∷ true ∷ []) }
    ensures start { IsReachabilityWithout dead_cycle Keep
        (false ∷ false ∷ false ∷ false ∷ false ∷ true ∷ [])
        (false ∷ false ∷ false ∷ false ∷ false ∷ false ∷ []) }
{}

/// Object 3 is reachable only through object 1, so object 1 retains both of them. The objects of the
/// dead cycle do not count.
fn retained_by_a_set()
    ensures difference { IsDifference 6 cycle_marks
        (true ∷ false ∷ false ∷ false ∷ false ∷ true ∷ [])
        (false ∷ true ∷ false ∷ true ∷ false ∷ false ∷ []) }
    ensures retained { IsRetainedBy dead_cycle Keep cycle_marks
        (false ∷ true ∷ false ∷ false ∷ false ∷ false ∷ []) 16 }
{}
