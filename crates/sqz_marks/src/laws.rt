//! Laws of the definitions. Each is the contract of a function that does nothing.

ghost use Rattle.std.specs.Prelude.{◌≡◌, ◌≢◌, ◌≤◌, ℕ, List, Some};
ghost use Rattle.sqz_image.specs.Objects.{find};
ghost use Rattle.sqz_trace.specs.declared.shades.Shade.TheVariants.{Grey};
ghost use Rattle.sqz_trace.specs.declared.weak.Weak.{Weak};
ghost use Rattle.sqz_trace.specs.Graph.{MarksReachable};
ghost use Rattle.sqz_trace.specs.Reachability.{graph_from};
ghost use Rattle.sqz_trace.specs.Shades.{shade_at, marks_of};
ghost use Rattle.sqz_regions.specs.Regions.{Regioning};
ghost use Rattle.sqz_marks.specs.Core.{State, Event, IsLegalRun, marking_of};
ghost use Rattle.sqz_marks.specs.Lawful.{IsLawful};

/// Every state of a legal run is lawful; and in a lawful state without grey objects the marked
/// objects are exactly the reachable ones.
pub fn core()
    ensures lawful { (heap : Regioning) (weak : Weak) (workers start : ℕ) (run : List (ℕ
        × Event)) (state : State)
        → find heap.memory heap.memory.special ≡ Some start → 1 ≤ workers
        → IsLegalRun (marking_of heap weak workers start) run state
        → IsLawful (marking_of heap weak workers start) state }
    ensures reachable { (heap : Regioning) (weak : Weak) (workers start : ℕ) (state : State)
        → IsLawful (marking_of heap weak workers start) state
        → ((object : ℕ) → shade_at state.shades object ≢ Grey)
        → MarksReachable (graph_from start heap.memory weak) (marks_of state.shades) }
{}
