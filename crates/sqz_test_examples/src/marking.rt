//! Runs of marking by several passes over one image, and events whose condition is not met.
//!
//! The image is that of [`crate::compacted`] with a dead cycle. Its special objects array is
//! object 5, which points to objects 0 and 1; objects 1 and 3 point to each other, and so do the
//! dead objects 2 and 4. Two workers mark it: pass 0 begins with the weight of both, and has won,
//! seen and counted object 5. There are three regions: object 0, of one word; object 1, of two;
//! and objects 2 to 5, of two words each, except the last, which has three. The lists of a pass
//! begin with the latest element.

ghost use Rattle.std.specs.Prelude.{[], ◌∷◌};
ghost use Rattle.sqz_trace.specs.declared.shades.Shade.TheVariants.{White, Grey, Black};
ghost use Rattle.sqz_marks.specs.Core.{Look, Claim, Count, Blacken, Split, Join, Meets, IsLegalRun};
ghost use Rattle.sqz_marks.specs.Core.{spent};
ghost use Rattle.sqz_test_examples.specs.DeadCycle.{dead_cycle_marking, dead_cycle_opening, by_pass};

/// One pass marks the whole image. An object that is claimed again is seen and not won again. A
/// look at a white object shows nothing, and a look at a black object shows that it is black. Each
/// object that is won is counted in its region.
fn one_pass()
    ensures { IsLegalRun dead_cycle_marking
        (by_pass 0 (Look 5 ∷ Claim 5 0 ∷ Claim 5 0 ∷ Count 0 ∷ Claim 5 1 ∷ Count 1 ∷ Blacken 5 ∷ Look 5 ∷ Look 2 ∷
        Claim 1 3 ∷ Count 3 ∷ Claim 3 1 ∷ Blacken 0 ∷ Blacken 1 ∷ Blacken 3 ∷ []))
        record {
          shades = Black ∷ Black ∷ White ∷ Black ∷ White ∷ Black ∷ [];
          sums = 1 ∷ 2 ∷ 5 ∷ [];
          passes = record {
            weight = 2;
            won = 3 ∷ 1 ∷ 0 ∷ 5 ∷ [];
            seen = 1 ∷ 3 ∷ 5 ∷ 1 ∷ 0 ∷ 0 ∷ 5 ∷ 5 ∷ [];
            counted = 3 ∷ 1 ∷ 0 ∷ 5 ∷ [];
            blackened = 3 ∷ 1 ∷ 0 ∷ 5 ∷ 5 ∷ [];
          } ∷ [];
        } }
{}

/// A pass is split, and both parts claim one object: the first wins it and counts it, the other
/// sees it. After the two are joined, what is left of the second part knows nothing.
fn two_passes()
    ensures { IsLegalRun dead_cycle_marking
        ((0, Split 1) ∷ (1, Look 5) ∷ (1, Claim 5 1) ∷ (1, Count 1) ∷ (0, Claim 5 1) ∷ (0, Join 1) ∷ [])
        record {
          shades = White ∷ Grey ∷ White ∷ White ∷ White ∷ Grey ∷ [];
          sums = 0 ∷ 2 ∷ 3 ∷ [];
          passes = record {
            weight = 2;
            won = 5 ∷ 1 ∷ [];
            seen = 1 ∷ 5 ∷ 1 ∷ 5 ∷ [];
            counted = 5 ∷ 1 ∷ [];
            blackened = [];
          } ∷ spent ∷ [];
        } }
{}

/// What the pass may not do when marking begins: blacken an object whose targets it has not seen,
/// claim along an edge that does not exist, claim the target of an object that it has not seen,
/// count an object that it has not won, count an object again, and give up all its weight.
fn not_yet()
    ensures targets_unseen { Meets dead_cycle_marking dead_cycle_opening 0 (Blacken 5) → ⊥ }
    ensures no_edge { Meets dead_cycle_marking dead_cycle_opening 0 (Claim 5 2) → ⊥ }
    ensures parent_unseen { Meets dead_cycle_marking dead_cycle_opening 0 (Claim 1 3) → ⊥ }
    ensures not_won { Meets dead_cycle_marking dead_cycle_opening 0 (Count 0) → ⊥ }
    ensures counted { Meets dead_cycle_marking dead_cycle_opening 0 (Count 5) → ⊥ }
    ensures all_weight { Meets dead_cycle_marking dead_cycle_opening 0 (Split 2) → ⊥ }
{}
