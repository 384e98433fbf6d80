//! Laws of the definitions. Each is the contract of a function that does nothing.

ghost use Rattle.std.specs.Prelude.{◌≡◌, ◌<◌, ℕ, List, [], length};
ghost use Rattle.std.specs.List.{filter};
ghost use Rattle.sqz_alike.specs.declared.matching.Pair.{Pair};
ghost use Rattle.sqz_alike.specs.Alike.{AreAlike, HasRoots, IsCorrespondence};
ghost use Rattle.sqz_alike.specs.Alike.{IsOneToOne};
ghost use Rattle.sqz_alike.specs.FirstDifference.{AreAmong};
ghost use Rattle.sqz_changes.specs.declared.place.Difference.{Difference};
ghost use Rattle.sqz_changes.specs.Changes.{changes_of, quiet_changes, shown_changes};
ghost use Rattle.sqz_changes.specs.Compared.{Compared};
ghost use Rattle.sqz_changes.specs.Differences.{differences};
ghost use Rattle.sqz_changes.specs.Laws.{AreAllPaired, AreInOrder, IsPath, change_for, firsts};
ghost use Rattle.sqz_changes.specs.Laws.{is_of, is_owned, owner_of};
ghost use Rattle.sqz_changes.specs.Owners.{leads, path_to};

/// If nothing differs between partners, each live object has a partner, and the special objects
/// arrays are partners, the images are alike.
pub fn alike_if_nothing_differs()
    ensures { (compared : Compared) → HasRoots compared.old compared.new compared.pairs
        → IsOneToOne compared.pairs → AreAllPaired compared → differences compared ≡ []
        → AreAlike compared.old compared.new }
{}

/// If the images are alike by a correspondence that has all partners, and each live object has a
/// partner, nothing differs. So an image has no difference with its compaction, or with a copy at
/// another base, in the other byte order, or with more garbage.
pub fn nothing_differs_if_alike()
    ensures { (compared : Compared) (all : List Pair)
        → IsCorrespondence compared.old compared.new all → AreAmong compared.pairs all
        → AreAllPaired compared → differences compared ≡ [] }
{}

/// An owner with differences has one change, with the first of them and their number. An owner
/// without differences has none.
pub fn one_change_for_each_owner()
    ensures { (compared : Compared) (differences : List Difference) (owner : ℕ)
        → filter (is_of owner) (changes_of compared differences)
        ≡ change_for owner (filter (is_owned compared owner) differences) }
{}

/// The first differences of the changes are some of all differences, in the order of the walk. So
/// no change stands before another whose first difference the walk meets earlier.
pub fn firsts_are_in_order()
    ensures shown { (compared : Compared)
        → AreInOrder (firsts (shown_changes compared)) (differences compared) }
    ensures quiet { (compared : Compared)
        → AreInOrder (firsts (quiet_changes compared)) (differences compared) }
{}

/// A path begins at its owner: the steps to a pair lead from the pair that owns it, each through a
/// slot of both objects of a pair to both objects of the next one.
pub fn paths_begin_at_owners()
    ensures { (compared : Compared) (index : ℕ) → index < length compared.pairs
        → IsPath compared (owner_of compared index) (path_to (leads compared) index) index }
{}
