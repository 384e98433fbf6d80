//! Laws of the definitions. Each is the contract of a function that does nothing.

ghost use Rattle.std.specs.Prelude.{◌≡◌, ◌*◌, List, Bool, length, sum_by};
ghost use Rattle.sqz_image.specs.Objects.{Memory};
ghost use Rattle.sqz_trace.specs.declared.weak.Weak.{Weak};
ghost use Rattle.sqz_trace.specs.Live.{live, live_words};
ghost use Rattle.sqz_census.specs.Census.{CensusRow, IsCensus};

/// The marked objects of an image have at most one census: they determine its rows and their
/// order.
pub fn one_census()
    ensures { (memory : Memory) (weak : Weak) (marks : List Bool) (rows others : List CensusRow)
        → IsCensus memory weak marks rows → IsCensus memory weak marks others → rows ≡ others }
{}

/// The rows of a census add up to the number of marked objects, and to the bytes of their chunks,
/// which is the data size of the compacted image.
pub fn census_sums()
    ensures objects { (memory : Memory) (weak : Weak) (marks : List Bool) (rows : List CensusRow)
        → IsCensus memory weak marks rows → sum_by (λ row.
        row.count) rows ≡ length (live memory marks) }
    ensures bytes { (memory : Memory) (weak : Weak) (marks : List Bool) (rows : List CensusRow)
        → IsCensus memory weak marks rows → sum_by (λ row.
        row.bytes) rows ≡ 4 * live_words memory marks }
{}
