//! Laws of the definitions. Each is the contract of a function that does nothing.

ghost use Rattle.std.specs.Prelude.{◌≡◌, ◌*◌, List, Bool, length, sum_by};
ghost use Rattle.sqz_image.specs.Objects.{Memory};
ghost use Rattle.sqz_trace.specs.declared.weak.Weak.{Weak};
ghost use Rattle.sqz_trace.specs.Live.{live, live_words};
ghost use Rattle.sqz_histogram.specs.declared.group.GroupTotal.{GroupTotal};
ghost use Rattle.sqz_histogram.specs.Histogram.{IsHistogram};

/// Marked objects have at most one histogram: they determine its totals and their order.
pub fn one_histogram()
    ensures { (memory : Memory) (weak : Weak) (marks : List Bool) (totals others : List GroupTotal)
        → IsHistogram memory weak marks totals → IsHistogram memory weak marks others
        → totals ≡ others }
{}

/// The totals of a histogram add up to the number of marked objects, and to the bytes of their
/// chunks.
pub fn histogram_sums()
    ensures objects { (memory : Memory) (weak : Weak) (marks : List Bool)
        (totals : List GroupTotal) → IsHistogram memory weak marks totals
        → sum_by (λ total. total.count) totals ≡ length (live memory marks) }
    ensures bytes { (memory : Memory) (weak : Weak) (marks : List Bool)
        (totals : List GroupTotal) → IsHistogram memory weak marks totals
        → sum_by (λ total. total.bytes) totals ≡ 4 * live_words memory marks }
{}
