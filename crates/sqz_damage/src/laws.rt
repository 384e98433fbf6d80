//! Laws of the definitions. Each is the contract of a function that does nothing.

ghost use Rattle.std.specs.Prelude.{◌<◌, ℕ, List, [], Some, map, length};
ghost use Rattle.sqz_object.specs.Partition.{IsPartition};
ghost use Rattle.sqz_damage.specs.declared.gap.Gap.{Gap};
ghost use Rattle.sqz_damage.specs.Filled.{AreGapsIn, filled, filled_part};
ghost use Rattle.sqz_damage.specs.Losses.{IsLoss};
ghost use Rattle.sqz_damage.specs.Readings.{AreBestGaps};

/// Words whose best reading has no gap are a sequence of chunks.
pub fn words_without_gaps()
    ensures { (base : ℕ) (words : List ℕ) → AreBestGaps base words []
        → (chunks : List (List ℕ)) × IsPartition words chunks }
{}

/// The gaps of the best reading can be filled: they are in ascending order, lie inside the words,
/// and do not overlap.
pub fn best_gaps()
    ensures { (base : ℕ) (words : List ℕ) (gaps : List Gap) → AreBestGaps base words gaps
        → AreGapsIn 0 (length words) gaps }
{}

/// Words were lost before one of the words that are there.
pub fn loss_within()
    ensures { (base : ℕ) (words : List ℕ) (lost place : ℕ) → IsLoss base words lost (Some place)
        → place < length words }
{}

/// Words whose best gaps are filled are a sequence of chunks: the chunks of the reading as they
/// were, and each gap as a free chunk with its words after the header as they were.
pub fn filled_gaps()
    ensures { (base : ℕ) (words : List ℕ) (gaps : List Gap) (best : AreBestGaps base words gaps)
        → IsPartition (filled words gaps) (map filled_part best.third) }
{}
