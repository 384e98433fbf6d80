//! Laws of the definitions and types. Each is the contract of a function that does nothing.

ghost use Rattle.std.specs.Prelude.{◌≡◌, ◌⊎◌, ℕ, List};
ghost use Rattle.sqz_object.specs.declared.chunk.ChunkFault.{ChunkFault};
ghost use Rattle.sqz_object.specs.Partition.{IsPartition, IsStuck};
ghost use Rattle.sqz_image.specs.File.{AreBytes};

pub use crate::heap::heap_bounds;

/// Every list of data words either is a sequence of chunks in exactly one way, or is stuck at
/// exactly one word for one reason.
pub fn partition()
    ensures one_or_other { (words : List ℕ) →
        ((chunks : List (List ℕ)) × IsPartition words chunks)
        ⊎ ((place : ℕ) × (fault : ChunkFault) × IsStuck words place fault) }
    ensures one_way { (words : List ℕ) (one other : List (List ℕ)) → IsPartition words one
        → IsPartition words other → one ≡ other }
    ensures one_place { (words : List ℕ) (p q : ℕ) (f g : ChunkFault) → IsStuck words p f
        → IsStuck words q g → (p ≡ q) × (f ≡ g) }
    ensures not_both { (words : List ℕ) (place : ℕ) (fault : ChunkFault) (chunks : List (List ℕ))
        → IsPartition words chunks → IsStuck words place fault → ⊥ }
{}

/// Each byte of a slice is a number below 256. A law of every such slice: the call does nothing.
pub fn byte_bounds(file: &[u8])
    ensures { AreBytes file.now }
{}
