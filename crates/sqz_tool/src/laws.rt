//! Laws of the definitions. Each is the contract of a function that does nothing.

ghost use Rattle.std.specs.Prelude.{◌≡◌, ℕ, List, Bool};
ghost use Rattle.sqz_image.specs.declared.fault.Fault.{Fault};
ghost use Rattle.sqz_image.specs.File.{AreBytes};
ghost use Rattle.sqz_image.specs.Objects.{SavedImage, file_bytes};
ghost use Rattle.sqz_image.specs.Refusals.{Holds};
ghost use Rattle.sqz_trace.specs.declared.weak.Weak.{Weak};
ghost use Rattle.sqz_tool.specs.Compacted.{compacted};
ghost use Rattle.sqz_tool.specs.Correspondence.{HasMovedObjects};
ghost use Rattle.sqz_tool.specs.Verdict.{IsAccepted, IsRefused};
ghost use Rattle.sqz_tool.specs.FixedPoint.{IsFixedPoint};

pub use sqz_compact_args::laws::worked_options;

/// A file is accepted with at most one image and one set of live objects, so it has at most one
/// compaction.
pub fn one_answer()
    ensures { (weak : Weak) (file : List ℕ) (one other : SavedImage) (marks flags : List Bool)
        → IsAccepted weak file one marks → IsAccepted weak file other flags → (one ≡ other)
        × (marks ≡ flags) }
{}

/// A file is rejected with at most one fault, and with none if it is accepted.
pub fn one_refusal()
    ensures one { (weak : Weak) (file : List ℕ) (one other : Fault) → IsRefused weak file one
        → IsRefused weak file other → one ≡ other }
    ensures not_accepted { (weak : Weak) (file : List ℕ) (fault : Fault) (image : SavedImage) (marks : List Bool)
        → IsRefused weak file fault → IsAccepted weak file image marks → ⊥ }
{}

/// The compaction of an accepted file holds exactly the compacted image, is accepted, and has no
/// unreachable objects. Compaction is idempotent: compacting it again gives the same bytes.
pub fn compacts_once()
    ensures { (weak : Weak) (file : List ℕ) (image : SavedImage) (marks : List Bool) → AreBytes file
        → IsAccepted weak file image marks → IsFixedPoint weak (compacted image weak marks) }
{}

/// The bytes of a compaction hold exactly the compacted image. Its objects are the live objects of
/// the image, in order: each at its place (its new address), with its words after the move, and
/// with the same edges.
pub fn keeps_objects()
    ensures held { (weak : Weak) (file : List ℕ) (image : SavedImage) (marks : List Bool)
        → AreBytes file
        → IsAccepted weak file image marks → Holds (file_bytes (compacted image weak marks))
        (compacted image weak marks) }
    ensures moved { (weak : Weak) (file : List ℕ) (image : SavedImage) (marks : List Bool)
        → IsAccepted weak file image marks
        → HasMovedObjects image.memory weak marks (compacted image weak marks).memory }
{}
