//! Laws of the definitions. Each is the contract of a function that does nothing.

ghost use Rattle.std.specs.Prelude.{◌≡◌, ℕ, Bool, List, length};
ghost use Rattle.std.specs.List.{AllByRecursion};
ghost use Rattle.sqz_object.specs.Chunk.{IsChunk};
ghost use Rattle.sqz_image.specs.declared.slot.Slot.{Slot};
ghost use Rattle.sqz_image.specs.Objects.{Memory, object_count};
ghost use Rattle.sqz_trace.specs.declared.weak.Weak.{Weak};
ghost use Rattle.sqz_trace.specs.Defects.{first_defect};
ghost use Rattle.sqz_facts.specs.declared.sites.Site.{Site};
ghost use Rattle.sqz_facts.specs.declared.slots.Held.{Held};
ghost use Rattle.sqz_facts.specs.AllDefects.{defects, first_of};
ghost use Rattle.sqz_facts.specs.Held.{IsHeld};
ghost use Rattle.sqz_facts.specs.Sites.{IsSite};

/// A slot holds one thing at most.
pub fn one_held()
    ensures { (memory : Memory) (object : ℕ) (slot : Slot) (one other : Held)
        → IsHeld memory object slot one → IsHeld memory object slot other → one ≡ other }
{}

/// At most one thing lies at an address, if every chunk is well formed.
pub fn one_site()
    ensures { (memory : Memory) (address : ℕ) (one other : Site)
        → AllByRecursion IsChunk memory.chunks
        → IsSite memory address one → IsSite memory address other → one ≡ other }
{}

/// The first of all defects is the defect for which a compaction rejects an image.
pub fn first_of_all_defects()
    ensures { (memory : Memory) (weak : Weak) (marks : List Bool)
        → length marks ≡ object_count memory
        → first_of (defects memory weak marks) ≡ first_defect memory weak marks }
{}
