//! What slots hold, what lies at an address, which objects are dead, and the class histogram.
//!
//! The images are those of [`crate::compacted`] with a dead cycle, with a class word, and with a weak
//! slot. In the second, object 4 is the special objects array, which points to nil and to object 3;
//! the class word of object 3 points to object 2, and object 1 is dead.

ghost use Rattle.std.specs.Prelude.{◌≡◌, ◌≢◌, true, false, [], ◌∷◌};
ghost use Rattle.sqz_image.specs.declared.slot.Slot.TheVariants.{ClassWord, Field};
ghost use Rattle.sqz_trace.specs.declared.weak.Weak.TheVariants.{Keep};
ghost use Rattle.sqz_trace.specs.Dead.{IsComplement, dead, bytes_in};
ghost use Rattle.sqz_histogram.specs.declared.group.Group.TheVariants.{Class, Compact};
ghost use Rattle.sqz_histogram.specs.Histogram.{IsHistogram};
ghost use Rattle.sqz_facts.specs.declared.slots.Held.TheVariants as held;
ghost use Rattle.sqz_facts.specs.declared.sites.Site.TheVariants as site;
ghost use Rattle.sqz_facts.specs.Held.{IsHeld};
ghost use Rattle.sqz_facts.specs.Sites.{IsSite};
ghost use Rattle.sqz_test_examples.specs.ClassEdge.{class_edge, class_edge_marks};
ghost use Rattle.sqz_test_examples.specs.DeadCycle.{dead_cycle};
ghost use Rattle.sqz_test_examples.specs.Shapes.{weak_fields};

/// A strong slot, a weak one, a SmallInteger, a word that is not traced, and no other of these.
fn slots_that_hold()
    ensures strong { IsHeld dead_cycle 5 (Field 1) (held.Pointer 1) }
    ensures class_word { IsHeld class_edge 3 ClassWord (held.Pointer 2) }
    ensures weak { IsHeld weak_fields 3 (Field 0) (held.Weak 2) }
    ensures past_the_end { IsHeld dead_cycle 5 (Field 2) held.Untraced }
    ensures not_bad { IsHeld dead_cycle 5 (Field 1) held.Bad → false ≡ true }
{}

/// The chunk of object 3 begins at address 1018, with its class word.
fn addresses_of_an_object()
    ensures header { IsSite class_edge 0x1018 (site.HeaderWord 3) }
    ensures object { IsSite class_edge 0x101C (site.Object 3) }
    ensures field { IsSite class_edge 0x1022 (site.Field 3 0) }
    ensures outside { IsSite class_edge 0x1030 site.Outside }
{}

/// Object 1 is the only dead one, and its chunk has twelve bytes.
fn dead_objects()
    ensures complement { IsComplement 5 class_edge_marks (false ∷ true ∷ false ∷ false ∷ false ∷
        []) }
    ensures bytes { bytes_in (dead class_edge class_edge_marks) ≡ 12 }
{}

/// Each group has twelve bytes. On a tie, classes come first, and then compact indexes ascend.
fn histogram_of_classes()
    ensures { IsHistogram class_edge Keep class_edge_marks
        (record { group = Class 2; count = 1; bytes = 12 } ∷ record {
          group = Compact 1;
          count = 2;
          bytes = 12;
        } ∷ record { group = Compact 3; count = 1; bytes = 12 } ∷ []) }
{}
