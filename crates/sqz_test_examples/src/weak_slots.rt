//! Images with weak objects, if weak slots are cleared and if they are kept.
//!
//! Field 2 of a class states the number of fixed fields of its instances: `0x405` none, `0x409`
//! one, and `0x20005` 64.

ghost use Rattle.sqz_image.specs.declared.fault.Fault.TheVariants.{NoClass, BadWeak, NoNil};
ghost use Rattle.sqz_image.specs.declared.fault.Fault.TheVariants.{BadPointer};
ghost use Rattle.sqz_image.specs.declared.slot.Slot.TheVariants.{Field};
ghost use Rattle.sqz_trace.specs.declared.weak.Weak.TheVariants.{Keep, Clear};
ghost use Rattle.sqz_tool.specs.Verdict.{IsRefused};
ghost use Rattle.sqz_test_fixtures.specs.Files.{image_bytes_of};
ghost use Rattle.sqz_test_examples.specs.Worked.{CompactsTo};

use sqz_test_fixtures::accepted::SPECIAL_ARRAY_ALONE;
use sqz_test_fixtures::with_defects::{
    WEAK_BAD_BEFORE_FIELD, WEAK_NO_NIL_BEFORE_NO_CLASS, WEAK_ODD_SLOT, WEAK_SLOT_NAMES_NOTHING,
    WEAK_WITHOUT_CLASS,
};
use sqz_test_fixtures::with_weak_classes::{
    WEAK_BAD_CLASS, WEAK_COMPACT_CLASS, WEAK_COMPACT_CLASS_CLEARED, WEAK_COMPACT_CLASSES,
    WEAK_NEGATIVE_FIXED, WEAK_OWN_CLASS, WEAK_OWN_CLASS_CLEARED, WEAK_SMALL_CLASS, WEAK_SPECIAL,
    WEAK_SPECIAL_WITH_CLASS_WORD, WEAK_TOO_MANY_FIXED, WEAK_WEAK_CLASS, WEAK_WEAK_CLASS_CLEARED,
};
use sqz_test_fixtures::with_weak_objects::{
    WEAK_FIELDS, WEAK_FIELDS_CLEARED, WEAK_FIXED_FIELD, WEAK_FIXED_FIELD_CLEARED,
    WEAK_SIXTY_FOUR_FIXED, WEAK_SIXTY_FOUR_FIXED_CLEARED, WEAK_SLOT_BIG_ENDIAN,
    WEAK_SLOT_BIG_ENDIAN_CLEARED, WEAK_SLOT_OF_LIVE_OBJECT, WEAK_SLOT_OF_LIVE_OBJECT_ANSWER,
};
use sqz_test_fixtures::{Compaction, TestImage};

/// A weak slot keeps nothing alive: its target is dropped, and the slot then points to nil.
fn weak_slot() -> Compaction
    ensures { CompactsTo Clear (image_bytes_of result.image) (image_bytes_of result.answer) }
{
    Compaction {
        image: WEAK_FIELDS,
        answer: WEAK_FIELDS_CLEARED,
    }
}

/// A weak slot is cleared in a big-endian file too.
fn weak_slot_in_big_endian() -> Compaction
    ensures { CompactsTo Clear (image_bytes_of result.image) (image_bytes_of result.answer) }
{
    Compaction {
        image: WEAK_SLOT_BIG_ENDIAN,
        answer: WEAK_SLOT_BIG_ENDIAN_CLEARED,
    }
}

/// A weak slot that points to a live object then points to its new address.
fn weak_slot_of_live_object() -> Compaction
    ensures { CompactsTo Clear (image_bytes_of result.image) (image_bytes_of result.answer) }
{
    Compaction {
        image: WEAK_SLOT_OF_LIVE_OBJECT,
        answer: WEAK_SLOT_OF_LIVE_OBJECT_ANSWER,
    }
}

/// A fixed field of a weak object keeps its target alive. The class states one fixed field, and
/// the other field is weak.
fn fixed_field_of_weak_object() -> Compaction
    ensures { CompactsTo Clear (image_bytes_of result.image) (image_bytes_of result.answer) }
{
    Compaction {
        image: WEAK_FIXED_FIELD,
        answer: WEAK_FIXED_FIELD_CLEARED,
    }
}

/// A class may state more than 63 fixed fields, in two groups of bits: here 64 of 65 fields.
fn sixty_four_fixed_fields() -> Compaction
    ensures { CompactsTo Clear (image_bytes_of result.image) (image_bytes_of result.answer) }
{
    Compaction {
        image: WEAK_SIXTY_FOUR_FIXED,
        answer: WEAK_SIXTY_FOUR_FIXED_CLEARED,
    }
}

/// The class of a weak object may be found by a compact index: the special objects array points to
/// the array of compact classes, and that to the class.
fn weak_object_of_compact_class() -> Compaction
    ensures { CompactsTo Clear (image_bytes_of result.image) (image_bytes_of result.answer) }
{
    Compaction {
        image: WEAK_COMPACT_CLASS,
        answer: WEAK_COMPACT_CLASS_CLEARED,
    }
}

/// A weak object may be its own class: its own field 2 states that it has one fixed field.
fn weak_object_that_is_its_own_class() -> Compaction
    ensures { CompactsTo Clear (image_bytes_of result.image) (image_bytes_of result.answer) }
{
    Compaction {
        image: WEAK_OWN_CLASS,
        answer: WEAK_OWN_CLASS_CLEARED,
    }
}

/// The class of a weak object may be weak too: its field 2 counts even if it is not strong.
fn weak_class_of_weak_object() -> Compaction
    ensures { CompactsTo Clear (image_bytes_of result.image) (image_bytes_of result.answer) }
{
    Compaction {
        image: WEAK_WEAK_CLASS,
        answer: WEAK_WEAK_CLASS_CLEARED,
    }
}

/// The special objects array may be weak if its class word leads to its class; here its field 0 is
/// fixed.
fn weak_special_array_with_class_word() -> Compaction
    ensures { CompactsTo Clear (image_bytes_of result.image) (image_bytes_of result.answer) }
{
    Compaction {
        image: WEAK_SPECIAL_WITH_CLASS_WORD,
        answer: WEAK_SPECIAL_WITH_CLASS_WORD,
    }
}

/// If weak slots are kept, a weak special objects array is like any other.
fn weak_special_array_kept() -> Compaction
    ensures { CompactsTo Keep (image_bytes_of result.image) (image_bytes_of result.answer) }
{
    Compaction {
        image: WEAK_SPECIAL,
        answer: WEAK_SPECIAL,
    }
}

/// A weak special objects array without a class word has no strong fields, since its class would
/// be found through them. So there is no nil.
fn weak_special_array() -> TestImage
    ensures { IsRefused Clear (image_bytes_of result) NoNil }
{
    WEAK_SPECIAL
}

/// A special objects array without fields points to no nil.
fn special_array_without_fields() -> TestImage
    ensures { IsRefused Clear (image_bytes_of result) NoNil }
{
    SPECIAL_ARRAY_ALONE
}

/// A missing nil is reported before a defect of an object.
fn no_nil_before_no_class() -> TestImage
    ensures { IsRefused Clear (image_bytes_of result) NoNil }
{
    WEAK_NO_NIL_BEFORE_NO_CLASS
}

/// If weak slots are kept, no nil is needed.
fn no_class_where_weak_slots_are_kept() -> TestImage
    ensures { IsRefused Keep (image_bytes_of result) (NoClass 0x1000) }
{
    WEAK_NO_NIL_BEFORE_NO_CLASS
}

/// The class of a weak object states its fixed fields in a SmallInteger.
fn bad_class_of_weak_object() -> TestImage
    ensures { IsRefused Clear (image_bytes_of result) (BadWeak 0x1020) }
{
    WEAK_BAD_CLASS
}

/// The class of a weak object has a field 2.
fn small_class_of_weak_object() -> TestImage
    ensures { IsRefused Clear (image_bytes_of result) (BadWeak 0x1014) }
{
    WEAK_SMALL_CLASS
}

/// The class of a weak object may not state a negative number of fixed fields.
fn negative_fixed_fields() -> TestImage
    ensures { IsRefused Clear (image_bytes_of result) (BadWeak 0x1018) }
{
    WEAK_NEGATIVE_FIXED
}

/// The class of a weak object may not state more fixed fields than the object has.
fn too_many_fixed_fields() -> TestImage
    ensures { IsRefused Clear (image_bytes_of result) (BadWeak 0x1018) }
{
    WEAK_TOO_MANY_FIXED
}

/// No class is found by a compact index if the array of compact classes is weak and has no class
/// word.
fn weak_compact_classes() -> TestImage
    ensures { IsRefused Clear (image_bytes_of result) (BadWeak 0x1014) }
{
    WEAK_COMPACT_CLASSES
}

/// A weak object without a class is reported for that, before it is reported as a bad weak object.
fn no_class_before_bad_weak() -> TestImage
    ensures { IsRefused Clear (image_bytes_of result) (NoClass 0x1004) }
{
    WEAK_WITHOUT_CLASS
}

/// A bad weak object is reported before a bad field of it.
fn bad_weak_before_field() -> TestImage
    ensures { IsRefused Clear (image_bytes_of result) (BadWeak 0x1018) }
{
    WEAK_BAD_BEFORE_FIELD
}

/// A weak slot may not hold a word that is neither a SmallInteger nor an address.
fn odd_weak_slot() -> TestImage
    ensures { IsRefused Clear (image_bytes_of result) (BadPointer 0x1018 (Field 0)) }
{
    WEAK_ODD_SLOT
}

/// A weak slot may not hold an address without an object.
fn weak_slot_names_nothing() -> TestImage
    ensures { IsRefused Clear (image_bytes_of result) (BadPointer 0x1018 (Field 0)) }
{
    WEAK_SLOT_NAMES_NOTHING
}
