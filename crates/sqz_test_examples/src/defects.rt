//! Images that have a defect: a reachable object without a class, a bad method or context, or a
//! slot that points to no object.

ghost use Rattle.sqz_image.specs.declared.fault.Fault.TheVariants.{NoClass, BadMethod, BadContext};
ghost use Rattle.sqz_image.specs.declared.fault.Fault.TheVariants.{BadPointer};
ghost use Rattle.sqz_image.specs.declared.slot.Slot.TheVariants.{ClassWord, Field};
ghost use Rattle.sqz_trace.specs.declared.weak.Weak.TheVariants.{Keep};
ghost use Rattle.sqz_tool.specs.Verdict.{IsRefused};
ghost use Rattle.sqz_test_fixtures.specs.Files.{image_bytes_of};

use sqz_test_fixtures::TestImage;
use sqz_test_fixtures::with_bad_contexts::{
    BAD_CONTEXT_WITH_CLASS_WORD, CONTEXT_BEFORE_CLASS_WORD, CONTEXT_OF_FIVE_FIELDS,
    CONTEXT_OF_TWO_FIELDS, CONTEXT_WITHOUT_FIELDS, FIVE_FIELDS_WITHOUT_STACK_POINTER,
    NEGATIVE_STACK, NOT_THROUGH_NEGATIVE_STACK, ODD_STACK_POINTER, SHORT_CONTEXT, STACK_PAST_END,
    STACK_TO_END, THROUGH_BAD_CONTEXT,
};
use sqz_test_fixtures::with_bad_methods::{
    ALL_ONES, BAD_LITERAL, BAD_METHOD_OF_HIGHEST_FORMAT, METHOD_BEFORE_CLASS_WORD, METHOD_HEADER,
    METHOD_WITHOUT_CLASS, METHOD_WITHOUT_FIELDS, NOT_THROUGH_METHOD_HEADER, ODD_METHOD_HEADER,
    THROUGH_BAD_METHOD, TOO_MANY_LITERALS,
};
use sqz_test_fixtures::with_defects::{
    BAD_CLASS_WORD, BAD_CLASS_WORD_OF_THREE, CLASS_WORD_BEFORE_FIELD, FIELD_BELOW_BASE,
    FIELD_NAMES_CLASS_WORD, FIELD_NAMES_END, FIELD_NAMES_FIELD, FIELD_NAMES_FREE_CHUNK,
    LOWER_IS_NAMED, LOWER_OF_TWO, NO_CLASS, NO_CLASS_BEFORE_FIELD, ODD_FIELD, TWO_ODD_FIELDS,
};

/// An object with a header of one word has a compact class.
fn no_class() -> TestImage
    ensures { IsRefused Keep (image_bytes_of result) (NoClass 0x100C) }
{
    NO_CLASS
}

/// A missing class is reported before a bad field.
fn no_class_before_field() -> TestImage
    ensures { IsRefused Keep (image_bytes_of result) (NoClass 0x1004) }
{
    NO_CLASS_BEFORE_FIELD
}

/// A missing class is reported before a bad method.
fn method_without_class() -> TestImage
    ensures { IsRefused Keep (image_bytes_of result) (NoClass 0x1004) }
{
    METHOD_WITHOUT_CLASS
}

/// A method has a header field.
fn method_without_fields() -> TestImage
    ensures { IsRefused Keep (image_bytes_of result) (BadMethod 0x1004) }
{
    METHOD_WITHOUT_FIELDS
}

/// The first field of a method is a SmallInteger; here it is an address.
fn method_header() -> TestImage
    ensures { IsRefused Keep (image_bytes_of result) (BadMethod 0x1004) }
{
    METHOD_HEADER
}

/// The first field of a method is a SmallInteger; here it is neither that nor an address.
fn odd_method_header() -> TestImage
    ensures { IsRefused Keep (image_bytes_of result) (BadMethod 0x1004) }
{
    ODD_METHOD_HEADER
}

/// A method has the literals that it states.
fn too_many_literals() -> TestImage
    ensures { IsRefused Keep (image_bytes_of result) (BadMethod 0x1004) }
{
    TOO_MANY_LITERALS
}

/// The highest format is a method too.
fn bad_method_of_highest_format() -> TestImage
    ensures { IsRefused Keep (image_bytes_of result) (BadMethod 0x1004) }
{
    BAD_METHOD_OF_HIGHEST_FORMAT
}

/// Words of ones are a method of 62 fields that states 255 literals.
fn all_ones() -> TestImage
    ensures { IsRefused Keep (image_bytes_of result) (BadMethod 0x1000) }
{
    ALL_ONES
}

/// A bad method is reported before a bad class word.
fn method_before_class_word() -> TestImage
    ensures { IsRefused Keep (image_bytes_of result) (BadMethod 0x1008) }
{
    METHOD_BEFORE_CLASS_WORD
}

/// All fields of a method that states too many literals are traced, here to an object without a
/// class.
fn through_bad_method() -> TestImage
    ensures { IsRefused Keep (image_bytes_of result) (NoClass 0x1004) }
{
    THROUGH_BAD_METHOD
}

/// No field of a method is traced if the first is not a SmallInteger.
fn not_through_method_header() -> TestImage
    ensures { IsRefused Keep (image_bytes_of result) (BadMethod 0x100C) }
{
    NOT_THROUGH_METHOD_HEADER
}

/// A context has fields.
fn context_without_fields() -> TestImage
    ensures { IsRefused Keep (image_bytes_of result) (BadContext 0x1004) }
{
    CONTEXT_WITHOUT_FIELDS
}

/// A context has a stack pointer, which is its third field.
fn short_context() -> TestImage
    ensures { IsRefused Keep (image_bytes_of result) (BadContext 0x1004) }
{
    SHORT_CONTEXT
}

/// Two fields are not enough for a context, since the stack pointer is the third.
fn context_of_two_fields() -> TestImage
    ensures { IsRefused Keep (image_bytes_of result) (BadContext 0x1004) }
{
    CONTEXT_OF_TWO_FIELDS
}

/// A context has six fields below its stack, even if that is empty.
fn context_of_five_fields() -> TestImage
    ensures { IsRefused Keep (image_bytes_of result) (BadContext 0x1004) }
{
    CONTEXT_OF_FIVE_FIELDS
}

/// A context has these six fields even if its stack pointer is not a SmallInteger.
fn five_fields_without_stack_pointer() -> TestImage
    ensures { IsRefused Keep (image_bytes_of result) (BadContext 0x1004) }
{
    FIVE_FIELDS_WITHOUT_STACK_POINTER
}

/// The stack of a context ends within the context.
fn stack_past_end() -> TestImage
    ensures { IsRefused Keep (image_bytes_of result) (BadContext 0x101C) }
{
    STACK_PAST_END
}

/// The stack of a context may end with its last field; then each field is traced.
fn stack_to_end() -> TestImage
    ensures { IsRefused Keep (image_bytes_of result) (BadPointer 0x101C (Field 8)) }
{
    STACK_TO_END
}

/// The stack pointer of a context is not negative.
fn negative_stack() -> TestImage
    ensures { IsRefused Keep (image_bytes_of result) (BadContext 0x101C) }
{
    NEGATIVE_STACK
}

/// A bad context may have a class word, and the other compact index.
fn bad_context_with_class_word() -> TestImage
    ensures { IsRefused Keep (image_bytes_of result) (BadContext 0x1008) }
{
    BAD_CONTEXT_WITH_CLASS_WORD
}

/// A bad context is reported before a bad class word.
fn context_before_class_word() -> TestImage
    ensures { IsRefused Keep (image_bytes_of result) (BadContext 0x1008) }
{
    CONTEXT_BEFORE_CLASS_WORD
}

/// All fields of a context whose stack does not end within it are traced.
fn through_bad_context() -> TestImage
    ensures { IsRefused Keep (image_bytes_of result) (NoClass 0x1004) }
{
    THROUGH_BAD_CONTEXT
}

/// No field of a context is traced if the stack pointer is negative.
fn not_through_negative_stack() -> TestImage
    ensures { IsRefused Keep (image_bytes_of result) (BadContext 0x100C) }
{
    NOT_THROUGH_NEGATIVE_STACK
}

/// A traced field that is not a SmallInteger points to an object; this word is not the address of
/// any word.
fn odd_field() -> TestImage
    ensures { IsRefused Keep (image_bytes_of result) (BadPointer 0x1004 (Field 0)) }
{
    ODD_FIELD
}

/// The address of an object is that of its base header, not that of its class word.
fn field_names_class_word() -> TestImage
    ensures { IsRefused Keep (image_bytes_of result) (BadPointer 0x1024 (Field 1)) }
{
    FIELD_NAMES_CLASS_WORD
}

/// There is no object at the address of a field.
fn field_names_field() -> TestImage
    ensures { IsRefused Keep (image_bytes_of result) (BadPointer 0x1004 (Field 0)) }
{
    FIELD_NAMES_FIELD
}

/// A free chunk is not an object that a field could point to.
fn field_names_free_chunk() -> TestImage
    ensures { IsRefused Keep (image_bytes_of result) (BadPointer 0x1010 (Field 0)) }
{
    FIELD_NAMES_FREE_CHUNK
}

/// There is no object after the last word.
fn field_names_end() -> TestImage
    ensures { IsRefused Keep (image_bytes_of result) (BadPointer 0x1004 (Field 0)) }
{
    FIELD_NAMES_END
}

/// There is no object below the first word.
fn field_below_base() -> TestImage
    ensures { IsRefused Keep (image_bytes_of result) (BadPointer 0x1004 (Field 0)) }
{
    FIELD_BELOW_BASE
}

/// A literal of a method points to an object.
fn bad_literal() -> TestImage
    ensures { IsRefused Keep (image_bytes_of result) (BadPointer 0x1004 (Field 1)) }
{
    BAD_LITERAL
}

/// A stack pointer that is not a SmallInteger points to an object.
fn odd_stack_pointer() -> TestImage
    ensures { IsRefused Keep (image_bytes_of result) (BadPointer 0x1004 (Field 2)) }
{
    ODD_STACK_POINTER
}

/// The first of two bad fields is reported.
fn first_bad_field() -> TestImage
    ensures { IsRefused Keep (image_bytes_of result) (BadPointer 0x1004 (Field 1)) }
{
    TWO_ODD_FIELDS
}

/// A class word points to an object; there is none at the address in this one.
fn bad_class_word() -> TestImage
    ensures { IsRefused Keep (image_bytes_of result) (BadPointer 0x101C ClassWord) }
{
    BAD_CLASS_WORD
}

/// The class word in a header of three words points to an object too.
fn bad_class_of_three_words() -> TestImage
    ensures { IsRefused Keep (image_bytes_of result) (BadPointer 0x100C ClassWord) }
{
    BAD_CLASS_WORD_OF_THREE
}

/// A bad class word is reported before a bad field.
fn class_word_before_field() -> TestImage
    ensures { IsRefused Keep (image_bytes_of result) (BadPointer 0x1008 ClassWord) }
{
    CLASS_WORD_BEFORE_FIELD
}

/// The lower of two reachable objects with a defect is reported.
fn lower_of_two() -> TestImage
    ensures { IsRefused Keep (image_bytes_of result) (BadPointer 0x1004 (Field 0)) }
{
    LOWER_OF_TWO
}

/// The lower one is reported even if the higher one points to it.
fn lower_is_named() -> TestImage
    ensures { IsRefused Keep (image_bytes_of result) (NoClass 0x1004) }
{
    LOWER_IS_NAMED
}
