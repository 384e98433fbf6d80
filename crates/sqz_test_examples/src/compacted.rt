//! Images that are accepted, and their compactions.

ghost use Rattle.sqz_trace.specs.declared.weak.Weak.TheVariants.{Keep};
ghost use Rattle.sqz_test_fixtures.specs.Files.{image_bytes_of, file_bytes_of};
ghost use Rattle.sqz_test_examples.specs.Worked.{CompactsTo};

use sqz_test_fixtures::accepted::{
    BIG_ENDIAN, BIG_ENDIAN_ANSWER, DEAD_ARRAY, DEAD_BAD_CONTEXT, DEAD_BAD_METHOD, DEAD_BAD_POINTER,
    DEAD_CYCLE, DEAD_CYCLE_ANSWER, DEAD_WITHOUT_CLASS, FREE_CHUNK, FREE_CHUNK_LAST, FREE_WORD,
    HIGHEST_BASE, HIGHEST_BASE_ANSWER, INTEGERS, LARGEST_SHORT_OBJECT, NIL_ALONE,
    SPECIAL_ARRAY_ALONE, THREE_WORD_HEADER, THREE_WORD_HEADER_ANSWER, UPPER_HEADER_BITS,
};
use sqz_test_fixtures::with_classes::{
    BIG_ENDIAN_BYTES, BIG_ENDIAN_BYTES_ANSWER, CLASS_EDGE, CLASS_EDGE_ANSWER,
    CLASS_EDGE_OF_THREE_WORDS, CLASS_EDGE_OF_THREE_WORDS_ANSWER, CLASS_NAMES,
};
use sqz_test_fixtures::with_contexts::{
    CONTEXT_STACK, CONTEXT_STACK_ANSWER, CONTEXT_WITH_CLASS_WORD, CONTEXT_WITH_CLASS_WORD_ANSWER,
    CONTEXT_WITHOUT_STACK_POINTER, LIKE_CONTEXTS,
};
use sqz_test_fixtures::with_formats::{
    LITERALS_ALONE, LITERALS_ALONE_ANSWER, LOWEST_METHOD_FORMAT, METHOD_LITERALS,
    METHOD_LITERALS_ANSWER, METHODS_WITHOUT_LITERALS, TRACED_FORMATS, TRACED_FORMATS_ANSWER,
    UNTRACED_FORMATS, UNTRACED_FORMATS_ANSWER,
};
use sqz_test_fixtures::with_other_bytes::BYTES_AFTER_DATA;
use sqz_test_fixtures::with_weak_objects::WEAK_FIELDS;
use sqz_test_fixtures::{Compaction, TestFile, TestImage};

/// A dead array is dropped, and what follows it moves down.
fn dead_array() -> Compaction
    ensures { CompactsTo Keep (image_bytes_of result.image) (image_bytes_of result.answer) }
{
    Compaction {
        image: DEAD_ARRAY,
        answer: NIL_ALONE,
    }
}

/// The compaction of a big-endian file is big-endian.
fn big_endian() -> Compaction
    ensures { CompactsTo Keep (image_bytes_of result.image) (image_bytes_of result.answer) }
{
    Compaction {
        image: BIG_ENDIAN,
        answer: BIG_ENDIAN_ANSWER,
    }
}

/// Bytes after the data are dropped.
fn bytes_after_data() -> (TestFile, TestImage)
    ensures { CompactsTo Keep (file_bytes_of result.0) (image_bytes_of result.1) }
{
    (BYTES_AFTER_DATA, NIL_ALONE)
}

/// A free chunk is dropped.
fn free_chunk() -> Compaction
    ensures { CompactsTo Keep (image_bytes_of result.image) (image_bytes_of result.answer) }
{
    Compaction {
        image: FREE_CHUNK,
        answer: NIL_ALONE,
    }
}

/// The data may reach up to the last address, and their words may be the highest addresses.
fn highest_base() -> Compaction
    ensures { CompactsTo Keep (image_bytes_of result.image) (image_bytes_of result.answer) }
{
    Compaction {
        image: HIGHEST_BASE,
        answer: HIGHEST_BASE_ANSWER,
    }
}

/// A bad pointer in a dead array is not a fault.
fn dead_bad_pointer() -> Compaction
    ensures { CompactsTo Keep (image_bytes_of result.image) (image_bytes_of result.answer) }
{
    Compaction {
        image: DEAD_BAD_POINTER,
        answer: NIL_ALONE,
    }
}

/// An image may consist of a special objects array without fields.
fn special_array_alone() -> Compaction
    ensures { CompactsTo Keep (image_bytes_of result.image) (image_bytes_of result.answer) }
{
    Compaction {
        image: SPECIAL_ARRAY_ALONE,
        answer: SPECIAL_ARRAY_ALONE,
    }
}

/// SmallIntegers are kept as they are.
fn integers() -> Compaction
    ensures { CompactsTo Keep (image_bytes_of result.image) (image_bytes_of result.answer) }
{
    Compaction {
        image: INTEGERS,
        answer: INTEGERS,
    }
}

/// Two dead objects that point to each other are dropped; two such live ones are kept.
fn dead_cycle() -> Compaction
    ensures { CompactsTo Keep (image_bytes_of result.image) (image_bytes_of result.answer) }
{
    Compaction {
        image: DEAD_CYCLE,
        answer: DEAD_CYCLE_ANSWER,
    }
}

/// A header of three words states the size in its first word. The address of the object is that of
/// its third word.
fn three_word_header() -> Compaction
    ensures { CompactsTo Keep (image_bytes_of result.image) (image_bytes_of result.answer) }
{
    Compaction {
        image: THREE_WORD_HEADER,
        answer: THREE_WORD_HEADER_ANSWER,
    }
}

/// The size field of a base header states up to 63 words.
fn largest_short_object() -> Compaction
    ensures { CompactsTo Keep (image_bytes_of result.image) (image_bytes_of result.answer) }
{
    Compaction {
        image: LARGEST_SHORT_OBJECT,
        answer: LARGEST_SHORT_OBJECT,
    }
}

/// A class word keeps the class alive. It is updated when the class moves, and its header type
/// stays.
fn class_edge() -> Compaction
    ensures { CompactsTo Keep (image_bytes_of result.image) (image_bytes_of result.answer) }
{
    Compaction {
        image: CLASS_EDGE,
        answer: CLASS_EDGE_ANSWER,
    }
}

/// The bytes of a name are not pointers, whatever words they form.
fn class_name() -> Compaction
    ensures { CompactsTo Keep (image_bytes_of result.image) (image_bytes_of result.answer) }
{
    Compaction {
        image: CLASS_NAMES,
        answer: CLASS_NAMES,
    }
}

/// The fields of a context are traced up to the top of its stack. Those above it are not traced,
/// and are kept as they are.
fn context_stack() -> Compaction
    ensures { CompactsTo Keep (image_bytes_of result.image) (image_bytes_of result.answer) }
{
    Compaction {
        image: CONTEXT_STACK,
        answer: CONTEXT_STACK_ANSWER,
    }
}

/// The literals of a method are traced. The words after them are not traced, and are kept as they
/// are.
fn method_literals() -> Compaction
    ensures { CompactsTo Keep (image_bytes_of result.image) (image_bytes_of result.answer) }
{
    Compaction {
        image: METHOD_LITERALS,
        answer: METHOD_LITERALS_ANSWER,
    }
}

/// If weak slots are kept, the fields of a weak object keep their targets alive.
fn weak_fields() -> Compaction
    ensures { CompactsTo Keep (image_bytes_of result.image) (image_bytes_of result.answer) }
{
    Compaction {
        image: WEAK_FIELDS,
        answer: WEAK_FIELDS,
    }
}

/// A free chunk may be one word.
fn free_word() -> Compaction
    ensures { CompactsTo Keep (image_bytes_of result.image) (image_bytes_of result.answer) }
{
    Compaction {
        image: FREE_WORD,
        answer: NIL_ALONE,
    }
}

/// A free chunk may be the last.
fn free_chunk_last() -> Compaction
    ensures { CompactsTo Keep (image_bytes_of result.image) (image_bytes_of result.answer) }
{
    Compaction {
        image: FREE_CHUNK_LAST,
        answer: NIL_ALONE,
    }
}

/// A dead object without a class is not a fault.
fn dead_without_class() -> Compaction
    ensures { CompactsTo Keep (image_bytes_of result.image) (image_bytes_of result.answer) }
{
    Compaction {
        image: DEAD_WITHOUT_CLASS,
        answer: NIL_ALONE,
    }
}

/// A dead method may be bad.
fn dead_bad_method() -> Compaction
    ensures { CompactsTo Keep (image_bytes_of result.image) (image_bytes_of result.answer) }
{
    Compaction {
        image: DEAD_BAD_METHOD,
        answer: NIL_ALONE,
    }
}

/// A dead context may be bad.
fn dead_bad_context() -> Compaction
    ensures { CompactsTo Keep (image_bytes_of result.image) (image_bytes_of result.answer) }
{
    Compaction {
        image: DEAD_BAD_CONTEXT,
        answer: NIL_ALONE,
    }
}

/// The bits of a base header above the compact index are kept as they are.
fn upper_header_bits() -> Compaction
    ensures { CompactsTo Keep (image_bytes_of result.image) (image_bytes_of result.answer) }
{
    Compaction {
        image: UPPER_HEADER_BITS,
        answer: UPPER_HEADER_BITS,
    }
}

/// The class word in a header of three words is updated too. The size in its base header, here 63,
/// is ignored.
fn class_edge_of_three_words() -> Compaction
    ensures { CompactsTo Keep (image_bytes_of result.image) (image_bytes_of result.answer) }
{
    Compaction {
        image: CLASS_EDGE_OF_THREE_WORDS,
        answer: CLASS_EDGE_OF_THREE_WORDS_ANSWER,
    }
}

/// The words of a byte object are kept in a big-endian file too, and so are its bytes.
fn big_endian_bytes() -> Compaction
    ensures { CompactsTo Keep (image_bytes_of result.image) (image_bytes_of result.answer) }
{
    Compaction {
        image: BIG_ENDIAN_BYTES,
        answer: BIG_ENDIAN_BYTES_ANSWER,
    }
}

/// All fields of formats 0 to 4 are traced.
fn traced_formats() -> Compaction
    ensures { CompactsTo Keep (image_bytes_of result.image) (image_bytes_of result.answer) }
{
    Compaction {
        image: TRACED_FORMATS,
        answer: TRACED_FORMATS_ANSWER,
    }
}

/// The fields of formats 5 to 11 are kept as they are, here an address from which an object moves
/// away.
fn untraced_formats() -> Compaction
    ensures { CompactsTo Keep (image_bytes_of result.image) (image_bytes_of result.answer) }
{
    Compaction {
        image: UNTRACED_FORMATS,
        answer: UNTRACED_FORMATS_ANSWER,
    }
}

/// Formats 12 to 15 are methods. In a method without literals only the header is traced.
fn methods_without_literals() -> Compaction
    ensures { CompactsTo Keep (image_bytes_of result.image) (image_bytes_of result.answer) }
{
    Compaction {
        image: METHODS_WITHOUT_LITERALS,
        answer: METHODS_WITHOUT_LITERALS,
    }
}

/// The literals of a method may end with its last field.
fn literals_to_end() -> Compaction
    ensures { CompactsTo Keep (image_bytes_of result.image) (image_bytes_of result.answer) }
{
    Compaction {
        image: LITERALS_ALONE,
        answer: LITERALS_ALONE_ANSWER,
    }
}

/// Eight bits of a method's header count its literals, here one; the other bits are set too.
fn method_header_bits() -> Compaction
    ensures { CompactsTo Keep (image_bytes_of result.image) (image_bytes_of result.answer) }
{
    Compaction {
        image: LOWEST_METHOD_FORMAT,
        answer: LOWEST_METHOD_FORMAT,
    }
}

/// A context may have a class word, and either of two compact indexes.
fn context_with_class_word() -> Compaction
    ensures { CompactsTo Keep (image_bytes_of result.image) (image_bytes_of result.answer) }
{
    Compaction {
        image: CONTEXT_WITH_CLASS_WORD,
        answer: CONTEXT_WITH_CLASS_WORD_ANSWER,
    }
}

/// The stack of a context is empty if its stack pointer is not a SmallInteger; here it is nil.
fn context_without_stack_pointer() -> Compaction
    ensures { CompactsTo Keep (image_bytes_of result.image) (image_bytes_of result.answer) }
{
    Compaction {
        image: CONTEXT_WITHOUT_STACK_POINTER,
        answer: CONTEXT_WITHOUT_STACK_POINTER,
    }
}

/// Only format 3 with compact index 13 or 14 is a context; these four are not.
fn like_contexts() -> Compaction
    ensures { CompactsTo Keep (image_bytes_of result.image) (image_bytes_of result.answer) }
{
    Compaction {
        image: LIKE_CONTEXTS,
        answer: LIKE_CONTEXTS,
    }
}
