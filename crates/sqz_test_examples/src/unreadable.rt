//! Files that are not images: faults of the header, of a chunk, and of the address of the special
//! objects array.

ghost use Rattle.sqz_image.specs.declared.fault.Fault.TheVariants.{TooShort, BadVersion};
ghost use Rattle.sqz_image.specs.declared.fault.Fault.TheVariants.{BadHeaderSize, BadDataSize};
ghost use Rattle.sqz_image.specs.declared.fault.Fault.TheVariants.{BadBase, Truncated, ZeroSize};
ghost use Rattle.sqz_image.specs.declared.fault.Fault.TheVariants.{HeaderMismatch};
ghost use Rattle.sqz_image.specs.declared.fault.Fault.TheVariants.{Overrun, BadSpecialObjects};
ghost use Rattle.sqz_trace.specs.declared.weak.Weak.{Weak};
ghost use Rattle.sqz_tool.specs.Verdict.{IsRefused};
ghost use Rattle.sqz_test_fixtures.specs.Files.{image_bytes_of, file_bytes_of};

use sqz_test_fixtures::unreadable::{
    CLASS_WORD_AT_SPECIAL, FIELD_AT_SPECIAL, FIRST_UNREADABLE_CHUNK, FREE_CHUNK_AT_SPECIAL,
    FREE_OVERRUN, FREE_ZERO_SIZE, HEADER_OVERRUN, HEADER_OVERRUN_BEFORE_MIXED, LONE_CLASS_WORD,
    LONE_SIZE_WORD, MIXED_BEFORE_OVERRUN, MIXED_BEFORE_SIZE, MIXED_CLASS_HEADER, MIXED_HEADER,
    MIXED_SECOND_HEADER, NO_OBJECT_AT_SPECIAL, ODD_SPECIAL, OVERRUN, OVERRUN_OF_THREE,
    OVERRUN_OF_TWO, UNREADABLE_BEFORE_SPECIAL, ZERO_SIZE, ZERO_SIZE_OF_THREE, ZERO_SIZE_OF_TWO,
};
use sqz_test_fixtures::with_bad_headers::{
    BASE_TOO_HIGH, OTHER_HEADER_SIZE, OTHER_HEADER_SIZE_AND_UNEVEN_DATA_SIZE, OTHER_VERSION,
    OTHER_VERSION_AND_HEADER_SIZE, UNEVEN_BASE, UNEVEN_DATA_SIZE, UNEVEN_DATA_SIZE_AND_BASE,
};
use sqz_test_fixtures::with_other_bytes::{
    CUT_IN_DATA, CUT_IN_HEADER, SHORT_OF_ANOTHER_VERSION, UNEVEN_BASE_OF_TRUNCATED_DATA,
};
use sqz_test_fixtures::{EMPTY, TestFile, TestImage};

/// A file that ends within its header is too short.
fn cut_in_header() -> TestFile
    ensures { (weak : Weak) → IsRefused weak (file_bytes_of result) TooShort }
{
    CUT_IN_HEADER
}

/// Another version is rejected.
fn other_version() -> TestImage
    ensures { (weak : Weak) → IsRefused weak (image_bytes_of result) BadVersion }
{
    OTHER_VERSION
}

/// Another size of the header is rejected.
fn other_header_size() -> TestImage
    ensures { (weak : Weak) → IsRefused weak (image_bytes_of result) BadHeaderSize }
{
    OTHER_HEADER_SIZE
}

/// The size of the data is a number of whole words.
fn uneven_data_size() -> TestImage
    ensures { (weak : Weak) → IsRefused weak (image_bytes_of result) BadDataSize }
{
    UNEVEN_DATA_SIZE
}

/// The address of the first data word is a multiple of four.
fn uneven_base() -> TestImage
    ensures { (weak : Weak) → IsRefused weak (image_bytes_of result) BadBase }
{
    UNEVEN_BASE
}

/// The data do not reach past the last address.
fn base_too_high() -> TestImage
    ensures { (weak : Weak) → IsRefused weak (image_bytes_of result) BadBase }
{
    BASE_TOO_HIGH
}

/// A file that ends within its data is truncated.
fn cut_in_data() -> TestFile
    ensures { (weak : Weak) → IsRefused weak (file_bytes_of result) Truncated }
{
    CUT_IN_DATA
}

/// A file that ends within its header is too short, whatever its version.
fn short_of_another_version() -> TestFile
    ensures { (weak : Weak) → IsRefused weak (file_bytes_of result) TooShort }
{
    SHORT_OF_ANOTHER_VERSION
}

/// The version is checked before the size of the header.
fn other_version_and_header_size() -> TestImage
    ensures { (weak : Weak) → IsRefused weak (image_bytes_of result) BadVersion }
{
    OTHER_VERSION_AND_HEADER_SIZE
}

/// The size of the header is checked before that of the data.
fn other_header_size_and_uneven_data_size() -> TestImage
    ensures { (weak : Weak) → IsRefused weak (image_bytes_of result) BadHeaderSize }
{
    OTHER_HEADER_SIZE_AND_UNEVEN_DATA_SIZE
}

/// The size of the data is checked before their address.
fn uneven_data_size_and_base() -> TestImage
    ensures { (weak : Weak) → IsRefused weak (image_bytes_of result) BadDataSize }
{
    UNEVEN_DATA_SIZE_AND_BASE
}

/// The address of the data is checked before their end.
fn uneven_base_of_truncated_data() -> TestFile
    ensures { (weak : Weak) → IsRefused weak (file_bytes_of result) BadBase }
{
    UNEVEN_BASE_OF_TRUNCATED_DATA
}

/// A chunk that states a size of 0 words is rejected.
fn zero_size() -> TestImage
    ensures { (weak : Weak) → IsRefused weak (image_bytes_of result) (ZeroSize 1) }
{
    ZERO_SIZE
}

/// A base header after a class word may not state a size of 0 words.
fn zero_size_of_two() -> TestImage
    ensures { (weak : Weak) → IsRefused weak (image_bytes_of result) (ZeroSize 1) }
{
    ZERO_SIZE_OF_TWO
}

/// A size word may not state a size of 0 words.
fn zero_size_of_three() -> TestImage
    ensures { (weak : Weak) → IsRefused weak (image_bytes_of result) (ZeroSize 1) }
{
    ZERO_SIZE_OF_THREE
}

/// A free chunk that states a size of 0 words is rejected.
fn free_zero_size() -> TestImage
    ensures { (weak : Weak) → IsRefused weak (image_bytes_of result) (ZeroSize 1) }
{
    FREE_ZERO_SIZE
}

/// The header words of a chunk have one type; here the third has type 3 in place of 0.
fn mixed_header() -> TestImage
    ensures { (weak : Weak) → IsRefused weak (image_bytes_of result) (HeaderMismatch 1) }
{
    MIXED_HEADER
}

/// The header words of a chunk have one type; here the second has type 1 in place of 0.
fn mixed_second_header() -> TestImage
    ensures { (weak : Weak) → IsRefused weak (image_bytes_of result) (HeaderMismatch 1) }
{
    MIXED_SECOND_HEADER
}

/// The header words of a chunk have one type; here the second has type 0 in place of 1.
fn mixed_class_header() -> TestImage
    ensures { (weak : Weak) → IsRefused weak (image_bytes_of result) (HeaderMismatch 1) }
{
    MIXED_CLASS_HEADER
}

/// A chunk with a missing header word is rejected.
fn header_overrun() -> TestImage
    ensures { (weak : Weak) → IsRefused weak (image_bytes_of result) (Overrun 1) }
{
    HEADER_OVERRUN
}

/// A chunk with two of its three header words missing is rejected.
fn lone_size_word() -> TestImage
    ensures { (weak : Weak) → IsRefused weak (image_bytes_of result) (Overrun 1) }
{
    LONE_SIZE_WORD
}

/// A chunk with the second of its two header words missing is rejected.
fn lone_class_word() -> TestImage
    ensures { (weak : Weak) → IsRefused weak (image_bytes_of result) (Overrun 1) }
{
    LONE_CLASS_WORD
}

/// A chunk that states more words than there are is rejected.
fn overrun() -> TestImage
    ensures { (weak : Weak) → IsRefused weak (image_bytes_of result) (Overrun 1) }
{
    OVERRUN
}

/// A base header after a class word may not state more words than there are.
fn overrun_of_two() -> TestImage
    ensures { (weak : Weak) → IsRefused weak (image_bytes_of result) (Overrun 1) }
{
    OVERRUN_OF_TWO
}

/// A size word may not state more words than there are.
fn overrun_of_three() -> TestImage
    ensures { (weak : Weak) → IsRefused weak (image_bytes_of result) (Overrun 1) }
{
    OVERRUN_OF_THREE
}

/// A free chunk that states more words than there are is rejected.
fn free_overrun() -> TestImage
    ensures { (weak : Weak) → IsRefused weak (image_bytes_of result) (Overrun 1) }
{
    FREE_OVERRUN
}

/// A missing header word is reported before a mismatch of the others.
fn missing_before_mixed() -> TestImage
    ensures { (weak : Weak) → IsRefused weak (image_bytes_of result) (Overrun 1) }
{
    HEADER_OVERRUN_BEFORE_MIXED
}

/// A mismatch of the header words is reported before a size of 0 words.
fn mixed_before_size() -> TestImage
    ensures { (weak : Weak) → IsRefused weak (image_bytes_of result) (HeaderMismatch 1) }
{
    MIXED_BEFORE_SIZE
}

/// A mismatch of the header words is reported before missing words after them.
fn mixed_before_overrun() -> TestImage
    ensures { (weak : Weak) → IsRefused weak (image_bytes_of result) (HeaderMismatch 1) }
{
    MIXED_BEFORE_OVERRUN
}

/// The first of two chunks that cannot be read is reported.
fn first_unreadable_chunk() -> TestImage
    ensures { (weak : Weak) → IsRefused weak (image_bytes_of result) (ZeroSize 4) }
{
    FIRST_UNREADABLE_CHUNK
}

/// An image without data has no special objects array.
fn no_data() -> TestImage
    ensures { (weak : Weak) → IsRefused weak (image_bytes_of result) BadSpecialObjects }
{
    EMPTY
}

/// There is an object at the address of the special objects array.
fn no_object_at_special() -> TestImage
    ensures { (weak : Weak) → IsRefused weak (image_bytes_of result) BadSpecialObjects }
{
    NO_OBJECT_AT_SPECIAL
}

/// A free chunk is not a special objects array.
fn free_chunk_at_special() -> TestImage
    ensures { (weak : Weak) → IsRefused weak (image_bytes_of result) BadSpecialObjects }
{
    FREE_CHUNK_AT_SPECIAL
}

/// The special objects array is found at its base header, not at a class word.
fn class_word_at_special() -> TestImage
    ensures { (weak : Weak) → IsRefused weak (image_bytes_of result) BadSpecialObjects }
{
    CLASS_WORD_AT_SPECIAL
}

/// The special objects array is not found at a field.
fn field_at_special() -> TestImage
    ensures { (weak : Weak) → IsRefused weak (image_bytes_of result) BadSpecialObjects }
{
    FIELD_AT_SPECIAL
}

/// The address of the special objects array is that of a word.
fn odd_special() -> TestImage
    ensures { (weak : Weak) → IsRefused weak (image_bytes_of result) BadSpecialObjects }
{
    ODD_SPECIAL
}

/// A chunk that cannot be read is reported before a missing special objects array.
fn unreadable_before_special() -> TestImage
    ensures { (weak : Weak) → IsRefused weak (image_bytes_of result) (ZeroSize 1) }
{
    UNREADABLE_BEFORE_SPECIAL
}
