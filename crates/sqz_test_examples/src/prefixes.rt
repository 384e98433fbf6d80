//! Images after a prefix of other bytes.

ghost use Rattle.sqz_image.specs.declared.fault.Fault.TheVariants.{TooShort, BadVersion};
ghost use Rattle.sqz_image.specs.declared.fault.Fault.TheVariants.{BadHeaderSize, Truncated};
ghost use Rattle.sqz_image.specs.declared.fault.Fault.TheVariants.{ZeroSize};
ghost use Rattle.sqz_trace.specs.declared.weak.Weak.{Weak};
ghost use Rattle.sqz_trace.specs.declared.weak.Weak.TheVariants.{Keep, Clear};
ghost use Rattle.sqz_tool.specs.Verdict.{IsRefused};
ghost use Rattle.sqz_test_fixtures.specs.Files.{image_bytes_of, file_bytes_of};
ghost use Rattle.sqz_test_examples.specs.Worked.{CompactsTo};

use sqz_test_fixtures::accepted::NIL_ALONE;
use sqz_test_fixtures::with_other_bytes::{
    BEHIND_511_BYTES, BEHIND_512_BYTES, BEHIND_512_BYTES_ANSWER, BEHIND_513_BYTES,
    BIG_ENDIAN_AFTER_FILLER, BIG_ENDIAN_AFTER_FILLER_ANSWER, BROKEN_HEADER_BEFORE_512_BYTES,
    BYTES_ON_BOTH_SIDES, CUT_IN_DATA_BEHIND_512_BYTES, CUT_IN_HEADER_BEHIND_512_BYTES,
    CUT_IN_VERSION_BEHIND_512_BYTES, FIRST_UNREADABLE_CHUNK_BEHIND_512_BYTES,
    HEADER_ALONE_BEHIND_512_BYTES, NIL_AFTER_ARRAY, OTHER_VERSION_BEHIND_512_BYTES,
    VERSION_ALONE_BEHIND_512_BYTES, WEAK_FIELDS_BEHIND_512_BYTES,
    WEAK_FIELDS_BEHIND_512_BYTES_CLEARED,
};
use sqz_test_fixtures::{TestFile, TestImage};

/// An image may follow 512 bytes, which are kept.
fn behind_512_bytes() -> (TestFile, TestFile)
    ensures { CompactsTo Keep (file_bytes_of result.0) (file_bytes_of result.1) }
{
    (BEHIND_512_BYTES, BEHIND_512_BYTES_ANSWER)
}

/// A big-endian image may follow 512 bytes too.
fn big_endian_behind_512_bytes() -> (TestFile, TestFile)
    ensures { CompactsTo Keep (file_bytes_of result.0) (file_bytes_of result.1) }
{
    (BIG_ENDIAN_AFTER_FILLER, BIG_ENDIAN_AFTER_FILLER_ANSWER)
}

/// Bytes after the data are dropped.
fn bytes_after_data() -> (TestFile, TestFile)
    ensures { CompactsTo Keep (file_bytes_of result.0) (file_bytes_of result.1) }
{
    (BYTES_ON_BOTH_SIDES, BEHIND_512_BYTES_ANSWER)
}

/// Weak slots are cleared as in other files.
fn weak_slot() -> (TestFile, TestFile)
    ensures { CompactsTo Clear (file_bytes_of result.0) (file_bytes_of result.1) }
{
    (
        WEAK_FIELDS_BEHIND_512_BYTES,
        WEAK_FIELDS_BEHIND_512_BYTES_CLEARED,
    )
}

/// A file that begins with the version in one byte order is read from there, even if the version
/// in the other byte order follows 512 bytes.
fn version_at_both() -> (TestFile, TestImage)
    ensures { CompactsTo Keep (file_bytes_of result.0) (image_bytes_of result.1) }
{
    (NIL_AFTER_ARRAY, NIL_ALONE)
}

/// A file that begins with the version is read from there, even if that header is bad and the
/// header after 512 bytes is sound.
fn broken_header_at_front() -> TestFile
    ensures { (weak : Weak) → IsRefused weak (file_bytes_of result) BadHeaderSize }
{
    BROKEN_HEADER_BEFORE_512_BYTES
}

/// An image after 511 bytes is not found.
fn behind_511_bytes() -> TestFile
    ensures { (weak : Weak) → IsRefused weak (file_bytes_of result) BadVersion }
{
    BEHIND_511_BYTES
}

/// An image after 513 bytes is not found.
fn behind_513_bytes() -> TestFile
    ensures { (weak : Weak) → IsRefused weak (file_bytes_of result) BadVersion }
{
    BEHIND_513_BYTES
}

/// A file that ends within the version after 512 bytes does not have it.
fn cut_in_version() -> TestFile
    ensures { (weak : Weak) → IsRefused weak (file_bytes_of result) BadVersion }
{
    CUT_IN_VERSION_BEHIND_512_BYTES
}

/// A file that ends after this version has no header.
fn version_alone() -> TestFile
    ensures { (weak : Weak) → IsRefused weak (file_bytes_of result) TooShort }
{
    VERSION_ALONE_BEHIND_512_BYTES
}

/// A file that ends within the header after 512 bytes is too short.
fn cut_in_header() -> TestFile
    ensures { (weak : Weak) → IsRefused weak (file_bytes_of result) TooShort }
{
    CUT_IN_HEADER_BEHIND_512_BYTES
}

/// A file that ends after this header has no data.
fn header_alone() -> TestFile
    ensures { (weak : Weak) → IsRefused weak (file_bytes_of result) Truncated }
{
    HEADER_ALONE_BEHIND_512_BYTES
}

/// The size of the data counts from the header on.
fn cut_in_data() -> TestFile
    ensures { (weak : Weak) → IsRefused weak (file_bytes_of result) Truncated }
{
    CUT_IN_DATA_BEHIND_512_BYTES
}

/// The word of a chunk that cannot be read is counted from the first data word on.
fn first_unreadable_chunk() -> TestFile
    ensures { (weak : Weak) → IsRefused weak (file_bytes_of result) (ZeroSize 4) }
{
    FIRST_UNREADABLE_CHUNK_BEHIND_512_BYTES
}

/// Another version after 512 bytes is rejected.
fn other_version() -> TestFile
    ensures { (weak : Weak) → IsRefused weak (file_bytes_of result) BadVersion }
{
    OTHER_VERSION_BEHIND_512_BYTES
}
