//! Small images of these tests, and what some of them are compacted to.

ghost use Rattle.std.specs.Prelude.{◌<◌};

use sqz_image::{Fault, Image, read_image};
use sqz_object::Order;
use sqz_test_fixtures::Chunk::{Array, Fixed, Free, Instance, Long, LongArray, Short, Weak, Words};
use sqz_test_fixtures::accepted::DEAD_CYCLE;
use sqz_test_fixtures::{EMPTY, LEAF, NIL, ODD, TestImage, image_of, put_header, put_words};
use std::alloc::{AllocError, Global};

/// The second object is dead, and the third has six words, three of them header words.
pub(crate) const LONG_HEADER: TestImage = TestImage {
    chunks: &[
        NIL,
        Array(&[1, 1]),
        Long {
            class: 0x1000,
            compact: 0,
            format: 2,
            first: &[1, 1, 1],
            others: &[],
        },
        Array(&[0x1000, 0x1018]),
    ],
    special: 0x1028,
    ..EMPTY
};

/// Free chunks at the end.
pub(crate) const FREE_AT_THE_END: TestImage = TestImage {
    chunks: &[NIL, Array(&[0x1000]), Free(&[]), Free(&[1])],
    special: 0x1004,
    ..EMPTY
};

/// A class word, a header of three words whose base header states two words, and a dead object.
pub(crate) const CLASS_WORDS: TestImage = TestImage {
    chunks: &[
        NIL,
        Array(&[1, 1]),
        LEAF,
        Instance {
            class: 0x1010,
            fields: &[1],
        },
        Words(&[8, 0x1010, 0x208, 0x101C]),
        Array(&[0x1000, 0x102C]),
    ],
    special: 0x1034,
    ..EMPTY
};

/// What it is compacted to.
pub(crate) const CLASS_WORDS_ANSWER: TestImage = TestImage {
    chunks: &[
        NIL,
        LEAF,
        Instance {
            class: 0x1004,
            fields: &[1],
        },
        Words(&[8, 0x1004, 0x208, 0x1010]),
        Array(&[0x1000, 0x1020]),
    ],
    special: 0x1028,
    ..EMPTY
};

/// A context up to the top of its stack, and a method with two literals.
pub(crate) const CONTEXT_AND_METHOD: TestImage = TestImage {
    chunks: &[
        NIL,
        Short {
            compact: 13,
            format: 3,
            fields: &[0x1000, 1, 3, 0x1000, 0x1000, 0x1000, 0x1000, 1, 2, ODD],
        },
        Short {
            compact: 5,
            format: 12,
            fields: &[0x801, 0x1000, 0x1000, 0x100C],
        },
        Array(&[0x1004, 0x1030]),
    ],
    special: 0x1044,
    ..EMPTY
};

/// A weak object with three weak slots: one points to a live object, one to a dead one, and one
/// holds an integer. Its class word points to a class without fixed fields. The first object is
/// dead, so that all others move.
pub(crate) const THREE_WEAK_SLOTS: TestImage = TestImage {
    chunks: &[
        Array(&[1, 1]),
        NIL,
        Fixed(&[1, 1, 0x405]),
        LEAF,
        LEAF,
        Weak {
            class: 0x1010,
            fields: &[0x1020, 0x1028, 7],
        },
        Array(&[0x100C, 0x1034, 0x1020]),
    ],
    special: 0x1044,
    ..EMPTY
};

/// What is left of it if weak slots are cleared.
pub(crate) const THREE_WEAK_SLOTS_CLEARED: TestImage = TestImage {
    chunks: &[
        NIL,
        Fixed(&[1, 1, 0x405]),
        LEAF,
        Weak {
            class: 0x1004,
            fields: &[0x1014, 0x1000, 7],
        },
        Array(&[0x1000, 0x1020, 0x1014]),
    ],
    special: 0x1030,
    ..EMPTY
};

/// What is left of it if they are kept.
pub(crate) const THREE_WEAK_SLOTS_KEPT: TestImage = TestImage {
    chunks: &[
        NIL,
        Fixed(&[1, 1, 0x405]),
        LEAF,
        LEAF,
        Weak {
            class: 0x1004,
            fields: &[0x1014, 0x101C, 7],
        },
        Array(&[0x1000, 0x1028, 0x1014]),
    ],
    special: 0x1038,
    ..EMPTY
};

/// A weak object of two fields. The class of its compact index says that one is fixed. Its weak slot
/// points to a dead object.
pub(crate) const FIXED_FIELD_BY_INDEX: TestImage = TestImage {
    chunks: &[
        NIL,
        Fixed(&[1, 1, 0x409]),
        LEAF,
        LEAF,
        Short {
            compact: 1,
            format: 4,
            fields: &[0x1014, 0x101C],
        },
        Array(&[0x1004]),
        LongArray {
            first: &[0x1000, 0x1024],
            last: 0x1030,
        },
    ],
    special: 0x1038,
    ..EMPTY
};

/// The special objects array points to three objects, which point to one, two and four objects
/// more.
pub(crate) const FAN: TestImage = TestImage {
    chunks: &[
        NIL,
        NIL,
        NIL,
        NIL,
        NIL,
        NIL,
        NIL,
        Fixed(&[0x1000]),
        Fixed(&[0x1004, 0x1008]),
        Fixed(&[0x100C, 0x1010, 0x1014, 0x1018]),
        Array(&[0x101C, 0x1024, 0x1030]),
    ],
    special: 0x1044,
    ..EMPTY
};

/// The image of the dead cycle.
pub(crate) fn dead_cycle_image(alloc: Global) -> Result<Image, Fault> {
    image_of(alloc, &DEAD_CYCLE)
}

/// Puts words at the end of a file, and then bytes up to this length.
pub(crate) fn put_object(
    file: &mut Vec<u8>,
    words: &[u32],
    length: usize,
) -> Result<(), AllocError> {
    put_words(file, Order::Little, words)?;
    file.resize(length, 7)
}

/// An image of nil, a byte object of `words` words after its three header words, and the special
/// objects array, which points to it. All are live.
pub(crate) fn long_object_image(alloc: Global, words: u32) -> Result<Image, Fault>
    requires { words < 20000000 }
{
    let order = Order::Little;
    let special = 0x1010 + 4 * words;
    let mut file = Vec::new(alloc);
    put_header(&mut file, order, 28 + 4 * words, 0x1000, special)?;
    let size = 4 + 4 * words;
    put_object(
        &mut file,
        &[0x1007, size, 0x1000, 0x800],
        76 + size as usize,
    )?;
    put_words(&mut file, order, &[0x320F, 0x1000, 0x100C])?;
    read_image(alloc, &file)
}

/// An image of nil, of this many objects that each point to the next one, and of the special
/// objects array, which points to the first.
pub(crate) fn chain_image(alloc: Global, count: u32) -> Result<Image, Fault>
    requires { count < 10000 }
{
    let order = Order::Little;
    let mut file = Vec::new(alloc);
    put_header(&mut file, order, 16 + 8 * count, 0x1000, 0x1004 + 8 * count)?;
    put_words(&mut file, order, &[0x1007])?;
    for object in 1..count {
        put_words(&mut file, order, &[0x110B, 0x1004 + 8 * object])?;
    }
    put_words(&mut file, order, &[0x110B, 1, 0x320F, 0x1000, 0x1004])?;
    read_image(alloc, &file)
}
