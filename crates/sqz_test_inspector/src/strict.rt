//! Warnings about worked images, whose first data word has the address 0x1000.

use super::images::image_with;
use sqz_image::Fault;
use sqz_strict::{ClassShape, Warning, warnings_of};
use sqz_trace::{Live, ObjectGraph, Weak};
use std::alloc::Global;
use std::process::Abort;
use std::test::Fail;

/// The base header of an object of this many words without a class that could be found: its compact
/// class index is 1, and the special objects array has no array of compact classes.
const ONE_WORD: u32 = 0x1200 + 4 + 3;

const TWO_WORDS: u32 = 0x1200 + 2 * 4 + 3;

const THREE_WORDS: u32 = 0x1200 + 3 * 4 + 3;

const FOUR_WORDS: u32 = 0x1200 + 4 * 4 + 3;

const TEN_WORDS: u32 = 0x1200 + 10 * 4 + 3;

/// The base header of an object that can be a class, with three fields.
const CLASS: u32 = 0x1100 + 4 * 4 + 3;

/// A SmallInteger.
const INT: u32 = 1;

/// The base header of three words of an object with a class word and two fields, of format 0.
const TWO_FIELDS: u32 = 3 * 4 + 1;

/// What is added to a base header, and to what a class states, for each number of the format.
const FORMAT: u32 = 0x100;

/// The same for the compact class index.
const COMPACT: u32 = 0x1000;

/// A class states two fixed fields, format 0 and compact class index 0.
const STATES_TWO: u32 = 3 * 4 + 1;

/// The warnings about an image with these data words.
fn warnings_in(alloc: Global, words: &[u32], weak: Weak) -> Result<Vec<Warning>, Fault> {
    let image = image_with(alloc, words)?;
    let heap = image.heap();
    let live = Live::of(alloc, ObjectGraph { heap, weak })?;
    Ok(warnings_of(alloc, &live)?)
}

/// Asserts which warnings there are about an image with these data words.
fn assert_warnings<R: Abort + AllocGlobal>(
    rt: &R,
    words: &[u32],
    wanted: &[Warning],
) -> Result<(), Fail> {
    for weak in [Weak::Keep, Weak::Clear] {
        let found = warnings_in(rt.alloc(), words, weak)?;
        assert_eq!(rt; found.as_slice(), wanted);
    }
    Ok(())
}

/// The base header of an object with two fields, field 2 of its class, and what the class states if
/// the object is not so: a format, a number of fixed fields and a compact class index.
type Case = (u32, u32, Option<(u32, u32, u32)>);

/// Asserts whether objects are as their classes state.
fn assert_fits<R: Abort + AllocGlobal>(rt: &R, cases: &[Case]) -> Result<(), Fail> {
    for (header, shape, wanted) in cases {
        let words = [
            TWO_WORDS, 0x101C, CLASS, 0x1000, 0x1000, *shape, 0x1009, *header, INT, INT,
        ];
        match *wanted {
            Some(stated) => assert_warnings(rt, &words, &[shape_warning(stated)])?,
            None => assert_warnings(rt, &words, &[])?,
        }
    }
    Ok(())
}

/// The warning that object 2 is not as its class states.
fn shape_warning((format, fixed, compact): (u32, u32, u32)) -> Warning {
    let stated = ClassShape {
        format,
        fixed,
        compact,
    };
    Warning::Shape { object: 2, stated }
}

/// Classes that state two fields, three fields and one field, for each format with fields.
const NUMBERS_OF_FIELDS: &[Case] = &[
    (TWO_FIELDS, STATES_TWO, None),
    (TWO_FIELDS, STATES_TWO + 4, Some((0, 3, 0))),
    (TWO_FIELDS, STATES_TWO - 4, Some((0, 1, 0))),
    (TWO_FIELDS + FORMAT, STATES_TWO + FORMAT, None),
    (
        TWO_FIELDS + FORMAT,
        STATES_TWO + FORMAT + 4,
        Some((1, 3, 0)),
    ),
    (
        TWO_FIELDS + FORMAT,
        STATES_TWO + FORMAT - 4,
        Some((1, 1, 0)),
    ),
    (TWO_FIELDS + 2 * FORMAT, STATES_TWO + 2 * FORMAT, None),
    (
        TWO_FIELDS + 2 * FORMAT,
        STATES_TWO + 2 * FORMAT + 4,
        Some((2, 3, 0)),
    ),
    (TWO_FIELDS + 2 * FORMAT, STATES_TWO + 2 * FORMAT - 4, None),
    (TWO_FIELDS + 3 * FORMAT, STATES_TWO + 3 * FORMAT, None),
    (
        TWO_FIELDS + 3 * FORMAT,
        STATES_TWO + 3 * FORMAT + 4,
        Some((3, 3, 0)),
    ),
    (TWO_FIELDS + 3 * FORMAT, STATES_TWO + 3 * FORMAT - 4, None),
    (TWO_FIELDS + 4 * FORMAT, STATES_TWO + 4 * FORMAT, None),
    (
        TWO_FIELDS + 4 * FORMAT,
        STATES_TWO + 4 * FORMAT + 4,
        Some((4, 3, 0)),
    ),
    (TWO_FIELDS + 4 * FORMAT, STATES_TWO + 4 * FORMAT - 4, None),
    (TWO_FIELDS, STATES_TWO + 0x20000, Some((0, 66, 0))),
];

/// Classes that state another format.
const FORMATS: &[Case] = &[
    (TWO_FIELDS + FORMAT, STATES_TWO, Some((0, 2, 0))),
    (TWO_FIELDS + 6 * FORMAT, 5 + 6 * FORMAT, None),
    (TWO_FIELDS + 11 * FORMAT, 5 + 8 * FORMAT, None),
    (TWO_FIELDS + 8 * FORMAT, 5 + 6 * FORMAT, Some((6, 0, 0))),
];

/// Classes that state a compact class index.
const COMPACT_INDEXES: &[Case] = &[
    (TWO_FIELDS, STATES_TWO + 5 * COMPACT, None),
    (TWO_FIELDS + 5 * COMPACT, STATES_TWO + 5 * COMPACT, None),
    (
        TWO_FIELDS + 4 * COMPACT,
        STATES_TWO + 5 * COMPACT,
        Some((0, 2, 5)),
    ),
];

#[test]
fn shapes(rt: HostRuntime) -> Result<(), Fail> {
    for cases in [NUMBERS_OF_FIELDS, FORMATS, COMPACT_INDEXES] {
        assert_fits(&rt, cases)?;
    }
    Ok(())
}

/// The data words of images, and the warnings: classes whose field 2 states no number, or is no
/// SmallInteger; one with another format; one whose superclass, and one whose method dictionary is a
/// SmallInteger; a class whose method dictionary is nil; a method dictionary whose array of methods
/// is long enough, and one that is too short; an association without a key, and one with a key.
const WARNINGS: &[(&[u32], &[Warning])] = &[
    (
        &[
            TWO_WORDS, 0x101C, CLASS, 0x1000, 0x1000, INT, 0x1009, TWO_FIELDS, INT, INT,
        ],
        &[Warning::NoClass { object: 2 }],
    ),
    (
        &[
            TWO_WORDS, 0x101C, CLASS, 0x1000, 0x1000, 0x1000, 0x1009, TWO_FIELDS, INT, INT,
        ],
        &[Warning::NoClass { object: 2 }],
    ),
    (
        &[
            TWO_WORDS, 0x101C, FOUR_WORDS, 0x1000, 0x1000, STATES_TWO, 0x1009, TWO_FIELDS, INT, INT,
        ],
        &[Warning::NoClass { object: 2 }],
    ),
    (
        &[
            TWO_WORDS, 0x101C, CLASS, INT, 0x1000, STATES_TWO, 0x1009, TWO_FIELDS, INT, INT,
        ],
        &[Warning::NoClass { object: 2 }],
    ),
    (
        &[
            TWO_WORDS, 0x101C, CLASS, 0x1000, INT, STATES_TWO, 0x1009, TWO_FIELDS, INT, INT,
        ],
        &[Warning::NoClass { object: 2 }],
    ),
    (
        &[
            TWO_WORDS, 0x101C, CLASS, 0x1000, 0x101C, STATES_TWO, 0x1009, TWO_FIELDS, INT, INT,
        ],
        &[Warning::NoMethodDictionary { object: 1 }],
    ),
    (
        &[
            TWO_WORDS, 0x101C, CLASS, 0x1000, 0x1028, STATES_TWO, 0x1009, TWO_FIELDS, INT, INT,
            FOUR_WORDS, INT, 0x1038, 0x1000, TWO_WORDS, INT,
        ],
        &[],
    ),
    (
        &[
            TWO_WORDS, 0x101C, CLASS, 0x1000, 0x1028, STATES_TWO, 0x1009, TWO_FIELDS, INT, INT,
            FOUR_WORDS, INT, 0x1038, 0x1000, ONE_WORD, ONE_WORD,
        ],
        &[Warning::MethodDictionary { object: 3 }],
    ),
    (
        &[
            TEN_WORDS,
            0x1028,
            INT,
            INT,
            INT,
            INT,
            INT,
            INT,
            INT,
            0x102C,
            ONE_WORD,
            THREE_WORDS,
            INT,
            0x1038,
            TWO_WORDS,
            0x1040,
            THREE_WORDS,
            0x1028,
            INT,
        ],
        &[Warning::NoKey { object: 4 }],
    ),
    (
        &[
            TEN_WORDS,
            0x1028,
            INT,
            INT,
            INT,
            INT,
            INT,
            INT,
            INT,
            0x102C,
            ONE_WORD,
            THREE_WORDS,
            INT,
            0x1038,
            TWO_WORDS,
            0x1040,
            THREE_WORDS,
            0x1038,
            INT,
        ],
        &[],
    ),
];

#[test]
fn warnings(rt: HostRuntime) -> Result<(), Fail> {
    for (words, wanted) in WARNINGS {
        assert_warnings(&rt, words, wanted)?;
    }
    Ok(())
}
