//! Patches of worked images, whose first data word has the address 0x1000, and patches in bytes.

use super::images::image_with;
use sqz_damage::{Becomes, NilError, Patch, nil_patches, write_patches};
use sqz_image::Fault;
use sqz_object::Order;
use sqz_trace::{Live, ObjectGraph, Weak};
use std::alloc::{AllocError, Global};
use std::test::Fail;

/// The base header of an object with compact class index 1: fields only, one to four words.
const ONE_WORD: u32 = 0x1000 + 4 + 3;

const TWO_WORDS: u32 = 0x1000 + 2 * 4 + 3;

const THREE_WORDS: u32 = 0x1000 + 3 * 4 + 3;

const FOUR_WORDS: u32 = 0x1000 + 4 * 4 + 3;

/// The base header of an object of two words without a class.
const NO_CLASS: u32 = 2 * 4 + 3;

/// The base header of an object of two words with a class word before it.
const WITH_CLASS_WORD: u32 = 2 * 4 + 1;

/// The base header of an object with a class word before it that can be a class, and what its field
/// 2 states.
const CLASS: u32 = 0x100 + 4 * 4 + 1;

const STATES_ONE: u32 = 2 * 4 + 1;

/// The base header of a method of two words.
const METHOD: u32 = 0x1000 + 0xC00 + 2 * 4 + 3;

/// A method's header, which states one literal.
const ONE_LITERAL: u32 = 0x400 + 1;

/// The base header of a context of four words.
const CONTEXT: u32 = 0xD000 + 0x300 + 4 * 4 + 3;

/// No object has this address.
const NOWHERE: u32 = 0x9000;

/// Neither a SmallInteger nor an address.
const ODD: u32 = 2;

/// SmallIntegers.
const INT_0: u32 = 1;

/// A word that is patched: its index, its new value, and what it becomes.
type Patched = (u32, u32, Becomes);

/// The data words of an image, and the patches of its live objects. Nil is at word 4.
type Case = (&'static [u32], Result<&'static [Patched], NilError>);

/// Nothing dangles, fields dangle, and dead objects stay.
const FIELDS: &[Case] = &[
    (&[FOUR_WORDS, 0x1010, INT_0, 0x1000, ONE_WORD], Ok(&[])),
    (
        &[FOUR_WORDS, 0x1010, NOWHERE, ODD, ONE_WORD],
        Ok(&[(2, 0x1010, Becomes::Nil), (3, 0x1010, Becomes::Nil)]),
    ),
    (
        &[FOUR_WORDS, 0x1010, INT_0, INT_0, ONE_WORD, TWO_WORDS, ODD],
        Ok(&[]),
    ),
];

/// An object whose class word leads nowhere, and one whose class word leads to no class, are freed; a
/// class stays, and its class word keeps its header type; an object of that class stays; and an
/// object without a class is freed.
const CLASSES: &[Case] = &[
    (
        &[
            FOUR_WORDS,
            0x1010,
            0x1018,
            INT_0,
            ONE_WORD,
            NOWHERE + 1,
            WITH_CLASS_WORD,
            ODD,
        ],
        Ok(&[(2, 0x1010, Becomes::Nil), (5, 14, Becomes::FreeChunk)]),
    ),
    (
        &[
            FOUR_WORDS,
            0x1010,
            0x1018,
            INT_0,
            ONE_WORD,
            0x1011,
            WITH_CLASS_WORD,
            INT_0,
        ],
        Ok(&[(2, 0x1010, Becomes::Nil), (5, 14, Becomes::FreeChunk)]),
    ),
    (
        &[
            FOUR_WORDS,
            0x1010,
            0x1018,
            INT_0,
            ONE_WORD,
            NOWHERE + 1,
            CLASS,
            0x1010,
            ODD,
            STATES_ONE,
        ],
        Ok(&[(5, 0x1011, Becomes::Nil), (8, 0x1010, Becomes::Nil)]),
    ),
    (
        &[
            FOUR_WORDS,
            0x1010,
            0x102C,
            INT_0,
            ONE_WORD,
            NOWHERE + 1,
            CLASS,
            0x1010,
            0x1010,
            STATES_ONE,
            0x1019,
            WITH_CLASS_WORD,
            ODD,
        ],
        Ok(&[(5, 0x1011, Becomes::Nil), (12, 0x1010, Becomes::Nil)]),
    ),
    (
        &[FOUR_WORDS, 0x1010, 0x1014, INT_0, ONE_WORD, NO_CLASS, ODD],
        Ok(&[(2, 0x1010, Becomes::Nil), (5, 10, Becomes::FreeChunk)]),
    ),
];

/// A weak object whose class states more fixed fields than it has, with the patches if weak slots
/// are cleared.
const WEAK_OBJECT: Case = (
    &[
        FOUR_WORDS,
        0x1010,
        0x102C,
        INT_0,
        ONE_WORD,
        0x1019,
        CLASS,
        0x1010,
        0x1010,
        STATES_ONE + 4,
        0x1019,
        WITH_CLASS_WORD + 0x400,
        INT_0,
    ],
    Ok(&[(2, 0x1010, Becomes::Nil), (10, 14, Becomes::FreeChunk)]),
);

/// A method, a bad method, and a bad context.
const METHODS: &[Case] = &[
    (
        &[FOUR_WORDS, 0x1010, 0x1014, INT_0, ONE_WORD, METHOD, INT_0],
        Ok(&[]),
    ),
    (
        &[
            FOUR_WORDS,
            0x1010,
            0x1014,
            INT_0,
            ONE_WORD,
            METHOD,
            ONE_LITERAL,
        ],
        Ok(&[(2, 0x1010, Becomes::Nil), (5, 10, Becomes::FreeChunk)]),
    ),
    (
        &[
            FOUR_WORDS, 0x1010, INT_0, 0x1014, ONE_WORD, CONTEXT, INT_0, INT_0, INT_0,
        ],
        Ok(&[(3, 0x1010, Becomes::Nil), (5, 18, Becomes::FreeChunk)]),
    ),
];

/// Images without nil, of which the last needs none, and one whose special objects array cannot be
/// traced.
const NO_NIL: &[Case] = &[
    (&[TWO_WORDS, NOWHERE], Err(NilError::NoNil)),
    (&[TWO_WORDS, 0x1008, NO_CLASS, INT_0], Err(NilError::NoNil)),
    (&[THREE_WORDS, INT_0, ODD], Err(NilError::NoNil)),
    (&[THREE_WORDS, INT_0, INT_0], Ok(&[])),
    (
        &[NO_CLASS, 0x1008, ONE_WORD],
        Err(NilError::NoSpecialObjects),
    ),
];

/// The patches as triples.
fn triples_of(alloc: Global, patches: &[Patch]) -> Result<Vec<Patched>, AllocError> {
    let mut triples = Vec::new(alloc);
    for patch in patches {
        triples.push((patch.word, patch.value, patch.becomes))?;
    }
    Ok(triples)
}

/// The patches of the live objects of an image with these data words.
fn patches_in(
    alloc: Global,
    words: &[u32],
    weak: Weak,
) -> Result<Result<Vec<Patched>, NilError>, Fault> {
    let image = image_with(alloc, words)?;
    let heap = image.heap();
    let live = Live::of(alloc, ObjectGraph { heap, weak })?;
    match nil_patches(alloc, &live) {
        Ok(patches) => Ok(Ok(triples_of(alloc, &patches)?)),
        Err(error) => Ok(Err(error)),
    }
}

/// Whether the patches of the live objects are those of a case.
fn has_patches(alloc: Global, case: &Case, weak: Weak) -> Result<bool, Fault> {
    match (patches_in(alloc, case.0, weak)?, case.1) {
        (Ok(found), Ok(wanted)) => Ok(found.as_slice() == wanted),
        (Err(found), Err(wanted)) => Ok(found == wanted),
        _ => Ok(false),
    }
}

#[test]
fn patches(rt: HostRuntime) -> Result<(), Fail> {
    for cases in [FIELDS, CLASSES, METHODS, NO_NIL] {
        for case in cases {
            assert!(rt; has_patches(rt.alloc(), case, Weak::Keep)?, "{:?}", case.0);
            assert!(rt; has_patches(rt.alloc(), case, Weak::Clear)?, "{:?}", case.0);
        }
    }
    Ok(())
}

#[test]
fn weak_objects(rt: HostRuntime) -> Result<(), Fail> {
    let (words, _) = WEAK_OBJECT;
    let kept = patches_in(rt.alloc(), words, Weak::Keep)?;
    assert_eq!(rt; kept.map(|patches| patches.len()), Ok(0));
    assert!(rt; has_patches(rt.alloc(), &WEAK_OBJECT, Weak::Clear)?);
    Ok(())
}

#[test]
fn written(rt: HostRuntime) {
    let becomes = Becomes::Nil;
    let patches = [
        Patch {
            word: 2,
            value: 7,
            becomes,
        },
        Patch {
            word: 0,
            value: 256,
            becomes,
        },
    ];
    let mut bytes = [9u8; 14];
    write_patches(&mut bytes, Order::Big, &patches);
    assert_eq!(rt; bytes, [0, 0, 1, 0, 9, 9, 9, 9, 0, 0, 0, 7, 9, 9]);
    let mut bytes = [9u8; 14];
    write_patches(&mut bytes, Order::Little, &patches);
    assert_eq!(rt; bytes, [0, 1, 0, 0, 9, 9, 9, 9, 7, 0, 0, 0, 9, 9]);
}
