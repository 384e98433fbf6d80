//! Images without weak objects that are accepted, and what they are compacted to.

use super::prefixes::assert_array_left_out;
use super::runs::assert_compacts;
use sqz_object::Order;
use sqz_test_fixtures::Chunk::{Array, Instance, Long, Short};
use sqz_test_fixtures::accepted::{
    DEAD_BAD_CONTEXT, DEAD_BAD_METHOD, DEAD_BAD_POINTER, DEAD_WITHOUT_CLASS, FREE_CHUNK, FREE_WORD,
    HIGHEST_BASE, HIGHEST_BASE_ANSWER, INTEGERS, NIL_ALONE,
};
use sqz_test_fixtures::with_classes::{
    CLASS_EDGE, CLASS_EDGE_ANSWER, CLASS_EDGE_OF_THREE_WORDS, CLASS_EDGE_OF_THREE_WORDS_ANSWER,
    CLASS_NAMES,
};
use sqz_test_fixtures::with_contexts::{
    CONTEXT_STACK, CONTEXT_STACK_ANSWER, CONTEXT_WITH_CLASS_WORD, CONTEXT_WITH_CLASS_WORD_ANSWER,
    CONTEXT_WITHOUT_STACK_POINTER, LIKE_CONTEXTS,
};
use sqz_test_fixtures::with_formats::{
    HIGHEST_METHOD_FORMAT, LITERALS_ALONE, LITERALS_ALONE_ANSWER, LOWEST_METHOD_FORMAT,
    METHOD_LITERALS, METHOD_LITERALS_ANSWER,
};
use sqz_test_fixtures::{EMPTY, NIL, TestImage, with_word};
use sqz_trace::Weak;
use std::process::Abort;
use std::sync::Wait;
use std::test::Fail;
use std::thread::Threads;

/// Asserts what is left of an image, whether weak slots are kept or cleared.
pub(crate) fn assert_left<R: Threads + Wait + Sync + Abort + AllocGlobal>(
    rt: &R,
    image: &TestImage,
    answer: &TestImage,
) -> Result<(), Fail> {
    assert_compacts(rt, Weak::Keep, image, answer)?;
    assert_compacts(rt, Weak::Clear, image, answer)
}

#[test]
fn numbers_of_a_run(rt: HostRuntime) -> Result<(), Fail> {
    assert_array_left_out(&rt, 0, Order::Little, Weak::Keep)
}

#[test]
fn same_as_it_was(rt: HostRuntime) -> Result<(), Fail> {
    for image in &[
        INTEGERS,
        CONTEXT_WITHOUT_STACK_POINTER,
        LIKE_CONTEXTS,
        LOWEST_METHOD_FORMAT,
        HIGHEST_METHOD_FORMAT,
        CLASS_NAMES,
    ] {
        assert_left(&rt, image, image)?;
    }
    Ok(())
}

/// The class word of a dead object may point to no object.
const DEAD_BAD_CLASS_WORD: TestImage = TestImage {
    chunks: &[
        NIL,
        Instance {
            class: 0x2000,
            fields: &[1],
        },
        Array(&[0x1000]),
    ],
    special: 0x1010,
    ..EMPTY
};

/// The class word of a dead object with a header of three words may point to no object.
const DEAD_BAD_CLASS_WORD_OF_THREE: TestImage = TestImage {
    chunks: &[
        NIL,
        Long {
            class: 0x2000,
            compact: 0,
            format: 2,
            first: &[1],
            others: &[],
        },
        Array(&[0x1000]),
    ],
    special: 0x1014,
    ..EMPTY
};

#[test]
fn dead_object_of_any_kind(rt: HostRuntime) -> Result<(), Fail> {
    for image in &[
        DEAD_WITHOUT_CLASS,
        DEAD_BAD_METHOD,
        DEAD_BAD_CONTEXT,
        DEAD_BAD_CLASS_WORD,
        DEAD_BAD_CLASS_WORD_OF_THREE,
        FREE_WORD,
        FREE_CHUNK,
        DEAD_BAD_POINTER,
    ] {
        assert_left(&rt, image, &NIL_ALONE)?;
    }
    Ok(())
}

#[test]
fn highest_base(rt: HostRuntime) -> Result<(), Fail> {
    assert_left(&rt, &HIGHEST_BASE, &HIGHEST_BASE_ANSWER)
}

#[test]
fn class_words_that_move(rt: HostRuntime) -> Result<(), Fail> {
    assert_left(&rt, &CLASS_EDGE, &CLASS_EDGE_ANSWER)?;
    let answer = &CLASS_EDGE_OF_THREE_WORDS_ANSWER;
    assert_left(&rt, &CLASS_EDGE_OF_THREE_WORDS, answer)
}

#[test]
fn contexts(rt: HostRuntime) -> Result<(), Fail> {
    assert_left(&rt, &CONTEXT_STACK, &CONTEXT_STACK_ANSWER)?;
    let answer = &CONTEXT_WITH_CLASS_WORD_ANSWER;
    assert_left(&rt, &CONTEXT_WITH_CLASS_WORD, answer)
}

#[test]
fn methods(rt: HostRuntime) -> Result<(), Fail> {
    assert_left(&rt, &METHOD_LITERALS, &METHOD_LITERALS_ANSWER)?;
    assert_left(&rt, &LITERALS_ALONE, &LITERALS_ALONE_ANSWER)
}

/// A dead array, and an object of format 5 whose word is an address and stays. Its header is data
/// word 3.
const UNTRACED_WORD: TestImage = TestImage {
    chunks: &[
        NIL,
        Array(&[1]),
        Short {
            compact: 1,
            format: 5,
            fields: &[0x100C],
        },
        Array(&[0x1000, 0x100C]),
    ],
    special: 0x1014,
    ..EMPTY
};

/// What it is compacted to. The header is then data word 1.
const UNTRACED_WORD_ANSWER: TestImage = TestImage {
    chunks: &[
        NIL,
        Short {
            compact: 1,
            format: 5,
            fields: &[0x100C],
        },
        Array(&[0x1000, 0x1004]),
    ],
    special: 0x100C,
    ..EMPTY
};

/// The formats 5, 6, 8 and 11.
#[test]
fn bytes_and_words(rt: HostRuntime) -> Result<(), Fail> {
    for header in [0x150B, 0x160B, 0x180B, 0x1B0B] {
        let image = with_word(UNTRACED_WORD, 3, header);
        let answer = with_word(UNTRACED_WORD_ANSWER, 1, header);
        assert_left(&rt, &image, &answer)?;
    }
    Ok(())
}
