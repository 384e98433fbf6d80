//! Gaps of worked data words, whose first one has the address 64.

use super::images::put_words;
use sqz_damage::{Gap, fill_gaps, gaps_of, loss_in};
use sqz_object::{Order, WordIndex, Words};
use std::alloc::{AllocError, Global};
use std::test::Fail;

/// The base header of an object of one, two, eight or 40 words.
const ONE_WORD: u32 = 4 + 3;

const TWO_WORDS: u32 = 2 * 4 + 3;

const EIGHT_WORDS: u32 = 8 * 4 + 3;

const WORDS_40: u32 = 40 * 4 + 3;

/// The formats of an object with fields, and of one with words that are no pointers.
const FIELDS: u32 = 0x100;

const WORDS: u32 = 0x600;

/// A word that begins no chunk.
const NOTHING: u32 = 0;

/// 20 objects of two words. Each points to the next one, and the last one to the first.
const CHAIN: [u32; 40] = [
    TWO_WORDS, 72, TWO_WORDS, 80, TWO_WORDS, 88, TWO_WORDS, 96, TWO_WORDS, 104, TWO_WORDS, 112,
    TWO_WORDS, 120, TWO_WORDS, 128, TWO_WORDS, 136, TWO_WORDS, 144, TWO_WORDS, 152, TWO_WORDS, 160,
    TWO_WORDS, 168, TWO_WORDS, 176, TWO_WORDS, 184, TWO_WORDS, 192, TWO_WORDS, 200, TWO_WORDS, 208,
    TWO_WORDS, 216, TWO_WORDS, 64,
];

/// A gap each side of three objects, and an object whose slots point to these.
const THREE_BETWEEN_GAPS: [u32; 9] = [
    NOTHING,
    ONE_WORD,
    ONE_WORD,
    ONE_WORD,
    NOTHING,
    4 * 4 + 3,
    68,
    72,
    76,
];

/// The same of four objects.
const FOUR_BETWEEN_GAPS: [u32; 11] = [
    NOTHING,
    ONE_WORD,
    ONE_WORD,
    ONE_WORD,
    ONE_WORD,
    NOTHING,
    5 * 4 + 3,
    68,
    72,
    76,
    80,
];

/// An object whose seven fields would be objects of one word, one that points to it, and one whose
/// fields are the addresses of these seven. The header of the last object is word 10.
const PIXELS: [u32; 18] = [
    EIGHT_WORDS,
    ONE_WORD,
    ONE_WORD,
    ONE_WORD,
    ONE_WORD,
    ONE_WORD,
    ONE_WORD,
    ONE_WORD,
    TWO_WORDS,
    64,
    EIGHT_WORDS + WORDS,
    68,
    72,
    76,
    80,
    84,
    88,
    92,
];

/// Words, words that are changed, by their index, and the gaps.
struct Case {
    words: &'static [u32],
    changed: &'static [(usize, u32)],
    gaps: &'static [Gap],
}

/// Words without damage.
const NO_DAMAGE: &[Case] = &[
    Case {
        words: &[],
        changed: &[],
        gaps: &[],
    },
    Case {
        words: &CHAIN,
        changed: &[],
        gaps: &[],
    },
];

/// A size that is too large: it would contradict 19 votes, and a gap counts as 4. Zeroed words, and
/// a chunk before a gap.
const DAMAGED: &[Case] = &[
    Case {
        words: &CHAIN,
        changed: &[(0, WORDS_40)],
        gaps: &[Gap { first: 0, words: 2 }],
    },
    Case {
        words: &CHAIN,
        changed: &[(4, NOTHING), (5, NOTHING), (6, NOTHING), (7, NOTHING)],
        gaps: &[Gap { first: 4, words: 4 }],
    },
    Case {
        words: &[TWO_WORDS, TWO_WORDS, NOTHING],
        changed: &[],
        gaps: &[Gap { first: 2, words: 1 }],
    },
];

/// Gaps are rare: objects between two count if there are four.
const RARE: &[Case] = &[
    Case {
        words: &THREE_BETWEEN_GAPS,
        changed: &[],
        gaps: &[Gap { first: 0, words: 5 }],
    },
    Case {
        words: &FOUR_BETWEEN_GAPS,
        changed: &[],
        gaps: &[Gap { first: 0, words: 1 }, Gap { first: 5, words: 1 }],
    },
];

/// Pixels do not vote, and fields do.
const VOTES: &[Case] = &[
    Case {
        words: &PIXELS,
        changed: &[],
        gaps: &[],
    },
    Case {
        words: &PIXELS,
        changed: &[(10, EIGHT_WORDS + FIELDS)],
        gaps: &[Gap { first: 0, words: 1 }],
    },
];

/// The bytes of the words of a case.
fn bytes_of(alloc: Global, case: &Case) -> Result<Vec<u8>, AllocError> {
    let mut words = Vec::from_slice(alloc, case.words)?;
    for (at, word) in case.changed {
        if let Some(old) = words.get_mut(*at) {
            *old = *word;
        }
    }
    let mut bytes = Vec::new(alloc);
    put_words(&mut bytes, &words)?;
    Ok(bytes)
}

/// The gaps of the words of a case. There are fewer than 100 words.
fn gaps_in(alloc: Global, case: &Case) -> Result<Vec<Gap>, AllocError> {
    let bytes = bytes_of(alloc, case)?;
    let words = Words::of(Order::Big, &bytes);
    if words.len() < 100 {
        gaps_of(alloc, 64, &words)
    } else {
        Ok(Vec::new(alloc))
    }
}

#[test]
fn gaps_of_words(rt: HostRuntime) -> Result<(), Fail> {
    for cases in [NO_DAMAGE, DAMAGED, RARE, VOTES] {
        for case in cases {
            let found = gaps_in(rt.alloc(), case)?;
            assert_eq!(rt; found.as_slice(), case.gaps, "{:?}", case.words);
        }
    }
    Ok(())
}

/// The index of a word of `CHAIN`, a slot, and the word before which it is found to be lost. The
/// object of the slot covers the next header, so the slot of the next object is lost, too, and nothing
/// leads to the one after it. From the next one on, 17, 16, 15 and no objects move.
const LOST: &[(usize, Option<WordIndex>)] = &[(1, Some(5)), (3, Some(7)), (5, None), (39, None)];

/// The word before which one word was lost of `CHAIN` without the word at this index.
fn loss_without(alloc: Global, lost: usize) -> Result<Option<WordIndex>, AllocError> {
    let mut words = Vec::from_slice(alloc, &CHAIN)?;
    if lost < words.len() {
        words.remove(lost);
    }
    let mut bytes = Vec::new(alloc);
    put_words(&mut bytes, &words)?;
    let words = Words::of(Order::Big, &bytes);
    if words.len() < 100 {
        loss_in(alloc, 64, &words, 1)
    } else {
        Ok(None)
    }
}

#[test]
fn lost_words(rt: HostRuntime) -> Result<(), Fail> {
    for (lost, place) in LOST {
        let found = loss_without(rt.alloc(), *lost)?;
        assert_eq!(rt; found, *place, "{lost}");
    }
    Ok(())
}

#[test]
fn filled(rt: HostRuntime) {
    let gaps = [Gap { first: 0, words: 1 }, Gap { first: 2, words: 2 }];
    let mut bytes = [9u8; 18];
    fill_gaps(&mut bytes, Order::Big, &gaps);
    assert_eq!(rt;
        bytes,
        [0, 0, 0, 6, 9, 9, 9, 9, 0, 0, 0, 10, 9, 9, 9, 9, 9, 9]
    );
    let mut bytes = [9u8; 18];
    fill_gaps(&mut bytes, Order::Little, &gaps);
    assert_eq!(rt;
        bytes,
        [6, 0, 0, 0, 9, 9, 9, 9, 10, 0, 0, 0, 9, 9, 9, 9, 9, 9]
    );
}
