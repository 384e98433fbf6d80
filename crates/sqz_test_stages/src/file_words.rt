//! Words where they lie in a file, and an image that keeps its file's bytes.

use sqz_image::{Fault, Heap, image_of_file, read_image};
use sqz_object::{Chunk, Kind, Order, Words, chunk_in};
use sqz_test_fixtures::with_classes::{BIG_ENDIAN_CLASS_NAMES, CLASS_NAMES};
use sqz_test_fixtures::{TestImage, file_of};
use std::alloc::Global;
use std::test::Fail;

/// The bytes of two words, and one byte more.
const BYTES: &[u8] = &[1, 2, 3, 4, 5, 6, 7, 8, 9];

/// Bytes, their order, how many words they are, and the first three.
type Case = (Order, &'static [u8], usize, [Option<u32>; 3]);

/// Two words in either order, and three bytes.
const CASES: &[Case] = &[
    (
        Order::Little,
        BYTES,
        2,
        [Some(0x0403_0201), Some(0x0807_0605), None],
    ),
    (
        Order::Big,
        BYTES,
        2,
        [Some(0x0102_0304), Some(0x0506_0708), None],
    ),
    (Order::Little, &[1, 2, 3], 0, [None; 3]),
];

#[test]
fn words_of_either_order(rt: HostRuntime) {
    for (order, bytes, length, wanted) in CASES {
        let words = Words::of(*order, bytes);
        let found = [words.get(0), words.get(1), words.get(2)];
        assert_eq!(rt;
            (words.len(), words.is_empty(), found),
            (*length, *length == 0, *wanted)
        );
    }
}

#[test]
fn parts_of_words(rt: HostRuntime) {
    let words = Words::of(Order::Big, BYTES);
    assert_eq!(rt; words.len(), 2);
    let (front, back) = words.split_at(1);
    assert_eq!(rt;
        (front.get(0), front.len(), back.get(0), back.len()),
        (Some(0x0102_0304), 1, Some(0x0506_0708), 1)
    );
    assert_eq!(rt;
        (words.part(1, 2).get(0), words.part(1, 1).is_empty()),
        (Some(0x0506_0708), true)
    );
}

#[test]
fn words_in_turn(rt: HostRuntime) {
    let mut words = Words::of(Order::Big, BYTES).iter();
    let hint = words.size_hint();
    let found = [words.next(), words.next(), words.next()];
    assert_eq!(rt;
        (hint, found),
        ((2, Some(2)), [Some(0x0102_0304), Some(0x0506_0708), None])
    );
}

#[test]
fn chunk_among_the_bytes_of_a_file(rt: HostRuntime) {
    let bytes = [0, 0, 0x10, 0x11, 0, 0, 1, 9, 0, 0, 0, 1];
    let words = Words::of(Order::Big, &bytes);
    assert_eq!(rt; words.len(), 3);
    let chunk = Chunk {
        kind: Kind::Two,
        before: 1,
        length: 3,
        base: 0x109,
    };
    assert_eq!(rt; chunk_in(&words, 0), Ok(chunk));
}

/// Whether two heaps have as many objects, and the same data words.
fn are_same(one: &Heap, other: &Heap) -> bool {
    for (k, word) in one.data().iter().enumerate() {
        if other.data().get(k) != Some(word) {
            return false;
        }
    }
    one.len() == other.len() && one.data().len() == other.data().len()
}

/// Whether an image over its file's own bytes is the same as a copy.
fn is_same_over(alloc: Global, file: Vec<u8>, copied: &Heap) -> Result<bool, Fault> {
    let kept = image_of_file(alloc, file)?;
    Ok(are_same(kept.heap(), copied))
}

/// Whether an image is the same, over its file's own bytes and over a copy of them.
fn is_same_image(alloc: Global, image: &TestImage) -> Result<bool, Fault> {
    let file = file_of(alloc, image)?;
    let copied = read_image(alloc, &file)?;
    is_same_over(alloc, file, copied.heap())
}

#[test]
fn image_over_its_file(rt: HostRuntime) -> Result<(), Fail> {
    let little = is_same_image(rt.alloc(), &CLASS_NAMES)?;
    let big = is_same_image(rt.alloc(), &BIG_ENDIAN_CLASS_NAMES)?;
    assert_eq!(rt; (little, big), (true, true));
    Ok(())
}
