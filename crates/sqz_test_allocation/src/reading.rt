//! Reading a file and its image, and a sink, under allocation failures.

ghost use Rattle.std.specs.Prelude.{◌≡◌};
ghost use Rattle.sqz_image.specs.Objects.{object_count};

use super::again::again;
use super::dead_cycle::{assert_six_objects, image_in, new_sink};
use super::rows::DEAD_CYCLE;
use sqz_image::{Fault, Heap, Image, MemorySink, ReadSource, Sink, read_all, read_image_bytes};
use sqz_object::Words;
use std::process::Abort;
use std::test::Fail;

/// The address of each object of the dead cycle's image, and its words.
const OBJECTS: [(u32, &[u32]); 6] = [
    (0x1000, &[0x1007]),
    (0x1004, &[0x110B, 0x1014]),
    (0x100C, &[0x110B, 0x101C]),
    (0x1014, &[0x110B, 0x1004]),
    (0x101C, &[0x110B, 0x100C]),
    (0x1024, &[0x320F, 0x1000, 0x1004]),
];

/// The bytes of the file, from a source that gives all of them.
fn file_read<R: Print + AllocGlobal>(rt: &R) -> Result<Vec<u8>, Fail> {
    again!(
        rt,
        "read_all",
        read_all(rt.alloc(), &mut ReadSource::new(DEAD_CYCLE.file))
    )
}

/// The bytes of the file, as they are read for its image.
fn image_bytes_read<R: Print + AllocGlobal>(rt: &R) -> Result<Vec<u8>, Fail> {
    again!(
        rt,
        "read_image_bytes",
        read_image_bytes(rt.alloc(), &mut ReadSource::new(DEAD_CYCLE.file))
    )
}

/// Asserts what the objects of a heap are.
fn assert_objects<R: Abort>(rt: &R, heap: &Heap)
    requires { object_count heap.now ≡ 6 }
{
    for (object, (address, words)) in OBJECTS.iter().enumerate() {
        let object = object as u32;
        assert_eq!(rt; heap.address(object), *address, "object {object}");
        assert_words(rt, heap.object(object).words(), words);
    }
}

/// Asserts that these are the words.
fn assert_words<R: Abort>(rt: &R, found: &Words<'_>, wanted: &[u32]) {
    assert_eq!(rt; found.len(), wanted.len());
    for (k, word) in wanted.iter().enumerate() {
        assert_eq!(rt; found.get(k), Some(*word), "word {k}");
    }
}

/// Asserts what the image is.
fn assert_image<R: Abort>(rt: &R, image: &Image) {
    assert!(rt; image.prefix().is_empty());
    assert_eq!(rt; (image.header(0), image.header(2)), (6502, 48));
    let heap = image.heap();
    assert_six_objects(rt, heap);
    assert_objects(rt, heap);
}

/// Asserts that a sink takes all of the file.
fn assert_takes<R: Abort>(rt: &R, sink: &mut MemorySink, file: &[u8]) {
    assert_eq!(rt; sink.write(file), Ok(112));
    assert_eq!(rt; sink.contents(), DEAD_CYCLE.file);
}

#[test]
fn reading_serves_again(rt: HostRuntime) -> Result<(), Fail> {
    let file = file_read(&rt)?;
    assert_eq!(rt; file.as_slice(), DEAD_CYCLE.file);
    assert_eq!(rt; image_bytes_read(&rt)?.as_slice(), DEAD_CYCLE.file);
    assert_image(&rt, &image_in(&rt, &file)?);
    assert_takes(&rt, &mut new_sink(&rt)?, &file);
    Ok(())
}
