//! The files of test images, and the images read from them.

ghost use Rattle.std.specs.Prelude.{◌≡◌, ◌++◌, OnOk, IfOk};
ghost use Rattle.sqz_object.specs.Bytes.{spelling_of};
ghost use Rattle.sqz_test_fixtures.specs.Files.{image_bytes_of, before_bytes, file_bytes_of};

use super::chunks::count_of;
use super::images::{EMPTY, TestImage, words_of};
use sqz_image::{Fault, Image, read_image};
use sqz_object::{Order, put_word};
use std::alloc::{AllocError, Global};

/// The file of a test image.
#[derive(Clone, Copy)]
pub struct TestFile {
    /// The bytes before the image.
    pub before: Before,
    /// The image.
    pub image: TestImage,
    /// The bytes after the image.
    pub after: &'static [u8],
    /// How many of these bytes the file has; none if it has all.
    pub length: Option<usize>,
}

/// Bytes before an image.
#[derive(Clone, Copy)]
pub enum Before {
    /// None.
    Nothing,
    /// This many bytes of 0x23.
    Filler(usize),
    /// 512 bytes from 3 on, of which each is 7 more than the one before, modulo 256.
    Rising,
    /// 512 bytes: those of another image, and then zeros.
    Image(TestImage),
}

/// The file of `EMPTY`, whole and alone.
pub const PLAIN: TestFile = TestFile {
    before: Before::Nothing,
    image: EMPTY,
    after: &[],
    length: None,
};

/// Puts words at the end of a file.
pub fn put_words(file: &mut Vec<u8>, order: Order, words: &[u32]) -> Result<(), AllocError>
    ensures { OnOk result (file.new.items ≡ file.old.items ++ spelling_of order words.now) }
{
    for word in words {
        file.extend_from_slice(&put_word(order, *word))?;
    }
    Ok(())
}

/// Puts a header at the end of a file. It states the size of the data in bytes, the base address,
/// and the address of the special objects array.
pub fn put_header(
    file: &mut Vec<u8>,
    order: Order,
    size: u32,
    base: u32,
    special: u32,
) -> Result<(), AllocError> {
    put_words(file, order, &[6502, 64, size, base, special])?;
    put_words(file, order, &[0; 11])
}

/// Puts the header and the data words of an image at the end of a file.
fn put_image(alloc: Global, file: &mut Vec<u8>, image: &TestImage) -> Result<(), AllocError>
    ensures { OnOk result (file.new.items ≡ file.old.items ++ image_bytes_of image.now) }
{
    let words = words_of(alloc, image)?;
    let size = match image.data_size {
        Some(size) => size,
        None => 4 * count_of(&words),
    };
    let stated = [
        image.version,
        image.header_size,
        size,
        image.base,
        image.special,
    ];
    put_words(file, image.order, &stated)?;
    put_words(file, image.order, &image.others)?;
    put_words(file, image.order, &words)
}

/// The bytes of an image's file.
pub fn file_of(alloc: Global, image: &TestImage) -> Result<Vec<u8>, AllocError>
    ensures { IfOk result (λ file. file.items ≡ image_bytes_of image.now) }
{
    let mut file = Vec::new(alloc);
    put_image(alloc, &mut file, image)?;
    Ok(file)
}

/// The bytes of an image's file, with its words in this order.
pub fn file_in(alloc: Global, order: Order, image: &TestImage) -> Result<Vec<u8>, AllocError> {
    file_of(alloc, &TestImage { order, ..*image })
}

/// The image, as it is read from its file.
pub fn image_of(alloc: Global, image: &TestImage) -> Result<Image, Fault> {
    read_image(alloc, &file_of(alloc, image)?)
}

/// This many bytes of 0x23.
fn filler(alloc: Global, number: usize) -> Result<Vec<u8>, AllocError>
    ensures { IfOk result (λ file. file.items ≡ before_bytes (Before.Filler number)) }
{
    let mut file = Vec::new(alloc);
    file.resize(number, 0x23)?;
    Ok(file)
}

/// 512 bytes from 3 on, of which each is 7 more than the one before, modulo 256.
fn rising_bytes(alloc: Global) -> Result<Vec<u8>, AllocError>
    ensures { IfOk result (λ file. file.items ≡ before_bytes Before.Rising) }
{
    let mut file = Vec::new(alloc);
    for index in 0..512u32 {
        file.push(((7 * index + 3) % 256) as u8)?;
    }
    Ok(file)
}

/// The bytes of an image's file, and then zeros, up to 512 bytes.
fn front_of(alloc: Global, image: &TestImage) -> Result<Vec<u8>, AllocError>
    ensures { IfOk result (λ file. file.items ≡ before_bytes (Before.Image image.now)) }
{
    let mut file = file_of(alloc, image)?;
    file.resize(512, 0)?;
    Ok(file)
}

/// The bytes before an image.
fn bytes_before(alloc: Global, before: &Before) -> Result<Vec<u8>, AllocError>
    ensures { IfOk result (λ file. file.items ≡ before_bytes before.now) }
{
    match before {
        Before::Nothing => Ok(Vec::new(alloc)),
        Before::Filler(number) => filler(alloc, *number),
        Before::Rising => rising_bytes(alloc),
        Before::Image(image) => front_of(alloc, image),
    }
}

/// The bytes of a test file.
pub fn bytes_of(alloc: Global, file: &TestFile) -> Result<Vec<u8>, AllocError>
    ensures { IfOk result (λ bytes. bytes.items ≡ file_bytes_of file.now) }
{
    let mut bytes = bytes_before(alloc, &file.before)?;
    put_image(alloc, &mut bytes, &file.image)?;
    bytes.extend_from_slice(file.after)?;
    if let Some(length) = file.length {
        bytes.truncate(length);
    }
    Ok(bytes)
}
