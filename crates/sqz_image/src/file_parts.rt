//! What is read of an image file before the image keeps its bytes.

ghost use Rattle.std.specs.Prelude.{◌≡◌, ◌⊎◌, IfOk, IfErr, None};
ghost use Rattle.sqz_image.specs.declared.fault.Fault.TheVariants.{OutOfMemory};
ghost use Rattle.sqz_image.specs.File.{IsHeader};
ghost use Rattle.sqz_image.specs.Refusals.{file_fault, Holds, IsUnreadable};
ghost use Rattle.sqz_image.specs.Unread.{ArePartsOf};

use crate::data_bytes::DataBytes;
use crate::fault::Fault;
use crate::header::{HEADER_SIZE, Header};
use crate::heap::{Heap, HeapIndex};
use crate::image::Image;
use crate::laws::byte_bounds;
use std::alloc::Global;

/// What is read of an image file before the image keeps its bytes.
#[derive(Drop)]
pub(crate) struct Parts {
    header: Header,
    prefix: Vec<u8>,
    /// Where the data begin and end in the file, in bytes.
    start: usize,
    end: usize,
    index: HeapIndex,
}

impl Parts {
    /// Returns the image of the file with these parts. The image keeps the bytes of the file.
    pub(crate) fn image(self, file: Vec<u8>) -> Image
        requires { ArePartsOf file.items self }
        ensures { Holds file.items result }
    {
        let Parts {
            header,
            prefix,
            start,
            end,
            index,
        } = self;
        let bytes = DataBytes::of(file, start, end);
        let heap = Heap::of(header.order, header.base(), header.special(), bytes, index);
        Image::new(prefix, header.words, heap)
    }
}

/// Returns the parts of a file with this header. Fails with the first fault of the file that
/// applies, or if out of memory; never with `OutOfMemory` if the header has a fault.
pub(crate) fn parts_of(alloc: Global, header: &Header, file: &[u8]) -> Result<Parts, Fault>
    requires { IsHeader file.now header.now }
    ensures parts { IfOk result (ArePartsOf file.now) }
    ensures refused { IfErr result (λ fault.
        ((fault ≡ OutOfMemory) × (file_fault file.now ≡ None)) ⊎ IsUnreadable file.now fault) }
{
    byte_bounds(file); // each byte is below 256
    if let Some(fault) = header.fault(file) {
        return Err(fault);
    }
    let header = *header;
    let prefix = Vec::from_slice(alloc, &file[..header.offset])?;
    let start = header.offset + HEADER_SIZE;
    let end = start + header.data_size() as usize;
    let (order, base, special) = (header.order, header.base(), header.special());
    let index = HeapIndex::of(alloc, order, base, special, &file[start..end])?;
    Ok(Parts {
        header,
        prefix,
        start,
        end,
        index,
    })
}
