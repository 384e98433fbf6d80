//! Reading all bytes of a source, or those that show that it holds no image.

ghost use Rattle.std.specs.Prelude.{◌≡◌, ◌++◌, IfOk, OnOk, IfErr};
ghost use Rattle.sqz_image.specs.Devices.{ReadsWhole, ReadStops};
ghost use Rattle.sqz_image.specs.Fronts.{ReadsAsAsked, ReadsEnough};
ghost use Rattle.sqz_image.specs.declared.fault.Fault.TheVariants.{OutOfMemory};

use crate::device::Source;
use crate::fault::Fault;
use crate::header::Header;
use std::alloc::Global;

/// The greatest number of reads: the call fails after this many.
const TURNS: u64 = 1 << 32;

/// The number of bytes that one read asks for.
const PIECE: usize = 1 << 16;

/// The least number of bytes by which room grows.
const LEAST_ROOM: usize = 1 << 20;

/// How much is read of a source.
#[derive(Clone, Copy)]
enum Extent {
    /// All bytes.
    Whole,
    /// All bytes, unless the first ones show that it holds no image.
    Image,
}

/// Returns the bytes that the source gives before the first read that returns 0. If the source
/// promises to give all its bytes, it has none left after that.
///
/// Fails with `OutOfMemory`, or with `ReadFailed` if a read fails or if 2^32 reads were made. The
/// bytes read so far are then lost.
pub fn read_all<R: Source>(alloc: Global, source: &mut R) -> Result<Vec<u8>, Fault>
    ensures whole { IfOk result (λ file.
        ReadsWhole R.gives_all (R.state source.old) (R.state source.new) file.items) }
    ensures stopped { IfErr result (λ fault.
        ReadStops (R.state source.old) (R.state source.new) fault) }
{
    read(alloc, source, Extent::Whole)
}

/// Returns the bytes of a source as `read_all` does, or only its first bytes: those with which no
/// file holds an image, since the header has a fault, whatever follows. So little is read of a large
/// file that holds no image, and of a pipe that nobody closes.
///
/// Fails with `OutOfMemory`, or with `ReadFailed` if a read fails or if 2^32 reads were made. The
/// bytes read so far are then lost.
pub fn read_image_bytes<R: Source>(alloc: Global, source: &mut R) -> Result<Vec<u8>, Fault>
    ensures enough { IfOk result (λ file.
        ReadsEnough R.gives_all (R.state source.old) (R.state source.new) file.items) }
    ensures stopped { IfErr result (λ fault.
        ReadStops (R.state source.old) (R.state source.new) fault) }
{
    read(alloc, source, Extent::Image)
}

/// Returns the bytes of a source to its end, or those that are enough.
fn read<R: Source>(alloc: Global, source: &mut R, extent: Extent) -> Result<Vec<u8>, Fault>
    ensures asked { IfOk result (λ file.
        ReadsAsAsked extent R.gives_all (R.state source.old) (R.state source.new) file.items) }
    ensures stopped { IfErr result (λ fault.
        ReadStops (R.state source.old) (R.state source.new) fault) }
{
    let mut file = Vec::new(alloc);
    let mut piece = [0; PIECE];
    for _ in 1..TURNS {
        let Ok(count) = source.read(&mut piece) else {
            return Err(Fault::ReadFailed);
        };
        if count == 0 {
            return Ok(file);
        }
        append(&mut file, &piece[..count])?;
        if let Extent::Image = extent
            && Header::is_refused(&file)
        {
            return Ok(file);
        }
    }
    // The last read: what it returns is not examined, since no read is left to reach the end.
    let _ = source.read(&mut piece);
    Err(Fault::ReadFailed)
}

/// Appends bytes to a file. Room grows by a quarter of what is there, so that the memory taken
/// stays close to what is used.
fn append(file: &mut Vec<u8>, bytes: &[u8]) -> Result<(), Fault>
    ensures whole { OnOk result (file.new.items ≡ file.old.items ++ bytes.now) }
    ensures stopped { IfErr result (λ fault. fault ≡ OutOfMemory) }
{
    if file.capacity() - file.len() < bytes.len() {
        let room = (file.len() / 4).max(LEAST_ROOM);
        file.reserve_exact(room).map_err(|_| Fault::OutOfMemory)?;
    }
    file.extend_from_slice(bytes)
        .map_err(|_| Fault::OutOfMemory)
}
