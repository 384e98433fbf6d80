//! Reading images from files.

ghost use Rattle.std.specs.Prelude.{IfOk};
ghost use Rattle.sqz_image.specs.Unread.{IsUnread};
ghost use Rattle.sqz_look_files.specs.Checks.{IsHeldBy, IsLoaded, ReadsFile};
ghost use Rattle.sqz_look_files.specs.Damaged.{IsHeldPast, IsLoadedPast};

use sqz_damage::{RecoverError, Recovered, recover};
use sqz_image::{Fault, Image, ReadSource, UnreadFile, image_or_file, read_image_bytes};
use sqz_look_check::{ReadFailure, Unreadable};
use sqz_trace::Weak;
use std::alloc::{AllocError, Global};
use std::fs::{File, OpenFile};
use std::io::Read;
use std::rt::Files;
use std::thread::Threads;

/// What a file holds.
#[derive(Drop)]
pub(crate) enum Loaded {
    Image(Image),
    Unreadable(Unreadable),
}

/// What a file holds, and its bytes if they were asked for.
#[derive(Drop)]
pub(crate) struct LoadedFile {
    pub(crate) held: Loaded,
    pub(crate) bytes: Option<Vec<u8>>,
}

/// What a file holds past what cannot be read.
#[derive(Drop)]
pub(crate) enum LoadedPast {
    Image(Recovered),
    Unreadable(Unreadable),
}

/// Why it is not known what a file holds.
#[derive(Clone, Copy)]
pub(crate) enum LoadError {
    /// Memory ran out.
    OutOfMemory,
    /// The file cannot be read.
    NotRead(ReadFailure),
}

impl From<AllocError> for LoadError {
    fn from(_error: AllocError) -> LoadError {
        LoadError::OutOfMemory
    }
}

/// Returns what the file with this path holds; if `measures`, with its bytes, and with how much can
/// be read of one that holds no image. The file is read once.
pub(crate) fn load<T: Files + Threads + Sync>(
    rt: &T,
    alloc: Global,
    path: &str,
    weak: Weak,
    measures: bool,
) -> Result<LoadedFile, LoadError>
    ensures { IfOk result (λ file. IsLoaded T.File.remaining file.held) }
{
    let file = bytes_of(rt, alloc, path)?;
    let bytes = copy_if(alloc, measures, &file)?;
    let held = loaded_of(rt, alloc, file, weak, measures)?;
    Ok(LoadedFile { held, bytes })
}

/// Returns what the file with this path holds past what cannot be read. The file is read once.
pub(crate) fn load_past_damage<T: Files + Threads + Sync>(
    rt: &T,
    alloc: Global,
    path: &str,
    weak: Weak,
) -> Result<LoadedPast, LoadError>
    ensures { IfOk result (IsLoadedPast T.File.remaining weak) }
{
    let bytes = bytes_of(rt, alloc, path)?;
    Ok(recovered_of(rt, alloc, bytes, weak)?)
}

/// Returns the bytes of the file with this path, or only the first ones if these show that it holds
/// no image.
pub(crate) fn bytes_of<T: Files>(rt: &T, alloc: Global, path: &str) -> Result<Vec<u8>, LoadError>
    ensures { IfOk result (λ bytes. ReadsFile T.File.remaining bytes.items) }
{
    let file = match File::open(rt, path) {
        Ok(file) => file,
        Err(error) => return Err(LoadError::NotRead(ReadFailure::of(error.kind()))),
    };
    if is_directory(&file) {
        return Err(LoadError::NotRead(ReadFailure::Directory));
    }
    let mut source = ReadSource::new(file);
    match read_image_bytes(alloc, &mut source) {
        Ok(bytes) => Ok(bytes),
        Err(Fault::OutOfMemory) => Err(LoadError::OutOfMemory),
        Err(_) => Err(LoadError::NotRead(ReadFailure::Other)),
    }
}

/// Returns whether a file is known to be a directory, which can be opened but not read.
fn is_directory<F: OpenFile>(file: &F) -> bool {
    match file.metadata() {
        Ok(metadata) => metadata.is_dir(),
        Err(_) => false,
    }
}

/// Returns a copy of some bytes, if it is asked for.
fn copy_if(alloc: Global, asked: bool, bytes: &[u8]) -> Result<Option<Vec<u8>>, AllocError> {
    if !asked {
        return Ok(None);
    }
    let mut copy = Vec::new(alloc);
    copy.extend_from_slice(bytes)?;
    Ok(Some(copy))
}

/// Returns what the file with these bytes holds.
fn loaded_of<T: Threads + Sync>(
    rt: &T,
    alloc: Global,
    bytes: Vec<u8>,
    weak: Weak,
    measures: bool,
) -> Result<Loaded, AllocError>
    ensures { IfOk result (IsHeldBy bytes.items) }
{
    match image_or_file(alloc, bytes) {
        Ok(image) => Ok(Loaded::Image(image)),
        Err(unread) => match unread.fault {
            Fault::OutOfMemory => Err(AllocError),
            _ => Ok(Loaded::Unreadable(unreadable_of(rt, alloc, unread, weak, measures)?)),
        },
    }
}

/// Returns what could be read of a file without an image.
fn unreadable_of<T: Threads + Sync>(
    rt: &T,
    alloc: Global,
    unread: UnreadFile,
    weak: Weak,
    measures: bool,
) -> Result<Unreadable, AllocError>
    requires { IsUnread unread.bytes.items unread }
{
    if measures {
        Unreadable::measured(rt, alloc, unread, weak)
    } else {
        Unreadable::of(alloc, &unread)
    }
}

/// Returns what the file with these bytes holds past what cannot be read.
fn recovered_of<T: Threads + Sync>(
    rt: &T,
    alloc: Global,
    bytes: Vec<u8>,
    weak: Weak,
) -> Result<LoadedPast, AllocError>
    ensures { IfOk result (IsHeldPast weak bytes.items) }
{
    match recover(rt, alloc, bytes, weak) {
        Ok(recovered) => Ok(LoadedPast::Image(recovered)),
        Err(RecoverError::OutOfMemory) => Err(AllocError),
        Err(RecoverError::NoImage(unread)) => match unread.fault {
            Fault::OutOfMemory => Err(AllocError),
            _ => Ok(LoadedPast::Unreadable(unreadable_of(rt, alloc, unread, weak, false)?)),
        },
    }
}
