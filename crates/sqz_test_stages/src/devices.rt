//! Devices that pass calls on: what goes through them, and what does not after they failed.

use sqz_image::{
    Fault, MemorySource, ReadSource, Sink, Source, WriteSink, read_all, read_image_bytes, write_all,
};
use sqz_test_fixtures::accepted::DEAD_ARRAY;
use sqz_test_fixtures::file_of;
use std::alloc::Global;
use std::io::{Cursor, ErrorKind, Read, Write};
use std::test::Fail;

/// How long a file is, whether it is what is read from a source that gives a few bytes per call,
/// and whether the source failed.
fn read_by(alloc: Global, piece: u32) -> Result<(usize, bool, bool), Fault> {
    let file = file_of(alloc, &DEAD_ARRAY)?;
    let mut source = MemorySource::new(file.clone()?, piece.max(1), None);
    let found = read_all(alloc, &mut source)?;
    Ok((file.len(), found == file, source.failed()))
}

#[test]
fn reads_a_file_in_pieces_of_any_size(rt: HostRuntime) -> Result<(), Fail> {
    for piece in [1, 7, 88] {
        let found = read_by(rt.alloc(), piece)?;
        assert_eq!(rt; found, (88, true, false), "in pieces of {piece}");
    }
    Ok(())
}

/// Whether the image that is read of a file is the whole file.
fn is_read_to_its_end(alloc: Global) -> Result<bool, Fault> {
    let file = file_of(alloc, &DEAD_ARRAY)?;
    let mut source = MemorySource::new(file.clone()?, 7, None);
    Ok(read_image_bytes(alloc, &mut source)? == file)
}

#[test]
fn reads_an_image_to_its_end(rt: HostRuntime) -> Result<(), Fail> {
    assert!(rt; is_read_to_its_end(rt.alloc())?);
    Ok(())
}

/// How many bytes are read of a file without an image, and whether the source failed, as it would
/// at the read after these.
fn read_without_image(alloc: Global) -> Result<(usize, bool), Fault> {
    let mut source = MemorySource::new(vec![in alloc; 1u8; 4096]?, 288, Some(2));
    let found = read_image_bytes(alloc, &mut source)?;
    Ok((found.len(), source.failed()))
}

#[test]
fn reads_a_prefix_and_a_header_of_what_holds_no_image(rt: HostRuntime) -> Result<(), Fail> {
    assert_eq!(rt; read_without_image(rt.alloc())?, (576, false));
    Ok(())
}

/// Bytes that show their position.
const BYTES: [u8; 16] = [0, 1, 2, 3, 4, 5, 6, 7, 8, 9, 10, 11, 12, 13, 14, 15];

/// Whether a writer has these bytes after they are read from a reader and written to it, and
/// whether reading and writing failed.
fn passed_on(alloc: Global) -> Result<(bool, bool, bool), Fault> {
    let mut source = ReadSource::new(Cursor::new(BYTES.as_slice()));
    let file = read_all(alloc, &mut source)?;
    let mut copy = Vec::new(alloc);
    let mut sink = WriteSink::new(&mut copy);
    write_all(&mut sink, &file)?;
    let failed = sink.failed();
    Ok((copy.as_slice() == BYTES.as_slice(), source.failed(), failed))
}

#[test]
fn passes_a_reader_on_to_a_writer(rt: HostRuntime) -> Result<(), Fail> {
    assert_eq!(rt; passed_on(rt.alloc())?, (true, false, false));
    Ok(())
}

/// Refuses every call.
#[derive(Drop)]
struct Broken(u32);

impl Read for Broken {
    fn read(&mut self, _into: &mut [u8]) -> std::io::Result<usize> {
        self.0 = self.0.saturating_add(1);
        Err(ErrorKind::Interrupted.into())
    }
}

impl Write for Broken {
    fn write(&mut self, _from: &[u8]) -> std::io::Result<usize> {
        self.0 = self.0.saturating_add(1);
        Ok(0)
    }

    fn flush(&mut self) -> std::io::Result<()> {
        self.0 = self.0.saturating_add(1);
        Ok(())
    }
}

/// Takes all bytes, and does not pass them on.
#[derive(Drop)]
struct Stuck;

impl Write for Stuck {
    fn write(&mut self, from: &[u8]) -> std::io::Result<usize> {
        Ok(from.len())
    }

    fn flush(&mut self) -> std::io::Result<()> {
        Err(ErrorKind::Other.into())
    }
}

/// Whether two reads from a source whose reader fails fail, whether the source failed, and how
/// often the reader was called.
fn failed_reads() -> (bool, bool, bool, u32) {
    let mut reader = Broken(0);
    let mut source = ReadSource::new(&mut reader);
    let first = source.read(&mut [0; 4]).is_err();
    let second = source.read(&mut [0; 4]).is_err();
    let failed = source.failed();
    (first, second, failed, reader.0)
}

/// Why a write to a sink whose writer fails failed, whether one more write and a flush fail, and
/// how often the writer was called.
fn failed_writes() -> (Option<Fault>, bool, bool, u32) {
    let mut writer = Broken(0);
    let mut sink = WriteSink::new(&mut writer);
    let fault = write_all(&mut sink, &[1]).err();
    let write = sink.write(&[1]).is_err();
    let flush = sink.flush().is_err();
    (fault, write, flush, writer.0)
}

/// Why a write to a sink whose writer cannot pass bytes on failed, and whether the sink failed.
fn failed_flush() -> (Option<Fault>, bool) {
    let mut sink = WriteSink::new(Stuck);
    let fault = write_all(&mut sink, &[1]).err();
    (fault, sink.failed())
}

#[test]
fn a_failed_device_calls_nobody(rt: HostRuntime) {
    assert_eq!(rt; failed_reads(), (true, true, true, 1));
    assert_eq!(rt; failed_writes(), (Some(Fault::WriteFailed), true, true, 1));
    assert_eq!(rt; failed_flush(), (Some(Fault::WriteFailed), true));
}

/// Fails at the first write, and would take all bytes at each later one.
#[derive(Drop)]
struct FailsOnce {
    writes: u32,
    error: ErrorKind,
}

impl Write for FailsOnce {
    fn write(&mut self, from: &[u8]) -> std::io::Result<usize> {
        self.writes = self.writes.saturating_add(1);
        if self.writes == 1 {
            Err(self.error.into())
        } else {
            Ok(from.len())
        }
    }

    fn flush(&mut self) -> std::io::Result<()> {
        Ok(())
    }
}

/// Why a write of two bytes that fails so at first failed, whether the sink failed, and how often
/// the writer was called.
fn written(error: ErrorKind) -> (Option<Fault>, bool, u32) {
    let mut writer = FailsOnce { writes: 0, error };
    let mut sink = WriteSink::new(&mut writer);
    let fault = write_all(&mut sink, &[1, 2]).err();
    let failed = sink.failed();
    (fault, failed, writer.writes)
}

#[test]
fn a_failed_first_write_is_not_tried_again(rt: HostRuntime) {
    for error in [ErrorKind::Interrupted, ErrorKind::StorageFull] {
        assert_eq!(rt; written(error), (Some(Fault::WriteFailed), true, 1));
    }
}
