//! An open file of a test's file system.

ghost use Rattle.std.specs.Prelude.{IsErr};

use super::test_files::{Disk, Written};
use std::fs::{Metadata, OpenFile};
use std::io;
use std::io::{Error, ErrorKind, Read, Seek, SeekFrom, Write};
use std::sync::MutexGuard;

/// IN, with the bytes that it has left, or OUT.
#[derive(Drop)]
pub(crate) enum TestFile<'a> {
    Input { disk: &'a Disk<'a>, left: &'a [u8] },
    Output { disk: &'a Disk<'a> },
}

/// What is returned for each call that the two files do not support.
pub(crate) fn refuse<T>() -> io::Result<T>
    ensures { IsErr result }
{
    Err(Error::from(ErrorKind::Unsupported))
}

/// What was done to OUT, to be read or changed.
fn written<'a>(disk: &'a Disk<'_>) -> io::Result<MutexGuard<'a, Written>> {
    disk.output
        .try_lock()
        .ok_or(Error::from(ErrorKind::WouldBlock))
}

impl<'a> TestFile<'a> {
    /// IN, before its first read.
    pub(crate) fn open_input(disk: &'a Disk<'a>) -> Self {
        TestFile::Input {
            disk,
            left: disk.input,
        }
    }

    /// OUT, made or emptied.
    pub(crate) fn make_output(disk: &'a Disk<'a>) -> io::Result<Self> {
        written(disk)?.make(&disk.behavior)?;
        Ok(TestFile::Output { disk })
    }
}

impl Read for TestFile<'_> {
    fn read(&mut self, into: &mut [u8]) -> io::Result<usize> {
        let TestFile::Input { disk, left } = self else {
            return refuse();
        };
        if left.is_empty() && disk.behavior.read_fails {
            return Err(Error::from(ErrorKind::Other));
        }
        let count = left.len().min(into.len());
        let (front, rest) = left.split_at(count);
        into[..count].copy_from_slice(front);
        *left = rest;
        Ok(count)
    }
}

impl Write for TestFile<'_> {
    fn write(&mut self, from: &[u8]) -> io::Result<usize> {
        let TestFile::Output { disk } = self else {
            return refuse();
        };
        written(disk)?.write(&disk.behavior, from)
    }

    fn flush(&mut self) -> io::Result<()> {
        let TestFile::Output { disk } = self else {
            return refuse();
        };
        written(disk)?.flush(&disk.behavior)
    }
}

impl Seek for TestFile<'_> {
    fn seek(&mut self, _to: SeekFrom) -> io::Result<u64> {
        refuse()
    }
}

impl OpenFile for TestFile<'_> {
    fn metadata(&self) -> io::Result<Metadata> {
        refuse()
    }

    fn set_len(&self, _size: u64) -> io::Result<()> {
        refuse()
    }

    fn sync_all(&self) -> io::Result<()> {
        refuse()
    }

    fn sync_data(&self) -> io::Result<()> {
        refuse()
    }
}
