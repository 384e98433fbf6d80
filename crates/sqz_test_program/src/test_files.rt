//! A file system of two files: one that can be read, and one that can be made and written. They
//! fail when a test asks for it, and the test sees what was done to the second.

ghost use Rattle.std.specs.Prelude.{◌≤◌, length, IfOk};

use super::test_file::{TestFile, refuse};
use std::alloc::{Allocator, Global};
use std::fs::{Metadata, OpenOptions};
use std::io;
use std::io::{Empty, Error, ErrorKind};
use std::rt::Files;
use std::sync::{Mutex, Wait};
use std::thread::Threads;

/// The path of the file that can be read.
pub(crate) const IN: &str = "in.image";

/// The path of the file that can be made.
pub(crate) const OUT: &str = "out.image";

/// How the two files behave.
#[derive(Clone, Copy)]
pub(crate) struct Behavior {
    /// Whether the read after the last byte of IN fails, instead of returning the end.
    pub read_fails: bool,
    /// How many calls fail that are to make OUT. The next one makes it.
    pub makings_fail: u32,
    /// How many writes to OUT fail. The next one succeeds.
    pub writes_fail: u32,
    /// How many bytes OUT takes. A write of more fails.
    pub room: usize,
    /// How many flushes fail. The next one succeeds.
    pub flushes_fail: u32,
}

/// Files that never fail.
pub(crate) const SOUND: Behavior = Behavior {
    read_fails: false,
    makings_fail: 0,
    writes_fail: 0,
    room: usize::MAX,
    flushes_fail: 0,
};

/// How often OUT was to be made, written and flushed, whether or not it failed.
#[derive(Clone, Copy, PartialEq, Eq, Debug)]
pub(crate) struct Calls {
    pub makings: u32,
    pub writes: u32,
    pub flushes: u32,
}

/// What was done to OUT.
#[derive(Drop)]
pub(crate) struct Written {
    pub calls: Calls,
    /// The bytes that it took.
    pub bytes: Vec<u8>,
    /// Whether a flush succeeded after the last write.
    pub flushed: bool,
}

impl Written {
    /// Makes or empties the file.
    pub(crate) fn make(&mut self, behavior: &Behavior) -> io::Result<()> {
        self.calls.makings = self.calls.makings.saturating_add(1);
        if self.calls.makings <= behavior.makings_fail {
            return Err(Error::from(ErrorKind::PermissionDenied));
        }
        self.bytes.clear();
        Ok(())
    }

    /// Takes as many of these bytes as one write does, and returns how many that were.
    pub(crate) fn write(&mut self, behavior: &Behavior, from: &[u8]) -> io::Result<usize>
        ensures { IfOk result (λ count. count ≤ length from.now) }
    {
        self.calls.writes = self.calls.writes.saturating_add(1);
        if self.calls.writes <= behavior.writes_fail {
            return Err(Error::from(ErrorKind::Other));
        }
        let room = behavior.room.saturating_sub(self.bytes.len());
        if room == 0 && !from.is_empty() {
            return Err(Error::from(ErrorKind::StorageFull));
        }
        let count = from.len().min(room);
        self.bytes.extend_from_slice(&from[..count])?;
        self.flushed = false;
        Ok(count)
    }

    /// Flushes the file.
    pub(crate) fn flush(&mut self, behavior: &Behavior) -> io::Result<()> {
        self.calls.flushes = self.calls.flushes.saturating_add(1);
        if self.calls.flushes <= behavior.flushes_fail {
            return Err(Error::from(ErrorKind::Other));
        }
        self.flushed = true;
        Ok(())
    }
}

/// What the two files hold.
#[derive(Drop)]
pub(crate) struct Disk<'a> {
    pub input: &'a [u8],
    pub behavior: Behavior,
    pub output: Mutex<Written>,
}

impl<'a> Disk<'a> {
    /// A disk with these bytes in IN, and without OUT.
    pub(crate) fn new(alloc: Global, input: &'a [u8], behavior: Behavior) -> Self {
        let output = Mutex::new(Written {
            calls: Calls {
                makings: 0,
                writes: 0,
                flushes: 0,
            },
            bytes: Vec::new(alloc),
            flushed: true,
        });
        Disk {
            input,
            behavior,
            output,
        }
    }

    /// What was done to OUT.
    pub(crate) fn into_written(self) -> Written {
        self.output.into_inner()
    }
}

/// The files of a disk, and the threads of a runtime.
#[derive(Drop)]
pub(crate) struct TestFiles<'a, R> {
    pub disk: &'a Disk<'a>,
    pub rt: &'a R,
}

impl<R: Threads> Threads for TestFiles<'_, R> {}

impl<R: Wait> Wait for TestFiles<'_, R> {}

impl<'a, R> Files for TestFiles<'a, R> {
    type File = TestFile<'a>;

    type Dir = Empty;

    fn open_file(&self, how: &OpenOptions, path: &str) -> io::Result<TestFile<'a>> {
        let is_output = how.asks_write() && how.asks_create() && how.asks_truncate();
        if path == OUT && is_output {
            return TestFile::make_output(self.disk);
        }
        if path == IN && how.asks_read() && !how.asks_write() {
            return Ok(TestFile::open_input(self.disk));
        }
        Err(Error::from(ErrorKind::NotFound))
    }

    fn open_dir(&self, _path: &str) -> io::Result<Empty> {
        refuse()
    }

    fn metadata(&self, _path: &str) -> io::Result<Metadata> {
        refuse()
    }

    fn symlink_metadata(&self, _path: &str) -> io::Result<Metadata> {
        refuse()
    }

    fn copy(&self, _from: &str, _to: &str) -> io::Result<u64> {
        refuse()
    }

    fn rename(&self, _from: &str, _to: &str) -> io::Result<()> {
        refuse()
    }

    fn remove_file(&self, _path: &str) -> io::Result<()> {
        refuse()
    }

    fn create_dir(&self, _path: &str) -> io::Result<()> {
        refuse()
    }

    fn remove_dir(&self, _path: &str) -> io::Result<()> {
        refuse()
    }

    fn remove_dir_all<B: Allocator>(&self, _alloc: B, _path: &str) -> io::Result<()> {
        refuse()
    }
}
