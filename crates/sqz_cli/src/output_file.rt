//! The output file.

ghost use Rattle.std.specs.Prelude.{◌≡◌, ◌<◌, ◌≤◌, None, length, IfOk};
ghost use Rattle.std.specs.Io.KnownBytes.{Keeps, WriteAppends};
ghost use Rattle.sqz_image.specs.Devices.{SinkState};
ghost use Rattle.sqz_cli.specs.OutputFiles.{known_bytes, new_output};

use sqz_image::{DeviceFault, Sink, SinkCalls};
use std::fs::File;
use std::io;
use std::io::Write;
use std::rt::Files;

/// An output file that the first write creates or truncates. Before that, nothing at its path
/// changes.
#[derive(Drop)]
pub struct OutputFile<'a, T: Files> {
    rt: &'a T,
    /// The path of the file.
    pub path: &'a str,
    file: Option<T::File>,
    calls: SinkCalls,
    ghost made_by_write: { calls.writes ≡ 0 → file ≡ None },
}

impl<'a, T: Files> OutputFile<'a, T> {
    /// Returns the file with this path, which is not created yet.
    pub fn new(rt: &'a T, path: &'a str) -> Self
        ensures not_made { ⟦<OutputFile<'a, T> as Sink>⟧.state result ≡ new_output }
        ensures path { result.path.now ≡ path.entry.now }
    {
        OutputFile {
            rt,
            path,
            file: None,
            calls: SinkCalls::new(),
        }
    }

    /// Writes to the file, and creates it before that if needed. The write has been counted.
    fn write_to_file(&mut self, from: &[u8]) -> io::Result<usize>
        requires { 0 < self.old.calls.writes }
        ensures count { IfOk result (λ count. count ≤ length from.now) }
        ensures same_calls { self.new.calls ≡ self.old.calls }
        ensures bytes { WriteAppends (known_bytes T.File.contents self.old.file)
            (known_bytes T.File.contents self.new.file) result from.now }
    {
        if self.file.is_none() {
            self.file = Some(File::create(self.rt, self.path)?);
        }
        match &mut self.file {
            Some(file) => file.write(from),
            None => unreachable!(),
        }
    }

    /// Flushes the file, if it was created.
    fn flush_file(&mut self) -> io::Result<()>
        ensures same_calls { self.new.calls ≡ self.old.calls }
        ensures same_bytes { Keeps (known_bytes T.File.contents self.old.file) (known_bytes
            T.File.contents self.new.file) }
    {
        match &mut self.file {
            Some(file) => file.flush(),
            None => Ok(()),
        }
    }
}

impl<T: Files> Sink for OutputFile<'_, T> {
    ghost state = { λ s. record {
      contents = known_bytes T.File.contents s.file;
      writes = s.calls.writes;
      unflushed = s.calls.unflushed;
      failed = s.calls.failed;
    } };

    fn write(&mut self, from: &[u8]) -> Result<usize, DeviceFault> {
        self.calls.begin_write()?;
        let written = self.write_to_file(from);
        self.calls.end_write(from, written)
    }

    fn flush(&mut self) -> Result<(), DeviceFault> {
        self.calls.begin_flush()?;
        let flushed = self.flush_file();
        self.calls.end_flush(flushed)
    }

    fn failed(&self) -> bool {
        self.calls.failed
    }
}
