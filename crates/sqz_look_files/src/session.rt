//! What questions are answered with.

ghost use Rattle.std.specs.Prelude.{◌≡◌, IfErr, IfOk, true};
ghost use Rattle.sqz_look_files.specs.Damaged.{IsReadAs, IsReadImage};
ghost use Rattle.sqz_look_files.specs.Failures.{IsReadFailure};

use crate::failure::Failure;
use crate::loading::{Loaded, LoadedFile, LoadedPast, load, load_past_damage};
use crate::messages::print_message;
use sqz_damage::Recovered;
use sqz_image::{Image, Sink};
use sqz_look_check::{Unreadable, print_skipped, skipped_text};
use sqz_look_view::{Out, Subject};
use sqz_trace::Weak;
use std::alloc::{AllocError, Global};
use std::io::Read;
use std::rt::Files;
use std::thread::Threads;

/// What questions are answered with: the runtime, the allocator, the policy on weak slots, and
/// whether images are read past damage.
#[derive(Drop)]
pub struct Session<'a, T> {
    pub rt: &'a T,
    pub alloc: Global,
    pub weak: Weak,
    pub past_damage: bool,
}

/// What was read of a file.
#[derive(Drop)]
pub enum ReadFile {
    Image(ReadImage),
    Unreadable(Unreadable),
}

/// An image that was read, and whether nothing was skipped.
#[derive(Drop)]
pub struct ReadImage {
    pub image: Image,
    pub is_whole: bool,
    /// What was skipped, as text.
    pub skipped: Option<String>,
    /// The bytes of its file, if they were asked for.
    pub file: Option<Vec<u8>>,
}

impl<T> Session<'_, T> {
    /// Returns an image with its live objects.
    pub fn subject<'b>(&self, image: &'b Image) -> Result<Subject<'b>, AllocError>
        ensures image { IfOk result (λ subject. subject.image.now ≡ image.now) }
        ensures weak { IfOk result (λ subject. subject.live.graph.weak ≡ self.now.weak) }
    {
        Subject::of(self.alloc, image, self.weak)
    }

    /// Prints what was skipped of a file: as text a line on `err`, as JSON a line on `out`. Returns
    /// the text.
    fn print_skipped<C: Sink, E: Sink>(
        &self,
        recovered: &Recovered,
        path: &str,
        out: &mut Out<'_, C>,
        err: &mut E,
    ) -> Result<String, Failure>
        ensures { IfErr result IsReadFailure }
    {
        let (header, damage) = (&recovered.header, &recovered.damage);
        let text = skipped_text(self.alloc, header, damage)?;
        print_message(Some(path), text.as_str(), err);
        print_skipped(path, header, damage, out)?;
        Ok(text)
    }
}

impl<T: Files + Threads + Sync> Session<'_, T> {
    /// Reads the file with this path, and prints what was skipped of it, if anything. If
    /// `measures`, and nothing may be skipped, finds how much can be read of one that holds no
    /// image, and keeps the bytes of one that holds an image.
    pub fn read<C: Sink, E: Sink>(
        &self,
        path: &str,
        measures: bool,
        out: &mut Out<'_, C>,
        err: &mut E,
    ) -> Result<ReadFile, Failure>
        ensures read { IfOk result (IsReadAs T.File.remaining self.now.weak
            self.now.past_damage err.old err.new) }
        ensures image { IfOk result (IsReadImage T.File.remaining self.now.weak
            self.now.past_damage) }
        ensures failed { IfErr result IsReadFailure }
    {
        if self.past_damage {
            return self.read_past_damage(path, out, err);
        }
        let LoadedFile { held, bytes } = load(self.rt, self.alloc, path, self.weak, measures)?;
        Ok(match held {
            Loaded::Image(image) => ReadFile::Image(ReadImage {
                image,
                is_whole: true,
                skipped: None,
                file: bytes,
            }),
            Loaded::Unreadable(unreadable) => ReadFile::Unreadable(unreadable),
        })
    }

    /// Reads the file with this path past what cannot be read, and prints what was skipped of it,
    /// if anything.
    fn read_past_damage<C: Sink, E: Sink>(
        &self,
        path: &str,
        out: &mut Out<'_, C>,
        err: &mut E,
    ) -> Result<ReadFile, Failure>
        requires { self.now.past_damage ≡ true }
        ensures read { IfOk result (IsReadAs T.File.remaining self.now.weak
            self.now.past_damage err.old err.new) }
        ensures image { IfOk result (IsReadImage T.File.remaining self.now.weak
            self.now.past_damage) }
        ensures failed { IfErr result IsReadFailure }
    {
        let recovered = match load_past_damage(self.rt, self.alloc, path, self.weak)? {
            LoadedPast::Image(recovered) => recovered,
            LoadedPast::Unreadable(unreadable) => return Ok(ReadFile::Unreadable(unreadable)),
        };
        let is_whole = recovered.damage.is_none();
        let mut skipped = None;
        if !is_whole {
            skipped = Some(self.print_skipped(&recovered, path, out, err)?);
        }
        let image = recovered.image;
        Ok(ReadFile::Image(ReadImage {
            image,
            is_whole,
            skipped,
            file: None,
        }))
    }
}
