//! The image that a question is about.

ghost use Rattle.std.specs.Prelude.{IfErr, IfOk};
ghost use Rattle.sqz_alike.specs.Seen.{seen};
ghost use Rattle.sqz_look_files.specs.Warnings.{IsSilent};
ghost use Rattle.sqz_look_cli.specs.Comparison.{IfNotThere, ReadsNone, ReadsSeen};

use sqz_image::Sink;
use sqz_look_files::{Failure, ReadFile, ReadImage, Session, warn};
use sqz_look_view::{Inspector, Out};
use std::io::Read;
use std::rt::Files;
use std::thread::Threads;

/// Reads the image in the file with this path, keeps it in `slot`, and returns what it is inspected
/// with. Lines on `err` say what was skipped of the file, and warn of an image that is not sound.
pub(crate) fn open<'a, T: Files + Threads + Sync, C: Sink, E: Sink>(
    session: &Session<'_, T>,
    path: &str,
    slot: &'a mut Option<ReadImage>,
    out: &mut Out<'_, C>,
    err: &mut E,
) -> Result<Inspector<'a>, Failure>
    ensures seen { IfOk result (λ inspector. ReadsSeen T.File.remaining session.now.weak
        session.now.past_damage (seen inspector.live)) }
    ensures not_there { IfErr result (λ failure. IfNotThere failure
        (ReadsNone T.File.remaining session.now.weak session.now.past_damage)) }
    ensures silent { IfOk result (λ inspector. IsSilent T.File.remaining session.now.weak
        session.now.past_damage err.old err.new) }
{
    match session.read(path, false, out, err)? {
        ReadFile::Image(read) => {
            let subject = session.subject(&slot.insert(read).image)?;
            warn(session.rt, &subject, path, err)?;
            Ok(Inspector::of(subject)?)
        }
        ReadFile::Unreadable(unreadable) => {
            Err(Failure::NotThere(unreadable.message(session.alloc)?))
        }
    }
}
