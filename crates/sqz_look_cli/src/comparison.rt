//! What changed between two images.

ghost use Rattle.std.specs.Prelude.{◌≤◌, ◌≡◌, ◌⊎◌, IfErr, IfOk};
ghost use Rattle.sqz_alike.specs.Seen.{seen};
ghost use Rattle.sqz_look_files.specs.Damaged.{IsReadAs, IsReadImage};
ghost use Rattle.sqz_look_files.specs.Warnings.{IsSilent};
ghost use Rattle.sqz_look_files.specs.declared.session.ReadFile.TheVariants as read;
ghost use Rattle.sqz_look_cli.specs.Comparison.{EndsComparison, HasFault, IfNotThere, IsAlikeness};
ghost use Rattle.sqz_look_cli.specs.Comparison.{IsSeenAs, ReadsNone};

use sqz_cli::{BAD_IMAGE, DONE};
use sqz_image::{Image, Sink};
use sqz_look_diff::print_diff;
use sqz_look_files::{Failure, ReadFile, ReadImage, Session, warn};
use sqz_look_view::{Inspector, Out, PrintError, Shown};
use std::alloc::AllocError;
use std::rt::Files;
use std::thread::Threads;

/// An image that was read, and the path of its file.
#[derive(Clone, Copy)]
struct ImageAt<'a> {
    path: &'a str,
    image: &'a Image,
}

/// Prints what changed between the images in two files, and returns the exit: 0 if they are alike,
/// else 1.
pub(crate) fn compare<T: Files + Threads + Sync, C: Sink, E: Sink>(
    session: &Session<'_, T>,
    old: &str,
    new: &str,
    out: &mut Out<'_, C>,
    err: &mut E,
) -> Result<u8, Failure>
    ensures exit { IfOk result (λ exit. exit ≤ BAD_IMAGE) }
    ensures compared { EndsComparison T.File.remaining session.now.weak session.now.past_damage
        result }
    ensures silent { IfOk result (λ exit.
        IsSilent T.File.remaining session.now.weak session.now.past_damage
        err.old err.new) }
{
    let old_read = image_at(session, old, out, err)?;
    let new_read = image_at(session, new, out, err)?;
    let (old, new) = (
        ImageAt {
            path: old,
            image: &old_read.image,
        },
        ImageAt {
            path: new,
            image: &new_read.image,
        },
    );
    let is_alike = print_changes(session, old, new, out, err)?;
    Ok(if is_alike { DONE } else { BAD_IMAGE })
}

/// Returns the image in the file with this path. A failure says which file it is about.
fn image_at<T: Files + Threads + Sync, C: Sink, E: Sink>(
    session: &Session<'_, T>,
    path: &str,
    out: &mut Out<'_, C>,
    err: &mut E,
) -> Result<ReadImage, Failure>
    ensures read { IfOk result (λ image. IsReadAs T.File.remaining session.now.weak
        session.now.past_damage err.old err.new (read.Image image)) }
    ensures image { IfOk result (λ image. IsReadImage T.File.remaining session.now.weak
        session.now.past_damage (read.Image image)) }
    ensures not_there { IfErr result (λ failure. IfNotThere failure
        (ReadsNone T.File.remaining session.now.weak session.now.past_damage)) }
{
    match session.read(path, false, out, err) {
        Ok(ReadFile::Image(image)) => Ok(image),
        Ok(ReadFile::Unreadable(unreadable)) => {
            let message = unreadable.message(session.alloc)?;
            let message = format!(in session.alloc; "{}: {message}", Shown(path))?;
            Err(Failure::NotThere(message))
        }
        Err(Failure::NotRead(failure)) => {
            let path = String::from_str(session.alloc, path)?;
            Err(Failure::NotReadAt(path, failure))
        }
        Err(failure) => Err(failure),
    }
}

/// Prints what changed between two images, and returns whether they are alike. A line on `err`
/// warns of each that is not sound.
fn print_changes<T: Files + Threads + Sync, C: Sink, E: Sink>(
    session: &Session<'_, T>,
    old: ImageAt<'_>,
    new: ImageAt<'_>,
    out: &mut Out<'_, C>,
    err: &mut E,
) -> Result<bool, PrintError>
    ensures alike { IfOk result (IsAlikeness session.now.weak old.entry.image.now
        new.entry.image.now) }
    ensures silent { IfOk result (λ is_alike. (err.new ≡ err.old)
        ⊎ HasFault session.now.weak old.entry.image.now
        ⊎ HasFault session.now.weak new.entry.image.now) }
{
    let old = inspector_of(session, old, err)?;
    let new = inspector_of(session, new, err)?;
    print_diff(session.rt, &old, &new, out)
}

/// Returns what an image is inspected with. A line on `err` warns of one that is not sound.
fn inspector_of<'a, T: Files + Threads + Sync, E: Sink>(
    session: &Session<'_, T>,
    file: ImageAt<'a>,
    err: &mut E,
) -> Result<Inspector<'a>, AllocError>
    ensures seen { IfOk result (λ inspector. IsSeenAs session.now.weak file.entry.image.now
        (seen inspector.live)) }
    ensures silent { IfOk result (λ inspector. (err.new ≡ err.old)
        ⊎ HasFault session.now.weak file.entry.image.now) }
{
    let subject = session.subject(file.image)?;
    warn(session.rt, &subject, file.path, err)?;
    let inspector = Inspector::of(subject)?;
    Ok(inspector)
}
