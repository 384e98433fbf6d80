//! Images with their damage mended.

ghost use Rattle.std.specs.Prelude.{◌≡◌, ◌≢◌, ◌⊎◌, IfErr, IfOk, OnOk, true};
ghost use Rattle.sqz_look_files.specs.declared.failure.Failure.TheVariants.{NotPrinted};
ghost use Rattle.sqz_look_files.specs.Mending.{HasDangling, IsWritten, ReadsMended, WritesMended};
ghost use Rattle.sqz_look_files.specs.Warnings.{IsSilent};

use crate::failure::Failure;
use crate::loading::bytes_of;
use crate::messages::print_message;
use crate::session::Session;
use sqz_damage::{MendedFile, RecoverError, mend_file, repair};
use sqz_image::{Sink, write_all};
use sqz_look_check::{Unreadable, repaired_text, skipped_text};
use std::io::Read;
use std::rt::Files;
use std::thread::Threads;

/// Writes the file of an image with its gaps as free chunks and, if `nil`, with nil in place of the
/// pointers of live objects that lead nowhere. Lines on `err` say what could not be read, and what
/// became nil. Nothing is written if that fails.
pub fn mend<T: Files + Threads + Sync, C: Sink, E: Sink>(
    session: &Session<'_, T>,
    path: &str,
    nil: bool,
    out: &mut C,
    err: &mut E,
) -> Result<(), Failure>
    requires { session.now.past_damage ≡ true }
    ensures written { OnOk result (WritesMended T.File.remaining session.now.weak nil
        (C.state out.old) (C.state out.new)) }
    ensures unwritten { IfErr result (λ failure. failure ≢ NotPrinted → out.new ≡ out.old) }
    ensures silent { OnOk result (IsSilent T.File.remaining session.now.weak
        session.now.past_damage err.old err.new) }
{
    let mended = mended_at(session, path)?;
    if !mended.damage.is_none() {
        let text = skipped_text(session.alloc, &mended.header, &mended.damage)?;
        print_message(Some(path), text.as_str(), err);
    }
    let bytes = bytes_asked(session, path, mended, nil, err)?;
    match write_all(out, &bytes) {
        Ok(()) => Ok(()),
        Err(_) => Err(Failure::NotPrinted),
    }
}

/// Returns the file with this path as it is mended.
fn mended_at<T: Files + Threads + Sync>(
    session: &Session<'_, T>,
    path: &str,
) -> Result<MendedFile, Failure>
    ensures { IfOk result (ReadsMended T.File.remaining session.now.weak) }
{
    let alloc = session.alloc;
    let bytes = bytes_of(session.rt, alloc, path)?;
    match mend_file(session.rt, alloc, bytes, session.weak) {
        Ok(mended) => Ok(mended),
        Err(RecoverError::OutOfMemory) => Err(Failure::OutOfMemory),
        Err(RecoverError::NoImage(unread)) => {
            let unreadable = Unreadable::of(alloc, &unread)?;
            Err(Failure::NotThere(unreadable.message(alloc)?))
        }
    }
}

/// Returns what is written of a mended file. Lines on `err` say what became nil.
fn bytes_asked<T: Threads + Sync, E: Sink>(
    session: &Session<'_, T>,
    path: &str,
    mended: MendedFile,
    nil: bool,
    err: &mut E,
) -> Result<Vec<u8>, Failure>
    ensures asked { IfOk result (λ bytes.
        IsWritten session.now.weak nil mended.bytes.items bytes.items) }
    ensures silent { OnOk result ((err.new ≡ err.old)
        ⊎ HasDangling session.now.weak mended.bytes.items) }
{
    if !nil {
        return Ok(mended.bytes);
    }
    let alloc = session.alloc;
    match repair(session.rt, alloc, mended.bytes, session.weak) {
        Ok(repaired) => {
            if !repaired.patches.is_empty() {
                let text = repaired_text(alloc, &mended.header, &repaired)?;
                print_message(Some(path), text.as_str(), err);
            }
            Ok(repaired.bytes)
        }
        Err(error) => Err(Failure::of_repair(alloc, error)?),
    }
}
