//! The words of the command line.

ghost use Rattle.std.specs.Prelude.{◌⊎◌, ◌≡◌, IfErr, IsOk};

use sqz_cli::refuse_words;
use sqz_image::{Fault, Sink};
use sqz_look_files::{print_fault, print_names};
use std::alloc::Global;
use std::io::ErrorKind;
use std::rt::Env;
use std::{env, io};

/// Returns the words of the command line; the first is the program's name.
///
/// If out of memory, or if a word is not valid text, it prints one line on `err`, with the name of
/// the program, and fails with the exit.
pub fn look_words<R: Env + AllocGlobal, E: Sink>(
    rt: &R,
    alloc: Global,
    err: &mut E,
) -> Result<Vec<String>, u8>
    ensures exit { IfErr result (λ exit. (exit ≡ 4) ⊎ (exit ≡ 2)) }
    ensures silent { IsOk result → err.new ≡ err.old }
{
    match words(rt, alloc) {
        Ok(words) => Ok(words),
        Err(error) if error.kind() == ErrorKind::OutOfMemory => {
            Err(print_fault(None, &Fault::OutOfMemory, err))
        }
        Err(_) => {
            print_names(None, err);
            Err(refuse_words(err))
        }
    }
}

/// Returns the words of the command line. Fails if a word is not valid text, or if out of memory.
fn words<R: Env + AllocGlobal>(rt: &R, alloc: Global) -> io::Result<Vec<String>> {
    Ok(env::args(rt)?.collect(alloc)?)
}
