//! What a program prints, and its exit code, after a fault or a command line that asks for no run.

ghost use Rattle.std.specs.Prelude.{◌≡◌, ◌<◌};
ghost use Rattle.clap.specs.Words.{kind_of};
ghost use Rattle.clap.specs.declared.error.kind.ErrorKind.TheVariants as kinds;
ghost use Rattle.sqz_image.specs.declared.fault.Fault.TheVariants.{OutOfMemory};
ghost use Rattle.sqz_cli.specs.Exits.{exit_of, exit_of_kind};
ghost use Rattle.sqz_cli.specs.Lines.{PrintsFault};

use crate::exits::{BAD_ARGUMENTS, DONE, exit_of};
use crate::fault_line::fault_line;
use crate::printing::{print, print_error};
use clap::Error;
use clap::error::ErrorKind;
use sqz_image::{Fault, Sink};

/// Prints the line of a fault, and returns the exit code.
pub fn refuse<E: Sink>(fault: &Fault, err: &mut E) -> u8
    ensures exit { result ≡ exit_of fault.now }
    ensures line { PrintsFault (E.state err.old) (E.state err.new) fault.now }
{
    print(err, fault_line(fault).as_slice());
    exit_of(fault)
}

/// Prints the help or the error that a command line gives in place of arguments, and returns the
/// exit code.
pub fn explain<C: Sink, E: Sink>(error: &Error, out: &mut C, err: &mut E) -> u8
    ensures exit { result ≡ exit_of_kind (kind_of error.now) }
    ensures memory { kind_of error.now ≡ kinds.OutOfMemory
        → PrintsFault (E.state err.old) (E.state err.new) OutOfMemory }
    ensures silent { result ≡ 0 → err.new ≡ err.old }
    ensures quiet { 0 < result → out.new ≡ out.old }
{
    match error.kind() {
        ErrorKind::OutOfMemory => refuse(&Fault::OutOfMemory, err),
        ErrorKind::DisplayHelp | ErrorKind::DisplayVersion => {
            print_error(out, error);
            DONE
        }
        _ => {
            print_error(err, error);
            BAD_ARGUMENTS
        }
    }
}
