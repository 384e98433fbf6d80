//! Lines on standard error.

ghost use Rattle.std.specs.Prelude.{◌≡◌};
ghost use Rattle.sqz_cli.specs.Exits.{exit_of};
ghost use Rattle.sqz_look_files.specs.Failures.{exit_of_failure};

use crate::failure::Failure;
use sqz_cli::{BAD_IMAGE, DEVICE_FAILED, print, refuse};
use sqz_image::{Fault, Sink};
use sqz_look_check::ReadFailure;

/// The hexadecimal digits.
const HEX: [u8; 16] = *b"0123456789abcdef";

/// Prints why there is no answer, with the path of the file that it is about if it is about one,
/// and returns the exit.
pub fn explain_failure<E: Sink>(failure: &Failure, path: Option<&str>, err: &mut E) -> u8
    ensures { result ≡ exit_of_failure failure.now }
{
    match failure {
        Failure::OutOfMemory => print_fault(path, &Fault::OutOfMemory, err),
        Failure::NotPrinted => print_fault(None, &Fault::WriteFailed, err),
        Failure::NotRead(failure) => print_unread(path, *failure, err),
        Failure::NotReadAt(path, failure) => print_unread(Some(path.as_str()), *failure, err),
        Failure::NotThere(message) => {
            print_message(path, message.as_str(), err);
            BAD_IMAGE
        }
    }
}

/// Prints the line of a fault, with the path of the file that it is about if it is about one, and
/// returns the exit.
pub fn print_fault<E: Sink>(path: Option<&str>, fault: &Fault, err: &mut E) -> u8
    ensures { result ≡ exit_of fault.now }
{
    print_names(path, err);
    refuse(fault, err)
}

/// Prints that a file cannot be read, and why, and returns the exit.
fn print_unread<E: Sink>(path: Option<&str>, failure: ReadFailure, err: &mut E) -> u8
    ensures { result ≡ 3 }
{
    print_names(path, err);
    print(err, b"fault 16: cannot read the image");
    if let Some(reason) = failure.reason() {
        print(err, b": ");
        print(err, reason.as_bytes());
    }
    print(err, b"\n");
    DEVICE_FAILED
}

/// Prints the line of a message, with the path of the file that it is about if it is about one.
pub fn print_message<E: Sink>(path: Option<&str>, message: &str, err: &mut E) {
    print_names(path, err);
    print(err, message.as_bytes());
    print(err, b"\n");
}

/// Prints the line of a message that repeats words of a command line: without control characters.
pub fn print_about_words<E: Sink>(message: &str, err: &mut E) {
    print_names(None, err);
    print_shown(message, err);
    print(err, b"\n");
}

/// Prints the name of the program, and that of the file if there is one, with which a line begins.
pub fn print_names<E: Sink>(path: Option<&str>, err: &mut E) {
    print(err, b"sqzlook: ");
    if let Some(path) = path {
        print_shown(path, err);
        print(err, b": ");
    }
}

/// Prints a text as `Shown` does, without allocating memory.
fn print_shown<E: Sink>(text: &str, err: &mut E) {
    if !has_control(text) {
        print(err, text.as_bytes());
        return;
    }
    for letter in text.chars() {
        print_letter(letter, err);
    }
}

/// Returns whether a text has a control character.
fn has_control(text: &str) -> bool {
    for letter in text.chars() {
        if letter.is_control() {
            return true;
        }
    }
    false
}

/// Prints a character of a text.
fn print_letter<E: Sink>(letter: char, err: &mut E) {
    if letter.is_control() {
        let code = letter as u32;
        let digits = [HEX[(code / 16 % 16) as usize], HEX[(code % 16) as usize]];
        print(err, b"\\x");
        print(err, &digits);
    } else {
        print(err, letter.encode_utf8(&mut [0; 4]).as_bytes());
    }
}
