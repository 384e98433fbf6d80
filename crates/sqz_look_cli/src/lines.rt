//! Lines of standard input in place of a word.

ghost use Rattle.std.specs.Prelude.{◌≡◌, ◌⊎◌, IfErr, IfOk, IsOk, false, map, string_bytes};
ghost use Rattle.sqz_look_cli.specs.Lines.{has_lines};

use sqz_cli::DEVICE_FAILED;
use sqz_image::{Fault, ReadSource, Sink, read_all};
use sqz_look_files::{print_fault, print_message};
use std::alloc::{AllocError, Global};
use std::io::Read;

/// The word that stands for the lines of standard input.
const LINES: &str = "-";

/// The word after which each word stands for an object.
const APART: &str = "--";

/// Why there are no lines.
#[derive(Clone, Copy)]
enum BadLines {
    /// Memory ran out.
    OutOfMemory,
    /// The input cannot be read, or is not UTF-8.
    NotRead,
}

impl From<AllocError> for BadLines {
    fn from(_error: AllocError) -> BadLines {
        BadLines::OutOfMemory
    }
}

/// Returns the words of a command line with the lines of `input` in place of the first word `-`, if
/// the subcommand takes objects: they stand at the end, after `--`. Empty lines are left out. If no
/// word is `-`, nothing is read. Fails with the exit if the input cannot be read, is not UTF-8, or
/// memory runs out; a line on `err` says so.
pub fn with_lines<R: Read + Drop, E: Sink>(
    alloc: Global,
    words: Vec<String>,
    input: R,
    err: &mut E,
) -> Result<Vec<String>, u8>
    ensures exit { IfErr result (λ exit. (exit ≡ 3) ⊎ (exit ≡ 4)) }
    ensures silent { IsOk result → err.new ≡ err.old }
    ensures same { has_lines (map string_bytes words.items) ≡ false
        → IfOk result (λ same. same.items ≡ words.items) }
{
    if !has_lines(&words) || !takes_objects(&words) {
        return Ok(words);
    }
    match words_and_lines(alloc, words, input) {
        Ok(words) => Ok(words),
        Err(BadLines::OutOfMemory) => Err(print_fault(None, &Fault::OutOfMemory, err)),
        Err(BadLines::NotRead) => {
            print_message(None, "cannot read objects from standard input", err);
            Err(DEVICE_FAILED)
        }
    }
}

/// Returns the number of the words that stand apart, after `--`.
pub(crate) fn words_apart(words: &[String]) -> usize {
    match words.iter().position(|word| word.as_str() == APART) {
        Some(place) => words.len() - 1 - place,
        None => 0,
    }
}

/// Returns whether the subcommand takes objects.
fn takes_objects(words: &[String]) -> bool {
    match words.get(1) {
        Some(subcommand) => sqz_look_args::takes_objects(subcommand.as_str()),
        None => false,
    }
}

/// Returns whether a word stands for lines.
fn has_lines(words: &[String]) -> bool
    ensures { result ≡ has_lines (map string_bytes words.now) }
{
    for word in words {
        if word.as_str() == LINES {
            return true;
        }
    }
    false
}

/// Returns words with the lines of `input` in place of the first word `-`.
fn words_and_lines<R: Read + Drop>(
    alloc: Global,
    words: Vec<String>,
    input: R,
) -> Result<Vec<String>, BadLines> {
    let bytes = bytes_of(alloc, input)?;
    match str::from_utf8(&bytes) {
        Ok(text) => Ok(lines_added(alloc, words, text)?),
        Err(_) => Err(BadLines::NotRead),
    }
}

/// Returns the bytes of an input.
fn bytes_of<R: Read + Drop>(alloc: Global, input: R) -> Result<Vec<u8>, BadLines> {
    match read_all(alloc, &mut ReadSource::new(input)) {
        Ok(bytes) => Ok(bytes),
        Err(Fault::OutOfMemory) => Err(BadLines::OutOfMemory),
        Err(_) => Err(BadLines::NotRead),
    }
}

/// Returns words with the lines of a text in place of the first word `-`.
fn lines_added(alloc: Global, words: Vec<String>, text: &str) -> Result<Vec<String>, AllocError> {
    let mut added = Vec::new(alloc);
    let mut is_taken = false;
    let mut is_apart = false;
    for word in words {
        if !is_taken && word.as_str() == LINES {
            is_taken = true;
            continue;
        }
        is_apart |= word.as_str() == APART;
        added.push(word)?;
    }
    if !is_apart {
        added.push(String::from_str(alloc, APART)?)?;
    }
    for line in text.lines() {
        if !line.trim().is_empty() {
            added.push(String::from_str(alloc, line)?)?;
        }
    }
    Ok(added)
}
