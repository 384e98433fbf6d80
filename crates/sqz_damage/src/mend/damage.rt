//! What of the data of an image file cannot be read.

ghost use Rattle.std.specs.Prelude.{◌≡◌, ◌+◌, ◌-◌, ◌*◌, ◌^◌, ◌<◌, ◌≤◌, ◌↔◌};
ghost use Rattle.std.specs.Prelude.{length, take, drop, IfOk, IsTrue};
ghost use Rattle.sqz_object.specs.Bytes.{words_of};
ghost use Rattle.sqz_image.specs.File.{data_size};
ghost use Rattle.sqz_damage.specs.Filled.{AreGapsIn};
ghost use Rattle.sqz_damage.specs.Damaged.{HasGaps, HasGapsIfAny, HasSoundWords, IsNone};
ghost use Rattle.sqz_damage.specs.Damaged.{IsPlaceOfLoss};
ghost use Rattle.sqz_damage.specs.Damaged.{data_offset, missing_bytes, words_there};

use crate::laws::best_gaps;
use crate::mend::faults::fault_of;
use crate::{Gap, gaps_of, loss_in};
use sqz_image::{HEADER_SIZE, Header};
use sqz_object::{WordIndex, Words};
use sqz_trace::Weak;
use std::alloc::{AllocError, Global};
use std::thread::Threads;

/// What of the data of an image file cannot be read.
#[derive(Drop)]
pub struct Damage {
    /// The runs of data words that no chunk covers, in ascending order. If bytes are missing before
    /// others, zeros stand for them.
    pub gaps: Vec<Gap>,
    /// The number of bytes of the data that the file does not have.
    pub missing: u32,
    /// The data word before which they are missing, if that is clear. Otherwise the last ones are.
    pub place: Option<WordIndex>,
}

impl Damage {
    /// Returns whether all data can be read.
    pub fn is_none(&self) -> bool
        ensures { IsTrue result ↔ IsNone self.now }
    {
        self.gaps.is_empty() && self.missing == 0
    }
}

/// Where the data of a file are, in bytes: the whole words that are there.
#[derive(Clone, Copy)]
pub struct DataRange {
    pub start: usize,
    pub end: usize,
}

impl DataRange {
    /// Returns where the data are in a file with this header.
    pub fn of(file: &[u8], header: &Header) -> Self
        requires { HasSoundWords file.now header.now }
        ensures start { result.start ≡ data_offset header.now }
        ensures end { result.end ≡ result.start + 4 * length (words_there file.now header.now) }
        ensures inside { result.end ≤ length file.now }
        ensures stated { result.end ≤ result.start + data_size header.now.words }
        ensures few { result.end < result.start + 2 ^ 32 }
        ensures words { words_of header.now.order (take (result.end - result.start)
            (drop result.start file.now)) ≡ words_there file.now header.now }
    {
        let start = header.offset + HEADER_SIZE;
        let there = (file.len() - start).min(header.data_size() as usize);
        DataRange {
            start,
            end: start + there / 4 * 4,
        }
    }
}

/// Returns the number of bytes of the data that a file with this header does not have.
pub(crate) fn missing_bytes(file: &[u8], header: &Header) -> u32
    requires { HasSoundWords file.now header.now }
    ensures missing { result ≡ missing_bytes file.now header.now }
    ensures few { 4 * length (words_there file.now header.now) + result < 2 ^ 32 }
{
    let stated = header.data_size();
    let range = DataRange::of(file, header);
    let there = (file.len() - range.start).min(stated as usize) as u32;
    stated - there
}

/// Returns the data word before which the missing bytes of a file were, if that is clear. Fails only
/// if out of memory.
pub(crate) fn place_of_loss(
    alloc: Global,
    file: &[u8],
    header: &Header,
    missing: u32,
) -> Result<Option<WordIndex>, AllocError>
    requires sound { HasSoundWords file.now header.now }
    requires missing { missing ≡ missing_bytes file.now header.now }
    requires few { 4 * length (words_there file.now header.now) + missing < 2 ^ 32 }
    ensures { IfOk result (IsPlaceOfLoss file.now header.now missing) }
{
    let range = DataRange::of(file, header);
    if missing == 0 || missing % 4 != 0 || missing as usize > range.end - range.start {
        return Ok(None);
    }
    let words = Words::of(header.order, &file[range.start..range.end]);
    loss_in(alloc, header.base(), &words, missing / 4)
}

/// Returns the gaps in the data words of a restored file: none if it holds an image without a fault.
/// Fails only if out of memory.
pub(crate) fn gaps_if_any<T: Threads + Sync>(
    rt: &T,
    alloc: Global,
    file: &[u8],
    header: &Header,
    weak: Weak,
) -> Result<Vec<Gap>, AllocError>
    requires { HasSoundWords file.now header.now }
    ensures gaps { IfOk result (λ gaps. HasGapsIfAny weak file.now header.now gaps.items) }
    ensures inside { IfOk result (λ gaps. AreGapsIn 0 (length (words_there file.now header.now))
        gaps.items) }
{
    match fault_of(rt, alloc, file, weak)? {
        None => Ok(Vec::new(alloc)),
        Some(_) => gaps_in(alloc, file, header),
    }
}

/// Returns the gaps in the data words that a file has. Fails only if out of memory.
pub(crate) fn gaps_in(alloc: Global, file: &[u8], header: &Header) -> Result<Vec<Gap>, AllocError>
    requires { HasSoundWords file.now header.now }
    ensures gaps { IfOk result (λ gaps. HasGaps file.now header.now gaps.items) }
    ensures inside { IfOk result (λ gaps. AreGapsIn 0 (length (words_there file.now header.now))
        gaps.items) }
{
    best_gaps(); // the gaps are in order, and inside the data
    let range = DataRange::of(file, header);
    let words = Words::of(header.order, &file[range.start..range.end]);
    gaps_of(alloc, header.base(), &words)
}
