//! Where the objects lie among the data words.

ghost use Rattle.std.specs.Prelude.{◌≡◌, ◌⊎◌, ◌^◌, ◌<◌, length, IfOk, IfErr};
ghost use Rattle.sqz_image.specs.declared.fault.Fault.TheVariants.{OutOfMemory};
ghost use Rattle.sqz_image.specs.Index.{IsIndex};
ghost use Rattle.sqz_image.specs.Refusals.{HasNoPartition, refusal_of};

use crate::fault::Fault;
use crate::ranks::{Block, add};
use crate::starts::{Start, begins_object};
use sqz_object::{ChunkFault, Kind, WordIndex, Words, chunk_in};
use std::alloc::Global;

/// Where each object lies.
#[derive(Drop)]
pub(crate) struct Index {
    /// Where each object's chunk begins.
    pub starts: Vec<Start>,
    /// The table of the word indexes of the base headers.
    pub headers: Vec<Block>,
}

/// Returns the objects of words that are a sequence of chunks. Fails with `ZeroSize`,
/// `HeaderMismatch` or `Overrun` at the first chunk that cannot be read. Otherwise fails only if
/// out of memory.
pub(crate) fn index_of(alloc: Global, words: &Words<'_>) -> Result<Index, Fault>
    requires few { length words.now < 2 ^ 30 }
    ensures index { IfOk result (λ index.
        IsIndex words.now index.starts.items index.headers.items) }
    ensures refused { IfErr result (λ fault.
        (fault ≡ OutOfMemory) ⊎ HasNoPartition words.now fault) }
{
    let mut starts = Vec::new(alloc);
    let mut headers = Vec::new(alloc);
    let mut p = 0;
    while p < words.len() {
        let chunk = match chunk_in(words, p) {
            Ok(chunk) => chunk,
            Err(reason) => return Err(refusal_of(reason, p as u32)),
        };
        let end = p + chunk.length as usize;
        match chunk.kind {
            Kind::Free => {}
            _ => {
                let first = p as u32;
                add(&mut headers, starts.len() as u32, first + chunk.before)?;
                starts.push(Start::new(first, begins_object(words, end)))?;
            }
        }
        p = end;
    }
    Ok(Index { starts, headers })
}

/// Returns the fault for a chunk that cannot be read. `word` is the index of its first word.
fn refusal_of(reason: ChunkFault, word: WordIndex) -> Fault
    ensures { result ≡ refusal_of reason word }
{
    match reason {
        ChunkFault::ZeroSize => Fault::ZeroSize { word },
        ChunkFault::HeaderMismatch => Fault::HeaderMismatch { word },
        ChunkFault::Overrun => Fault::Overrun { word },
    }
}
