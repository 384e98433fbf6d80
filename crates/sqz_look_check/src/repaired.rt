//! What a repair of a file keeps and clears, and which words it writes anew.

use sqz_damage::{Becomes, Patch, RepairSummary, Repaired, byte_of_word};
use sqz_image::{Header, Sink};
use sqz_look_view::{Counted, Out};
use std::alloc::{AllocError, Global};

/// The maximum number of words that are listed.
const MOST_WORDS: usize = 20;

/// Adds what a repair keeps and clears: the live objects before, those that are left, their bytes,
/// the pointers that become nil, and the live objects that become free chunks. Null if that was not
/// found.
pub(crate) fn add_summary<C: Sink>(summary: Option<RepairSummary>, out: &mut Out<'_, C>) {
    let Some(summary) = summary else {
        return out.null("repair");
    };
    out.begin_object("repair");
    out.number("live_objects", u64::from(summary.before.objects));
    out.number("kept_objects", u64::from(summary.after.objects));
    out.amount("live_bytes", summary.before.bytes);
    out.amount("kept_bytes", summary.after.bytes);
    out.number("cleared_pointers", summary.pointers as u64);
    out.number("freed_objects", summary.freed as u64);
    out.end_object();
    out.part(
        "{image}: mend --nil keeps {kept_objects} of {live_objects} live objects, \
         {kept_bytes#byte} of {live_bytes#byte}; {cleared_pointers#pointer} cleared, \
         {freed_objects#object} freed",
    );
}

/// Returns what a repair of a file with this header keeps and clears, and the first words that it
/// wrote anew, as lines of text.
pub fn repaired_text(
    alloc: Global,
    header: &Header,
    repaired: &Repaired,
) -> Result<String, AllocError> {
    let mut text = summary_text(alloc, repaired.summary())?;
    for patch in repaired.patches.iter().take(MOST_WORDS) {
        text.push_str(patch_text(alloc, header, *patch)?.as_str())?;
    }
    if repaired.patches.len() > MOST_WORDS {
        let more = repaired.patches.len() - MOST_WORDS;
        text.push_str(format!(in alloc; "\n... {more} more")?.as_str())?;
    }
    Ok(text)
}

/// Returns what a repair keeps and clears, as text.
fn summary_text(alloc: Global, summary: RepairSummary) -> Result<String, AllocError> {
    let (before, after) = (summary.before, summary.after);
    let pointers = Counted(summary.pointers as u64, "pointer");
    let freed = Counted(summary.freed as u64, "object");
    let kept = format!(in alloc;
        "kept {} of {} live objects, {} bytes of {} bytes",
        after.objects, before.objects, after.bytes, before.bytes
    )?;
    format!(in alloc; "{kept}; {pointers} cleared, {freed} freed")
}

/// Returns the line of a word that was written anew.
fn patch_text(alloc: Global, header: &Header, patch: Patch) -> Result<String, AllocError> {
    let word = patch.word;
    let byte = byte_of_word(header.offset, u64::from(word));
    let became = match patch.becomes {
        Becomes::Nil => "nil",
        Becomes::FreeChunk => "free",
    };
    format!(in alloc; "\nword {word} (byte {byte}): {became}")
}
