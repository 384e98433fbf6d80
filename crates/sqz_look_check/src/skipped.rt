//! What of a file was skipped.

use sqz_damage::{Damage, Gap, GapPlace, bytes_in_gaps, gap_place};
use sqz_image::{Header, Sink};
use sqz_look_view::{Out, PrintError};
use std::alloc::{AllocError, Global};

/// Returns the words that a file with this header lacks, if it is clear where they were lost.
pub(crate) fn place_of_loss(header: &Header, damage: &Damage) -> Option<GapPlace> {
    match damage.place {
        Some(first) => {
            let words = damage.missing / 4;
            Some(gap_place(header.offset, Gap { first, words }))
        }
        None => None,
    }
}

/// Adds a run of data words that was skipped or lost, and where it is in the mended file.
pub(crate) fn add_gap<C: Sink>(place: GapPlace, out: &mut Out<'_, C>) {
    out.number("word", u64::from(place.word));
    out.number("byte", place.byte);
    out.number("bytes", place.bytes);
}

/// Adds where data words were lost, if that is clear and not the end.
pub(crate) fn add_loss<C: Sink>(lost: Option<GapPlace>, out: &mut Out<'_, C>) {
    match lost {
        Some(place) => {
            out.begin_object("missing_at");
            add_gap(place, out);
            out.end_object();
        }
        None => out.null("missing_at"),
    }
}

/// Returns where a run of data words begins, as text that follows a number of bytes.
pub(crate) fn start_text(alloc: Global, place: GapPlace) -> Result<String, AllocError> {
    let (word, byte) = (place.word, place.byte);
    format!(in alloc; " at word {word} (byte {byte})")
}

/// Prints what was skipped of the data of an image as a line of JSON.
pub fn print_skipped<C: Sink>(
    path: &str,
    header: &Header,
    damage: &Damage,
    out: &mut Out<'_, C>,
) -> Result<(), PrintError> {
    if !out.is_json() {
        return Ok(());
    }
    out.word("image", path);
    out.begin_list("skipped");
    for gap in &damage.gaps {
        add_gap(gap_place(header.offset, *gap), out);
        out.end_row();
    }
    out.end_list();
    out.number("missing_bytes", u64::from(damage.missing));
    add_loss(place_of_loss(header, damage), out);
    out.end_row();
    out.end()
}

/// Returns what was skipped of the data of an image, as text.
pub fn skipped_text(alloc: Global, header: &Header, damage: &Damage) -> Result<String, AllocError> {
    let skipped = gaps_text(alloc, header, &damage.gaps)?;
    if damage.missing == 0 {
        return Ok(skipped);
    }
    let between = if damage.gaps.is_empty() { "" } else { "; " };
    let missing = damage.missing;
    let place = match place_of_loss(header, damage) {
        Some(place) => start_text(alloc, place)?,
        None => String::from_str(alloc, " at the end")?,
    };
    format!(in alloc; "{skipped}{between}{missing} bytes of the data are missing{place}")
}

/// Returns how many bytes were skipped, and where, as text; nothing if none were.
fn gaps_text(alloc: Global, header: &Header, gaps: &[Gap]) -> Result<String, AllocError> {
    let Some(first) = gaps.first() else {
        return Ok(String::new(alloc));
    };
    let (bytes, count) = (bytes_in_gaps(gaps), gaps.len());
    let start = start_text(alloc, gap_place(header.offset, *first))?;
    if count > 1 {
        format!(in alloc; "skipped {bytes} bytes in {count} gaps, the first{start}")
    } else {
        format!(in alloc; "skipped {bytes} bytes{start}")
    }
}
