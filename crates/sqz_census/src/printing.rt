//! The text of a census.

ghost use Rattle.std.specs.Prelude.{◌≡◌, ◌++◌, map, sum_by, string_bytes, IfOk, IfErr, OnOk};
ghost use Rattle.sqz_image.specs.declared.fault.Fault.TheVariants.{OutOfMemory};
ghost use Rattle.sqz_census.specs.Rows.{shown};
ghost use Rattle.sqz_census.specs.Text.{census_text, columns, label_text, place_text, row_text};
ghost use Rattle.sqz_census.specs.Text.{total_text};

use crate::row::Row;
use sqz_histogram::compact_name;
use sqz_image::Fault;
use sqz_object::Address;
use std::alloc::{AllocError, Global};

/// The usual length of a line in bytes.
const LINE: usize = 56;

/// Returns the text of a census: a line for each row, and a last line with the sums. A line has
/// the number of objects, right-aligned to 10 characters; the number of bytes, right-aligned to
/// 12; the new address of the class as eight lower-case hexadecimal digits, or dashes; and the
/// name of the class, or `compact K` with the compact index if there is no class. A longer number
/// takes as many characters as it needs. Fails only if out of memory.
pub fn print(alloc: Global, rows: &[Row]) -> Result<Vec<u8>, Fault>
    ensures text { IfOk result (λ text. text.items ≡ census_text (map shown rows.now)) }
    ensures refused { IfErr result (λ fault. fault ≡ OutOfMemory) }
{
    let mut text = Vec::with_capacity(alloc, rows.len().saturating_mul(LINE))?;
    for row in rows {
        add_row(alloc, &mut text, row)?;
    }
    add_total(alloc, &mut text, rows)?;
    Ok(text)
}

/// Appends the line of a row.
fn add_row(alloc: Global, text: &mut Vec<u8>, row: &Row) -> Result<(), AllocError>
    ensures { OnOk result (text.new.items ≡ text.old.items ++ row_text (shown row.now)) }
{
    let columns = columns(alloc, u128::from(row.count), u128::from(row.bytes))?;
    let place = place_text(alloc, row.place)?;
    text.extend_from_slice(columns.as_bytes())?;
    text.extend_from_slice(place.as_bytes())?;
    text.push(b' ')?;
    add_label(alloc, text, row)?;
    text.push(b'\n')?;
    Ok(())
}

/// Appends the label of a row's objects.
fn add_label(alloc: Global, text: &mut Vec<u8>, row: &Row) -> Result<(), AllocError>
    ensures { OnOk result (text.new.items ≡ text.old.items
        ++ label_text row.now.place row.now.compact row.now.name.items) }
{
    if row.place.is_some() {
        return text.extend_from_slice(&row.name);
    }
    let name = compact_name(alloc, row.compact)?;
    text.extend_from_slice(&name)
}

/// Appends the line of the sums.
fn add_total(alloc: Global, text: &mut Vec<u8>, rows: &[Row]) -> Result<(), AllocError>
    ensures { OnOk result (text.new.items ≡ text.old.items ++ total_text (map shown rows.now)) }
{
    let (count, bytes) = sums(rows);
    let columns = columns(alloc, count, bytes)?;
    text.extend_from_slice(columns.as_bytes())?;
    text.extend_from_slice(b"total\n")
}

/// Returns the number of objects and of bytes of all rows.
fn sums(rows: &[Row]) -> (u128, u128)
    ensures count { result.0 ≡ sum_by (λ row. row.count) (map shown rows.now) }
    ensures bytes { result.1 ≡ sum_by (λ row. row.bytes) (map shown rows.now) }
{
    let mut count = 0;
    let mut bytes = 0;
    for row in rows {
        let (objects, size) = (row.count, row.bytes);
        count += u128::from(objects);
        bytes += u128::from(size);
    }
    (count, bytes)
}

/// Returns two numbers, right-aligned, each followed by a space.
fn columns(alloc: Global, count: u128, bytes: u128) -> Result<String, AllocError>
    ensures { IfOk result (λ text. string_bytes text ≡ columns count bytes) }
{
    format!(in alloc; "{count:>10} {bytes:>12} ")
}

/// Returns a new address as eight digits, or eight dashes if there is none.
fn place_text(alloc: Global, place: Option<Address>) -> Result<String, AllocError>
    ensures { IfOk result (λ text. string_bytes text ≡ place_text place) }
{
    match place {
        Some(place) => format!(in alloc; "{place:08x}"),
        None => String::from_str(alloc, "--------"),
    }
}
