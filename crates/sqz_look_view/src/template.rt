//! Lines of the text form.

use crate::cell::{Cell, cell_of};
use std::alloc::AllocError;

/// A column of a width: the side at which its texts begin or end.
#[derive(Clone, Copy)]
enum Column {
    Left(usize),
    Right(usize),
}

/// Writes a template with its cells in place of what stands in braces:
///
/// - `{name}`: the cell, or `-` if the row has no such value;
/// - `{name:>12}`, `{name:<26}`: in a column; `{name:<*}`: in a column of `width`;
/// - `{name/TEXT}`: TEXT and the cell, or nothing if the row has no such value;
/// - `{name#word}`: the number and the word for what is counted, in the plural unless it is 1;
/// - `{name:>11#word}`: the same with the number in a column.
///
/// A name without a cell, and a column without a width, is written as it stands, in braces.
pub(crate) fn write_template(
    out: &mut String,
    template: &str,
    cells: &[Cell],
    width: usize,
) -> Result<(), AllocError> {
    let mut is_first = true;
    for piece in template.split('{') {
        match piece.split_once('}') {
            Some((form, after)) if !is_first => {
                write_cell(out, form, cells, width)?;
                out.push_str(after)?;
            }
            _ => out.push_str(piece)?,
        }
        is_first = false;
    }
    Ok(())
}

/// Writes a cell in a form.
fn write_cell(
    out: &mut String,
    form: &str,
    cells: &[Cell],
    width: usize,
) -> Result<(), AllocError> {
    if let Some((name, before)) = form.split_once('/') {
        return write_optional(out, name, before, cells);
    }
    if let Some((name, word)) = form.split_once('#') {
        return write_counted(out, name, word, cells);
    }
    if let Some((name, column)) = form.split_once(':') {
        return write_column(out, name, column, cells, width);
    }
    match cell_of(cells, form) {
        Some(cell) => out.push_str(text_of(cell)),
        None => write_unknown(out, form),
    }
}

/// Returns the text of a cell, or `-` if the row has no such value.
fn text_of(cell: &Cell) -> &str {
    match &cell.text {
        Some(text) => text.as_str(),
        None => "-",
    }
}

/// Writes a name without a cell.
fn write_unknown(out: &mut String, name: &str) -> Result<(), AllocError> {
    out.push('{')?;
    out.push_str(name)?;
    out.push('}')
}

/// Writes a cell, if it has a value, and what comes before it.
fn write_optional(
    out: &mut String,
    name: &str,
    before: &str,
    cells: &[Cell],
) -> Result<(), AllocError> {
    let Some(cell) = cell_of(cells, name) else {
        return write_unknown(out, name);
    };
    match &cell.text {
        Some(text) => {
            out.push_str(before)?;
            out.push_str(text.as_str())
        }
        None => Ok(()),
    }
}

/// Writes a number and the word for what it counts.
fn write_counted(
    out: &mut String,
    name: &str,
    word: &str,
    cells: &[Cell],
) -> Result<(), AllocError> {
    if let Some((name, column)) = name.split_once(':') {
        write_column(out, name, column, cells, 0)?;
        return write_word(out, name, word, cells);
    }
    let Some(cell) = cell_of(cells, name) else {
        return write_unknown(out, name);
    };
    out.push_str(text_of(cell))?;
    write_word(out, name, word, cells)
}

/// Writes the word for what a number counts. A number with a unit has no word.
fn write_word(out: &mut String, name: &str, word: &str, cells: &[Cell]) -> Result<(), AllocError> {
    let Some(cell) = cell_of(cells, name) else {
        return Ok(());
    };
    if cell.has_unit {
        return Ok(());
    }
    out.push(' ')?;
    push_word(out, word, text_of(cell) == "1")
}

/// Writes the word for what is counted: in the plural it ends with `s`, or with `ies` for `y`.
pub(crate) fn push_word(out: &mut String, word: &str, is_one: bool) -> Result<(), AllocError> {
    if is_one {
        return out.push_str(word);
    }
    match word.strip_suffix("y") {
        Some(stem) => {
            out.push_str(stem)?;
            out.push_str("ies")
        }
        None => {
            out.push_str(word)?;
            out.push('s')
        }
    }
}

/// Writes a cell in a column: its side and width.
fn write_column(
    out: &mut String,
    name: &str,
    column: &str,
    cells: &[Cell],
    width: usize,
) -> Result<(), AllocError> {
    let Some(cell) = cell_of(cells, name) else {
        return write_unknown(out, name);
    };
    let text = text_of(cell);
    match column_of(column, width) {
        Some(Column::Left(width)) => {
            out.push_str(text)?;
            write_spaces(out, text, width)
        }
        Some(Column::Right(width)) => {
            write_spaces(out, text, width)?;
            out.push_str(text)
        }
        None => write_unknown(out, column),
    }
}

/// Returns the column that a form names. None if it names none.
fn column_of(form: &str, width: usize) -> Option<Column> {
    match (form.strip_prefix("<"), form.strip_prefix(">")) {
        (Some(places), _) => Some(Column::Left(width_of(places, width)?)),
        (_, Some(places)) => Some(Column::Right(width_of(places, width)?)),
        _ => None,
    }
}

/// Returns the width of a column. None if it is no number.
fn width_of(places: &str, width: usize) -> Option<usize> {
    match places {
        "*" => Some(width),
        _ => places.parse::<usize>().ok(),
    }
}

/// Writes the spaces that a text lacks to the width of its column.
fn write_spaces(out: &mut String, text: &str, width: usize) -> Result<(), AllocError> {
    for _ in text.chars().count()..width {
        out.push(' ')?;
    }
    Ok(())
}
