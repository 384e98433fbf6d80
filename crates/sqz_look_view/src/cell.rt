//! Cells of rows in the text form.

/// A named value of a row as text. None if the row has no such value.
#[derive(Drop)]
pub(crate) struct Cell {
    pub(crate) name: &'static str,
    pub(crate) text: Option<String>,
    /// Whether the text is a number with its unit.
    pub(crate) has_unit: bool,
}

/// Returns the cell with a name that was added last.
pub(crate) fn cell_of<'a>(cells: &'a [Cell], name: &str) -> Option<&'a Cell> {
    cells.iter().rev().find(|cell| cell.name == name)
}
