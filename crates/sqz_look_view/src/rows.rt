//! Rows of named cells.

use crate::out::{Format, Out};
use crate::print_error::PrintError;
use sqz_image::Sink;
use std::alloc::AllocError;

/// A row is made of named cells, in the order of its JSON members, and ends with `line`, whose
/// template says which cells its text has. The first error is kept until `end` returns it, and
/// nothing is printed after it. A row is printed when it has ended, and a long one with lists in
/// pieces, as these rows end.
impl<'a, C: Sink> Out<'a, C> {
    /// Returns the first error since the last call, if there was one.
    pub fn end(&mut self) -> Result<(), PrintError> {
        match self.failed.take() {
            Some(error) => Err(error),
            None => Ok(()),
        }
    }

    /// Drops what was added to a row that did not end, and the error that was kept. Ends the line if
    /// a piece of the row was printed.
    pub fn drop_row(&mut self) {
        self.row.clear();
        self.lines.clear();
        self.cells.clear();
        self.lists.clear();
        self.first_cell = 0;
        self.failed = None;
        if self.is_begun {
            self.is_begun = false;
            let done = self.text.push(b'\n').map_err(|_| AllocError);
            self.need(done);
        }
    }

    /// Returns whether there was an error. What prints many rows stops then.
    pub fn has_failed(&self) -> bool {
        self.failed.is_some()
    }

    /// Returns whether rows are JSON.
    pub fn is_json(&self) -> bool {
        matches!(self.format, Format::Json)
    }

    /// Returns whether numbers of bytes are in KB and MB.
    pub fn is_human(&self) -> bool {
        matches!(self.format, Format::Text { human: true, .. })
    }

    /// Keeps the error of what was done for a row, if it failed.
    pub fn need(&mut self, done: Result<(), AllocError>) {
        if done.is_err() {
            self.fail(PrintError::OutOfMemory);
        }
    }

    /// Keeps an error, unless there was one before.
    pub(crate) fn fail(&mut self, error: PrintError) {
        if self.failed.is_none() {
            self.failed = Some(error);
        }
    }
}
