//! The ends of rows, and the lines of the text form.

use crate::cell::cell_of;
use crate::out::{Out, PIECE};
use crate::template::{push_word, write_template};
use sqz_image::Sink;
use std::alloc::AllocError;

impl<'a, C: Sink> Out<'a, C> {
    /// Prints a line of the row in the text form. The row goes on.
    pub fn part(&mut self, template: &str) {
        self.part_in(template, 0);
    }

    /// Prints a line of the row in the text form, with columns `*` of a width. The row goes on.
    pub fn part_in(&mut self, template: &str, width: usize) {
        if self.is_json() || self.has_failed() {
            return;
        }
        let done = self.write_line(template, width);
        self.need(done);
    }

    /// Prints a line of the row in the text form, if a cell has a value. The row goes on.
    pub fn part_if(&mut self, name: &str, template: &str) {
        if cell_of(self.cells.as_slice(), name).is_some_and(|cell| cell.text.is_some()) {
            self.part(template);
        }
    }

    /// Ends the row: in the text form a line in this template, else a line of JSON. A row in a list
    /// ends so, too.
    pub fn line(&mut self, template: &str) {
        self.line_in(template, 0);
    }

    /// Ends the row, as `line` does, with columns `*` of a width.
    pub fn line_in(&mut self, template: &str, width: usize) {
        self.part_in(template, width);
        self.end_row();
    }

    /// Ends the row without a line in the text form.
    pub fn end_row(&mut self) {
        if self.is_json() {
            let done = self.row.end();
            self.need(done);
        }
        self.cells.truncate(self.first_cell);
        if self.lists.is_empty() {
            self.print_row();
        } else {
            self.print_piece();
        }
    }

    /// Prints a line that the text form alone has.
    pub fn heading(&mut self, line: &str) {
        if !self.is_json() {
            self.part(line);
            self.cells.clear();
            self.print_row();
        }
    }

    /// Prints how many of `count` rows the text form leaves out, if any.
    pub fn rest(&mut self, count: usize, what: &str) {
        self.rest_after("", count - self.shown(count), what);
    }

    /// Prints how many rows the text form leaves out, if any, after some spaces.
    pub fn rest_after(&mut self, spaces: &str, hidden: usize, what: &str) {
        if hidden > 0 && !self.is_json() {
            let text = self.rest_text(spaces, hidden, what);
            self.note("rest", text);
            self.part("{rest}");
            self.cells.pop();
            if self.lists.is_empty() {
                self.print_row();
            }
        }
    }

    /// Returns the line that says how many rows the text form leaves out.
    fn rest_text(&self, spaces: &str, hidden: usize, what: &str) -> Result<String, AllocError> {
        let mut text = format!(in self.alloc; "{spaces}... {hidden} more ")?;
        push_word(&mut text, what, hidden == 1)?;
        text.push_str("; --all prints all")?;
        Ok(text)
    }

    /// Writes a line of the text form.
    fn write_line(&mut self, template: &str, width: usize) -> Result<(), AllocError> {
        write_template(&mut self.lines, template, self.cells.as_slice(), width)?;
        self.lines.push('\n')
    }

    /// Prints a row that has ended, unless there was an error.
    fn print_row(&mut self) {
        if !self.has_failed() {
            let done = self.push_row();
            self.need(done);
            self.end_line();
            self.is_begun = false;
        }
        self.row.clear();
        self.lines.clear();
    }

    /// Prints what was made of a row that goes on, if it is much, unless there was an error.
    fn print_piece(&mut self) {
        if self.has_failed() || self.row.text().len() + self.lines.len() < PIECE {
            return;
        }
        let done = self.push_made();
        self.need(done);
        self.end_line();
        self.is_begun = true;
        self.row.clear_text();
        self.lines.clear();
    }

    /// Appends the rest of a row that has ended to the printed text.
    fn push_row(&mut self) -> Result<(), AllocError> {
        if self.is_json() {
            self.row.end_line()?;
        }
        self.push_made()
    }

    /// Appends what was made of a row to the printed text.
    fn push_made(&mut self) -> Result<(), AllocError> {
        if self.is_json() {
            return self.text.extend_from_slice(self.row.text().as_bytes());
        }
        self.text.extend_from_slice(self.lines.as_bytes())
    }
}
