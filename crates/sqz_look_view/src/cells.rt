//! Cells that are one value.

use crate::amounts::{amount_text, difference_text};
use crate::cell::Cell;
use crate::out::Out;
use crate::print_error::PrintError;
use crate::shown::Shown;
use sqz_image::Sink;
use std::alloc::{AllocError, Global};

impl<'a, C: Sink> Out<'a, C> {
    /// Adds a number.
    pub fn number(&mut self, name: &'static str, number: u64) {
        let text = format!(in self.alloc; "{number}");
        self.plain(name, text);
    }

    /// Adds a number, or null.
    pub fn number_or_null(&mut self, name: &'static str, number: Option<u64>) {
        match number {
            Some(number) => self.number(name, number),
            None => self.null(name),
        }
    }

    /// Adds a number with its sign.
    pub fn integer(&mut self, name: &'static str, number: i64) {
        let text = format!(in self.alloc; "{number}");
        self.plain(name, text);
    }

    /// Adds a number of bytes. In the text form it may be in KB or MB.
    pub fn amount(&mut self, name: &'static str, bytes: u64) {
        let is_human = self.is_human();
        match amount_text(self.alloc, bytes, is_human) {
            Ok(text) if self.is_json() => self.plain(name, Ok(text)),
            Ok(text) => self.add_cell(name, Some(text), is_human),
            Err(error) => self.need(Err(error)),
        }
    }

    /// Adds the difference of two numbers of bytes, with its sign, to the text form.
    pub fn difference(&mut self, name: &'static str, old: u64, new: u64) {
        if self.is_json() {
            return;
        }
        let is_human = self.is_human();
        match difference_text(self.alloc, old, new, is_human) {
            Ok(text) => self.add_cell(name, Some(text), is_human),
            Err(error) => self.need(Err(error)),
        }
    }

    /// Adds a number of bytes, or null.
    pub fn amount_or_null(&mut self, name: &'static str, bytes: Option<u64>) {
        match bytes {
            Some(bytes) => self.amount(name, bytes),
            None => self.null(name),
        }
    }

    /// Adds an address, or another word, as eight hexadecimal digits.
    pub fn hex(&mut self, name: &'static str, word: u32) {
        let text = format!(in self.alloc; "{word:08x}");
        self.text(name, text);
    }

    /// Adds an address, or null.
    pub fn hex_or_null(&mut self, name: &'static str, word: Option<u32>) {
        match word {
            Some(word) => self.hex(name, word),
            None => self.null(name),
        }
    }

    /// Adds a text.
    pub fn text(&mut self, name: &'static str, text: Result<String, AllocError>) {
        match text {
            Ok(text) if self.is_json() => {
                let done = self.row.add_text(name, text.as_str());
                self.need(done);
            }
            Ok(text) => self.add_cell(name, Some(text), false),
            Err(error) => self.need(Err(error)),
        }
    }

    /// Adds a text, or null.
    pub fn text_or_null(&mut self, name: &'static str, text: Result<Option<String>, AllocError>) {
        match text {
            Ok(Some(text)) => self.text(name, Ok(text)),
            Ok(None) => self.null(name),
            Err(error) => self.need(Err(error)),
        }
    }

    /// Adds a text that is known.
    pub fn word(&mut self, name: &'static str, word: &str) {
        if self.is_json() {
            let done = self.row.add_text(name, word);
            self.need(done);
        } else {
            let text = String::from_str(self.alloc, word);
            self.text(name, text);
        }
    }

    /// Adds the path of a file: as text without control characters.
    pub fn path(&mut self, name: &'static str, path: &str) {
        if self.is_json() {
            self.word(name, path);
        } else {
            let shown = Shown(path).to_string(self.alloc);
            self.text(name, shown);
        }
    }

    /// Adds a text that is known, or null.
    pub fn word_or_null(&mut self, name: &'static str, word: Option<&str>) {
        match word {
            Some(word) => self.word(name, word),
            None => self.null(name),
        }
    }

    /// Adds two spaces for each level to the text form.
    pub fn indent(&mut self, name: &'static str, levels: usize) {
        if !self.is_json() {
            let spaces = indent_of(self.alloc, levels);
            self.text(name, spaces);
        }
    }

    /// Adds a truth value. As text, `{name/TEXT}` writes TEXT if it is true.
    pub fn truth(&mut self, name: &'static str, is_true: bool) {
        if self.is_json() {
            let done = self
                .row
                .add_plain(name, if is_true { "true" } else { "false" });
            self.need(done);
        } else if is_true {
            self.word(name, "");
        } else {
            self.null(name);
        }
    }

    /// Adds no value.
    pub fn null(&mut self, name: &'static str) {
        if self.is_json() {
            let done = self.row.add_plain(name, "null");
            self.need(done);
        } else {
            self.add_cell(name, None, false);
        }
    }

    /// Adds a text that the text form alone has.
    pub fn note(&mut self, name: &'static str, text: Result<String, AllocError>) {
        if !self.is_json() {
            self.text(name, text);
        }
    }

    /// Adds a known text that the text form alone has.
    pub fn note_word(&mut self, name: &'static str, word: &str) {
        if !self.is_json() {
            self.word(name, word);
        }
    }

    /// Adds a number that the text form alone has.
    pub fn count(&mut self, name: &'static str, count: usize) {
        if !self.is_json() {
            self.number(name, count as u64);
        }
    }

    /// Adds what JSON writes as it is.
    fn plain(&mut self, name: &'static str, text: Result<String, AllocError>) {
        match text {
            Ok(text) if self.is_json() => {
                let done = self.row.add_plain(name, text.as_str());
                self.need(done);
            }
            Ok(text) => self.add_cell(name, Some(text), false),
            Err(error) => self.need(Err(error)),
        }
    }

    /// Adds a cell in the text form.
    fn add_cell(&mut self, name: &'static str, text: Option<String>, has_unit: bool) {
        let cell = Cell {
            name,
            text,
            has_unit,
        };
        if self.cells.push(cell).is_err() {
            self.fail(PrintError::OutOfMemory);
        }
    }
}

/// Returns two spaces for each level.
fn indent_of(alloc: Global, levels: usize) -> Result<String, AllocError> {
    let mut spaces = String::new(alloc);
    for _ in 0..levels {
        spaces.push_str("  ")?;
    }
    Ok(spaces)
}
