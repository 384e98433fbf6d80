//! The blocks of data of a page.

use sqz_image::Sink;
use sqz_look_view::{Out, PrintError};
use std::alloc::{AllocError, Global};
use std::fmt::Write;

/// The size in bytes at which buffered text is written, and with it a block ends. A browser shows
/// what it has after each block.
const PIECE: usize = 65536;

/// The data of a page, in lines of JSON. It remembers its first error, so what prints has no error
/// of its own.
#[derive(Drop)]
pub(crate) struct PageOut {
    /// What was printed and is not yet written.
    text: String,
    /// The kind of the lines.
    kind: &'static str,
    /// Whether a block has begun and not ended.
    has_block: bool,
    /// Whether a cell of the line comes after another one.
    has_cell: bool,
    /// The first error.
    failed: Option<PrintError>,
}

impl PageOut {
    /// Returns an output of a page to which nothing was printed.
    pub(crate) fn new(alloc: Global) -> Self {
        PageOut {
            text: String::new(alloc),
            kind: "",
            has_block: false,
            has_cell: false,
            failed: None,
        }
    }

    /// Begins lines of this kind.
    pub(crate) fn begin(&mut self, kind: &'static str) {
        self.kind = kind;
    }

    /// Returns whether there was an error, after which nothing is printed.
    pub(crate) fn has_failed(&self) -> bool {
        self.failed.is_some()
    }

    /// Begins a line, or a list in a line.
    pub(crate) fn open(&mut self, bracket: char) {
        if !self.has_block {
            self.plain("<script type=\"application/json\" class=\"");
            self.plain(self.kind);
            self.plain("\">\n");
            self.has_block = true;
        }
        self.separate();
        self.letter(bracket);
        self.has_cell = false;
    }

    /// Ends a list in a line.
    pub(crate) fn close(&mut self, bracket: char) {
        self.letter(bracket);
        self.has_cell = true;
    }

    /// Ends a line. If there is much text, its block ends, too, and the text is written.
    pub(crate) fn end_line<C: Sink>(&mut self, bracket: char, out: &mut Out<'_, C>) {
        self.letter(bracket);
        self.letter('\n');
        self.has_cell = false;
        if self.text.len() >= PIECE {
            self.end_block();
            self.write(out);
        }
    }

    /// Ends the lines of this kind.
    pub(crate) fn end_block(&mut self) {
        if self.has_block {
            self.plain("</script>\n");
            self.has_block = false;
        }
    }

    /// Adds a number.
    pub(crate) fn number(&mut self, number: i64) {
        self.separate();
        if write!(self.text, "{number}").is_err() {
            self.need(Err(AllocError));
        }
    }

    /// Adds a size.
    pub(crate) fn size(&mut self, size: u64) {
        self.number(i64::try_from(size).unwrap_or(i64::MAX));
    }

    /// Adds a truth value.
    pub(crate) fn truth(&mut self, is_true: bool) {
        self.separate();
        self.plain(if is_true { "true" } else { "false" });
    }

    /// Adds what stands for nothing.
    pub(crate) fn nothing(&mut self) {
        self.separate();
        self.letter('0');
    }

    /// Adds the name of the next cell.
    pub(crate) fn name(&mut self, name: &str) {
        self.text(name);
        self.letter(':');
        self.has_cell = false;
    }

    /// Adds a text.
    pub(crate) fn text(&mut self, text: &str) {
        self.separate();
        self.letter('"');
        for letter in text.chars() {
            self.escaped(letter);
        }
        self.letter('"');
    }

    /// Adds a text that was made.
    pub(crate) fn made(&mut self, text: Result<String, AllocError>) {
        match text {
            Ok(text) => self.text(text.as_str()),
            Err(error) => self.need(Err(error)),
        }
    }

    /// Adds a text that was made, if there is one.
    pub(crate) fn made_if_any(&mut self, text: Result<Option<String>, AllocError>) {
        match text {
            Ok(Some(text)) => self.text(text.as_str()),
            Ok(None) => self.nothing(),
            Err(error) => self.need(Err(error)),
        }
    }

    /// Adds bytes as a text of hexadecimal digits.
    pub(crate) fn digits(&mut self, bytes: &[u8]) {
        self.separate();
        self.letter('"');
        for byte in bytes {
            if write!(self.text, "{byte:02x}").is_err() {
                self.need(Err(AllocError));
            }
        }
        self.letter('"');
    }

    /// Remembers an error.
    pub(crate) fn need(&mut self, done: Result<(), AllocError>) {
        if done.is_err() && self.failed.is_none() {
            self.failed = Some(PrintError::OutOfMemory);
        }
    }

    /// Writes the text, and returns the first error, if any.
    pub(crate) fn end<C: Sink>(&mut self, out: &mut Out<'_, C>) -> Result<(), PrintError> {
        self.write(out);
        match self.failed {
            Some(error) => Err(error),
            None => Ok(()),
        }
    }

    /// Adds a comma, if a cell comes before the next one.
    fn separate(&mut self) {
        if self.has_cell {
            self.letter(',');
        }
        self.has_cell = true;
    }

    /// Adds a character of a text. Nothing that an image holds can end a block or begin markup: `<`
    /// is escaped.
    fn escaped(&mut self, letter: char) {
        match letter {
            '"' => self.plain("\\\""),
            '\\' => self.plain("\\\\"),
            '<' => self.plain("\\u003c"),
            ' '..='~' => self.letter(letter),
            _ => self.escaped_code(letter as u32),
        }
    }

    /// Adds the escape of a character by its code. One above 65535 takes two of them.
    fn escaped_code(&mut self, code: u32) {
        if code > 65535 {
            let rest = code.saturating_sub(65536);
            self.unit(55296 | (rest >> 10 & 1023));
            self.unit(56320 | (rest & 1023));
        } else {
            self.unit(code);
        }
    }

    /// Adds the escape of a code unit.
    fn unit(&mut self, unit: u32) {
        if write!(self.text, "\\u{unit:04x}").is_err() {
            self.need(Err(AllocError));
        }
    }

    /// Adds characters as they are.
    pub(crate) fn plain(&mut self, text: &str) {
        let done = self.text.push_str(text);
        self.need(done);
    }

    /// Adds a character as it is.
    fn letter(&mut self, letter: char) {
        let done = self.text.push(letter);
        self.need(done);
    }

    /// Writes the text, unless there was an error.
    fn write<C: Sink>(&mut self, out: &mut Out<'_, C>) {
        if self.failed.is_none()
            && let Err(error) = out.bytes(self.text.as_bytes())
        {
            self.failed = Some(error);
        }
        self.text.clear();
    }
}
