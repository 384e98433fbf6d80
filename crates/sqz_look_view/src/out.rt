//! Where answers are printed.

ghost use Rattle.std.specs.Prelude.{◌≡◌, ◌≤◌, ◌++◌, [], OnOk, OnErr};
ghost use Rattle.sqz_image.specs.declared.fault.Fault.TheVariants as faults;
ghost use Rattle.sqz_image.specs.Devices.{WritesWhole, WriteStops};
ghost use Rattle.sqz_look_view.specs.Out.{format_of, is_cut, shown_rows, sink_of, unwritten};

use crate::cell::Cell;
use crate::json_row::JsonRow;
use crate::print_error::PrintError;
use sqz_image::{Sink, write_all};
use std::alloc::{AllocError, Global};

/// The maximum number of rows of a list in the text form, unless all are requested.
const MOST_ROWS: u32 = 20;

/// The size in bytes at which buffered text is written to the sink.
pub(crate) const PIECE: usize = 65536;

/// The form in which answers are printed.
#[derive(Clone, Copy)]
pub enum Format {
    /// Text for a person. Long lists are cut, unless `all`. If `human`, numbers of bytes are in KB
    /// and MB.
    Text { all: bool, human: bool },
    /// Lines of JSON, whole.
    Json,
}

/// Prints answers to a sink, in one form.
#[derive(Drop)]
pub struct Out<'a, C> {
    pub(crate) alloc: Global,
    sink: &'a mut C,
    pub(crate) format: Format,
    /// What was printed and is not yet written.
    pub(crate) text: Vec<u8>,
    /// Whether a piece of the row was printed.
    pub(crate) is_begun: bool,
    /// The row in the JSON form, or what follows the piece.
    pub(crate) row: JsonRow,
    /// The lines of the row in the text form, or what follows the piece.
    pub(crate) lines: String,
    /// The cells of the row in the text form.
    pub(crate) cells: Vec<Cell>,
    /// The number of cells that the row has from those in whose lists it is.
    pub(crate) first_cell: usize,
    /// For each list that the row is in, this number outside of the list.
    pub(crate) lists: Vec<usize>,
    /// The first error.
    pub(crate) failed: Option<PrintError>,
}

impl<'a, C: Sink> Out<'a, C> {
    /// Returns an output to which nothing was printed.
    pub fn new(alloc: Global, sink: &'a mut C, format: Format) -> Self
        ensures form { format_of result ≡ format }
        ensures empty { unwritten result ≡ [] }
    {
        Out {
            alloc,
            sink,
            format,
            text: Vec::new(alloc),
            is_begun: false,
            row: JsonRow::new(alloc),
            lines: String::new(alloc),
            cells: Vec::new(alloc),
            first_cell: 0,
            lists: Vec::new(alloc),
            failed: None,
        }
    }

    /// Returns how many of `count` rows are printed.
    pub fn shown(&self, count: usize) -> usize
        ensures rows { result ≡ shown_rows (format_of self.now) count }
        ensures bounded { result ≤ count }
    {
        match self.format {
            Format::Text { all: false, .. } => count.min(MOST_ROWS as usize),
            Format::Text { all: true, .. } | Format::Json => count,
        }
    }

    /// Returns how many of `count` rows are printed.
    pub fn shown_of(&self, count: u32) -> u32
        ensures rows { result ≡ shown_rows (format_of self.now) count }
        ensures bounded { result ≤ count }
    {
        match self.format {
            Format::Text { all: false, .. } => count.min(MOST_ROWS),
            Format::Text { all: true, .. } | Format::Json => count,
        }
    }

    /// Returns whether long lists are cut.
    pub fn is_cut(&self) -> bool
        ensures { result ≡ is_cut (format_of self.now) }
    {
        matches!(self.format, Format::Text { all: false, .. })
    }

    /// Writes the buffered text to the sink, then these bytes, and then flushes the sink. Fails
    /// with `WriteFailed` if the sink does.
    pub fn bytes(&mut self, bytes: &[u8]) -> Result<(), PrintError>
        ensures written { unwritten self.old ≡ [] → OnOk result (WritesWhole
            (C.state (sink_of self.old)) (C.state (sink_of self.new)) bytes.now) }
        ensures empty { OnOk result (unwritten self.new ≡ []) }
    {
        if !self.text.is_empty() {
            self.flush()?;
        }
        write_all(self.sink, bytes).map_err(|_| PrintError::WriteFailed)
    }

    /// Writes the buffered text to the sink, and then flushes the sink. Fails with `WriteFailed` if
    /// the sink does; it has then taken some of the text, from the front on, perhaps all.
    pub fn flush(&mut self) -> Result<(), PrintError>
        ensures written { OnOk result (WritesWhole
            (C.state (sink_of self.old)) (C.state (sink_of self.new)) (unwritten self.old)) }
        ensures empty { OnOk result (unwritten self.new ≡ []) }
        ensures stopped { OnErr result (WriteStops (C.state (sink_of self.old))
            (C.state (sink_of self.new)) (unwritten self.old) faults.WriteFailed) }
    {
        match write_all(self.sink, &self.text) {
            Ok(()) => {
                self.text.clear();
                Ok(())
            }
            Err(_) => Err(PrintError::WriteFailed),
        }
    }

    /// Prints bytes as they are. They are buffered, whatever their number.
    pub fn hold(&mut self, bytes: Vec<u8>) -> Result<(), AllocError>
        ensures held { OnOk result (unwritten self.new ≡ unwritten self.old ++ bytes.items) }
        ensures unwritten { C.state (sink_of self.new) ≡ C.state (sink_of self.old) }
    {
        if self.text.is_empty() {
            self.text = bytes;
            return Ok(());
        }
        self.text.extend_from_slice(&bytes)
    }

    /// Returns what was printed and is not yet written to the sink.
    pub fn into_unwritten(self) -> Vec<u8>
        ensures { result.items ≡ unwritten self.entry }
    {
        self.text
    }

    /// Writes the buffered text if there is much of it, and keeps the error if that fails.
    pub(crate) fn end_line(&mut self) {
        if let Err(error) = self.flush_piece() {
            self.fail(error);
        }
    }

    /// Writes the buffered text if there is much of it.
    fn flush_piece(&mut self) -> Result<(), PrintError> {
        if self.text.len() < PIECE {
            return Ok(());
        }
        self.flush()
    }
}
