//! Lists of texts, and lists of rows in a row.

use crate::out::Out;
use sqz_image::Sink;
use std::alloc::{AllocError, Global};

impl<'a, C: Sink> Out<'a, C> {
    /// Adds texts: to JSON a list, and as text one after the other, with a space between two.
    pub fn texts(&mut self, name: &'static str, texts: &[String]) {
        if !self.is_json() {
            let joined = joined(self.alloc, texts);
            return self.text_or_null(name, joined);
        }
        let done = self.row.begin_list(name);
        self.need(done);
        for text in texts {
            let done = self.row.add_item(text.as_str());
            self.need(done);
        }
        let done = self.row.end_list();
        self.need(done);
    }

    /// Adds a list of texts to the JSON form.
    pub fn words(&mut self, name: &'static str, words: &[&str]) {
        if !self.is_json() {
            return;
        }
        let done = self.row.begin_list(name);
        self.need(done);
        for word in words {
            let done = self.row.add_item(word);
            self.need(done);
        }
        let done = self.row.end_list();
        self.need(done);
    }

    /// Adds a list of texts and nulls to the JSON form.
    pub fn words_or_null(&mut self, name: &'static str, words: &[Option<String>]) {
        if !self.is_json() {
            return;
        }
        let done = self.row.begin_list(name);
        self.need(done);
        for word in words {
            let done = match word {
                Some(word) => self.row.add_item(word.as_str()),
                None => self.row.add_null(),
            };
            self.need(done);
        }
        let done = self.row.end_list();
        self.need(done);
    }

    /// Begins a list of rows, which is a member of the row. Its rows have the cells of this one,
    /// too, in the text form.
    pub fn begin_list(&mut self, name: &'static str) {
        if self.is_json() {
            let done = self.row.begin_list(name);
            self.need(done);
        }
        let done = self.lists.push(self.first_cell).map_err(|_| AllocError);
        self.need(done);
        self.first_cell = self.cells.len();
    }

    /// Ends a list of rows.
    pub fn end_list(&mut self) {
        if self.is_json() {
            let done = self.row.end_list();
            self.need(done);
        }
        if let Some(first_cell) = self.lists.pop() {
            self.first_cell = first_cell;
        }
    }

    /// Begins a member that is a row of its own. Its cells are cells of the row, in the text form.
    pub fn begin_object(&mut self, name: &'static str) {
        if self.is_json() {
            let done = self.row.begin_object(name);
            self.need(done);
        }
    }

    /// Ends a member that is a row of its own.
    pub fn end_object(&mut self) {
        if self.is_json() {
            let done = self.row.end_object();
            self.need(done);
        }
    }
}

/// Returns texts with a space between two. None if there are none.
fn joined(alloc: Global, texts: &[String]) -> Result<Option<String>, AllocError> {
    let mut joined = String::new(alloc);
    let mut mark = "";
    for text in texts {
        joined.push_str(mark)?;
        joined.push_str(text.as_str())?;
        mark = " ";
    }
    Ok(if texts.is_empty() { None } else { Some(joined) })
}
