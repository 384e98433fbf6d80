//! Rows as JSON.

use std::alloc::{AllocError, Global};

/// What stands before the next member of a row.
#[derive(Clone, Copy)]
enum Lead {
    /// The brace of the row, or of the first row in a list.
    Brace,
    /// A comma and the brace of the next row in a list.
    NextBrace,
    /// Nothing: the brace of an object stands before it.
    Nothing,
    /// A comma.
    Comma,
}

impl Lead {
    /// Returns what stands before the next member.
    fn text(self) -> &'static str {
        match self {
            Lead::Brace => "{",
            Lead::NextBrace => ",{",
            Lead::Nothing => "",
            Lead::Comma => ",",
        }
    }
}

/// A row as JSON, as far as it was made.
#[derive(Drop)]
pub(crate) struct JsonRow {
    alloc: Global,
    text: String,
    lead: Lead,
}

impl JsonRow {
    /// Returns a row without members.
    pub(crate) fn new(alloc: Global) -> Self {
        JsonRow {
            alloc,
            text: String::new(alloc),
            lead: Lead::Brace,
        }
    }

    /// Returns the row, or the part of it that was made.
    pub(crate) fn text(&self) -> &str {
        self.text.as_str()
    }

    /// Takes all members away.
    pub(crate) fn clear(&mut self) {
        self.clear_text();
        self.lead = Lead::Brace;
    }

    /// Takes away what was made of the row, which goes on.
    pub(crate) fn clear_text(&mut self) {
        self.text.clear();
    }

    /// Adds a member whose value is written as it is.
    pub(crate) fn add_plain(&mut self, name: &str, value: &str) -> Result<(), AllocError> {
        self.add_name(name)?;
        self.text.push_str(value)
    }

    /// Adds a member that is a text.
    pub(crate) fn add_text(&mut self, name: &str, value: &str) -> Result<(), AllocError> {
        self.add_name(name)?;
        self.push_text(value)
    }

    /// Begins a member that is a list of rows, or of texts.
    pub(crate) fn begin_list(&mut self, name: &str) -> Result<(), AllocError> {
        self.add_name(name)?;
        self.lead = Lead::Brace;
        self.text.push('[')
    }

    /// Adds a text to a list of texts.
    pub(crate) fn add_item(&mut self, text: &str) -> Result<(), AllocError> {
        self.separate()?;
        self.push_text(text)
    }

    /// Adds null to a list of texts.
    pub(crate) fn add_null(&mut self) -> Result<(), AllocError> {
        self.separate()?;
        self.text.push_str("null")
    }

    /// Adds what stands before the next text in a list.
    fn separate(&mut self) -> Result<(), AllocError> {
        if !matches!(self.lead, Lead::Brace) {
            self.text.push(',')?;
        }
        self.lead = Lead::Comma;
        Ok(())
    }

    /// Ends a list.
    pub(crate) fn end_list(&mut self) -> Result<(), AllocError> {
        self.lead = Lead::Comma;
        self.text.push(']')
    }

    /// Begins a member that is a row of its own.
    pub(crate) fn begin_object(&mut self, name: &str) -> Result<(), AllocError> {
        self.add_name(name)?;
        self.lead = Lead::Nothing;
        self.text.push('{')
    }

    /// Ends a member that is a row of its own.
    pub(crate) fn end_object(&mut self) -> Result<(), AllocError> {
        self.lead = Lead::Comma;
        self.text.push('}')
    }

    /// Ends the row, or a row in a list.
    pub(crate) fn end(&mut self) -> Result<(), AllocError> {
        self.lead = Lead::NextBrace;
        self.text.push('}')
    }

    /// Ends the line of the row.
    pub(crate) fn end_line(&mut self) -> Result<(), AllocError> {
        self.text.push('\n')
    }

    /// Adds the name of a member.
    fn add_name(&mut self, name: &str) -> Result<(), AllocError> {
        self.text.push_str(self.lead.text())?;
        self.lead = Lead::Comma;
        self.push_text(name)?;
        self.text.push(':')
    }

    /// Adds a text in quotes, with escapes.
    fn push_text(&mut self, text: &str) -> Result<(), AllocError> {
        match serde_json::to_string(self.alloc, &text) {
            Ok(json) => self.text.push_str(json.as_str()),
            // JSON that is not made has no other reason than memory
            Err(_) => Err(AllocError),
        }
    }
}
