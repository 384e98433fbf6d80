//! What is asked for of a dominator tree.

use crate::percent::Percent;

/// The form in which a tree is printed.
#[derive(Clone, Copy)]
pub enum TopForm {
    /// A line for each row, as text or as JSON.
    Rows,
    /// Folded stacks: a line for each row with the labels of the rows above it.
    Folded,
}

/// How much of a tree is printed, and in which form.
#[derive(Clone, Copy)]
pub struct TopOptions {
    pub form: TopForm,
    /// The number of levels below the first row, at most 100.
    pub depth: Option<u32>,
    /// The least share of what the first row retains that has a row of its own.
    pub min: Option<Percent>,
}
