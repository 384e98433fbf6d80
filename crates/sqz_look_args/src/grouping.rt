//! What the rows of a class histogram are about.

use std::str::FromStr;

/// What the rows of a class histogram are about.
#[derive(Clone, Copy)]
pub enum Grouping {
    /// The objects of a class.
    Class,
    /// The objects of all classes of a category.
    Category,
}

/// A text is no grouping.
#[derive(Clone, Copy)]
pub struct BadGrouping;

impl FromStr for Grouping {
    type Err = BadGrouping;

    /// Returns the grouping that a word names: `class` or `category`.
    fn from_str(text: &str) -> Result<Grouping, BadGrouping> {
        match text {
            "class" => Ok(Grouping::Class),
            "category" => Ok(Grouping::Category),
            _ => Err(BadGrouping),
        }
    }
}
