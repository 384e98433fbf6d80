//! The order of a list.

use std::str::FromStr;

/// The order of a list of instances.
#[derive(Clone, Copy)]
pub enum ListOrder {
    /// Those that retain most first.
    Retained,
    /// The largest first.
    Size,
}

/// A text is no order.
#[derive(Clone, Copy)]
pub struct BadOrder;

impl FromStr for ListOrder {
    type Err = BadOrder;

    /// Returns the order that a word names: `retained` or `size`.
    fn from_str(text: &str) -> Result<ListOrder, BadOrder> {
        match text {
            "retained" => Ok(ListOrder::Retained),
            "size" => Ok(ListOrder::Size),
            _ => Err(BadOrder),
        }
    }
}
