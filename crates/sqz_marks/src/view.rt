//! What a pass knows.

use std::collections::LinkedList;

/// What a pass knows. It exists in contracts only: no value of it is made. Objects are given by
/// index.
pub struct View {
    /// The number of workers whose share of the marking the pass is.
    pub weight: u32,
    /// The objects that it made grey.
    pub won: LinkedList<u32>,
    /// Objects that it knows to be marked.
    pub seen: LinkedList<u32>,
    /// The objects whose words it counted in their regions.
    pub counted: LinkedList<u32>,
    /// Objects that it knows to be black.
    pub blackened: LinkedList<u32>,
}
