//! What retained bytes of two images are compared by.

use crate::Matching;
use sqz_dominators::Dominators;
use sqz_trace::{Live, Marks};

/// What is known of the retained bytes of two images.
#[derive(Drop)]
pub struct Growth<'a> {
    /// The live objects of the new image.
    pub live: &'a Live<'a>,
    /// The objects of the new image that have names.
    pub named: &'a Marks,
    /// The partners of the objects.
    pub partners: &'a Matching,
    /// The dominators of the old image.
    pub old: &'a Dominators,
    /// The dominators of the new image.
    pub new: &'a Dominators,
}
