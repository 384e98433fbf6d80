//! What a class histogram says.

use crate::values::flag_of;
use clap::ArgMatches;

/// What a class histogram says.
#[derive(Clone, Copy)]
pub enum Counting {
    /// The number and the bytes of the live objects of each class.
    Live,
    /// As `Live`, with what these objects retain.
    Retained,
    /// The number and the bytes of the objects that are not live.
    Dead,
}

impl Counting {
    /// Returns what a class histogram is asked to say. The command line accepts one of the options.
    pub(crate) fn asked(matches: &ArgMatches<'_>) -> Self {
        if flag_of(matches, "dead") {
            Counting::Dead
        } else if flag_of(matches, "retained") {
            Counting::Retained
        } else {
            Counting::Live
        }
    }
}
