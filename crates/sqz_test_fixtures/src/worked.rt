//! Worked images: files, and what becomes of each. The folder `images/` has them.

use super::files::{TestFile, bytes_of, file_of};
use super::images::{EMPTY, TestImage};
use std::alloc::{AllocError, Global};

/// A file, and what becomes of it.
#[derive(Clone, Copy)]
pub struct WorkedImage {
    /// The folder of its files in `images/`.
    pub folder: Folder,
    /// Its name, with which those of its files begin.
    pub name: &'static str,
    /// What the file holds.
    pub input: Contents,
    /// What becomes of it if weak slots are kept.
    pub kept: Outcome,
    /// What becomes of it if weak slots are cleared; none if it is the same.
    pub cleared: Option<Outcome>,
    /// Its class histogram if weak slots are kept; none if it is not worked.
    pub census: Option<&'static str>,
    /// Its class histogram if weak slots are cleared; none if it is the same, or not worked.
    pub cleared_census: Option<&'static str>,
}

/// A folder of worked images.
#[derive(Clone, Copy)]
pub enum Folder {
    /// Images without weak objects that are compacted.
    Accepted,
    /// Files that are rejected while they are read.
    Unreadable,
    /// Images that are rejected for an object, under both policies on weak slots.
    Defects,
    /// Images with weak objects, or that are treated differently if weak slots are cleared.
    Weak,
}

impl Folder {
    /// The name of the folder in `images/`.
    pub fn name(self) -> &'static str {
        match self {
            Folder::Accepted => "accepted",
            Folder::Unreadable => "unreadable",
            Folder::Defects => "defects",
            Folder::Weak => "weak",
        }
    }
}

/// What a file holds.
#[derive(Clone, Copy)]
pub enum Contents {
    /// An image alone.
    Image(TestImage),
    /// An image with bytes around it, or a part of that.
    File(TestFile),
}

/// What becomes of a file.
#[derive(Clone, Copy)]
pub enum Outcome {
    /// It is compacted to this.
    Compacted(Contents),
    /// It is rejected, and this line says why.
    Rejected(&'static str),
}

/// A worked image without a class histogram, of which the policy on weak slots changes nothing. A
/// table states the rest.
const WORKED: WorkedImage = WorkedImage {
    folder: Folder::Accepted,
    name: "",
    input: Contents::Image(EMPTY),
    kept: Outcome::Rejected(""),
    cleared: None,
    census: None,
    cleared_census: None,
};

/// `WORKED` in the folder `accepted`.
pub(crate) const ACCEPTED: WorkedImage = WorkedImage {
    folder: Folder::Accepted,
    ..WORKED
};

/// `WORKED` in the folder `unreadable`.
pub(crate) const UNREADABLE: WorkedImage = WorkedImage {
    folder: Folder::Unreadable,
    ..WORKED
};

/// `WORKED` in the folder `defects`.
pub(crate) const DEFECT: WorkedImage = WorkedImage {
    folder: Folder::Defects,
    ..WORKED
};

/// `WORKED` in the folder `weak`.
pub(crate) const WEAK: WorkedImage = WorkedImage {
    folder: Folder::Weak,
    ..WORKED
};

impl Contents {
    /// The bytes of the file.
    pub fn bytes(&self, alloc: Global) -> Result<Vec<u8>, AllocError> {
        match self {
            Contents::Image(image) => file_of(alloc, image),
            Contents::File(file) => bytes_of(alloc, file),
        }
    }

    /// The image in the file.
    pub fn image(&self) -> &TestImage {
        match self {
            Contents::Image(image) => image,
            Contents::File(file) => &file.image,
        }
    }
}

impl Outcome {
    /// Whether the file is accepted.
    pub fn is_accepted(&self) -> bool {
        matches!(self, Outcome::Compacted(_))
    }
}
