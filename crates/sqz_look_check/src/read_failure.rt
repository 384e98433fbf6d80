//! Why a file cannot be read.

use std::io::ErrorKind;

/// Why a file cannot be read.
#[derive(Clone, Copy)]
pub enum ReadFailure {
    /// There is no such file.
    NotFound,
    /// Nobody may read it, or not this user.
    NotPermitted,
    /// It is a directory.
    Directory,
    /// For another reason.
    Other,
}

impl ReadFailure {
    /// Returns why a file was not opened.
    pub fn of(kind: ErrorKind) -> Self {
        match kind {
            ErrorKind::NotFound | ErrorKind::NotADirectory => ReadFailure::NotFound,
            ErrorKind::PermissionDenied => ReadFailure::NotPermitted,
            ErrorKind::IsADirectory => ReadFailure::Directory,
            _ => ReadFailure::Other,
        }
    }

    /// Returns the reason as text, if it is known.
    pub fn reason(self) -> Option<&'static str> {
        match self {
            ReadFailure::NotFound => Some("no such file"),
            ReadFailure::NotPermitted => Some("permission denied"),
            ReadFailure::Directory => Some("it is a directory"),
            ReadFailure::Other => None,
        }
    }
}
