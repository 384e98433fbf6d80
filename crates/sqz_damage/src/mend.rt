//! Damaged image files: what of their data cannot be read, and the file with that mended. A file that
//! holds an image without a fault has no damage.

mod damage;
mod faults;
mod mending;
mod recovery;
mod restoring;

pub use damage::{Damage, DataRange};
pub use faults::{fault_of, image_in};
pub use recovery::{MendedFile, RecoverError, Recovered, mend_file, recover};
