//! What the words of a command line stand for: an address, a field of the special objects array,
//! the name of a class or a method, or the label of an object.

mod addresses;
mod classes;
mod found;
mod labelled;
mod named;
mod numbers;
mod objects;
mod only;

pub use classes::find_class;
pub use found::{Found, Missing};
pub(crate) use numbers::class_in;
pub use objects::find_object;
