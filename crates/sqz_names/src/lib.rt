//! The names by which a Smalltalker knows what an image holds: classes, methods, globals, class
//! variables, instance variables, strings and symbols. They are found by following the image's own
//! structures. A structure that is not as expected gives no name, and never a failure.
#![tactic(auto)]

mod byte_texts;
mod bytes;
mod categories;
mod class_names;
mod classes;
mod elements;
mod escape;
pub mod fields;
pub mod formats;
mod held_variables;
mod instance_variables;
mod known;
mod label;
mod label_texts;
mod labels;
mod lookup;
mod method_name;
mod methods;
mod names;
mod object_set;
mod targets;
mod variable_name;
mod variables;
mod words;

pub use bytes::spells;
pub use categories::Categories;
pub use class_names::{name_of_class, name_of_class_of};
pub use elements::Counter;
pub use escape::escaped;
pub use known::Known;
pub use label::Label;
pub use method_name::MethodName;
pub use names::Names;
pub use variable_name::{Variable, VariableName};
pub use words::{Found, Missing, find_class, find_object};
