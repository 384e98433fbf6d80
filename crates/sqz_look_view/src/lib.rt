//! What every view of an answer is made with: an image with its names, and the output that prints a
//! view as text for a person or as a line of JSON.
#![tactic(auto)]

mod amounts;
mod cell;
mod cells;
mod class_categories;
mod counted;
mod hex;
mod inspector;
mod json_row;
mod lines;
mod lists;
mod method_headers;
mod object_cells;
mod out;
mod path_cells;
mod places;
mod preview;
mod print_error;
mod rows;
mod shown;
mod slots;
mod special_names;
mod step_rows;
mod subject;
mod template;
mod values;

pub use class_categories::{category_of, listed_name};
pub use counted::Counted;
pub use hex::Hex;
pub use inspector::Inspector;
pub use method_headers::add_method_header;
pub use out::{Format, Out};
pub use path_cells::add_path;
pub use places::{field_of, object_at};
pub use preview::preview_of;
pub use print_error::PrintError;
pub use shown::Shown;
pub use slots::SlotNames;
pub use step_rows::{add_first, add_step};
pub use subject::Subject;
pub use values::value_text;
