//! The code of an image, printed as text for a person or as lines of JSON: classes, methods, who
//! sends and who implements a selector, and the stacks of the processes.
#![tactic(auto)]

mod blocks;
mod class_code;
mod class_tree;
mod contexts;
mod implementors;
mod instruction_rows;
mod live_methods;
mod method_code;
mod method_row;
mod operands;
mod selectors;
mod senders;
mod special_selectors;
mod stacks;
mod unsent;

pub use class_code::print_class_code;
pub use class_tree::print_class_tree;
pub use implementors::print_implementors;
pub use method_code::print_method_code;
pub use senders::print_senders;
pub use stacks::print_stacks;
pub use unsent::{print_unimplemented, print_unsent};
