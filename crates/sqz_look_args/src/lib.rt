//! What a command line of `sqzlook` asks for.
#![tactic(auto)]

mod arguments;
mod bad_request;
mod commands;
mod counting;
mod grouping;
pub mod laws;
mod list_order;
mod percent;
mod question;
mod questions;
mod requests;
mod subcommands;
mod top_options;
mod values;

pub use bad_request::BadRequest;
pub use commands::command;
pub use counting::Counting;
pub use grouping::{BadGrouping, Grouping};
pub use list_order::{BadOrder, ListOrder};
pub use percent::{BadPercent, Percent};
pub use question::{Instances, Question};
pub use requests::Request;
pub use subcommands::takes_objects;
pub use top_options::{TopForm, TopOptions};
