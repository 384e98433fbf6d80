//! Selectors: which objects methods mention and send, who sends and who has a selector.

mod mentions;
mod picking;
mod special;
mod spelling;
mod unimplemented;

pub use mentions::{mentioned_by, selector_of, sent_by};
pub use picking::{implementors_of, mark_mentioned, marked_selectors, senders_of, unsent_of};
pub use spelling::spelled;
pub use unimplemented::{Unimplemented, unimplemented_of};
