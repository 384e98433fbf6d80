//! The methods that send a selector.

use crate::live_methods::{distinct_methods, live_methods};
use crate::method_row::print_methods;
use crate::selectors::selectors_with;
use sqz_code::senders_of;
use sqz_image::Sink;
use sqz_look_view::{Inspector, Out, PrintError};

/// Prints the live methods that send a selector, also to `super`, or have it as a literal.
pub fn print_senders<C: Sink>(
    inspector: &Inspector<'_>,
    selector: &str,
    out: &mut Out<'_, C>,
) -> Result<(), PrintError> {
    let selectors = selectors_with(inspector, &live_methods(inspector)?, selector)?;
    let methods = distinct_methods(inspector)?;
    let senders = senders_of(inspector.alloc, inspector.live.graph, &methods, &selectors)?;
    print_methods(inspector, &senders, out)
}
