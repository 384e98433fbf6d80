//! The methods with a selector.

use crate::live_methods::live_methods;
use crate::method_row::print_methods;
use crate::selectors::selectors_with;
use sqz_code::implementors_of;
use sqz_image::Sink;
use sqz_look_view::{Inspector, Out, PrintError};

/// Prints the live methods with a selector.
pub fn print_implementors<C: Sink>(
    inspector: &Inspector<'_>,
    selector: &str,
    out: &mut Out<'_, C>,
) -> Result<(), PrintError> {
    let methods = live_methods(inspector)?;
    let selectors = selectors_with(inspector, &methods, selector)?;
    let found = implementors_of(inspector.alloc, &methods, &selectors)?;
    print_methods(inspector, &found, out)
}
