//! The variables of an image, which have rows of their own.

use sqz_answers::VariableParts;
use sqz_look_view::Inspector;
use std::alloc::AllocError;

/// Returns the variables of an image: those whose associations have labels that say so.
pub(crate) fn variables_of(inspector: &Inspector<'_>) -> Result<VariableParts, AllocError> {
    let names = &inspector.names;
    let mut parts = VariableParts::none(inspector.alloc, inspector.live.graph.heap)?;
    for name in names.variables() {
        let association = name.association;
        if let Some(variable) = names.variable(association)? {
            let array = Some(variable.array);
            parts.add(association, variable.value, variable.dictionary, array);
        }
    }
    Ok(parts)
}
