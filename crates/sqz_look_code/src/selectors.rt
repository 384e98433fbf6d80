//! The selectors that a word stands for.

ghost use Rattle.sqz_look_view.specs.Inspectors.{IsObjectOf};

use sqz_code::{marked_selectors, spelled};
use sqz_look_view::Inspector;
use sqz_names::MethodName;
use sqz_object::ObjectIndex;
use sqz_trace::Marks;
use std::alloc::AllocError;

/// Returns the marks of the selectors with these characters: symbols, and what method dictionaries
/// have as selectors. A string is none.
pub(crate) fn selectors_with(
    inspector: &Inspector<'_>,
    methods: &[MethodName],
    text: &str,
) -> Result<Marks, AllocError> {
    let (alloc, heap) = (inspector.alloc, inspector.live.graph.heap);
    let known = marked_selectors(alloc, heap, methods)?;
    let mut selectors = Vec::new(alloc);
    for object in &spelled(alloc, heap, text)? {
        if known.has(*object) || is_symbol(inspector, *object)? {
            selectors.push(*object)?;
        }
    }
    Marks::listed(alloc, heap, &selectors)
}

/// Returns whether the class of an object is that of symbols.
fn is_symbol(inspector: &Inspector<'_>, object: ObjectIndex) -> Result<bool, AllocError>
    requires { IsObjectOf inspector.now object }
{
    let class = inspector.names.name_of_class_of(object)?;
    Ok(matches!(class.as_str(), "Symbol" | "ByteSymbol"))
}
