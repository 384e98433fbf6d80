//! What keeps an object.

ghost use Rattle.sqz_look_view.specs.Inspectors.{IsObjectOf};

use crate::path_rows::print_path;
use sqz_dominators::{HoldingPath, why_kept};
use sqz_image::Sink;
use sqz_look_view::{Inspector, Out, PrintError};
use sqz_object::ObjectIndex;

/// Prints a shortest path from the special objects array to an object, and what the objects on it
/// retain. The steps to a global or a class variable are taken as one, unless `raw`.
pub fn print_why<C: Sink>(
    inspector: &Inspector<'_>,
    object: ObjectIndex,
    raw: bool,
    out: &mut Out<'_, C>,
) -> Result<(), PrintError>
    requires { IsObjectOf inspector.now object }
{
    let found = why_kept(inspector.alloc, inspector.live.graph, object)?;
    out.hex("address", inspector.address(object).0);
    out.text("class", inspector.names.name_of_class_of(object));
    if !out.is_json() {
        out.label("label", inspector, object);
    }
    out.amount("bytes", inspector.bytes(object));
    match &found {
        Some(path) => {
            out.amount("retained", path.retained);
            out.part(head_of(path));
            print_path(inspector, path, raw, out)?;
        }
        None => {
            out.null("retained");
            out.null("path");
            out.line("{label} {address}, {bytes#byte}, not reachable");
        }
    }
    out.end()
}

/// Returns the template of the first line of the text form.
fn head_of(path: &HoldingPath) -> &'static str {
    if path.is_weakly_held {
        "{label} {address}, {bytes#byte}, retains {retained}, held weakly only"
    } else {
        "{label} {address}, {bytes#byte}, retains {retained}"
    }
}
