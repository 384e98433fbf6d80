//! A context of a process.

ghost use Rattle.std.specs.Prelude.{IfSome};
ghost use Rattle.sqz_look_view.specs.Inspectors.{IsObjectOf};

use sqz_code::{Receiver, frame_of};
use sqz_image::Sink;
use sqz_look_view::{Inspector, Out};
use sqz_object::ObjectIndex;
use std::alloc::AllocError;

/// Prints a context: its method, whether it is the context of a block of it, the program counter
/// in bytes of the method from 1, and the receiver.
pub(crate) fn print_context<C: Sink>(
    inspector: &Inspector<'_>,
    context: ObjectIndex,
    out: &mut Out<'_, C>,
)
    requires { IsObjectOf inspector.now context }
{
    let frame = frame_of(inspector.live.graph.heap, context);
    out.hex("address", inspector.address(context).0);
    out.text_or_null("method", label_of(inspector, frame.method));
    out.truth("block", frame.is_block);
    match frame.pc {
        Some(pc) => out.integer("pc", i64::from(pc)),
        None => out.null("pc"),
    }
    match frame.receiver {
        Some(Receiver::Object(object)) => out.text("receiver", inspector.names.label(object)),
        Some(Receiver::Integer(number)) => out.integer("receiver", i64::from(number)),
        None => out.null("receiver"),
    }
    out.line(if frame.method.is_some() {
        "  {address}  {block/[] in }{method}{pc/ at }{receiver/, self }"
    } else {
        "  {address}  {block/[] in }no method{pc/ at }{receiver/, self }"
    });
}

/// Returns the label of an object, if there is one.
pub(crate) fn label_of(
    inspector: &Inspector<'_>,
    object: Option<ObjectIndex>,
) -> Result<Option<String>, AllocError>
    requires { IfSome object
        (λ object. IsObjectOf inspector.now object) }
{
    match object {
        Some(object) => Ok(Some(inspector.names.label(object)?)),
        None => Ok(None),
    }
}
