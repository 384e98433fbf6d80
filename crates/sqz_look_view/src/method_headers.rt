//! What the headers of compiled methods say.

use crate::out::Out;
use sqz_code::MethodHeader;
use sqz_image::Sink;

/// Adds what the header of a compiled method says, as a member with a name, and prints it in the
/// text form after some text. Null if there is no header.
pub fn add_method_header<C: Sink>(
    name: &'static str,
    header: Option<MethodHeader>,
    before: &str,
    out: &mut Out<'_, C>,
) {
    let Some(header) = header else {
        return out.null(name);
    };
    out.begin_object(name);
    out.number("arguments", u64::from(header.arguments));
    out.number("temporaries", u64::from(header.temporaries));
    out.number("literals", u64::from(header.literals));
    out.number("primitive", u64::from(header.primitive));
    out.truth("large_frame", header.has_large_frame);
    out.end_object();
    out.note_word("before", before);
    out.part(
        "{before}{temporaries#temporary}, {arguments} of them arguments, {literals#literal}, \
         primitive {primitive}{large_frame/, large frame}",
    );
}
