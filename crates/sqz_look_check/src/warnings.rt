//! What a strict check finds of an image.

ghost use Rattle.std.specs.Prelude.{◌<◌, All};
ghost use Rattle.sqz_image.specs.Objects.{object_count};
ghost use Rattle.sqz_strict.specs.Warnings.{object_of};

use crate::causes::{NearObject, add_near, near_text};
use crate::skipped::add_gap;
use sqz_damage::{Gap, gap_place};
use sqz_image::{Image, Object, Sink, Slot};
use sqz_look_view::{Counted, Out};
use sqz_names::{name_of_class, name_of_class_of};
use sqz_object::{ObjectIndex, base_of};
use sqz_strict::{ClassShape, Findings, Warning};
use sqz_trace::{ObjectGraph, class_address};
use std::alloc::{AllocError, Global};

/// Prints what a strict check found of an image.
pub(crate) fn print_warnings<C: Sink>(
    alloc: Global,
    image: &Image,
    graph: ObjectGraph<'_>,
    findings: &Findings,
    out: &mut Out<'_, C>,
)
    requires { All (λ warning. object_of warning < object_count graph.heap.now)
        findings.now.warnings.items }
{
    out.begin_list("warnings");
    for warning in &findings.warnings {
        print_warning(alloc, graph, *warning, out);
    }
    for gap in &findings.gaps {
        print_gap(image, *gap, out);
    }
    out.end_list();
}

/// Prints a warning about an object.
fn print_warning<C: Sink>(
    alloc: Global,
    graph: ObjectGraph<'_>,
    warning: Warning,
    out: &mut Out<'_, C>,
)
    requires { object_of warning < object_count graph.heap.now }
{
    let object = warning.object();
    match warning {
        Warning::Shape { stated, .. } => print_shape(alloc, graph, object, stated, out),
        Warning::NoClass { .. } => {
            let done = print_no_class(alloc, graph, object, out);
            out.need(done);
        }
        Warning::NoMethodDictionary { .. } => {
            add_kind("no_method_dictionary", graph, object, out);
            out.text("class", name_of_class(alloc, graph, object));
            out.line("{image}: warning: class {class} {address} has no method dictionary");
        }
        Warning::MethodDictionary { .. } => {
            add_kind("method_dictionary", graph, object, out);
            out.line(
                "{image}: warning: method dictionary {address} has fewer methods than selectors",
            );
        }
        Warning::NoKey { .. } => {
            add_kind("no_key", graph, object, out);
            out.line("{image}: warning: association {address} has no key");
        }
    }
}

/// Adds the kind of a warning, and the object that it is about.
fn add_kind<C: Sink>(kind: &str, graph: ObjectGraph<'_>, object: ObjectIndex, out: &mut Out<'_, C>)
    requires { object < object_count graph.heap.now }
{
    out.word("kind", kind);
    out.hex("address", graph.heap.address(object));
}

/// Prints that an object is not as its class states.
fn print_shape<C: Sink>(
    alloc: Global,
    graph: ObjectGraph<'_>,
    object: ObjectIndex,
    stated: ClassShape,
    out: &mut Out<'_, C>,
)
    requires { object < object_count graph.heap.now }
{
    let has = shape_of(&graph.heap.object(object));
    add_kind("shape", graph, object, out);
    out.text("class", name_of_class_of(alloc, graph, object));
    add_shape("has", has, out);
    add_shape("stated", stated, out);
    if !out.is_json() {
        out.text("has", shape_text(alloc, has));
        out.text("stated", shape_text(alloc, stated));
    }
    out.line("{image}: warning: {class} {address} has {has}; its class states {stated}");
}

/// Returns what an object has: its format, the number of its fields, and the compact class index.
fn shape_of(object: &Object<'_>) -> ClassShape {
    let base = base_of(object.header().base);
    ClassShape {
        format: base.format,
        fixed: object.fields().len() as u32,
        compact: base.compact,
    }
}

/// Adds what an object has, or what its class states.
fn add_shape<C: Sink>(name: &'static str, shape: ClassShape, out: &mut Out<'_, C>) {
    out.begin_object(name);
    out.number("format", u64::from(shape.format));
    out.number("fields", u64::from(shape.fixed));
    out.number("compact", u64::from(shape.compact));
    out.end_object();
}

/// Returns what an object has, or what its class states, as text.
fn shape_text(alloc: Global, shape: ClassShape) -> Result<String, AllocError> {
    let (format, fields) = (shape.format, Counted(u64::from(shape.fixed), "field"));
    let compact = shape.compact;
    format!(in alloc; "format {format}, {fields}, compact {compact}")
}

/// Prints that the class of an object is no class, with the class that is near.
fn print_no_class<C: Sink>(
    alloc: Global,
    graph: ObjectGraph<'_>,
    object: ObjectIndex,
    out: &mut Out<'_, C>,
) -> Result<(), AllocError>
    requires { object < object_count graph.heap.now }
{
    let near = match class_address(&graph.heap.object(object)) {
        Some(word) => NearObject::of(alloc, graph, Slot::ClassWord, word)?,
        None => None,
    };
    add_kind("no_class", graph, object, out);
    match graph.class_of(object) {
        Some(class) => out.hex("class", graph.heap.address(class)),
        None => out.null("class"),
    }
    if out.is_json() {
        add_near(near.as_ref(), out);
    } else {
        out.text("near", near_text(alloc, near.as_ref()));
        out.truth("after", graph.class_of(object).is_some());
    }
    out.line(
        "{image}: warning: the class of object {address}{class/, }{after/,} is no class{near}",
    );
    Ok(())
}

/// Prints a gap of the best reading of the data: no chunk is here in the reading that contradicts
/// the fewest pointers.
fn print_gap<C: Sink>(image: &Image, gap: Gap, out: &mut Out<'_, C>) {
    out.word("kind", "gap");
    add_gap(gap_place(image.prefix().len(), gap), out);
    out.line(
        "{image}: warning: {bytes#byte} at word {word} (byte {byte}) are no chunk that pointers \
         agree with",
    );
}
