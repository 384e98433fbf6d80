//! What the file of an image holds.

use crate::faults::add_fault;
use crate::unreadable::Unreadable;
use sqz_facts::{FileFacts, file_facts};
use sqz_image::{Header, Sink};
use sqz_look_view::{Inspector, Out, PrintError, Subject};
use sqz_object::Order;
use sqz_trace::first_fault;
use std::alloc::{AllocError, Global};
use std::thread::Threads;

/// Prints what the file of an image holds, and its first fault.
pub fn print_info<C: Sink>(
    rt: &(impl Threads + Sync),
    subject: Subject<'_>,
    path: &str,
    out: &mut Out<'_, C>,
) -> Result<(), PrintError> {
    let facts = file_facts(subject.image, &subject.live.marks);
    out.path("image", path);
    add_place(facts.order, u64::from(facts.offset), out);
    out.hex("base", facts.base);
    out.amount("data_bytes", facts.data_bytes);
    out.hex("special_objects", facts.special_objects);
    add_sums(facts, out);
    out.part("base            {base}");
    out.part("data            {data_bytes#byte}");
    out.part("special objects {special_objects}");
    out.part("objects         {objects}");
    out.part("live            {live_objects#object}, {live_bytes#byte}");
    out.part("dead            {dead_objects#object}, {dead_bytes#byte}");
    out.part("free            {free_chunks#chunk}, {free_bytes#byte}");
    print_fault(rt, subject, out)?;
    out.end()
}

/// Adds how many objects and bytes of a file are live, dead and free.
fn add_sums<C: Sink>(facts: FileFacts, out: &mut Out<'_, C>) {
    out.number("objects", u64::from(facts.objects));
    out.number("live_objects", u64::from(facts.live_objects));
    out.amount("live_bytes", facts.live_bytes);
    out.amount("dead_bytes", facts.dead_bytes);
    out.number("free_chunks", u64::from(facts.free_chunks));
    if !out.is_json() {
        out.amount("free_bytes", facts.free_bytes);
        out.number(
            "dead_objects",
            u64::from(facts.objects.saturating_sub(facts.live_objects)),
        );
    }
}

/// Prints the first fault of an image, with what has the object at fault, and ends the row.
fn print_fault<C: Sink>(
    rt: &(impl Threads + Sync),
    subject: Subject<'_>,
    out: &mut Out<'_, C>,
) -> Result<(), AllocError> {
    let Some(fault) = first_fault(rt, &subject.live) else {
        out.null("fault");
        out.line("no fault");
        return Ok(());
    };
    out.begin_object("fault");
    add_fault(&Inspector::of(subject)?, fault, true, out)?;
    out.end_object();
    out.line("{fault}{owner/, in }{path/, at }");
    Ok(())
}

/// Prints what could be read of a file from which no image could be read, and why not.
pub fn print_info_unreadable<C: Sink>(
    alloc: Global,
    unreadable: &Unreadable,
    path: &str,
    out: &mut Out<'_, C>,
) -> Result<(), PrintError> {
    out.path("image", path);
    add_header(unreadable.header, out);
    out.null("objects");
    out.null("live_objects");
    out.null("live_bytes");
    out.null("dead_bytes");
    out.null("free_chunks");
    if let Some(address) = unreadable.last_object
        && !out.is_json()
    {
        out.hex("last_object", address);
        out.part("last object     {last_object}");
    }
    out.begin_object("fault");
    unreadable.facts().add_without_owner(alloc, out);
    out.end_object();
    out.line("{fault}");
    out.end()
}

/// Adds the byte order of an image, and where its header begins.
fn add_place<C: Sink>(order: Order, offset: u64, out: &mut Out<'_, C>) {
    out.word(
        "order",
        match order {
            Order::Little => "little-endian",
            Order::Big => "big-endian",
        },
    );
    out.number("offset", offset);
    out.part("order           {order}");
    out.part("header at       byte {offset}");
}

/// Adds the header of a file from which no image could be read, if it has one. The text form has its
/// words, four in a line.
fn add_header<C: Sink>(header: Option<Header>, out: &mut Out<'_, C>) {
    let Some(header) = header else {
        out.null("order");
        out.null("offset");
        out.null("base");
        out.null("data_bytes");
        return out.null("special_objects");
    };
    add_place(header.order, header.offset as u64, out);
    out.hex("base", header.base());
    out.amount("data_bytes", u64::from(header.data_size()));
    out.hex("special_objects", header.special());
    if out.is_json() {
        return;
    }
    for (index, words) in header.words.chunks(4).enumerate() {
        if let [first, second, third, fourth] = words {
            out.hex("first", *first);
            out.hex("second", *second);
            out.hex("third", *third);
            out.hex("fourth", *fourth);
            out.part(if index == 0 {
                "header words    {first} {second} {third} {fourth}"
            } else {
                "                {first} {second} {third} {fourth}"
            });
        }
    }
}
