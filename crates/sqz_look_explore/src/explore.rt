//! An image as a page.

use crate::classes::add_classes;
use crate::counters::Counters;
use crate::head::add_head;
use crate::objects::{Measures, add_objects};
use crate::page::PAGE;
use crate::page_out::PageOut;
use crate::shown::shown_objects;
use sqz_answers::retained_histogram;
use sqz_dominators::dominators_of;
use sqz_image::Sink;
use sqz_look_view::{Inspector, Out, PrintError};
use sqz_names::Categories;
use std::thread::Threads;

/// What a page says about the file of an image.
#[derive(Clone, Copy)]
pub struct FileNotes<'a> {
    /// The path of the file.
    pub path: &'a str,
    /// The first fault of the image.
    pub fault: Option<&'a str>,
    /// What of the file was skipped.
    pub skipped: Option<&'a str>,
}

/// Prints a page that shows an image: its file, its classes, and each live object, or each that
/// retains at least `min` bytes, once, by address. What it retains and the classes are those of all
/// live objects. Fails with `WriteFailed` if the sink does, and with `OutOfMemory`.
///
/// After the page come blocks of data. Each is a script element of the type `application/json`, in
/// which no text has a `<`, and its class says what its lines are. Each line is a JSON value:
///
/// - `image`: one line, an object. Texts that are not there are 0, as everywhere. Besides `min` it
///   has how many live objects are left out, and their bytes.
/// - `classes`: an array for each class of a live object, those that retain most first: the place
///   of the class, or if the class is unknown, the compact class index subtracted from -1; its name
///   and category; how many objects it has, their bytes, and the bytes that they retain; and the
///   array of the names of its instance variables.
/// - `objects`: an array for each object that is not left out, by address: its place; its bytes,
///   and the bytes that it retains; the place of its immediate dominator, or -1; its class, as
///   above; its identity hash times 2048, its header words times 512, its compact class index times
///   16 and its format, added up; its label, if it is more than the class and the address; the value
///   of a number or a character as text, or of a collection one more than the number of its
///   elements; the bytes of a byte object as text; and then its traced fields. A method has in place
///   of the text an array: its bytecodes in hexadecimal digits, and the place of its class, or -1 if
///   its class is unknown.
/// - `end`: one line, the array of the number of these objects. A page without it was cut.
///
/// A place is the number of a data word, so the address is that of the first one and four times the
/// place. A field is an odd number, one more than twice the SmallInteger; or an even one, twice the
/// place of an object; an array of such a number if it is weak; or a text with the hexadecimal
/// digits of a word that leads to no object.
pub fn print_explore<C: Sink>(
    rt: &(impl Threads + Sync),
    inspector: &Inspector<'_>,
    notes: FileNotes<'_>,
    min: Option<u32>,
    out: &mut Out<'_, C>,
) -> Result<(), PrintError> {
    let (alloc, live) = (inspector.alloc, &inspector.live);
    let dominators = dominators_of(alloc, live.graph)?;
    let least = min.map_or(0, u64::from);
    let shown = shown_objects(alloc, live, &dominators, least)?;
    let histogram = retained_histogram(rt, alloc, live)?;
    let counters = Counters::of(inspector, &histogram.rows)?;
    let measures = Measures {
        dominators,
        counters,
    };
    let categories = Categories::of_classes(alloc, &inspector.names)?;
    let mut page = PageOut::new(alloc);
    page.plain(PAGE);
    add_head(inspector, &notes, least, &shown, &mut page);
    page.end_line('}', out);
    page.end_block();
    add_classes(inspector, &categories, &histogram.rows, &mut page, out);
    add_objects(inspector, &measures, &shown, &mut page, out);
    page.begin("end");
    page.open('[');
    page.size(shown.len() as u64);
    page.end_line(']', out);
    page.end_block();
    page.end(out)
}
