//! A class histogram.

ghost use Rattle.std.specs.Prelude.{All};
ghost use Rattle.sqz_image.specs.Objects.{object_count};
ghost use Rattle.sqz_histogram.specs.Groups.{IsInside};

use crate::category_sums::{CategorySum, category_sums};
use sqz_answers::{Histogram, dead_histogram, live_histogram, retained_histogram};
use sqz_histogram::{Group, GroupTotal};
use sqz_image::Sink;
use sqz_look_args::Grouping;
use sqz_look_view::{Inspector, Out, PrintError, category_of};
use sqz_names::Categories;
use std::alloc::AllocError;
use std::thread::Threads;

/// The line above a class histogram, in the text form. The columns are those that
/// `sqzcompact --census` prints, and one for the addresses of the classes.
const HEADING: &str = "   objects        bytes address  class";

/// The line above the sums of a class histogram by category, in the text form.
const CATEGORY_HEADING: &str = "   objects        bytes   classes  category";

/// The line above a class histogram with what the instances of each class retain.
const RETAINED_HEADING: &str = "   objects        bytes     retained address  class";

/// Prints a class histogram of the live objects of the image in a file, with the addresses of the
/// classes, and to JSON their categories.
pub fn print_census<C: Sink>(
    rt: &(impl Threads + Sync),
    inspector: &Inspector<'_>,
    path: &str,
    by: Grouping,
    out: &mut Out<'_, C>,
) -> Result<(), PrintError> {
    let histogram = live_histogram(rt, inspector.alloc, &inspector.live)?;
    print_histogram(inspector, path, &histogram, by, out)
}

/// Prints a class histogram of the objects that are not live, as `print_census` does.
pub fn print_dead_census<C: Sink>(
    rt: &(impl Threads + Sync),
    inspector: &Inspector<'_>,
    path: &str,
    by: Grouping,
    out: &mut Out<'_, C>,
) -> Result<(), PrintError> {
    let histogram = dead_histogram(rt, inspector.alloc, &inspector.live)?;
    print_histogram(inspector, path, &histogram, by, out)
}

/// Prints a class histogram of the live objects, as `print_census` does, with what the instances of
/// each class retain, the classes that retain most first. All classes together retain all live
/// bytes.
pub fn print_retained_census<C: Sink>(
    rt: &(impl Threads + Sync),
    inspector: &Inspector<'_>,
    path: &str,
    out: &mut Out<'_, C>,
) -> Result<(), PrintError> {
    let histogram = retained_histogram(rt, inspector.alloc, &inspector.live)?;
    let categories = Categories::of_classes(inspector.alloc, &inspector.names)?;
    let rows = histogram.rows.as_slice();
    out.heading(RETAINED_HEADING);
    for row in &rows[..out.shown(rows.len())] {
        add_group(inspector, path, &categories, row.total, out);
        out.amount("retained", row.retained);
        out.line(match row.total.group {
            Group::Class(_) => "{objects:>10} {bytes:>12} {retained:>12} {address} {class}",
            Group::Compact(_) => "{objects:>10} {bytes:>12} {retained:>12} -------- {class}",
        });
    }
    out.rest(rows.len(), "row");
    add_total(path, histogram.objects, histogram.bytes, out);
    out.amount("retained", histogram.bytes);
    out.line("{objects:>10} {bytes:>12} {retained:>12} total");
    out.end()
}

/// Prints the rows of a class histogram, or their sums by category, and the sums of all.
fn print_histogram<C: Sink>(
    inspector: &Inspector<'_>,
    path: &str,
    histogram: &Histogram,
    by: Grouping,
    out: &mut Out<'_, C>,
) -> Result<(), PrintError>
    requires { All (λ total. IsInside (object_count inspector.now.live.graph.heap.now) total.group)
        histogram.now.totals.items }
{
    match by {
        Grouping::Class => print_classes(inspector, path, histogram, out)?,
        Grouping::Category => {
            let sums = category_sums(inspector, &histogram.totals)?;
            print_categories(path, histogram, &sums, out);
        }
    }
    out.end()
}

/// Prints the rows of a class histogram, and their sums.
fn print_classes<C: Sink>(
    inspector: &Inspector<'_>,
    path: &str,
    histogram: &Histogram,
    out: &mut Out<'_, C>,
) -> Result<(), AllocError>
    requires { All (λ total. IsInside (object_count inspector.now.live.graph.heap.now) total.group)
        histogram.now.totals.items }
{
    let categories = Categories::of_classes(inspector.alloc, &inspector.names)?;
    let totals = histogram.totals.as_slice();
    out.heading(HEADING);
    for total in &totals[..out.shown(totals.len())] {
        add_group(inspector, path, &categories, *total, out);
        out.line(match total.group {
            Group::Class(_) => "{objects:>10} {bytes:>12} {address} {class}",
            Group::Compact(_) => "{objects:>10} {bytes:>12} -------- {class}",
        });
    }
    out.rest(totals.len(), "row");
    add_total(path, histogram.objects, histogram.bytes, out);
    out.line("{objects:>10} {bytes:>12} total");
    Ok(())
}

/// Adds a group of objects, their number and their bytes.
fn add_group<C: Sink>(
    inspector: &Inspector<'_>,
    path: &str,
    categories: &Categories<'_, '_>,
    total: GroupTotal,
    out: &mut Out<'_, C>,
)
    requires { IsInside (object_count inspector.now.live.graph.heap.now) total.group }
{
    out.word("image", path);
    match total.group {
        Group::Class(class) => {
            out.text("class", inspector.names.name_of_class(class));
            out.hex("address", inspector.address(class).0);
            if out.is_json() {
                out.text_or_null("category", category_of(inspector, categories, class));
            }
        }
        Group::Compact(index) => {
            out.text("class", format!(in inspector.alloc; "compact {index}"));
            out.null("address");
            out.null("category");
        }
    }
    out.number("objects", u64::from(total.count));
    out.amount("bytes", total.bytes);
}

/// Adds how many objects and bytes there are.
fn add_total<C: Sink>(path: &str, objects: u32, bytes: u64, out: &mut Out<'_, C>) {
    out.word("image", path);
    out.null("class");
    out.null("address");
    out.null("category");
    out.number("objects", u64::from(objects));
    out.amount("bytes", bytes);
}

/// Prints the sums of a class histogram by category, and of all its rows.
fn print_categories<C: Sink>(
    path: &str,
    histogram: &Histogram,
    sums: &[CategorySum],
    out: &mut Out<'_, C>,
) {
    out.heading(CATEGORY_HEADING);
    for sum in &sums[..out.shown(sums.len())] {
        out.word("image", path);
        out.word("category", sum.category.as_str());
        out.number("classes", sum.classes);
        out.number("objects", sum.objects);
        out.amount("bytes", sum.bytes);
        out.line("{objects:>10} {bytes:>12} {classes:>9}  {category}");
    }
    out.rest(sums.len(), "row");
    out.word("image", path);
    out.null("category");
    out.number("classes", histogram.totals.len() as u64);
    out.number("objects", u64::from(histogram.objects));
    out.amount("bytes", histogram.bytes);
    out.line("{objects:>10} {bytes:>12} {classes:>9}  total");
}
