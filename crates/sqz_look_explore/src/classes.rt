//! Lines of classes.

ghost use Rattle.std.specs.Prelude.{All};
ghost use Rattle.sqz_image.specs.Objects.{object_count};
ghost use Rattle.sqz_histogram.specs.Groups.{IsInside};
ghost use Rattle.sqz_look_view.specs.Inspectors.{IsObjectOf};

use crate::page_out::PageOut;
use crate::places::place_of;
use sqz_answers::RetainedTotal;
use sqz_histogram::Group;
use sqz_image::Sink;
use sqz_look_view::{Inspector, Out, category_of};
use sqz_names::Categories;
use sqz_object::ObjectIndex;

/// Adds a line for each class of a live object, and for each compact index of those without a
/// class, in the order of these rows of a class histogram.
pub(crate) fn add_classes<C: Sink>(
    inspector: &Inspector<'_>,
    categories: &Categories<'_, '_>,
    rows: &[RetainedTotal],
    page: &mut PageOut,
    out: &mut Out<'_, C>,
)
    requires { All (λ row.
        IsInside (object_count inspector.now.live.graph.heap.now) row.total.group) rows.now }
{
    page.begin("classes");
    for row in rows {
        page.open('[');
        match row.total.group {
            Group::Class(class) => {
                page.number(place_of(inspector, class));
                page.made(inspector.names.name_of_class(class));
                page.made_if_any(category_of(inspector, categories, class));
                add_totals(*row, page);
                add_variables(inspector, class, page);
            }
            Group::Compact(index) => {
                page.number(-1 - i64::from(index));
                page.made(format!(in inspector.alloc; "compact {index}"));
                page.nothing();
                add_totals(*row, page);
                page.nothing();
            }
        }
        page.end_line(']', out);
    }
    page.end_block();
}

/// Adds the numbers of a class: its objects, their bytes, and the bytes that they retain.
fn add_totals(row: RetainedTotal, page: &mut PageOut) {
    page.number(i64::from(row.total.count));
    page.size(row.total.bytes);
    page.size(row.retained);
}

/// Adds the names of the instance variables of a class, if they are known.
fn add_variables(inspector: &Inspector<'_>, class: ObjectIndex, page: &mut PageOut)
    requires { IsObjectOf inspector.now class }
{
    match inspector.names.instance_variables(class) {
        Ok(Some(names)) => {
            page.open('[');
            for name in &names {
                page.made(inspector.names.text(*name));
            }
            page.close(']');
        }
        Ok(None) => page.nothing(),
        Err(error) => page.need(Err(error)),
    }
}
