//! The instances of a class.

ghost use Rattle.std.specs.Prelude.{All, IfSome};
ghost use Rattle.sqz_look_view.specs.Inspectors.{IsObjectOf};

use crate::holders::Holders;
use crate::preview_fields::PreviewFields;
use sqz_answers::{Listed, dead_listing_of, listing_of, sort_by_retained};
use sqz_histogram::Group;
use sqz_image::Sink;
use sqz_look_args::ListOrder;
use sqz_look_view::{Inspector, Out, PrintError, preview_of};
use sqz_names::Counter;
use sqz_object::ObjectIndex;
use std::alloc::AllocError;

/// The line above the instances, in the text form.
const HEADING: &str = "       bytes     retained  address   preview";

/// What tells what the instances of a class are: the variables that hold objects, what their
/// elements are counted by, and the fields that say what they are.
#[derive(Drop)]
struct Describing {
    holders: Holders,
    counter: Counter,
    fields: PreviewFields,
}

impl Describing {
    /// Returns what tells what the instances of a class are, given the first one.
    fn of(inspector: &Inspector<'_>, first: Option<ObjectIndex>) -> Result<Self, AllocError>
        requires { IfSome first (λ object.
            IsObjectOf inspector.now object) }
    {
        let (counter, fields) = match first {
            Some(object) => (
                Counter::of(&inspector.names, object)?,
                PreviewFields::of(inspector, object)?,
            ),
            None => (Counter::Fields, PreviewFields::none()),
        };
        Ok(Describing {
            holders: Holders::of(inspector)?,
            counter,
            fields,
        })
    }

    /// Returns what an instance is in a few words.
    fn preview(
        &self,
        inspector: &Inspector<'_>,
        object: ObjectIndex,
    ) -> Result<Option<String>, AllocError>
        requires { IsObjectOf inspector.now object }
    {
        match preview_of(inspector, self.counter, object)? {
            Some(preview) => Ok(Some(preview)),
            None => self.fields.preview(inspector, object),
        }
    }
}

/// Prints the live instances of a class, or the live objects without a class that have a compact
/// index, in an order, with what each retains; and last what they retain together.
pub fn print_list<C: Sink>(
    inspector: &Inspector<'_>,
    group: Group,
    order: ListOrder,
    out: &mut Out<'_, C>,
) -> Result<(), PrintError> {
    let mut listing = listing_of(inspector.alloc, &inspector.live, group)?;
    let first = match listing.rows.first() {
        Some(row) => Some(row.object),
        None => None,
    };
    let describing = Describing::of(inspector, first)?;
    if order == ListOrder::Retained {
        sort_by_retained(&mut listing.rows)?;
    }
    print_rows(inspector, &describing, &listing.rows, out);
    print_total(
        listing.rows.len(),
        listing.bytes,
        Some(listing.retained_together),
        out,
    );
    out.end()
}

/// Prints live instances.
fn print_rows<C: Sink>(
    inspector: &Inspector<'_>,
    describing: &Describing,
    rows: &[Listed],
    out: &mut Out<'_, C>,
)
    requires { All (λ row. IsObjectOf inspector.now row.object) rows.now }
{
    out.heading(HEADING);
    for row in &rows[..out.shown(rows.len())] {
        let retained = Some(row.retained);
        print_instance(inspector, describing, row.object, retained, out);
    }
    out.rest(rows.len(), "object");
}

/// Prints the instances of a class that are not live, or such objects without a class that have a
/// compact index, largest first.
pub fn print_dead_list<C: Sink>(
    inspector: &Inspector<'_>,
    group: Group,
    out: &mut Out<'_, C>,
) -> Result<(), PrintError> {
    let listing = dead_listing_of(inspector.alloc, &inspector.live, group)?;
    let rows = listing.rows.as_slice();
    let first = match rows.first() {
        Some(row) => Some(row.object),
        None => None,
    };
    let describing = Describing::of(inspector, first)?;
    out.heading(HEADING);
    for row in &rows[..out.shown(rows.len())] {
        print_instance(inspector, &describing, row.object, None, out);
    }
    out.rest(rows.len(), "object");
    print_total(rows.len(), listing.bytes, None, out);
    out.end()
}

/// Prints an instance. One that is not live retains nothing.
fn print_instance<C: Sink>(
    inspector: &Inspector<'_>,
    describing: &Describing,
    object: ObjectIndex,
    retained: Option<u64>,
    out: &mut Out<'_, C>,
)
    requires { IsObjectOf inspector.now object }
{
    out.hex("address", inspector.address(object).0);
    out.amount("bytes", inspector.bytes(object));
    out.amount_or_null("retained", retained);
    out.text_or_null("preview", describing.preview(inspector, object));
    out.word_or_null("variable", describing.holders.label_of(object));
    out.line("{bytes:>12} {retained:>12}  {address}{preview/  }{variable/  in }");
}

/// Prints what all instances are. Those that are not live retain nothing.
fn print_total<C: Sink>(
    objects: usize,
    bytes: u64,
    retained_together: Option<u64>,
    out: &mut Out<'_, C>,
) {
    out.number("objects", objects as u64);
    out.amount("bytes", bytes);
    out.amount_or_null("retained_together", retained_together);
    out.line(match retained_together {
        Some(_) => "{objects#object}, {bytes#byte}, retain {retained_together#byte} together",
        None => "{objects#object}, {bytes#byte}, not live",
    });
}
