//! A method as a row.

ghost use Rattle.std.specs.Prelude.{All};
ghost use Rattle.sqz_names.specs.Names.{IsMethodName};
ghost use Rattle.sqz_look_view.specs.Inspectors.{IsObjectOf};

use sqz_image::Sink;
use sqz_look_view::{Inspector, Out, PrintError};
use sqz_names::MethodName;
use std::alloc::AllocError;
use std::collections::BTreeMap;

/// A method of a class.
#[derive(Drop)]
pub(crate) struct MethodRow {
    pub(crate) method: String,
    pub(crate) address: u32,
    pub(crate) bytes: u64,
}

impl MethodRow {
    /// Returns the row of a method.
    pub(crate) fn of(inspector: &Inspector<'_>, name: MethodName) -> Result<Self, AllocError>
        requires method { IsObjectOf inspector.now name.method }
        requires class { IsObjectOf inspector.now name.class }
        requires selector { IsObjectOf inspector.now name.selector }
    {
        let class = inspector.names.name_of_class(name.class)?;
        let selector = inspector.names.text(name.selector)?;
        Ok(MethodRow {
            method: format!(in inspector.alloc; "{class}>>{selector}")?,
            address: inspector.address(name.method).0,
            bytes: inspector.bytes(name.method),
        })
    }

    /// Adds the method to a row.
    pub(crate) fn add<C: Sink>(&self, out: &mut Out<'_, C>) {
        out.word("method", self.method.as_str());
        out.hex("address", self.address);
        out.amount("bytes", self.bytes);
    }
}

/// Methods by name, and on a tie by address.
type Rows = BTreeMap<(String, u32), MethodRow>;

/// Returns methods by name.
fn rows_of(inspector: &Inspector<'_>, methods: &[MethodName]) -> Result<Rows, AllocError>
    requires { All (IsMethodName inspector.now.live.graph.heap.now
        inspector.now.live.graph.weak) methods.now }
{
    let mut rows = BTreeMap::new(inspector.alloc);
    for name in methods {
        add_row(&mut rows, MethodRow::of(inspector, *name)?)?;
    }
    Ok(rows)
}

/// Adds a method to others.
fn add_row(rows: &mut Rows, row: MethodRow) -> Result<(), AllocError> {
    rows.insert((row.method.clone()?, row.address), row)?;
    Ok(())
}

/// Prints methods by name, on a tie by address, and how many there are.
pub(crate) fn print_methods<C: Sink>(
    inspector: &Inspector<'_>,
    methods: &[MethodName],
    out: &mut Out<'_, C>,
) -> Result<(), PrintError>
    requires { All (IsMethodName inspector.now.live.graph.heap.now
        inspector.now.live.graph.weak) methods.now }
{
    let rows = rows_of(inspector, methods)?;
    let shown = out.shown(rows.len());
    out.heading("       bytes  address   method");
    for row in rows.values().take(shown) {
        row.add(out);
        out.line("{bytes:>12}  {address}  {method}");
    }
    out.rest(rows.len(), "method");
    out.end()
}
