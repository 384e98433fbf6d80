//! Rows with their labels.

ghost use Rattle.std.specs.Prelude.{◌≡◌, All, length};
ghost use Rattle.sqz_image.specs.Objects.{object_count};
ghost use Rattle.sqz_answers.specs.GroupCounts.{AreCountsWithin};
ghost use Rattle.sqz_answers.specs.TopRows.{IsRowInside};
ghost use Rattle.sqz_look_view.specs.Inspectors.{IsObjectOf};

use crate::smaller::smaller_label;
use sqz_answers::{GroupCount, TopObjects, TopRow, TopRows};
use sqz_look_view::Inspector;
use sqz_names::Label;
use sqz_object::ObjectIndex;
use std::alloc::{AllocError, Global};
use std::collections::BTreeSet;

/// A row with its label. One that stands for several smaller objects has no address and no class.
#[derive(Drop)]
pub(crate) struct Row {
    pub(crate) label: String,
    /// The address of its object.
    pub(crate) address: Option<u32>,
    /// Whether its label alone does not tell its object from others: whether it has no name.
    pub(crate) is_unnamed: bool,
    /// The name of its object's class.
    pub(crate) class: Option<String>,
    /// The number of rows above it.
    pub(crate) depth: usize,
    /// The address of the object of the row above it.
    pub(crate) parent: Option<u32>,
    /// The bytes of the objects that the row itself stands for.
    pub(crate) own: u64,
    /// The bytes that no row below it retains.
    pub(crate) apart: u64,
    /// The bytes that it retains.
    pub(crate) retained: u64,
    /// The number of objects that it retains.
    pub(crate) objects: u64,
}

/// Returns rows with their labels. Rows below one row that would read the same have their
/// addresses in their labels.
pub(crate) fn labelled(inspector: &Inspector<'_>, top: &TopRows) -> Result<Vec<Row>, AllocError>
    requires rows { All (IsRowInside (object_count inspector.now.live.graph.heap.now))
        top.now.rows.items }
    requires sized { length top.now.groups.items ≡ length top.now.rows.items }
    requires groups { All (λ counts.
        AreCountsWithin (object_count inspector.now.live.graph.heap.now) counts.items)
        top.now.groups.items }
{
    let mut labelled = Vec::with_capacity(inspector.alloc, top.rows.len())?;
    let mut path = Vec::new(inspector.alloc);
    for (index, row) in top.rows.iter().enumerate() {
        path.truncate(row.depth as usize);
        let label = label_of(inspector, path.last().copied(), *row, &top.groups[index])?;
        path.push(*row)?;
        labelled.push(Row::of(inspector, *row, label)?)?;
    }
    make_distinct(inspector, &mut labelled)?;
    Ok(labelled)
}

impl Row {
    /// Returns a row with a label.
    fn of(inspector: &Inspector<'_>, row: TopRow, label: String) -> Result<Self, AllocError>
        requires { IsRowInside (object_count inspector.now.live.graph.heap.now) row }
    {
        let (address, class, is_unnamed) = match row.what {
            TopObjects::One { object, .. } => {
                let class = inspector.names.name_of_class_of(object)?;
                let is_unnamed = inspector.names.label_of(object)? == Label::Other;
                (Some(inspector.address(object).0), Some(class), is_unnamed)
            }
            TopObjects::Smaller { .. } => (None, None, false),
        };
        let parent = match row.parent {
            Some(parent) => Some(inspector.address(parent).0),
            None => None,
        };
        Ok(Row {
            label,
            address,
            is_unnamed,
            class,
            depth: row.depth as usize,
            parent,
            own: row.own,
            apart: row.apart,
            retained: row.retained,
            objects: row.objects,
        })
    }
}

/// Returns the label of a row below another one, given the groups of its smaller objects.
fn label_of(
    inspector: &Inspector<'_>,
    above: Option<TopRow>,
    row: TopRow,
    groups: &[GroupCount],
) -> Result<String, AllocError>
    requires row { IsRowInside (object_count inspector.now.live.graph.heap.now) row }
    requires groups { AreCountsWithin (object_count inspector.now.live.graph.heap.now) groups.now }
{
    match row.what {
        TopObjects::One { object, .. } => label_below(inspector, above, object),
        TopObjects::Smaller { count } => smaller_label(inspector, count, groups),
    }
}

/// Returns the label of an object below a row: a class variable below its class has no class in
/// its label.
fn label_below(
    inspector: &Inspector<'_>,
    above: Option<TopRow>,
    object: ObjectIndex,
) -> Result<String, AllocError>
    requires { IsObjectOf inspector.now object }
{
    if let Label::ClassVariable { class, key } = inspector.names.label_of(object)? {
        if stands_for(above, class) {
            let key = inspector.names.text(key)?;
            return format!(in inspector.alloc; "class variable {key}");
        }
    }
    inspector.names.short_label(object)
}

/// Returns whether a row stands for an object, or for a variable that holds it.
fn stands_for(row: Option<TopRow>, class: ObjectIndex) -> bool {
    match row.map(|row| row.what) {
        Some(TopObjects::One { object, value }) => object == class || value == Some(class),
        Some(TopObjects::Smaller { .. }) | None => false,
    }
}

/// Adds the addresses to the labels of rows below one row that read the same.
fn make_distinct(inspector: &Inspector<'_>, rows: &mut [Row]) -> Result<(), AllocError> {
    let repeated = repeated_keys(inspector.alloc, rows)?;
    for row in rows.iter_mut() {
        add_address(inspector.alloc, &repeated, row)?;
    }
    Ok(())
}

/// What rows below one row that read the same have in common: the address of that row, and their
/// label.
type Keys = BTreeSet<(Option<u32>, String)>;

/// Returns the keys that several rows have.
fn repeated_keys(alloc: Global, rows: &[Row]) -> Result<Keys, AllocError> {
    let mut seen = BTreeSet::new(alloc);
    let mut repeated = BTreeSet::new(alloc);
    for row in rows {
        if !add_key(&mut seen, row)? {
            add_key(&mut repeated, row)?;
        }
    }
    Ok(repeated)
}

/// Adds the key of a row, and returns whether it was not there.
fn add_key(keys: &mut Keys, row: &Row) -> Result<bool, AllocError> {
    Ok(keys.insert(key_of(row)?)?)
}

/// Adds the address of a row to its label, if several rows have its key.
fn add_address(alloc: Global, repeated: &Keys, row: &mut Row) -> Result<(), AllocError> {
    if let Some(address) = row.address
        && repeated.contains(&key_of(row)?)
    {
        row.label = format!(in alloc; "{} {address:08x}", row.label)?;
        row.is_unnamed = false;
    }
    Ok(())
}

/// Returns what rows below one row that read the same have in common.
fn key_of(row: &Row) -> Result<(Option<u32>, String), AllocError> {
    Ok((row.parent, row.label.clone()?))
}
