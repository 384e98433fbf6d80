//! The sums of a class histogram by category.

ghost use Rattle.std.specs.Prelude.{All, IfSome};
ghost use Rattle.sqz_image.specs.Objects.{object_count};
ghost use Rattle.sqz_histogram.specs.Groups.{IsInside};
ghost use Rattle.sqz_look_view.specs.Inspectors.{IsObjectOf};

use sqz_histogram::{Group, GroupTotal, first_bytes};
use sqz_look_view::{Inspector, listed_name};
use sqz_names::Categories;
use sqz_object::ObjectIndex;
use std::alloc::{AllocError, Global};
use std::cmp::Reverse;
use std::collections::BTreeMap;

/// What is printed for objects whose class has no category.
const NO_CATEGORY: &str = "no category";

/// The classes of a category, their objects and the bytes of these.
#[derive(Drop)]
pub(crate) struct CategorySum {
    pub(crate) category: String,
    pub(crate) classes: u64,
    pub(crate) objects: u64,
    pub(crate) bytes: u64,
}

/// The sums of the categories that were found.
#[derive(Drop)]
struct Sums {
    alloc: Global,
    /// For each category the first one with its bytes.
    known: BTreeMap<ObjectIndex, ObjectIndex>,
    /// The first category with each bytes.
    first: BTreeMap<Vec<u8>, ObjectIndex>,
    /// The sums by the first category. Objects without a category have none.
    sums: BTreeMap<Option<ObjectIndex>, CategorySum>,
}

/// Returns the sums of the rows of a class histogram by category, more bytes first, and on a tie by
/// the text of the category.
pub(crate) fn category_sums(
    inspector: &Inspector<'_>,
    totals: &[GroupTotal],
) -> Result<Vec<CategorySum>, AllocError>
    requires { All (λ total. IsInside (object_count inspector.now.live.graph.heap.now) total.group)
        totals.now }
{
    let alloc = inspector.alloc;
    let categories = Categories::of_classes(alloc, &inspector.names)?;
    let mut sums = Sums {
        alloc,
        known: BTreeMap::new(alloc),
        first: BTreeMap::new(alloc),
        sums: BTreeMap::new(alloc),
    };
    for total in totals {
        let category = match name_of(inspector, total.group)? {
            Some(name) => categories.of_listed(name)?,
            None => None,
        };
        sums.add(inspector, category, *total)?;
    }
    sums.in_order()
}

impl Sums {
    /// Adds a row of a class histogram, whose class has a category.
    fn add(
        &mut self,
        inspector: &Inspector<'_>,
        category: Option<ObjectIndex>,
        total: GroupTotal,
    ) -> Result<(), AllocError>
        requires { IfSome category (λ category. IsObjectOf inspector.now category) }
    {
        let new = CategorySum {
            category: text_of(inspector, category)?,
            classes: 0,
            objects: 0,
            bytes: 0,
        };
        let key = match category {
            Some(category) => Some(self.first(inspector, category)?),
            None => None,
        };
        let sum = self.sums.entry(key)?.or_insert(new);
        sum.classes = sum.classes.saturating_add(1);
        sum.objects = sum.objects.saturating_add(u64::from(total.count));
        sum.bytes = sum.bytes.saturating_add(total.bytes);
        Ok(())
    }

    /// Returns the first category that was found with the bytes of this one.
    fn first(
        &mut self,
        inspector: &Inspector<'_>,
        category: ObjectIndex,
    ) -> Result<ObjectIndex, AllocError>
        requires { IsObjectOf inspector.now category }
    {
        if let Some(first) = self.known.get(&category) {
            return Ok(*first);
        }
        let (alloc, heap) = (inspector.alloc, inspector.live.graph.heap);
        let bytes = first_bytes(alloc, heap.order(), &heap.object(category), usize::MAX)?;
        let first = match bytes {
            Some(bytes) => *self.first.entry(bytes)?.or_insert(category),
            None => category,
        };
        self.known.insert(category, first)?;
        Ok(first)
    }

    /// Returns the sums, more bytes first, and on a tie by the text of the category.
    fn in_order(self) -> Result<Vec<CategorySum>, AllocError> {
        let mut ordered = BTreeMap::new(self.alloc);
        for (category, sum) in self.sums {
            let key = (Reverse(sum.bytes), sum.category.clone()?, category);
            ordered.insert(key, sum)?;
        }
        let mut rows = Vec::with_capacity(self.alloc, ordered.len())?;
        for sum in ordered.into_values() {
            rows.push(sum)?;
        }
        Ok(rows)
    }
}

/// Returns a category as text.
fn text_of(inspector: &Inspector<'_>, category: Option<ObjectIndex>) -> Result<String, AllocError>
    requires { IfSome category (λ category. IsObjectOf inspector.now category) }
{
    match category {
        Some(category) => inspector.names.text(category),
        None => String::from_str(inspector.alloc, NO_CATEGORY),
    }
}

/// Returns the name by which the class of a group is listed.
fn name_of(inspector: &Inspector<'_>, group: Group) -> Result<Option<ObjectIndex>, AllocError>
    requires { IsInside (object_count inspector.now.live.graph.heap.now) group }
{
    match group {
        Group::Class(class) => listed_name(inspector, class),
        Group::Compact(_) => Ok(None),
    }
}
