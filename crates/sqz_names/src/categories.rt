//! The categories of classes and methods.

ghost use Rattle.std.specs.Prelude.{◌≡◌, ◌^◌, ◌<◌, ℕ, false, length, IfOk, IfSome, IsTrue};
ghost use Rattle.std.specs.BTreeMap.{get};
ghost use Rattle.std.specs.List.Sorted.{IsNonDecreasing};
ghost use Rattle.std.specs.Ordering.{nat_cmp};
ghost use Rattle.std.proofs.Props.{props};
ghost use Rattle.sqz_image.specs.Objects.{object_count};
ghost use Rattle.sqz_object.specs.Value.{value_of};
ghost use Rattle.sqz_names.specs.Categories.{array_of, category_at, category_ends, category_place};
ghost use Rattle.sqz_names.specs.Categories.{end_of, listed_at, maxima, stated_category};
ghost use Rattle.sqz_names.specs.Categories.{HasVariableLabel, IsCategory, IsCategoryOf};
ghost use Rattle.sqz_names.specs.Categories.{IsNoOrganization, IsOrganization, IsSystemOrganizer};
ghost use Rattle.sqz_names.specs.Names.{IsVariableName};

use crate::bytes::spells;
use crate::fields::{CATEGORIES, CATEGORIZED, CATEGORY_ENDS, VALUE};
use crate::label::Label;
use crate::names::Names;
use crate::targets::field_target;
use crate::variable_name::VariableName;
use sqz_image::Heap;
use sqz_object::{ObjectIndex, Value, value_of};
use std::alloc::{AllocError, Global};
use std::collections::BTreeMap;

/// The name of the global variable whose value says which categories classes have.
const ORGANIZATION: &str = "SystemOrganization";

/// The categories that an organizer states. The system organizer lists the names of classes in the
/// order of their categories, and states for each category the number of names up to its last one;
/// the organizer of a class does so for the selectors of its methods. An object that is listed
/// several times has the first of its categories.
#[derive(Drop)]
pub struct Categories<'n, 'a> {
    names: &'n Names<'a>,
    organizer: Option<ObjectIndex>,
    /// The first place of each listed object, from 0.
    places: BTreeMap<ObjectIndex, u32>,
    /// For each category the number of listed objects up to its last one, and no less than for the
    /// category before.
    ends: Vec<u32>,
    ghost inside: { IfSome organizer (λ organizer. organizer < object_count names.now.graph.heap.now) } by { Prim.hlevel props },
    ghost are_places: { (listed : ℕ) → get nat_cmp places listed
        ≡ listed_at names.now.graph.heap.now organizer listed } by { Prim.hlevel props },
    ghost are_ends: { ends.items ≡ maxima 0 (category_ends names.now.graph.heap.now organizer) } by { Prim.hlevel props },
    ghost few: { length ends.items < 2 ^ 32 },
}

impl<'n, 'a> Categories<'n, 'a> {
    /// Returns the categories of the classes of an image: those that the value of the global
    /// variable `SystemOrganization` states. Fails only if out of memory.
    pub fn of_classes(alloc: Global, names: &'n Names<'a>) -> Result<Self, AllocError>
        ensures names { IfOk result (λ categories. categories.names.now ≡ names.now) }
        ensures organizer { IfOk result (λ categories. IsSystemOrganizer
            names.now.graph.heap.now names.now.graph.weak categories.organizer) }
    {
        let organizer = system_organizer(alloc, names)?;
        Categories::stated_by(alloc, names, organizer)
    }

    /// Returns the categories that an organizer states. If there is no organizer, no object has a
    /// category. Fails only if out of memory.
    pub fn stated_by(
        alloc: Global,
        names: &'n Names<'a>,
        organizer: Option<ObjectIndex>,
    ) -> Result<Self, AllocError>
        requires { IfSome organizer (λ organizer.
            organizer < object_count names.now.graph.heap.now) }
        ensures names { IfOk result (λ categories. categories.names.now ≡ names.now) }
        ensures organizer { IfOk result (λ categories. categories.organizer ≡ organizer) }
    {
        let heap = names.graph.heap;
        Ok(Categories {
            names,
            organizer,
            places: places_in(alloc, heap, organizer)?,
            ends: ends_in(alloc, heap, organizer)?,
        })
    }

    /// Returns the category under which an object is listed: a string or a symbol. None if it has
    /// none. Fails only if out of memory.
    pub fn of_listed(&self, listed: ObjectIndex) -> Result<Option<ObjectIndex>, AllocError>
        ensures category { IfOk result (IsCategoryOf self.now.names.now.graph.heap.now
            self.now.names.now.graph.weak self.now.organizer listed) }
        ensures inside { IfOk result (λ found. IfSome found (λ category.
            category < object_count self.now.names.now.graph.heap.now)) }
    {
        if_text(self.names, self.stated(listed))
    }

    /// Returns the category under which an object is listed, as text. None if it has none. Fails
    /// only if out of memory.
    pub fn text_of(&self, listed: ObjectIndex) -> Result<Option<String>, AllocError> {
        match self.of_listed(listed)? {
            Some(category) => Ok(Some(self.names.text(category)?)),
            None => Ok(None),
        }
    }

    /// Returns what stands at the place of the category of a listed object.
    fn stated(&self, listed: ObjectIndex) -> Option<ObjectIndex>
        ensures stated { result ≡ stated_category self.now.names.now.graph.heap.now
            self.now.organizer listed }
        ensures inside { IfSome result (λ category.
            category < object_count self.now.names.now.graph.heap.now) }
    {
        let category = self.category_place(listed)?;
        let names = self.names;
        let heap = names.graph.heap;
        field_target(heap, array_of(heap, self.organizer, CATEGORIES)?, category)
    }

    /// Returns the place of the category of a listed object.
    fn category_place(&self, listed: ObjectIndex) -> Option<u32>
        ensures { result ≡ category_place self.now.names.now.graph.heap.now
            self.now.organizer listed }
    {
        let place = *self.places.get(&listed)?;
        category_at(&self.ends, place)
    }
}

/// Returns an object if it is a string or a symbol.
fn if_text(
    names: &Names<'_>,
    object: Option<ObjectIndex>,
) -> Result<Option<ObjectIndex>, AllocError>
    requires { IfSome object (λ object. object < object_count names.now.graph.heap.now) }
    ensures category { IfOk result (IsCategory names.now.graph.heap.now
        names.now.graph.weak object) }
    ensures inside { IfOk result (λ found. IfSome found (λ category.
        category < object_count names.now.graph.heap.now)) }
{
    let Some(object) = object else {
        return Ok(None);
    };
    match names.label_of(object)? {
        Label::String | Label::Symbol => Ok(Some(object)),
        _ => Ok(None),
    }
}

/// Returns the value of the global variable `SystemOrganization`. None if there is none. Fails only
/// if out of memory.
fn system_organizer(alloc: Global, names: &Names<'_>) -> Result<Option<ObjectIndex>, AllocError>
    ensures organizer { IfOk result
        (IsSystemOrganizer names.now.graph.heap.now names.now.graph.weak) }
    ensures inside { IfOk result (λ found. IfSome found (λ found.
        found < object_count names.now.graph.heap.now)) }
{
    let heap = names.graph.heap;
    for variable in &names.variables {
        if is_organization(alloc, names, variable)? {
            return Ok(field_target(heap, variable.association, VALUE));
        }
    }
    Ok(None)
}

/// Returns whether a variable is the global variable `SystemOrganization`, and the label of its
/// association that of a variable.
fn is_organization(
    alloc: Global,
    names: &Names<'_>,
    variable: &VariableName,
) -> Result<bool, AllocError>
    requires { IsVariableName names.now.graph.heap.now names.now.graph.weak variable.now }
    ensures sound { IfOk result (λ is. IsTrue is
        → IsOrganization names.now.graph.heap.now names.now.graph.weak variable.now) }
    ensures complete { IfOk result (λ is. is ≡ false
        → IsNoOrganization names.now.graph.heap.now names.now.graph.weak variable.now) }
{
    if variable.class.is_some() {
        return Ok(false);
    }
    if !spells(alloc, names.graph.heap, variable.key, ORGANIZATION)? {
        return Ok(false);
    }
    has_variable_label(names, variable.association)
}

/// Returns whether the label of an association is that of a variable.
fn has_variable_label(names: &Names<'_>, association: ObjectIndex) -> Result<bool, AllocError>
    requires { association < object_count names.now.graph.heap.now }
    ensures { IfOk result (HasVariableLabel names.now.graph.heap.now names.now.graph.weak
        association) }
{
    match names.label_of(association)? {
        Label::Global { .. } | Label::ClassVariable { .. } => Ok(true),
        _ => Ok(false),
    }
}

/// Returns an array of an organizer, given the field that points to it.
fn array_of(heap: &Heap, organizer: Option<ObjectIndex>, field: u32) -> Option<ObjectIndex>
    requires { IfSome organizer (λ organizer. organizer < object_count heap.now) }
    ensures array { result ≡ array_of heap.now organizer field }
    ensures inside { IfSome result (λ found. found < object_count heap.now) }
{
    field_target(heap, organizer?, field)
}

/// Returns the first place of each object that an organizer lists.
fn places_in(
    alloc: Global,
    heap: &Heap,
    organizer: Option<ObjectIndex>,
) -> Result<BTreeMap<ObjectIndex, u32>, AllocError>
    requires { IfSome organizer (λ organizer. organizer < object_count heap.now) }
    ensures { IfOk result (λ places. (listed : ℕ) → get nat_cmp places listed
        ≡ listed_at heap.now organizer listed) }
{
    let mut places = BTreeMap::new(alloc);
    let Some(array) = array_of(heap, organizer, CATEGORIZED) else {
        return Ok(places);
    };
    for place in 0..heap.fields(array) {
        if let Some(listed) = field_target(heap, array, place) {
            places.entry(listed)?.or_insert(place);
        }
    }
    Ok(places)
}

/// Returns for each category of an organizer the number of listed objects up to its last one, and
/// no less than for the category before.
fn ends_in(
    alloc: Global,
    heap: &Heap,
    organizer: Option<ObjectIndex>,
) -> Result<Vec<u32>, AllocError>
    requires { IfSome organizer (λ organizer. organizer < object_count heap.now) }
    ensures ends { IfOk result (λ found.
        found.items ≡ maxima 0 (category_ends heap.now organizer)) }
    ensures few { IfOk result (λ found. length found.items < 2 ^ 32) }
{
    let mut ends = Vec::new(alloc);
    let Some(array) = array_of(heap, organizer, CATEGORY_ENDS) else {
        return Ok(ends);
    };
    let fields = heap.object(array).fields();
    let mut most = 0u32;
    for place in 0..fields.len() {
        let Some(end) = end_of(fields.at(place)) else {
            return Ok(ends);
        };
        most = most.max(end);
        ends.push(most)?;
    }
    Ok(ends)
}

/// Returns the number of listed objects that a word states. None if it is no SmallInteger.
fn end_of(word: u32) -> Option<u32>
    ensures { result ≡ end_of (value_of word) }
{
    match value_of(word) {
        Value::Int(number) => Some(number.max(0) as u32),
        Value::Pointer(_) | Value::Odd(_) => None,
    }
}

/// Returns the place of the category of what is listed at a place.
fn category_at(ends: &[u32], place: u32) -> Option<u32>
    requires in_order { IsNonDecreasing ends.now }
    requires few { length ends.now < 2 ^ 32 }
    ensures { result ≡ category_at ends.now place }
{
    let category = ends.partition_point(|end| *end <= place);
    (category < ends.len()).then_some(category as u32)
}
