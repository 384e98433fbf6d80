//! A class and its methods.

ghost use Rattle.sqz_look_view.specs.Inspectors.{IsObjectOf};

use crate::live_methods::live_methods;
use sqz_image::Sink;
use sqz_look_view::{Inspector, Out, PrintError, category_of, field_of};
use sqz_names::fields::{INSTANCE_VARIABLES, SUPERCLASS};
use sqz_names::{Categories, MethodName};
use sqz_object::ObjectIndex;
use std::alloc::{AllocError, Global};
use std::collections::BTreeMap;

/// The field of a class that points to the organizer of its methods.
const ORGANIZER: u32 = 4;

/// What is printed for methods that no organizer lists.
const NO_CATEGORY: &str = "no category";

/// A method of a class.
#[derive(Drop)]
struct CategorizedRow {
    /// None if no organizer lists it.
    category: Option<String>,
    selector: String,
    address: u32,
    bytes: u64,
}

/// The methods of a class, by category, selector and address.
type Rows = BTreeMap<(String, String, u32), CategorizedRow>;

/// Returns the name of the superclass of a class, if it has one.
fn superclass_of(
    inspector: &Inspector<'_>,
    class: ObjectIndex,
) -> Result<Option<String>, AllocError>
    requires { IsObjectOf inspector.now class }
{
    match field_of(inspector, class, SUPERCLASS) {
        Some(superclass) if inspector.names.is_class(superclass) => {
            Ok(Some(inspector.names.name_of_class(superclass)?))
        }
        _ => Ok(None),
    }
}

/// Returns the names of the instance variables that a class adds to those of its superclass.
fn instance_variables_of(
    inspector: &Inspector<'_>,
    class: ObjectIndex,
) -> Result<Vec<String>, AllocError>
    requires { IsObjectOf inspector.now class }
{
    let mut names = Vec::new(inspector.alloc);
    let Some(array) = field_of(inspector, class, INSTANCE_VARIABLES) else {
        return Ok(names);
    };
    for field in 0..inspector.live.graph.heap.fields(array) {
        if let Some(name) = field_of(inspector, array, field) {
            names.push(inspector.names.text(name)?)?;
        }
    }
    Ok(names)
}

/// Returns the names of the class variables of a class.
fn class_variables_of(
    inspector: &Inspector<'_>,
    class: ObjectIndex,
) -> Result<Vec<String>, AllocError> {
    let mut names = Vec::new(inspector.alloc);
    for variable in inspector.names.variables() {
        if variable.class == Some(class) {
            names.push(inspector.names.text(variable.key)?)?;
        }
    }
    Ok(names)
}

/// Returns the live methods of a class, by category.
fn rows_of(inspector: &Inspector<'_>, class: ObjectIndex) -> Result<Rows, AllocError>
    requires { IsObjectOf inspector.now class }
{
    let organizer = field_of(inspector, class, ORGANIZER);
    let categories = Categories::stated_by(inspector.alloc, &inspector.names, organizer)?;
    let mut rows = BTreeMap::new(inspector.alloc);
    for name in &live_methods(inspector)? {
        if name.class == class {
            let row = row_of(inspector, &categories, *name)?;
            add_row(inspector.alloc, &mut rows, row)?;
        }
    }
    Ok(rows)
}

/// Adds a method to those of a class.
fn add_row(alloc: Global, rows: &mut Rows, row: CategorizedRow) -> Result<(), AllocError> {
    let category = String::from_str(alloc, row.category_text())?;
    let key = (category, row.selector.clone()?, row.address);
    rows.insert(key, row)?;
    Ok(())
}

/// Returns the row of a method, given the categories of the methods of its class.
fn row_of(
    inspector: &Inspector<'_>,
    categories: &Categories<'_, '_>,
    name: MethodName,
) -> Result<CategorizedRow, AllocError>
    requires method { IsObjectOf inspector.now name.method }
    requires selector { IsObjectOf inspector.now name.selector }
{
    Ok(CategorizedRow {
        category: categories.text_of(name.selector)?,
        selector: inspector.names.text(name.selector)?,
        address: inspector.address(name.method).0,
        bytes: inspector.bytes(name.method),
    })
}

impl CategorizedRow {
    /// Returns the category as it is printed.
    fn category_text(&self) -> &str {
        match &self.category {
            Some(category) => category.as_str(),
            None => NO_CATEGORY,
        }
    }

    /// Returns whether two methods have the same category.
    fn has_category_of(&self, other: &CategorizedRow) -> bool {
        self.category_text() == other.category_text()
    }
}

/// Prints what a class is, and its live methods by category and selector.
pub fn print_class_code<C: Sink>(
    inspector: &Inspector<'_>,
    class: ObjectIndex,
    out: &mut Out<'_, C>,
) -> Result<(), PrintError>
    requires { IsObjectOf inspector.now class }
{
    let rows = rows_of(inspector, class)?;
    print_class(inspector, class, rows.len(), out)?;
    print_rows(&rows, out);
    out.end()
}

/// Prints what a class with a number of methods is.
fn print_class<C: Sink>(
    inspector: &Inspector<'_>,
    class: ObjectIndex,
    methods: usize,
    out: &mut Out<'_, C>,
) -> Result<(), AllocError>
    requires { IsObjectOf inspector.now class }
{
    out.text("class", inspector.names.name_of_class(class));
    out.hex("address", inspector.address(class).0);
    out.text_or_null("superclass", superclass_of(inspector, class));
    let categories = Categories::of_classes(inspector.alloc, &inspector.names)?;
    out.text_or_null("category", category_of(inspector, &categories, class));
    out.texts(
        "instance_variables",
        &instance_variables_of(inspector, class)?,
    );
    out.texts("class_variables", &class_variables_of(inspector, class)?);
    out.number("methods", methods as u64);
    out.part("class {class} {address}");
    out.part_if("superclass", "  superclass          {superclass}");
    out.part_if("category", "  category            {category}");
    out.part_if(
        "instance_variables",
        "  instance variables  {instance_variables}",
    );
    out.part_if("class_variables", "  class variables     {class_variables}");
    out.line("{methods#method}");
    Ok(())
}

/// Prints the methods of a class, those of a category under its name.
fn print_rows<C: Sink>(rows: &Rows, out: &mut Out<'_, C>) {
    let shown = out.shown(rows.len());
    let mut last: Option<&CategorizedRow> = None;
    for row in rows.values().take(shown) {
        if out.is_json() {
            out.word_or_null(
                "category",
                row.category.as_ref().map(|category| category.as_str()),
            );
        } else {
            out.word("category", row.category_text());
        }
        out.word("selector", row.selector.as_str());
        out.hex("address", row.address);
        out.amount("bytes", row.bytes);
        if !last.is_some_and(|last| last.has_category_of(row)) {
            out.part("{category}");
        }
        out.line("{bytes:>12}  {address}  {selector}");
        last = Some(row);
    }
    out.rest(rows.len(), "method");
}
