//! Objects and classes that words stand for.

ghost use Rattle.std.specs.Prelude.{IfErr, IfOk};
ghost use Rattle.sqz_alike.specs.Seen.{seen};
ghost use Rattle.sqz_look_cli.specs.Comparison.{IfNotThere};
ghost use Rattle.sqz_look_cli.specs.Objects.{StandsForNone};
ghost use Rattle.sqz_names.specs.declared.words.found.Found.TheVariants.{One};
ghost use Rattle.sqz_names.specs.Found.{IsMissing};
ghost use Rattle.sqz_names.specs.Words.{IsGroup, IsObject};
ghost use Rattle.sqz_look_view.specs.Inspectors.{IsObjectOf};

use sqz_histogram::Group;
use sqz_look::missing_message;
use sqz_look_files::Failure;
use sqz_look_view::{Inspector, Shown};
use sqz_names::{Found, Missing, find_class, find_object};
use sqz_object::ObjectIndex;
use std::alloc::AllocError;

/// Returns the object that words stand for.
pub(crate) fn the_object(inspector: &Inspector<'_>, words: &str) -> Result<ObjectIndex, Failure>
    ensures found { IfOk result (λ object. IsObject inspector.now.live.graph.heap.now
        inspector.now.live.graph.weak inspector.now.live.marks words.now (One object)) }
    ensures inside { IfOk result (λ object. IsObjectOf inspector.now object) }
    ensures absent { IfErr result (λ failure. IfNotThere failure
        (StandsForNone (seen inspector.now.live) words.now)) }
{
    let (names, marks) = (&inspector.names, &inspector.live.marks);
    match find_object(inspector.alloc, names, marks, words)? {
        Found::One(object) => Ok(object),
        Found::Nothing(missing) => Err(not_there(inspector, words, &missing)?),
    }
}

/// Returns the class that words stand for, or the objects without a class that they stand for.
pub(crate) fn the_class(inspector: &Inspector<'_>, words: &str) -> Result<Group, Failure>
    ensures { IfOk result (λ group. IsGroup inspector.now.live.graph.heap.now
        inspector.now.live.graph.weak inspector.now.live.marks words.now (One group)) }
{
    match find_class(&inspector.names, &inspector.live.marks, words)? {
        Found::One(group) => Ok(group),
        Found::Nothing(missing) => Err(not_there(inspector, words, &missing)?),
    }
}

/// Returns the failure that words stand for nothing.
fn not_there(
    inspector: &Inspector<'_>,
    words: &str,
    missing: &Missing,
) -> Result<Failure, AllocError>
    requires { IsMissing inspector.now.live.graph.heap.now missing.now }
{
    let words = format!(in inspector.alloc; "{}", Shown(words))?;
    Ok(Failure::NotThere(missing_message(inspector, words.as_str(), missing)?))
}
