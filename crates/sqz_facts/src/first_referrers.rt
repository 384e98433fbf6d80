//! The first references to each of many objects.

ghost use Rattle.std.specs.Prelude.{All, IfOk, List, ℕ, [], ◌∷◌, ◌++◌, ◌<◌, ◌≡◌, Some, length, map};
ghost use Rattle.sqz_image.specs.Objects.{object_count};
ghost use Rattle.sqz_trace.specs.Edges.{strong_slots};
ghost use Rattle.sqz_facts.specs.declared.referrers.Referrer as reference;
ghost use Rattle.sqz_facts.specs.Referrers.{referrers, referrers_among};
ghost use Rattle.sqz_facts.specs.FirstReferrers.{AreFirstTwo, AreInside, AreRows, first_at};
ghost use Rattle.sqz_facts.specs.FirstReferrers.{first_two, row_of};

use crate::Referrer;
use sqz_object::ObjectIndex;
use sqz_trace::{Live, OutEdges};
use std::alloc::{AllocError, Global};

/// The first two references that live objects hold to an object: by index, and the class word of an
/// object before its fields.
#[derive(Clone, Copy)]
pub struct FirstReferrers {
    /// None if there is no reference.
    pub first: Option<Referrer>,
    /// None if there are fewer than two.
    pub second: Option<Referrer>,
}

impl FirstReferrers {
    /// Returns no references.
    fn none() -> Self
        ensures { result ≡ first_two [] }
    {
        FirstReferrers {
            first: None,
            second: None,
        }
    }

    /// Returns these references with one more, if they are fewer than two.
    fn with(self, referrer: Referrer) -> Self
        ensures { (references : List reference.Referrer) → self ≡ first_two references
            → result ≡ first_two (references ++ referrer ∷ []) }
    {
        match (self.first, self.second) {
            (None, _) => FirstReferrers {
                first: Some(referrer),
                ..self
            },
            (Some(_), None) => FirstReferrers {
                second: Some(referrer),
                ..self
            },
            (Some(_), Some(_)) => self,
        }
    }
}

/// Returns the first references to each of some objects. Takes one pass over the slots of all live
/// objects, and sixteen bytes per object of the image and up to 64 per listed one. Fails only if
/// out of memory.
pub fn first_referrers_of(
    alloc: Global,
    live: &Live<'_>,
    objects: &[ObjectIndex],
) -> Result<Vec<FirstReferrers>, AllocError>
    ensures first { IfOk result (λ found. found.items ≡ map (λ object. first_two
        (referrers live.now.graph.heap.now live.now.graph.weak live.now.marks object))
        objects.now) }
    ensures inside { IfOk result (λ found.
        All (AreInside (object_count live.now.graph.heap.now)) found.items) }
{
    let rows = rows_of(alloc, live.graph.heap.len() as usize, objects)?;
    let mut firsts = vec![in alloc; FirstReferrers::none(); objects.len()]?;
    for from in 0..live.graph.heap.len() {
        if live.marks.has(from) {
            add_referrers(&live.graph.edges(from), from, &rows, &mut firsts);
        }
    }
    firsts_of(alloc, &rows, &firsts, objects)
}

/// Returns by object index a place of this object among these; None for any other object.
fn rows_of(
    alloc: Global,
    count: usize,
    objects: &[ObjectIndex],
) -> Result<Vec<Option<usize>>, AllocError>
    ensures { IfOk result (λ rows.
        AreRows count (length objects.now) objects.now rows.items) }
{
    let mut rows = vec![in alloc; None; count]?;
    for (row, object) in objects.iter().enumerate() {
        let object = *object as usize;
        if object < count {
            rows[object] = Some(row);
        }
    }
    Ok(rows)
}

/// Adds the references that an object holds to the rows of the objects that they lead to.
fn add_referrers(
    edges: &OutEdges<'_>,
    from: ObjectIndex,
    rows: &[Option<usize>],
    firsts: &mut [FirstReferrers],
)
    requires inside { (object row : ℕ) → row_of rows.now object ≡ Some row
        → row < length firsts.old }
    requires own { (one other row : ℕ) → row_of rows.now one ≡ Some row
        → row_of rows.now other ≡ Some row → one ≡ other }
    ensures length { length firsts.new ≡ length firsts.old }
    ensures added { (before : ℕ → List reference.Referrer) → AreFirstTwo rows.now before firsts.old
        → AreFirstTwo rows.now (λ object. before object
        ++ referrers_among edges.now from object (strong_slots edges.now)) firsts.new }
{
    for slot in edges.slots() {
        if let Some(to) = edges.target(slot)
            && let Some(row) = row_in(rows, to)
        {
            firsts[row] = firsts[row].with(Referrer { object: from, slot });
        }
    }
}

/// Returns the references to each object.
fn firsts_of(
    alloc: Global,
    rows: &[Option<usize>],
    firsts: &[FirstReferrers],
    objects: &[ObjectIndex],
) -> Result<Vec<FirstReferrers>, AllocError>
    requires { (object row : ℕ) → row_of rows.now object ≡ Some row → row < length firsts.now }
    ensures { IfOk result (λ found. found.items
        ≡ map (λ object. first_at firsts.now (row_of rows.now object)) objects.now) }
{
    let mut found = Vec::with_capacity(alloc, objects.len())?;
    for object in objects {
        found.push(match row_in(rows, *object) {
            Some(row) => firsts[row],
            None => FirstReferrers::none(),
        })?;
    }
    Ok(found)
}

/// Returns the row of an object, if it has one.
fn row_in(rows: &[Option<usize>], object: ObjectIndex) -> Option<usize>
    ensures { result ≡ row_of rows.now object }
{
    rows.get(object as usize).copied().flatten()
}
