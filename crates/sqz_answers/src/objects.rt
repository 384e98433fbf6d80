//! What an object is.

ghost use Rattle.std.specs.Prelude.{◌≡◌, ◌<◌, IfOk, IfSome, None, true, false};
ghost use Rattle.sqz_image.specs.Objects.{object_count};
ghost use Rattle.sqz_trace.specs.Graph.{is_marked};
ghost use Rattle.sqz_answers.specs.Shown.{IsRetained, facts_of};

use crate::cut_off::retained_alone;
use sqz_facts::{ObjectFacts, object_facts};
use sqz_object::ObjectIndex;
use sqz_trace::Live;
use std::alloc::{AllocError, Global};

/// What an object is.
#[derive(Clone, Copy, Debug, PartialEq, Eq)]
pub struct Shown {
    /// Its address, class and size, and the bit fields of its header.
    pub facts: ObjectFacts,
    /// The bytes that it retains. None if it is not live.
    pub retained: Option<u64>,
}

/// Returns what an object is, and what it retains.
pub fn shown_object(
    alloc: Global,
    live: &Live<'_>,
    object: ObjectIndex,
) -> Result<Shown, AllocError>
    requires { object < object_count live.now.graph.heap.now }
    ensures facts { IfOk result (λ shown.
        shown.facts ≡ facts_of live.now.graph.heap.now live.now.graph.weak object) }
    ensures inside { IfOk result (λ shown. IfSome shown.facts.class (λ class.
        class < object_count live.now.graph.heap.now)) }
    ensures dead { is_marked live.now.marks object ≡ false
        → IfOk result (λ shown. shown.retained ≡ None) }
    ensures live { is_marked live.now.marks object ≡ true
        → IfOk result (λ shown. IsRetained live.now.graph.heap.now live.now.graph.weak
        live.now.marks object shown.retained) }
{
    let retained = if live.marks.has(object) {
        Some(retained_alone(alloc, live, object)?)
    } else {
        None
    };
    Ok(Shown {
        facts: object_facts(live.graph, object),
        retained,
    })
}
