//! Words that lead nowhere, and nil.

ghost use Rattle.std.specs.Prelude.{◌≡◌, ◌+◌, ◌^◌, ◌≤◌, IfSome};
ghost use Rattle.sqz_damage.specs.Dangling.{is_dangling, nil_address};

use crate::dangling::lost::is_lost;
use sqz_object::{Address, Value, value_of};
use sqz_trace::{ObjectGraph, Weak, nil};

/// Returns whether a word leads nowhere: it is neither a SmallInteger nor the address of an object
/// that is not lost.
pub(crate) fn is_dangling(graph: ObjectGraph<'_>, word: u32) -> bool
    ensures { result ≡ is_dangling graph.entry.heap.now graph.entry.weak word }
{
    match value_of(word) {
        Value::Int(_) => false,
        Value::Pointer(address) => match graph.heap.find(address) {
            Some(found) => is_lost(graph, found),
            None => true,
        },
        Value::Odd(_) => true,
    }
}

/// Returns the address of nil: the object that field 0 of the special objects array points to.
/// None if there is no such object, or if it is lost.
pub(crate) fn nil_address(graph: ObjectGraph<'_>) -> Option<Address>
    ensures nil { result ≡ nil_address graph.entry.heap.now graph.entry.weak }
    ensures within { IfSome result (λ address. address + 4 ≤ 2 ^ 32) }
{
    let nil = nil(graph.heap, Weak::Keep)?;
    if is_lost(graph, nil) {
        return None;
    }
    Some(graph.heap.address(nil))
}
