//! The patches of one object.

ghost use Rattle.std.specs.Prelude.{◌≡◌, ◌+◌, ◌<◌, ◌≤◌, ◌^◌, ◌++◌, ◌∷◌, [], None};
ghost use Rattle.std.specs.Prelude.{IsSome, IfSome, OnOk, IfErr};
ghost use Rattle.sqz_object.specs.Chunk.{chunk_kind};
ghost use Rattle.sqz_image.specs.Objects.{object_count, object_at, chunk_words};
ghost use Rattle.sqz_trace.specs.Slots.{traced, class_slots, field_slots};
ghost use Rattle.sqz_damage.specs.Dangling.{dangling_among};
ghost use Rattle.sqz_damage.specs.Patches.{patches_of, nil_patch, dangling_of};
ghost use Rattle.sqz_damage.specs.Pushed.{ArePushed, IsPushError, IsMissing, nil_or_zero};

use crate::dangling::dangling::is_dangling;
use crate::dangling::lost::is_lost;
use crate::dangling::nil_error::NilError;
use crate::dangling::patch::{Becomes, Patch};
use sqz_object::{Address, Kind, ObjectIndex, WordIndex};
use sqz_trace::{ObjectGraph, traced_fields};

/// Appends the patches of an object. `nil` is the address of nil, if there is one.
///
/// Fails with `NoNil` if a slot of the object dangles and there is no nil. Otherwise fails only if
/// out of memory.
pub(crate) fn push_patches(
    graph: ObjectGraph<'_>,
    nil: Option<Address>,
    object: ObjectIndex,
    patches: &mut Vec<Patch>,
) -> Result<(), NilError>
    requires inside { object < object_count graph.heap.now }
    requires nil { IfSome nil (λ address. address + 4 ≤ 2 ^ 32) }
    ensures pushed { OnOk result (patches.new.items
        ≡ patches.old.items ++ patches_of graph.entry.heap.now graph.entry.weak (nil_or_zero nil) object) }
    ensures needed { OnOk result (nil ≡ None
        → dangling_of graph.entry.heap.now graph.entry.weak object ≡ []) }
    ensures refused { IfErr result
        (λ error. IsPushError nil (dangling_of graph.entry.heap.now graph.entry.weak object) error) }
{
    let heap = graph.heap;
    if is_lost(graph, object) {
        patches.push(Patch {
            word: heap.first(object),
            value: 4 * heap.object(object).header().length + 2,
            becomes: Becomes::FreeChunk,
        })?;
        return Ok(());
    }
    push_class(graph, nil, object, patches)?;
    push_fields(graph, nil, object, patches)?;
    Ok(())
}

/// Appends the patch of the object's class word, if the header has one and it leads nowhere.
fn push_class(
    graph: ObjectGraph<'_>,
    nil: Option<Address>,
    object: ObjectIndex,
    patches: &mut Vec<Patch>,
) -> Result<(), NilError>
    requires inside { object < object_count graph.heap.now }
    requires nil { IfSome nil (λ address. address + 4 ≤ 2 ^ 32) }
    ensures pushed { let chunk = chunk_words graph.entry.heap.now object in
        OnOk result (ArePushed nil (object_at graph.entry.heap.now object)
        (dangling_among graph.entry.heap.now graph.entry.weak chunk (class_slots (chunk_kind chunk)))
        patches.old.items patches.new.items) }
    ensures refused { let chunk = chunk_words graph.entry.heap.now object in IfErr result (λ error.
        IsPushError nil (dangling_among graph.entry.heap.now graph.entry.weak chunk (class_slots (chunk_kind chunk))) error) }
{
    let heap = graph.heap;
    let chunk = heap.object(object);
    let place = match chunk.header().kind {
        Kind::Three => 1,
        Kind::Two => 0,
        Kind::Free | Kind::Short => return Ok(()),
    };
    let class = chunk.words().at(place as usize);
    if is_dangling(graph, class - class % 4) {
        push_nil(nil, heap.first(object) + place, class % 4, patches)?;
    }
    Ok(())
}

/// Appends the patches of the object's traced fields that lead nowhere.
fn push_fields(
    graph: ObjectGraph<'_>,
    nil: Option<Address>,
    object: ObjectIndex,
    patches: &mut Vec<Patch>,
) -> Result<(), NilError>
    requires inside { object < object_count graph.heap.now }
    requires nil { IfSome nil (λ address. address + 4 ≤ 2 ^ 32) }
    ensures pushed { let chunk = chunk_words graph.entry.heap.now object in
        OnOk result (ArePushed nil (object_at graph.entry.heap.now object)
        (dangling_among graph.entry.heap.now graph.entry.weak chunk (field_slots 0 (traced chunk)))
        patches.old.items patches.new.items) }
    ensures refused { let chunk = chunk_words graph.entry.heap.now object in IfErr result (λ error.
        IsPushError nil (dangling_among graph.entry.heap.now graph.entry.weak chunk (field_slots 0 (traced chunk))) error) }
{
    let heap = graph.heap;
    let chunk = heap.object(object);
    let fields = chunk.fields();
    let first = heap.first(object) + chunk.header().before + 1;
    for index in 0..traced_fields(&chunk) {
        if is_dangling(graph, fields.at(index as usize)) {
            push_nil(nil, first + index, 0, patches)?;
        }
    }
    Ok(())
}

/// Appends the patch by which a word points to nil. `low` is the new word's low two bits.
fn push_nil(
    nil: Option<Address>,
    word: WordIndex,
    low: u32,
    patches: &mut Vec<Patch>,
) -> Result<(), NilError>
    requires nil { IfSome nil (λ address. address + 4 ≤ 2 ^ 32) }
    requires low { low < 4 }
    ensures pushed { OnOk result (patches.new.items
        ≡ patches.old.items ++ nil_patch word (nil_or_zero nil + low) ∷ []) }
    ensures needed { OnOk result (IsSome nil) }
    ensures refused { IfErr result (λ error. IsMissing nil error) }
{
    let Some(nil) = nil else {
        return Err(NilError::NoNil);
    };
    patches.push(Patch {
        word,
        value: nil + low,
        becomes: Becomes::Nil,
    })?;
    Ok(())
}
