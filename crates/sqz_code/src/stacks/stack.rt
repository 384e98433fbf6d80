//! A stack of contexts.

ghost use Rattle.std.specs.Prelude.{◌≡◌, ◌<◌, length, All, IfOk, IfSome};
ghost use Rattle.sqz_image.specs.Objects.{object_count};
ghost use Rattle.sqz_code.specs.Stacks.{IsStack, with_all};

use crate::stacks::senders::sender_of;
use sqz_image::Heap;
use sqz_object::ObjectIndex;
use std::alloc::{AllocError, Global};

/// Contexts, the innermost first, each of which returns to the next one.
#[derive(Drop)]
pub struct Stack {
    /// The contexts, each once.
    pub contexts: Vec<ObjectIndex>,
    /// The context to which the last one returns, if it was listed before. None if the last one
    /// returns to no context.
    pub meets: Option<ObjectIndex>,
}

/// Returns a context and those to which it returns, up to one that is listed, and lists them. So a
/// cycle ends where it comes back, and contexts that several stacks share are in the first of them
/// only. `listed` has for each object whether it is listed. Fails only if out of memory.
pub fn stack_from(
    alloc: Global,
    heap: &Heap,
    first: Option<ObjectIndex>,
    listed: &mut [bool],
) -> Result<Stack, AllocError>
    requires sized { length listed.old ≡ object_count heap.now }
    requires inside { IfSome first (λ context. context < object_count heap.now) }
    ensures stack { IfOk result (λ stack.
        IsStack heap.now listed.old first stack.contexts.items stack.meets) }
    ensures listed { IfOk result (λ stack.
        listed.new ≡ with_all listed.old stack.contexts.items) }
    ensures contexts { IfOk result (λ stack.
        All (λ context. context < object_count heap.now) stack.contexts.items) }
    ensures meets { IfOk result (λ stack.
        IfSome stack.meets (λ context. context < object_count heap.now)) }
{
    let mut contexts = Vec::new(alloc);
    let mut next = first;
    while let Some(context) = next {
        if listed[context as usize] {
            return Ok(Stack {
                contexts,
                meets: Some(context),
            });
        }
        listed[context as usize] = true;
        contexts.push(context)?;
        next = sender_of(heap, context);
    }
    Ok(Stack {
        contexts,
        meets: None,
    })
}
