//! The processes of an image, and their stacks.

ghost use Rattle.std.specs.Prelude.{◌≡◌, length, All};
ghost use Rattle.sqz_image.specs.Objects.{object_count};
ghost use Rattle.sqz_code.specs.Processes.{WaitsBelow};
ghost use Rattle.sqz_look_view.specs.Inspectors.{IsObjectOf};

use crate::contexts::print_context;
use sqz_code::{State, innermost_of, priority_of, processes_of, stack_from, state_of};
use sqz_image::Sink;
use sqz_look_view::{Inspector, Out, PrintError};
use sqz_object::ObjectIndex;
use std::alloc::AllocError;

/// Prints the processes, by address, with their contexts, the innermost first. A context is listed
/// once.
pub fn print_stacks<C: Sink>(
    inspector: &Inspector<'_>,
    out: &mut Out<'_, C>,
) -> Result<(), PrintError> {
    let (alloc, live) = (inspector.alloc, &inspector.live);
    let processes = processes_of(alloc, live)?;
    if processes.is_empty() {
        out.heading("no process is active");
    }
    let mut listed = vec![in alloc; false; live.graph.heap.len() as usize]?;
    for process in &processes {
        print_process(inspector, *process, &mut listed, out)?;
    }
    out.end()
}

/// Prints a process. Contexts that were listed before are not listed again: their places in
/// `listed` are true.
fn print_process<C: Sink>(
    inspector: &Inspector<'_>,
    process: ObjectIndex,
    listed: &mut [bool],
    out: &mut Out<'_, C>,
) -> Result<(), AllocError>
    requires inside { IsObjectOf inspector.now process }
    requires sized { length listed.old ≡ object_count inspector.now.live.graph.heap.now }
    ensures { length listed.new ≡ length listed.old }
{
    let (alloc, heap) = (inspector.alloc, inspector.live.graph.heap);
    let stack = stack_from(alloc, heap, innermost_of(heap, process), listed)?;
    out.hex("process", inspector.address(process).0);
    match priority_of(heap, process) {
        Some(priority) => out.integer("priority", i64::from(priority)),
        None => out.null("priority"),
    }
    add_state(inspector, state_of(inspector.live.graph, process), out);
    print_contexts(inspector, &stack.contexts, out);
    match stack.meets {
        Some(context) => out.hex("meets", inspector.address(context).0),
        None => out.null("meets"),
    }
    out.part_if("meets", "  then {meets} again");
    out.end_row();
    Ok(())
}

/// Adds what a process does, in a word, and the list that it waits in, mostly a semaphore.
fn add_state<C: Sink>(inspector: &Inspector<'_>, state: State, out: &mut Out<'_, C>)
    requires { WaitsBelow (object_count inspector.now.live.graph.heap.now) state }
{
    out.word(
        "state",
        match state {
            State::Active => "active",
            State::Ready => "ready",
            State::Waiting(_) => "waiting",
            State::Suspended => "suspended",
        },
    );
    match state {
        State::Waiting(list) => {
            out.text("waits_for", inspector.names.label(list));
            out.part("process {process}{priority/, priority }, waits for {waits_for}");
        }
        State::Active | State::Ready | State::Suspended => {
            out.null("waits_for");
            out.part("process {process}{priority/, priority }, {state}");
        }
    }
}

/// Prints the contexts of a process.
fn print_contexts<C: Sink>(
    inspector: &Inspector<'_>,
    contexts: &[ObjectIndex],
    out: &mut Out<'_, C>,
)
    requires { All (λ context. IsObjectOf inspector.now context)
        contexts.now }
{
    let shown = out.shown(contexts.len());
    out.begin_list("contexts");
    for context in &contexts[..shown] {
        print_context(inspector, *context, out);
    }
    out.rest_after("  ", contexts.len() - shown, "context");
    out.end_list();
}
