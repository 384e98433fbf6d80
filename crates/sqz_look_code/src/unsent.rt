//! Selectors that are implemented and not sent, or sent and not implemented.

ghost use Rattle.std.specs.Prelude.{All, IfOk};
ghost use Rattle.sqz_names.specs.Names.{IsMethodName};
ghost use Rattle.sqz_look_view.specs.Inspectors.{IsObjectOf};

use crate::live_methods::{distinct_methods, live_methods};
use crate::method_row::{MethodRow, print_methods};
use sqz_code::{Unimplemented, mark_mentioned, marked_selectors, unimplemented_of, unsent_of};
use sqz_image::Sink;
use sqz_look_view::{Counted, Inspector, Out, PrintError};
use sqz_object::{Layout, ObjectIndex};
use std::alloc::{AllocError, Global};
use std::collections::BTreeMap;

/// The maximum number of senders of a selector in the text form.
const MOST_SENDERS: usize = 3;

/// Prints the live methods whose selectors no live method sends or has as a literal.
pub fn print_unsent<C: Sink>(
    inspector: &Inspector<'_>,
    out: &mut Out<'_, C>,
) -> Result<(), PrintError> {
    let alloc = inspector.alloc;
    let mentioned = mark_mentioned(alloc, inspector.live.graph, &distinct_methods(inspector)?)?;
    let unsent = unsent_of(alloc, &live_methods(inspector)?, &mentioned)?;
    print_methods(inspector, &unsent, out)
}

/// A selector that is sent and not implemented.
#[derive(Drop)]
struct UnimplementedSelector {
    selector: String,
    senders: Vec<MethodRow>,
}

/// Selectors by their characters, and on a tie by index.
type Selectors = BTreeMap<(String, ObjectIndex), UnimplementedSelector>;

/// Prints the selectors that live methods send and no live method has, by name, with their senders.
pub fn print_unimplemented<C: Sink>(
    inspector: &Inspector<'_>,
    out: &mut Out<'_, C>,
) -> Result<(), PrintError> {
    let selectors = selectors_of(inspector)?;
    let shown = out.shown(selectors.len());
    for selector in selectors.values().take(shown) {
        print_selector(inspector.alloc, selector, out);
    }
    out.rest(selectors.len(), "selector");
    out.end()
}

/// Prints a selector with its senders; the text form has the first three.
fn print_selector<C: Sink>(alloc: Global, selector: &UnimplementedSelector, out: &mut Out<'_, C>) {
    out.word("selector", selector.selector.as_str());
    if out.is_json() {
        out.begin_list("senders");
        for sender in &selector.senders {
            sender.add(out);
            out.end_row();
        }
        out.end_list();
    } else {
        out.text("senders", senders_text(alloc, &selector.senders));
    }
    out.line("#{selector}  sent by {senders}");
}

/// Returns the first senders of a selector as text, and how many more there are.
fn senders_text(alloc: Global, senders: &[MethodRow]) -> Result<String, AllocError> {
    let mut text = String::new(alloc);
    for sender in senders.iter().take(MOST_SENDERS) {
        if !text.is_empty() {
            text.push_str(", ")?;
        }
        text.push_str(sender.method.as_str())?;
    }
    if senders.len() > MOST_SENDERS {
        let more = Counted((senders.len() - MOST_SENDERS) as u64, "method");
        return format!(in alloc; "{text} and {more} more");
    }
    Ok(text)
}

/// Returns the selectors that live methods send and no live method has, by name, with their senders.
fn selectors_of(inspector: &Inspector<'_>) -> Result<Selectors, AllocError> {
    let found = unimplemented(inspector)?;
    let mut selectors: Selectors = BTreeMap::new(inspector.alloc);
    for one in &found {
        add_sender(inspector, *one, &mut selectors)?;
    }
    Ok(selectors)
}

/// Returns the selectors that live methods send and no live method has, in the order of the
/// methods.
fn unimplemented(inspector: &Inspector<'_>) -> Result<Vec<Unimplemented>, AllocError>
    ensures inside { IfOk result (λ found.
        All (λ it. IsObjectOf inspector.now it.selector) found.items) }
    ensures senders { IfOk result (λ found.
        All (λ it. IsMethodName inspector.now.live.graph.heap.now
        inspector.now.live.graph.weak it.sender) found.items) }
{
    let (alloc, graph) = (inspector.alloc, inspector.live.graph);
    let implemented = marked_selectors(alloc, graph.heap, &live_methods(inspector)?)?;
    unimplemented_of(alloc, graph, &distinct_methods(inspector)?, &implemented)
}

/// Adds a sender of a selector, unless it was the last one that was added. An object without
/// characters, which a damaged method may send, is no selector.
fn add_sender(
    inspector: &Inspector<'_>,
    one: Unimplemented,
    selectors: &mut Selectors,
) -> Result<(), AllocError>
    requires inside { IsObjectOf inspector.now one.selector }
    requires sender { IsMethodName inspector.now.live.graph.heap.now
        inspector.now.live.graph.weak one.sender }
{
    let selector = inspector.live.graph.heap.object(one.selector);
    if !matches!(selector.layout(), Layout::Bytes { .. }) {
        return Ok(());
    }
    let row = MethodRow::of(inspector, one.sender)?;
    let text = inspector.names.text(one.selector)?;
    let key = (text.clone()?, one.selector);
    if let Some(known) = selectors.get_mut(&key) {
        if !is_last(&known.senders, &row) {
            known.senders.push(row)?;
        }
        return Ok(());
    }
    let mut senders = Vec::new(inspector.alloc);
    senders.push(row)?;
    let unimplemented = UnimplementedSelector {
        selector: text,
        senders,
    };
    selectors.insert(key, unimplemented)?;
    Ok(())
}

/// Returns whether a method is the last of these.
fn is_last(senders: &[MethodRow], sender: &MethodRow) -> bool {
    match senders.last() {
        Some(last) => last.address == sender.address,
        None => false,
    }
}
