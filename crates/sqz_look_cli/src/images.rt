//! Questions about what an image holds, one function for each.

ghost use Rattle.std.specs.Prelude.{◌≡◌, IfOk};
ghost use Rattle.sqz_look_files.specs.Warnings.{IsSilent};

use crate::meant::{the_class, the_object};
use crate::opening::open;
use regex::bytes::Regex;
use sqz_cli::DONE;
use sqz_image::Sink;
use sqz_look::{print_dead_list, print_dump, print_list, print_matches, print_why};
use sqz_look_args::{Instances, TopOptions};
use sqz_look_code::{
    print_class_code, print_class_tree, print_implementors, print_method_code, print_senders,
    print_stacks, print_unimplemented, print_unsent,
};
use sqz_look_files::{Failure, Session};
use sqz_look_top::print_top;
use sqz_look_view::{Inspector, Out, Shown};
use sqz_object::Layout;
use std::io::Read;
use std::rt::Files;
use std::thread::Threads;

/// Prints instances of the class that words stand for, and returns the exit.
pub(crate) fn list<T: Files + Threads + Sync, C: Sink, E: Sink>(
    session: &Session<'_, T>,
    path: &str,
    words: &str,
    which: Instances,
    out: &mut Out<'_, C>,
    err: &mut E,
) -> Result<u8, Failure>
    ensures exit { IfOk result (λ exit. exit ≡ DONE) }
    ensures silent { IfOk result (λ exit. exit ≡ 0
        → IsSilent T.File.remaining session.now.weak session.now.past_damage
        err.old err.new) }
{
    let mut slot = None;
    let inspector = open(session, path, &mut slot, out, err)?;
    print_instances(&inspector, words, which, out)?;
    Ok(DONE)
}

/// Prints the dominator tree from the object that words stand for, or from the special objects
/// array, and returns the exit.
pub(crate) fn top<T: Files + Threads + Sync, C: Sink, E: Sink>(
    session: &Session<'_, T>,
    path: &str,
    words: Option<&str>,
    options: TopOptions,
    out: &mut Out<'_, C>,
    err: &mut E,
) -> Result<u8, Failure>
    ensures exit { IfOk result (λ exit. exit ≡ DONE) }
    ensures silent { IfOk result (λ exit. exit ≡ 0
        → IsSilent T.File.remaining session.now.weak session.now.past_damage
        err.old err.new) }
{
    let mut slot = None;
    let inspector = open(session, path, &mut slot, out, err)?;
    print_tree(&inspector, words, options, out)?;
    Ok(DONE)
}

/// Prints the code of the class or the method that words stand for, and returns the exit.
pub(crate) fn code<T: Files + Threads + Sync, C: Sink, E: Sink>(
    session: &Session<'_, T>,
    path: &str,
    words: &str,
    out: &mut Out<'_, C>,
    err: &mut E,
) -> Result<u8, Failure>
    ensures exit { IfOk result (λ exit. exit ≡ DONE) }
    ensures silent { IfOk result (λ exit. exit ≡ 0
        → IsSilent T.File.remaining session.now.weak session.now.past_damage
        err.old err.new) }
{
    let mut slot = None;
    let inspector = open(session, path, &mut slot, out, err)?;
    print_code(&inspector, words, out)?;
    Ok(DONE)
}

/// Prints the tree of all classes, and returns the exit.
pub(crate) fn classes<T: Files + Threads + Sync, C: Sink, E: Sink>(
    session: &Session<'_, T>,
    path: &str,
    out: &mut Out<'_, C>,
    err: &mut E,
) -> Result<u8, Failure>
    ensures exit { IfOk result (λ exit. exit ≡ DONE) }
    ensures silent { IfOk result (λ exit. exit ≡ 0
        → IsSilent T.File.remaining session.now.weak session.now.past_damage
        err.old err.new) }
{
    let mut slot = None;
    let inspector = open(session, path, &mut slot, out, err)?;
    print_class_tree(session.rt, &inspector, out)?;
    Ok(DONE)
}

/// Prints the methods whose selectors no method sends or names, and returns the exit.
pub(crate) fn unsent<T: Files + Threads + Sync, C: Sink, E: Sink>(
    session: &Session<'_, T>,
    path: &str,
    out: &mut Out<'_, C>,
    err: &mut E,
) -> Result<u8, Failure>
    ensures exit { IfOk result (λ exit. exit ≡ DONE) }
    ensures silent { IfOk result (λ exit. exit ≡ 0
        → IsSilent T.File.remaining session.now.weak session.now.past_damage
        err.old err.new) }
{
    let mut slot = None;
    let inspector = open(session, path, &mut slot, out, err)?;
    print_unsent(&inspector, out)?;
    Ok(DONE)
}

/// Prints the selectors that methods send and no class implements, and returns the exit.
pub(crate) fn unimplemented<T: Files + Threads + Sync, C: Sink, E: Sink>(
    session: &Session<'_, T>,
    path: &str,
    out: &mut Out<'_, C>,
    err: &mut E,
) -> Result<u8, Failure>
    ensures exit { IfOk result (λ exit. exit ≡ DONE) }
    ensures silent { IfOk result (λ exit. exit ≡ 0
        → IsSilent T.File.remaining session.now.weak session.now.past_damage
        err.old err.new) }
{
    let mut slot = None;
    let inspector = open(session, path, &mut slot, out, err)?;
    print_unimplemented(&inspector, out)?;
    Ok(DONE)
}

/// Prints the methods that send a selector, and returns the exit.
pub(crate) fn senders<T: Files + Threads + Sync, C: Sink, E: Sink>(
    session: &Session<'_, T>,
    path: &str,
    selector: &str,
    out: &mut Out<'_, C>,
    err: &mut E,
) -> Result<u8, Failure>
    ensures exit { IfOk result (λ exit. exit ≡ DONE) }
    ensures silent { IfOk result (λ exit. exit ≡ 0
        → IsSilent T.File.remaining session.now.weak session.now.past_damage
        err.old err.new) }
{
    let mut slot = None;
    let inspector = open(session, path, &mut slot, out, err)?;
    print_senders(&inspector, selector, out)?;
    Ok(DONE)
}

/// Prints the methods with a selector, and returns the exit.
pub(crate) fn implementors<T: Files + Threads + Sync, C: Sink, E: Sink>(
    session: &Session<'_, T>,
    path: &str,
    selector: &str,
    out: &mut Out<'_, C>,
    err: &mut E,
) -> Result<u8, Failure>
    ensures exit { IfOk result (λ exit. exit ≡ DONE) }
    ensures silent { IfOk result (λ exit. exit ≡ 0
        → IsSilent T.File.remaining session.now.weak session.now.past_damage
        err.old err.new) }
{
    let mut slot = None;
    let inspector = open(session, path, &mut slot, out, err)?;
    print_implementors(&inspector, selector, out)?;
    Ok(DONE)
}

/// Prints the processes and their stacks, and returns the exit.
pub(crate) fn stacks<T: Files + Threads + Sync, C: Sink, E: Sink>(
    session: &Session<'_, T>,
    path: &str,
    out: &mut Out<'_, C>,
    err: &mut E,
) -> Result<u8, Failure>
    ensures exit { IfOk result (λ exit. exit ≡ DONE) }
    ensures silent { IfOk result (λ exit. exit ≡ 0
        → IsSilent T.File.remaining session.now.weak session.now.past_damage
        err.old err.new) }
{
    let mut slot = None;
    let inspector = open(session, path, &mut slot, out, err)?;
    print_stacks(&inspector, out)?;
    Ok(DONE)
}

/// Prints the strings that match a regular expression, and returns the exit.
pub(crate) fn find<T: Files + Threads + Sync, C: Sink, E: Sink>(
    session: &Session<'_, T>,
    path: &str,
    pattern: &Regex,
    out: &mut Out<'_, C>,
    err: &mut E,
) -> Result<u8, Failure>
    ensures exit { IfOk result (λ exit. exit ≡ DONE) }
    ensures silent { IfOk result (λ exit. exit ≡ 0
        → IsSilent T.File.remaining session.now.weak session.now.past_damage
        err.old err.new) }
{
    let mut slot = None;
    let inspector = open(session, path, &mut slot, out, err)?;
    print_matches(&inspector, pattern, out)?;
    Ok(DONE)
}

/// Prints all live objects with their slots, and returns the exit.
pub(crate) fn dump<T: Files + Threads + Sync, C: Sink, E: Sink>(
    session: &Session<'_, T>,
    path: &str,
    out: &mut Out<'_, C>,
    err: &mut E,
) -> Result<u8, Failure>
    ensures exit { IfOk result (λ exit. exit ≡ DONE) }
    ensures silent { IfOk result (λ exit. exit ≡ 0
        → IsSilent T.File.remaining session.now.weak session.now.past_damage
        err.old err.new) }
{
    let mut slot = None;
    let inspector = open(session, path, &mut slot, out, err)?;
    print_dump(&inspector, out)?;
    Ok(DONE)
}

/// Prints instances of the class that words stand for.
fn print_instances<C: Sink>(
    inspector: &Inspector<'_>,
    words: &str,
    which: Instances,
    out: &mut Out<'_, C>,
) -> Result<(), Failure> {
    let group = the_class(inspector, words)?;
    match which {
        Instances::Live(order) => print_list(inspector, group, order, out)?,
        Instances::Dead => print_dead_list(inspector, group, out)?,
    }
    Ok(())
}

/// Prints the dominator tree from the object that words stand for, or from the special objects
/// array. About an object that is not live, prints what `why` does.
fn print_tree<C: Sink>(
    inspector: &Inspector<'_>,
    words: Option<&str>,
    options: TopOptions,
    out: &mut Out<'_, C>,
) -> Result<(), Failure> {
    let root = match words {
        Some(words) => the_object(inspector, words)?,
        None => inspector.live.graph.heap.special(),
    };
    if inspector.live.marks.has(root) {
        print_top(inspector, root, options, out)?;
    } else {
        print_why(inspector, root, false, out)?;
    }
    Ok(())
}

/// Prints the code of the class or the method that words stand for.
fn print_code<C: Sink>(
    inspector: &Inspector<'_>,
    words: &str,
    out: &mut Out<'_, C>,
) -> Result<(), Failure> {
    let object = the_object(inspector, words)?;
    if inspector.names.is_class(object) {
        print_class_code(inspector, object, out)?;
        return Ok(());
    }
    if inspector.live.graph.heap.object(object).layout() == Layout::Method {
        print_method_code(inspector, object, out)?;
        return Ok(());
    }
    let words = Shown(words);
    let message = format!(in inspector.alloc; "{words} is neither a class nor a method")?;
    Err(Failure::NotThere(message))
}
