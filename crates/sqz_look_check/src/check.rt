//! Whether an image is sound.

ghost use Rattle.std.specs.Prelude.{◌≡◌, ◌↔◌, ◌<◌, All, IfOk, IfSome, IsTrue, true};
ghost use Rattle.sqz_image.specs.Objects.{object_count};
ghost use Rattle.sqz_strict.specs.Warnings.{object_of};
ghost use Rattle.sqz_trace.specs.Faults.{first_fault};
ghost use Rattle.sqz_look_check.specs.Warned.{IsWarned};

use crate::causes::Cause;
use crate::faults::{FaultFacts, add_fault};
use crate::read_failure::ReadFailure;
use crate::repaired::add_summary;
use crate::unreadable::{Extent, Unreadable};
use crate::warnings::print_warnings;
use sqz_answers::{Findings, findings_of};
use sqz_damage::RepairSummary;
use sqz_image::{Fault, Image, Sink};
use sqz_look_view::{Inspector, Out, PrintError, Subject};
use sqz_strict::{Findings as StrictFindings, findings_of as strict_findings_of};
use sqz_trace::ObjectGraph;
use std::alloc::{AllocError, Global};
use std::thread::Threads;

/// What is asked about the soundness of an image.
#[derive(Clone, Copy)]
pub struct CheckOptions {
    /// Whether all faults are asked for, and not only the first.
    pub all: bool,
    /// Whether warnings are asked for.
    pub strict: bool,
}

/// What was found of an image.
#[derive(Clone, Copy)]
pub struct Verdict {
    /// Whether nothing of the file was skipped, and there is no fault for which a compaction rejects
    /// the image.
    pub is_sound: bool,
    /// Whether there are warnings, and they were asked for.
    pub has_warnings: bool,
}

/// Prints whether an image is sound: its first fault, or all if these are asked for, with the names
/// of the objects at fault, or its objects and live bytes; and the warnings, if these are asked for.
/// `is_whole` is whether nothing of its file was skipped; an image without a fault is damaged if
/// something was. `repair` is what `mend --nil` keeps and clears, if that was found. Returns what was
/// found, as it is printed.
pub fn print_check<C: Sink>(
    rt: &(impl Threads + Sync),
    subject: Subject<'_>,
    path: &str,
    is_whole: bool,
    repair: Option<RepairSummary>,
    options: CheckOptions,
    out: &mut Out<'_, C>,
) -> Result<Verdict, PrintError>
    ensures sound { IfOk result (λ verdict. IsTrue verdict.is_sound ↔ ((is_whole ≡ true)
        × (first_fault subject.entry.live.graph.heap.now subject.entry.live.graph.weak
        subject.entry.live.marks ≡ None))) }
    ensures warned { IfOk result (λ verdict. IsWarned subject.entry.live.graph.heap.now
        subject.entry.live.graph.weak subject.entry.live.marks options.strict
        verdict.has_warnings) }
{
    let (alloc, image, graph) = (subject.alloc, subject.image, subject.live.graph);
    let findings = findings_of(rt, alloc, &subject.live, options.all)?;
    let warned = warnings_in(&subject, options.strict)?;
    let verdict = Verdict {
        is_sound: is_whole && findings.is_sound(),
        has_warnings: warned.are_some,
    };
    add_numbers(path, verdict.is_sound, &findings, out);
    print_faults(subject, &findings.faults, out)?;
    if findings.faults.is_empty() {
        out.part(if verdict.is_sound { SOUND } else { DAMAGED });
    }
    print_rest(alloc, image, graph, &warned, repair, out);
    out.end_row();
    out.end()?;
    Ok(verdict)
}

/// The line of an image without a fault.
const SOUND: &str = "{image}: sound, {objects#object}, {live_objects} live, {live_bytes#byte} live";

/// The line of an image without a fault, some of whose file was skipped.
const DAMAGED: &str =
    "{image}: damaged, {objects#object}, {live_objects} live, {live_bytes#byte} live";

/// Adds how many objects and live bytes an image has.
fn add_numbers<C: Sink>(path: &str, is_sound: bool, findings: &Findings, out: &mut Out<'_, C>) {
    out.path("image", path);
    out.truth("sound", is_sound);
    out.number("objects", u64::from(findings.objects));
    out.number("live_objects", u64::from(findings.live_objects));
    out.amount("live_bytes", findings.live_bytes);
}

/// Prints the faults of an image, each with what has the object at fault. Only one fault alone gets
/// a path: to find one takes a search.
fn print_faults<C: Sink>(
    subject: Subject<'_>,
    faults: &[Fault],
    out: &mut Out<'_, C>,
) -> Result<(), AllocError> {
    out.begin_list("faults");
    if !faults.is_empty() {
        let inspector = Inspector::of(subject)?;
        for fault in faults {
            add_fault(&inspector, *fault, faults.len() == 1, out)?;
            out.line("{image}: {fault}{owner/, in }{path/, at }");
        }
    }
    out.end_list();
    Ok(())
}

/// Prints the warnings about an image, if these are asked for, and what `mend --nil` keeps and
/// clears, which the text form has first.
fn print_rest<C: Sink>(
    alloc: Global,
    image: &Image,
    graph: ObjectGraph<'_>,
    warned: &Warned,
    repair: Option<RepairSummary>,
    out: &mut Out<'_, C>,
)
    requires { IfSome warned.now.findings (λ findings. All (λ warning.
        object_of warning < object_count graph.heap.now) findings.warnings.items) }
{
    if !out.is_json() {
        add_summary(repair, out);
    }
    if let Some(findings) = &warned.findings {
        print_warnings(alloc, image, graph, findings, out);
    }
    if out.is_json() {
        out.null("readable");
        add_summary(repair, out);
    }
}

/// The warnings about an image, if these are asked for, and whether there are some.
#[derive(Drop)]
struct Warned {
    findings: Option<StrictFindings>,
    are_some: bool,
}

/// Returns the warnings about an image, if these are asked for.
fn warnings_in(subject: &Subject<'_>, strict: bool) -> Result<Warned, AllocError>
    ensures warned { IfOk result (λ warned. IsWarned subject.now.live.graph.heap.now
        subject.now.live.graph.weak subject.now.live.marks strict warned.are_some) }
    ensures inside { IfOk result (λ warned. IfSome warned.findings (λ findings. All (λ warning.
        object_of warning < object_count subject.now.live.graph.heap.now)
        findings.warnings.items)) }
{
    if !strict {
        return Ok(Warned {
            findings: None,
            are_some: false,
        });
    }
    let findings = strict_findings_of(subject.alloc, &subject.live)?;
    let are_some = !findings.is_empty();
    Ok(Warned {
        findings: Some(findings),
        are_some,
    })
}

/// Prints that no image could be read from a file, why, and how much can be read, if that was
/// measured.
pub fn print_check_unreadable<C: Sink>(
    alloc: Global,
    unreadable: &Unreadable,
    path: &str,
    out: &mut Out<'_, C>,
) -> Result<(), PrintError> {
    add_unread(alloc, path, &unreadable.facts(), out);
    if !out.is_json() {
        match unreadable.last_object {
            Some(address) => out.hex("last_object", address),
            None => out.null("last_object"),
        }
    }
    Extent::add(unreadable.extent, out);
    out.part(match &unreadable.extent {
        Some(extent) => extent.template(),
        None => "{image}: {fault}{last_object/, after object }",
    });
    add_summary(unreadable.repair, out);
    out.end_row();
    out.end()
}

/// Prints that a file could not be read, and why.
pub fn print_check_missing<C: Sink>(
    alloc: Global,
    path: &str,
    failure: ReadFailure,
    out: &mut Out<'_, C>,
) -> Result<(), PrintError> {
    let cause = failure.reason().map(Cause::Read);
    print_check_unread(alloc, path, &FaultFacts::of(Fault::ReadFailed, cause), out)
}

/// Prints that memory is out for the image in a file.
pub fn print_check_too_large<C: Sink>(
    alloc: Global,
    path: &str,
    out: &mut Out<'_, C>,
) -> Result<(), PrintError> {
    out.drop_row();
    print_check_unread(alloc, path, &FaultFacts::of(Fault::OutOfMemory, None), out)
}

/// Prints why a file was not read.
fn print_check_unread<C: Sink>(
    alloc: Global,
    path: &str,
    facts: &FaultFacts,
    out: &mut Out<'_, C>,
) -> Result<(), PrintError> {
    add_unread(alloc, path, facts, out);
    out.null("readable");
    out.null("repair");
    out.line("{image}: {fault}");
    out.end()
}

/// Adds the fault of a file from which no image could be read.
fn add_unread<C: Sink>(alloc: Global, path: &str, facts: &FaultFacts, out: &mut Out<'_, C>) {
    out.path("image", path);
    out.truth("sound", false);
    out.null("objects");
    out.null("live_objects");
    out.null("live_bytes");
    if out.is_json() {
        out.begin_list("faults");
        facts.add_without_owner(alloc, out);
        out.end_row();
        out.end_list();
    } else {
        facts.add(alloc, out);
    }
}
