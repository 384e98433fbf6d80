//! A run: reads an image from a source, and writes its compaction to a sink and its census to
//! another.

ghost use Rattle.std.specs.Prelude.{◌≡◌, ◌⊎◌, ◌<◌, ◌^◌, length, IfOk, IfErr, IsSomeAnd, OnOk};
ghost use Rattle.std.specs.Prelude.{MatchOption};
ghost use Rattle.std.specs.List.{concat};
ghost use Rattle.sqz_image.specs.File.{file_with};
ghost use Rattle.sqz_image.specs.Devices.{WritesWhole, WriteStops};
ghost use Rattle.sqz_tool.specs.Headline.{Compacts, Refuses, sinks};

use crate::compaction::{Compaction, compaction_of};
use crate::observer::{NoObserver, Stage, StageObserver};
use crate::plan::Plan;
use crate::session::Session;
use crate::summary::Summary;
use sqz_image::laws::byte_bounds;
use sqz_image::{Fault, Image, Sink, Source, image_of_file, read_all, write_all, write_image};
use sqz_workers::Gate;
use std::alloc::Global;
use std::thread::Threads;

/// Reads all of the source, finds the objects of the image that are reachable from its special
/// objects array, and writes the image with only these, without gaps and in order. If the plan
/// asks for a census, its text then goes to the sink `report`; otherwise `report` takes nothing.
///
/// Fails with `OutOfMemory`, or with `ReadFailed` if the source fails or 2^32 reads were made.
/// Otherwise fails exactly with the first fault that applies to the file: those of its header, then
/// that of its first chunk that cannot be read, then `BadSpecialObjects`, then `NoNil` if the plan
/// clears weak slots, then the defect of its lowest reachable object that has one. After these
/// failures the sinks are unchanged.
///
/// Fails with `WriteFailed` if a sink fails or 2^32 writes to it were made. The image's sink has
/// then taken a prefix of the image; if that is all of it, `report` has taken a prefix of the
/// census.
pub fn run<T: Threads + Sync, R: Source, W: Sink, C: Sink, G: Gate>(
    rt: &T,
    alloc: Global,
    plan: &Plan,
    source: &mut R,
    sink: &mut W,
    report: &mut C,
    gate: &G,
) -> Result<Summary, Fault>
    ensures compacts { IfOk result (λ summary.
        Compacts R.gives_all plan.now.weak plan.now.census (R.state source.old) (R.state source.new)
        (sinks (W.state sink.old) (C.state report.old)) (sinks (W.state sink.new) (C.state
        report.new)) summary) }
    ensures refuses { IfErr result (λ fault.
        Refuses R.gives_all plan.now.weak plan.now.census (R.state source.old) (R.state source.new)
        (sinks (W.state sink.old) (C.state report.old)) (sinks (W.state sink.new) (C.state
        report.new)) fault) }
{
    let observer = &mut NoObserver;
    let mut session = Session {
        rt,
        alloc,
        gate,
        observer,
    };
    run_observed(&mut session, plan, source, sink, report)
}

/// As `run`, and calls an observer after each stage.
pub fn run_observed<T: Threads + Sync, G: Gate, O: StageObserver, R: Source, W: Sink, C: Sink>(
    session: &mut Session<'_, T, G, O>,
    plan: &Plan,
    source: &mut R,
    sink: &mut W,
    report: &mut C,
) -> Result<Summary, Fault>
    ensures compacts { IfOk result (λ summary.
        Compacts R.gives_all plan.now.weak plan.now.census (R.state source.old) (R.state source.new)
        (sinks (W.state sink.old) (C.state report.old)) (sinks (W.state sink.new) (C.state
        report.new)) summary) }
    ensures refuses { IfErr result (λ fault.
        Refuses R.gives_all plan.now.weak plan.now.census (R.state source.old) (R.state source.new)
        (sinks (W.state sink.old) (C.state report.old)) (sinks (W.state sink.new) (C.state
        report.new)) fault) }
{
    let bytes = read_all(session.alloc, source)?;
    session.observer.finished(Stage::Read);
    byte_bounds(&bytes); // each byte is below 256
    let image = image_of_file(session.alloc, bytes)?;
    session.observer.finished(Stage::Index);
    let compaction = compaction_of(session, plan, &image)?;
    write_compaction(&image, &compaction, sink, report)?;
    session.observer.finished(Stage::Write);
    Ok(compaction.summary)
}

/// Writes the compaction of an image, and then the text of its census, if there is one. Fails only
/// with `WriteFailed`.
fn write_compaction<W: Sink, C: Sink>(
    image: &Image,
    compaction: &Compaction,
    sink: &mut W,
    report: &mut C,
) -> Result<(), Fault>
    requires few { length (concat compaction.now.pieces) < 2 ^ 30 }
    ensures image { OnOk result (WritesWhole (W.state sink.old) (W.state sink.new)
        (file_with image.now.memory.order image.now.prefix image.now.header compaction.now.special
        compaction.now.pieces)) }
    ensures census { OnOk result (MatchOption compaction.now.census (C.state report.new
        ≡ C.state report.old)
        (λ text. WritesWhole (C.state report.old) (C.state report.new) text.items)) }
    ensures stopped { IfErr result (λ fault. (WriteStops (W.state sink.old) (W.state sink.new)
        (file_with image.now.memory.order image.now.prefix image.now.header compaction.now.special
        compaction.now.pieces) fault
        × (C.state report.new ≡ C.state report.old))
        ⊎ (WritesWhole (W.state sink.old) (W.state sink.new)
        (file_with image.now.memory.order image.now.prefix image.now.header compaction.now.special
        compaction.now.pieces)
        × IsSomeAnd compaction.now.census (λ text.
        WriteStops (C.state report.old) (C.state report.new) text.items fault))) }
{
    let pieces = compaction.pieces.as_slice();
    write_image(image, compaction.special, pieces, sink)?;
    if let Some(text) = &compaction.census {
        write_all(report, text)?;
    }
    Ok(())
}
