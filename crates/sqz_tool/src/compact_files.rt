//! A run from one file to another, with its census to a sink.

ghost use Rattle.std.specs.Prelude.{◌≡◌, ◌≢◌, ◌↔◌, false, IfOk, IfErr};
ghost use Rattle.sqz_image.specs.declared.fault.Fault.TheVariants.{WriteFailed, BadWorkers, BadCut};
ghost use Rattle.sqz_tool.specs.FileRuns.{EndsFiles};
ghost use Rattle.sqz_tool.specs.Plans.{IsWorkers, IsRegion};
ghost use Rattle.sqz_trace.specs.WeakSlots.{weak_of};

use crate::file_views::FileViews;
use crate::opened::Opened;
use crate::running::run;
use crate::summary::Summary;
use sqz_cli::OutputFile;
use sqz_compact_args::Arguments;
use sqz_image::{Fault, Sink};
use sqz_workers::Gate;
use std::alloc::Global;
use std::rt::Files;
use std::thread::Threads;

/// Compacts the image in one file into another, by the plan that a command line asks for. The
/// workers pass `gate`. If a census is asked for, its text goes to `out`; otherwise `out` takes
/// nothing.
///
/// Fails with `BadWorkers` or `BadCut` if the plan is not valid. Otherwise fails as `run` does;
/// also with `ReadFailed` if the image cannot be opened, and with `WriteFailed` if the output file
/// cannot be created. After any failure but `WriteFailed`, the output file and `out` are
/// unchanged.
pub fn compact<'a, T: Files + Threads + Sync, C: Sink, G: Gate>(
    rt: &'a T,
    alloc: Global,
    arguments: &Arguments<'a>,
    out: &mut C,
    gate: &G,
) -> Result<Summary, Fault>
    ensures planned { IfOk result (λ _.
        IsWorkers arguments.now.workers × IsRegion arguments.now.region_words) }
    ensures ends { let views = ⟦<OutputFile<'a, T> as FileViews<T::File>>⟧.views in
        EndsFiles views arguments.now.output.now (weak_of arguments.now.clear_weak)
        arguments.now.census (C.state out.old) (C.state out.new) result }
    ensures workers { IfErr result (λ fault.
        (fault ≡ BadWorkers) ↔ (IsWorkers arguments.now.workers → ⊥)) }
    ensures cut { IfErr result (λ fault. (fault ≡ BadCut)
        ↔ (IsWorkers arguments.now.workers × (IsRegion arguments.now.region_words → ⊥))) }
    ensures unused { arguments.now.census ≡ false → C.state out.new ≡ C.state out.old }
    ensures quiet { IfErr result (λ fault.
        fault ≢ WriteFailed → C.state out.new ≡ C.state out.old) }
{
    let opened = Opened::of(rt, arguments)?;
    let Opened {
        plan,
        mut source,
        mut sink,
    } = opened;
    run(rt, alloc, &plan, &mut source, &mut sink, out, gate)
}
