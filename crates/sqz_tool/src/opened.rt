//! What a command line refers to, opened for a run.

ghost use Rattle.std.specs.Prelude.{◌≡◌, ◌⊎◌, IfOk, IfErr};
ghost use Rattle.sqz_image.specs.declared.fault.Fault.TheVariants.{ReadFailed, BadWorkers, BadCut};
ghost use Rattle.sqz_image.specs.Devices.{new_source};
ghost use Rattle.sqz_regions.specs.Regions.{Every};
ghost use Rattle.sqz_cli.specs.OutputFiles.{new_output};
ghost use Rattle.sqz_tool.specs.Plans.{IsWorkers, IsRegion};
ghost use Rattle.sqz_trace.specs.WeakSlots.{weak_of};

use crate::plan::Plan;
use sqz_cli::OutputFile;
use sqz_compact_args::Arguments;
use sqz_image::{Fault, ReadSource, Sink, Source};
use std::fs::File;
use std::io::Read;
use std::rt::Files;

/// The plan of a command line, the image that it refers to, and the output file. Only `run` reads
/// the image and writes the file.
#[derive(Drop)]
pub(crate) struct Opened<'a, T: Files> {
    pub(crate) plan: Plan,
    pub(crate) source: ReadSource<T::File>,
    pub(crate) sink: OutputFile<'a, T>,
}

impl<'a, T: Files> Opened<'a, T> {
    /// Opens the image. Does nothing to the output file yet.
    ///
    /// Fails with `BadWorkers` unless the number of workers is from 1 to 64, else with `BadCut`
    /// unless the words of a region are from 1 to 2^30, else with `ReadFailed` if the image cannot
    /// be opened.
    pub(crate) fn of(rt: &'a T, arguments: &Arguments<'a>) -> Result<Self, Fault>
        ensures workers { IfOk result (λ opened. opened.plan.workers ≡ arguments.now.workers) }
        ensures cut { IfOk result (λ opened. opened.plan.cut ≡ Every arguments.now.region_words) }
        ensures weak { IfOk result (λ opened. opened.plan.weak ≡ weak_of arguments.now.clear_weak) }
        ensures census { IfOk result (λ opened. opened.plan.census ≡ arguments.now.census) }
        ensures taken { IfOk result (λ _.
            IsWorkers arguments.now.workers × IsRegion arguments.now.region_words) }
        ensures not_read { IfOk result (λ opened. (file : T.File)
            × (⟦<ReadSource<T::File> as Source>⟧.state opened.source
            ≡ new_source (T.File.remaining file))) }
        ensures path { IfOk result (λ opened. opened.sink.path.now ≡ arguments.now.output.now) }
        ensures not_made { IfOk result (λ opened.
            ⟦<OutputFile<'a, T> as Sink>⟧.state opened.sink ≡ new_output) }
        ensures refused { IfErr result (λ fault.
            ((fault ≡ BadWorkers) × (IsWorkers arguments.now.workers → ⊥))
            ⊎ ((fault ≡ BadCut) × IsWorkers arguments.now.workers
            × (IsRegion arguments.now.region_words → ⊥))
            ⊎ ((fault ≡ ReadFailed) × IsWorkers arguments.now.workers
            × IsRegion arguments.now.region_words)) }
    {
        let plan = Plan::of(arguments)?;
        let Ok(file) = File::open(rt, arguments.input) else {
            return Err(Fault::ReadFailed);
        };
        let source = ReadSource::new(file);
        let sink = OutputFile::new(rt, arguments.output);
        Ok(Opened { plan, source, sink })
    }
}
