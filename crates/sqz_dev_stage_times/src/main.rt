//! The program `sqz_dev_stage_times`: takes the command line of `sqzcompact`, and prints how many
//! milliseconds each stage of three such runs takes, each with a census. It is for the developers
//! of the product.
#![tactic(auto)]

mod stage_printer;

use anyhow::Result;
use sqz_compact_args::{Arguments, read_arguments};
use sqz_image::{ReadSource, WriteSink};
use sqz_marks::Workers;
use sqz_regions::Cut;
use sqz_tool::{Plan, Session, run_observed};
use sqz_trace::Weak;
use sqz_workers::OpenGate;
use stage_printer::StagePrinter;
use std::alloc::Global;
use std::fs::File;
use std::process::ExitCode;
use std::rt::Files;
use std::thread::Threads;
use std::time::Clock;
use std::{env, io};

/// The number of runs.
const RUNS: u32 = 3;

/// The names of the stages, in order.
const STAGES: &[&str] = &[
    "read", "index", "cut", "mark", "check", "place", "slide", "census", "write",
];

/// The exit code if the command line is wrong, or if out of memory while it is read.
const BAD_ARGUMENTS: u8 = 2;

/// Returns the plan that a command line asks for, with a census.
fn plan_of(arguments: &Arguments<'_>) -> Result<Plan> {
    Ok(Plan {
        workers: Workers::new(arguments.workers)?,
        cut: Cut::every(arguments.region_words)?,
        weak: Weak::clear_if(arguments.clear_weak),
        census: true,
    })
}

/// Compacts the image of a command line, and prints how long each stage takes. The text of the
/// census is dropped.
fn print_run<R: Files + Threads + Sync + Clock + Print>(
    rt: &R,
    alloc: Global,
    arguments: &Arguments<'_>,
) -> Result<()> {
    let plan = plan_of(arguments)?;
    let mut source = ReadSource::new(File::open(rt, arguments.input)?);
    let mut sink = WriteSink::new(File::create(rt, arguments.output)?);
    let mut report = WriteSink::new(io::sink());
    let mut printer = StagePrinter::start(rt)?;
    let mut session = Session {
        rt,
        alloc,
        gate: &OpenGate,
        observer: &mut printer,
    };
    run_observed(&mut session, &plan, &mut source, &mut sink, &mut report)?;
    printer.finish()?;
    println!(rt)?;
    Ok(())
}

/// Prints a line of the stages' names, and for each run a line of milliseconds.
fn print_runs<R: Files + Threads + Sync + Clock + Print>(
    rt: &R,
    alloc: Global,
    arguments: &Arguments<'_>,
) -> Result<()> {
    for stage in STAGES {
        print!(rt; "{stage:>9}")?;
    }
    println!(rt)?;
    for _ in 0..RUNS {
        print_run(rt, alloc, arguments)?;
    }
    Ok(())
}

fn main(rt: HostRuntime) -> Result<ExitCode> {
    let words: Vec<String> = env::args(&rt)?.collect(rt.alloc())?;
    match read_arguments(rt.alloc(), &words) {
        Ok(arguments) => {
            print_runs(&rt, rt.alloc(), &arguments)?;
            Ok(ExitCode::SUCCESS)
        }
        Err(error) => {
            eprint!(rt; "{error}")?;
            Ok(ExitCode::from(BAD_ARGUMENTS))
        }
    }
}
