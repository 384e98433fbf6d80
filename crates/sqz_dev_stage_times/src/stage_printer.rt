//! An observer that prints how long each stage of a run takes.

use sqz_tool::{Stage, StageObserver};
use std::io;
use std::time::{Clock, Instant};

/// Prints, at the end of each stage, how many milliseconds it took.
#[derive(Drop)]
pub(crate) struct StagePrinter<'a, R> {
    rt: &'a R,
    /// When the stage began.
    began: Instant,
    /// The first error of printing, if there was one.
    printed: io::Result<()>,
}

impl<'a, R: Clock + Print> StagePrinter<'a, R> {
    /// Returns a printer for a run whose first stage begins now.
    pub(crate) fn start(rt: &'a R) -> io::Result<Self> {
        let began = Instant::now(rt)?;
        let printed = Ok(());
        Ok(StagePrinter { rt, began, printed })
    }

    /// Prints how long the stage that ends now took, and begins the next one.
    fn lap(&mut self) -> io::Result<()> {
        let tenths = self.began.elapsed(self.rt)?.as_micros() / 100;
        print!(self.rt; "{:>7}.{}", tenths / 10, tenths % 10)?;
        self.began = Instant::now(self.rt)?;
        Ok(())
    }

    /// Returns the first error of printing, if there was one.
    pub(crate) fn finish(self) -> io::Result<()> {
        self.printed
    }
}

impl<R: Clock + Print> StageObserver for StagePrinter<'_, R> {
    fn finished(&mut self, _stage: Stage) {
        if self.printed.is_ok() {
            self.printed = self.lap();
        }
    }
}
