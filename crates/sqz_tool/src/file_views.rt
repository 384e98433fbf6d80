//! How contracts see the files of a run.

ghost use Rattle.sqz_tool.specs.FileRuns.{Views};

use sqz_cli::OutputFile;
use sqz_image::Sink;
use std::rt::Files;

/// How contracts see an open file of type `F`, and the output file of the run that reads it. It
/// has no methods: contracts name its member.
pub trait FileViews<F> {
    ghost views: { Views F Self };
}

impl<'a, T: Files> FileViews<T::File> for OutputFile<'a, T> {
    ghost views = { record {
      left = T.File.remaining;
      state = ⟦<OutputFile<'a, T> as Sink>⟧.state;
      path = λ sink. sink.path.now;
    } };
}
