//! Printing text to a sink.

ghost use Rattle.sqz_cli.specs.Lines.{Prints};

use clap::Error;
use sqz_image::{Sink, write_all};
use std::fmt;
use std::fmt::Write;

/// Prints a text, without allocating memory. If the sink fails, it has taken a prefix of the text.
pub fn print<W: Sink>(sink: &mut W, text: &[u8])
    ensures { Prints (W.state sink.old) (W.state sink.new) text.now }
{
    let _ = write_all(sink, text);
}

/// Passes text on to a sink.
#[derive(Drop)]
struct TextSink<'a, W> {
    sink: &'a mut W,
}

impl<W: Sink> fmt::Write for TextSink<'_, W> {
    ghost use Rattle.std.specs.Prelude.{IsOk, IsErr};
    ghost use Rattle.sqz_image.specs.declared.fault.Fault.TheVariants.{WriteFailed};
    ghost use Rattle.sqz_image.specs.Devices.{WritesWhole, WriteStops};

    ghost write_str_gives = { λ old text new. WritesWhole (W.state old.sink.now) (W.state
        new.sink.now) text };

    fn write_str(&mut self, text: &str) -> fmt::Result
        ensures ok { IsOk result → WritesWhole (W.state self.old.sink.now) (W.state
            self.new.sink.now) text.now }
        ensures stopped { IsErr result → WriteStops (W.state self.old.sink.now) (W.state
            self.new.sink.now) text.now WriteFailed }
    {
        write_all(self.sink, text.as_bytes()).map_err(|_| fmt::Error)
    }
}

/// Prints the text of a `clap` error, without allocating memory. If the sink fails, the rest is
/// dropped. There is no clause, since the contracts of `clap` do not state this text.
pub(crate) fn print_error<W: Sink>(sink: &mut W, error: &Error) {
    let mut text = TextSink { sink };
    let _ = write!(text, "{error}");
}
