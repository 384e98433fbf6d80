//! Writing all of some bytes to a sink.

ghost use Rattle.std.specs.Prelude.{◌<◌, OnOk, IfErr};
ghost use Rattle.sqz_image.specs.Devices.{WritesWhole, WriteStops, Sends, SendStops};

use crate::device::Sink;
use crate::fault::Fault;

/// The greatest number of writes: the call fails after this many.
pub(crate) const TURNS: u64 = 1 << 32;

/// Writes all the bytes, and then flushes. It allocates no memory.
///
/// Fails with `WriteFailed` if a write or the flush fails, or if 2^32 writes were made. The
/// sink has then taken some of the bytes, from the front on, perhaps all.
pub fn write_all<W: Sink>(sink: &mut W, bytes: &[u8]) -> Result<(), Fault>
    ensures whole { OnOk result (WritesWhole (W.state sink.old) (W.state sink.new) bytes.now) }
    ensures stopped { IfErr result (λ fault.
        WriteStops (W.state sink.old) (W.state sink.new) bytes.now fault) }
{
    let mut turns = TURNS;
    send(sink, bytes, &mut turns)?;
    sink.flush().map_err(|_| Fault::WriteFailed)
}

/// Writes all the bytes; each write uses one turn. Fails if a write leaves no turn.
pub(crate) fn send<W: Sink>(sink: &mut W, bytes: &[u8], turns: &mut u64) -> Result<(), Fault>
    requires { 0 < turns.old }
    ensures whole { OnOk result (Sends (W.state sink.old) (W.state sink.new) bytes.now turns.old
        turns.new) }
    ensures stopped { IfErr result (λ fault.
        SendStops (W.state sink.old) (W.state sink.new) bytes.now turns.old fault) }
{
    let mut rest = bytes;
    while !rest.is_empty() {
        let Ok(count) = sink.write(rest) else {
            return Err(Fault::WriteFailed);
        };
        *turns -= 1;
        if *turns == 0 {
            return Err(Fault::WriteFailed);
        }
        rest = &rest[count..];
    }
    Ok(())
}
