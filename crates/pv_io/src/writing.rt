// How all of a text is written.
ghost use Rattle.std.specs.Prelude.{◌≡◌, OnOk};
ghost use Rattle.pv_io.specs.SinkEffects.{WritesAll};

use crate::Sink;
use pv_base::Failed;

/// Writes all the bytes. After a failure the sink holds what it held and a beginning of `bytes`. For no bytes the sink isn't called, and nothing fails.
pub fn write_all<W: Sink>(sink: &mut W, bytes: &[u8]) -> Result<(), Failed>
    ensures writes { WritesAll W.Sink (λ _. Unit {0}) sink.old sink.new bytes.now result }
    ensures uncounted { OnOk result (W.Sink.faults sink.new ≡ W.Sink.faults sink.old) }
{
    let mut written = 0;
    while written < bytes.len() {
        let (_, rest) = bytes.split_at(written);
        written += sink.write(rest)?;
    }
    Ok(())
}
