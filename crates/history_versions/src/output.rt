//! What is written to.
ghost use Rattle.std.specs.Prelude.{◌≡◌, ◌+◌, ◌^◌, ◌<◌, IfErr, OnOk};
ghost use Rattle.std.specs.Io.KnownBytes.{Appends};
ghost use Rattle.history_diff.specs.declared.faults.Stop.TheVariants.{WriteFailed};

use history_diff::Stop;
use serving::Sink;

/// Writes the bytes. WriteFailed alone, where the writer fails.
pub(crate) fn write_out<W: Sink>(writer: &mut W, bytes: &[u8]) -> Result<(), Stop>
    requires writer { W.failures writer.old + 1 < 2 ^ 64 }
    ensures bytes { OnOk result (Appends (W.passed writer.old) (W.passed writer.new) bytes.now) }
    ensures refusal { IfErr result (λ stop. stop ≡ WriteFailed) }
    ensures failures { OnOk result (W.failures writer.new ≡ W.failures writer.old) }
{
    match writer.put(bytes) {
        Ok(()) => Ok(()),
        Err(_) => Err(Stop::WriteFailed),
    }
}
