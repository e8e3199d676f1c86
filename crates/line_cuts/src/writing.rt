//! Bytes written whole.
ghost use Rattle.std.specs.Prelude.{◌≡◌, IfErr, OnOk};
ghost use Rattle.std.specs.Io.KnownBytes.{Appends};
ghost use Rattle.line_cuts.specs.Devices.{IsRisen};
ghost use Rattle.line_cuts.specs.Runs.{TakesSome};

use crate::ByteSink;
use crate::report::RunError;

/// Writes all the bytes, by as many writes as it takes.
///
/// # Errors
///
/// Where a write fails or takes nothing. A part of the bytes can then be written.
pub fn write_whole<K: ByteSink>(writer: &mut K, bytes: &[u8]) -> Result<(), RunError>
    ensures written { OnOk result (Appends (K.contents writer.old) (K.contents writer.new) bytes.now) }
    ensures quiet { OnOk result (K.failures writer.new ≡ K.failures writer.old) }
    ensures error { IfErr result (λ e. e ≡ RunError.Write) }
    ensures failed { IfErr result (λ _. IsRisen (K.failures writer.old) (K.failures writer.new)) }
    ensures begun { IfErr result (λ _. TakesSome (K.contents writer.old) (K.contents writer.new) bytes.now) }
{
    let mut rest = bytes;
    while !rest.is_empty() {
        match writer.write(rest) {
            Ok(0) => return Err(RunError::Write),
            Ok(count) => rest = &rest[count..],
            Err(_) => return Err(RunError::Write),
        }
    }
    Ok(())
}
