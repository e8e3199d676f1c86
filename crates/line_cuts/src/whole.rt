//! All bytes of a source, and the lines of bytes that are at hand.
ghost use Rattle.std.specs.Prelude.{◌≡◌, ℕ, List, map, IfOk, IfErr, OnOk, OnErr};
ghost use Rattle.std.specs.Io.KnownBytes.{Consumes, IsAtEnd};
ghost use Rattle.line_cuts.specs.Cuts.{lines_of};
ghost use Rattle.line_cuts.specs.Devices.{IsRisen};
ghost use Rattle.line_cuts.specs.Runs.{ByError};

use crate::ByteSource;
use crate::cuts::first_line;
use crate::report::RunError;
use std::alloc::{AllocError, Global};

// The most bytes of one read.
const PIECE: usize = 65536;

/// All that a source gives from here on. It holds all of it.
///
/// # Errors
///
/// Where a read fails, and where memory is refused.
pub fn read_all<S: ByteSource>(alloc: Global, reader: &mut S) -> Result<Vec<u8>, RunError>
    ensures read { IfOk result (λ bytes. Consumes (S.remaining reader.old) (S.remaining reader.new) bytes.items) }
    ensures end { OnOk result (IsAtEnd (S.remaining reader.new)) }
    ensures quiet { OnOk result (S.failures reader.new ≡ S.failures reader.old) }
    ensures stopped { OnErr result ((input : List ℕ) × Consumes (S.remaining reader.old) (S.remaining reader.new) input) }
    ensures failed { IfErr result (λ e. ByError e (IsRisen (S.failures reader.old) (S.failures reader.new)) ⊥ (S.failures reader.new ≡ S.failures reader.old)) }
{
    let mut storage = vec![in alloc; 0; PIECE]?;
    let buffer = storage.as_mut_slice();
    let mut bytes = Vec::new(alloc);
    loop {
        match reader.read(buffer) {
            Ok(0) => return Ok(bytes),
            Ok(count) => bytes.extend_from_slice(&buffer[..count])?,
            Err(_) => return Err(RunError::Read),
        }
    }
}

/// The lines of these bytes, each without its line end.
///
/// # Errors
///
/// Where memory was refused for their list.
pub fn lines_in<'b>(alloc: Global, bytes: &'b [u8]) -> Result<Vec<&'b [u8]>, AllocError>
    ensures { IfOk result (λ lines. map (λ line. line.now) lines.items ≡ lines_of bytes.entry.now) }
{
    let mut lines = Vec::new(alloc);
    let mut rest = bytes;
    while let Some((line, after)) = first_line(rest) {
        lines.push(line)?;
        rest = after;
    }
    if !rest.is_empty() {
        lines.push(rest)?;
    }
    Ok(lines)
}
