//! What takes bytes.
ghost use Rattle.std.specs.Prelude.{◌≡◌, ℕ, ◌<◌, List, length, None, IfOk, OnErr};
ghost use Rattle.std.specs.Io.{WritesAtMost};
ghost use Rattle.std.specs.Io.KnownBytes.{WriteAppends};
ghost use Rattle.std.specs.declared.option.Option.{Option};
ghost use Rattle.line_cuts.specs.Devices.{IsRisen};

use std::io;

/// What takes bytes, and counts how often it failed.
pub trait ByteSink {
    // The bytes that the sink holds, where they are known.
    ghost contents: { Self → Option (List ℕ) } = { λ _. None };
    // How often a write has failed; to take nothing of some bytes is to fail. It stays at 2^64 - 1.
    ghost failures: { Self → ℕ };

    /// Takes bytes from the front, maybe not all of them, and answers how many.
    fn write(&mut self, bytes: &[u8]) -> io::Result<usize>
        ensures bound { WritesAtMost result bytes.now }
        ensures bytes { WriteAppends (contents self.old) (contents self.new) result bytes.now }
        ensures quiet { IfOk result (λ n. 0 < n → failures self.new ≡ failures self.old) }
        ensures none { IfOk result (λ n. n ≡ 0 → 0 < length bytes.now → IsRisen (failures self.old) (failures self.new)) }
        ensures failed { OnErr result (IsRisen (failures self.old) (failures self.new)) };
}
