//! What gives bytes.
ghost use Rattle.std.specs.Prelude.{◌≡◌, ℕ, ◌<◌, List, None, OnOk, OnErr};
ghost use Rattle.std.specs.Io.{ReadsAtMost};
ghost use Rattle.std.specs.Io.KnownBytes.{ReadConsumes};
ghost use Rattle.std.specs.declared.option.Option.{Option};
ghost use Rattle.line_cuts.specs.Devices.{IsRisen};

use std::io;

/// What gives bytes, and counts how often it failed.
pub trait ByteSource {
    // The bytes that reads will give from here on, where they are known.
    ghost remaining: { Self → Option (List ℕ) } = { λ _. None };
    // How often a read has failed. It stays at 2^64 - 1.
    ghost failures: { Self → ℕ };
    // How many reads are left.
    ghost turns: { Self → ℕ };

    /// Puts the next bytes at the front of `buf`, and answers how many. None of them, where `buf` has room, is the end.
    /// The rest of `buf` may be anything.
    fn read(&mut self, buf: &mut [u8]) -> io::Result<usize>
        ensures bound { ReadsAtMost result buf.new }
        ensures bytes { ReadConsumes (remaining self.old) (remaining self.new) result buf.new }
        ensures turn { OnOk result (turns self.new < turns self.old) }
        ensures quiet { OnOk result (failures self.new ≡ failures self.old) }
        ensures failed { OnErr result (IsRisen (failures self.old) (failures self.new)) };
}
