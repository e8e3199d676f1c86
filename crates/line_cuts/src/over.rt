//! Devices over std's readers and writers.
ghost use Rattle.std.specs.Prelude.{◌≡◌, ◌≢◌, ◌<◌, ◌⊎◌, length, IfOk, IfErr, OnOk, OnErr};
ghost use Rattle.std.specs.Io.{ReadsAtMost, WritesAtMost};
ghost use Rattle.std.specs.Io.KnownBytes.{ReadConsumes, WriteAppends};
ghost use Rattle.std.specs.IoError.{error_kind};
ghost use Rattle.line_cuts.specs.Devices.{most, IsRisen};
ghost use Rattle.line_cuts.specs.Over.{reader, failed_reads, reads_left, writer, failed_writes};

use crate::{ByteSink, ByteSource};
use std::io;
use std::io::{ErrorKind, Read, Write};

/// A source over a reader.
#[derive(Drop)]
pub struct OverRead<R> {
    inner: R,
    failures: u64,
    turns: u64,
}

impl<R: Read> OverRead<R> {
    /// A source that has not failed, and reads at most 2^64 - 1 times.
    pub fn new(inner: R) -> Self
        ensures inner { reader result ≡ inner }
        ensures failures { failed_reads result ≡ 0 }
        ensures turns { reads_left result ≡ most }
    {
        OverRead {
            inner,
            failures: 0,
            turns: u64::MAX,
        }
    }

    /// How often a read has failed. It stays at `u64::MAX`.
    pub fn failures(&self) -> u64
        ensures { result ≡ failed_reads self.now }
    {
        self.failures
    }

    /// The reader, where the last read left it.
    pub fn into_inner(self) -> R
        ensures { result ≡ reader self }
    {
        self.inner
    }

    // A read that no signal interrupted.
    fn read_uninterrupted(&mut self, buf: &mut [u8]) -> io::Result<usize>
        ensures bound { ReadsAtMost result buf.new }
        ensures bytes { ReadConsumes (R.remaining (reader self.old)) (R.remaining (reader self.new)) result buf.new }
        ensures turn { OnOk result (reads_left self.new < reads_left self.old) }
        ensures failures { failed_reads self.new ≡ failed_reads self.old }
        ensures tries { (reads_left self.old ≡ 0) ⊎ (reads_left self.new < reads_left self.old) }
        ensures retried { IfErr result (λ e. error_kind e ≢ ErrorKind.Interrupted) }
    {
        while self.turns > 0 {
            self.turns -= 1;
            match self.inner.read(buf) {
                Err(e) if e.kind() == ErrorKind::Interrupted => {}
                result => return result,
            }
        }
        Err(io::Error::other("no reads are left"))
    }
}

impl<R: Read> ByteSource for OverRead<R> {
    ghost remaining = { λ s. R.remaining (reader s) };

    ghost failures = { failed_reads };

    ghost turns = { reads_left };

    /// A read that was interrupted is tried again. Each try takes a turn, and with none left the read fails.
    fn read(&mut self, buf: &mut [u8]) -> io::Result<usize>
        ensures bound { ReadsAtMost result buf.new }
        ensures bytes { ReadConsumes (R.remaining (reader self.old)) (R.remaining (reader self.new)) result buf.new }
        ensures turn { OnOk result (reads_left self.new < reads_left self.old) }
        ensures quiet { OnOk result (failed_reads self.new ≡ failed_reads self.old) }
        ensures failed { OnErr result (IsRisen (failed_reads self.old) (failed_reads self.new)) }
        ensures tries { (reads_left self.old ≡ 0) ⊎ (reads_left self.new < reads_left self.old) }
        ensures retried { IfErr result (λ e. error_kind e ≢ ErrorKind.Interrupted) }
    {
        let result = self.read_uninterrupted(buf);
        if result.is_err() {
            self.failures = self.failures.saturating_add(1);
        }
        result
    }
}

/// A sink over a writer.
#[derive(Drop)]
pub struct OverWrite<W> {
    inner: W,
    failures: u64,
}

impl<W: Write> OverWrite<W> {
    /// A sink that has not failed.
    pub fn new(inner: W) -> Self
        ensures inner { writer result ≡ inner }
        ensures failures { failed_writes result ≡ 0 }
    {
        OverWrite { inner, failures: 0 }
    }

    /// How often a write has failed. It stays at `u64::MAX`.
    pub fn failures(&self) -> u64
        ensures { result ≡ failed_writes self.now }
    {
        self.failures
    }

    /// The writer. It may hold bytes that it has still to flush.
    pub fn into_inner(self) -> W
        ensures { result ≡ writer self }
    {
        self.inner
    }

    // A write that no signal interrupted.
    fn write_uninterrupted(&mut self, bytes: &[u8]) -> io::Result<usize>
        ensures bound { WritesAtMost result bytes.now }
        ensures bytes { WriteAppends (W.contents (writer self.old)) (W.contents (writer self.new)) result bytes.now }
        ensures failures { failed_writes self.new ≡ failed_writes self.old }
        ensures retried { IfErr result (λ e. error_kind e ≢ ErrorKind.Interrupted) }
    {
        for _ in 0..u64::MAX {
            match self.inner.write(bytes) {
                Err(e) if e.kind() == ErrorKind::Interrupted => {}
                result => return result,
            }
        }
        Err(io::Error::other("interrupted at each try"))
    }
}

impl<W: Write> ByteSink for OverWrite<W> {
    ghost contents = { λ s. W.contents (writer s) };

    ghost failures = { failed_writes };

    /// A write that was interrupted is tried again, at most `u64::MAX` times.
    fn write(&mut self, bytes: &[u8]) -> io::Result<usize>
        ensures bound { WritesAtMost result bytes.now }
        ensures bytes { WriteAppends (W.contents (writer self.old)) (W.contents (writer self.new)) result bytes.now }
        ensures quiet { IfOk result (λ n. 0 < n → failed_writes self.new ≡ failed_writes self.old) }
        ensures none { IfOk result (λ n. n ≡ 0 → 0 < length bytes.now → IsRisen (failed_writes self.old) (failed_writes self.new)) }
        ensures failed { OnErr result (IsRisen (failed_writes self.old) (failed_writes self.new)) }
        ensures retried { IfErr result (λ e. error_kind e ≢ ErrorKind.Interrupted) }
    {
        let result = self.write_uninterrupted(bytes);
        let has_failed = match result {
            Ok(n) => n == 0 && !bytes.is_empty(),
            Err(_) => true,
        };
        if has_failed {
            self.failures = self.failures.saturating_add(1);
        }
        result
    }
}
