//! Devices in memory, which fail where they are told to.
ghost use Rattle.std.specs.Prelude.{◌≡◌, ◌<◌, ◌-◌, ◌⊎◌, ◌↔◌, ◌++◌, length, take, drop, Some, IsErr, IfOk, IfErr, OnOk, OnErr, IsTrue, min, []};
ghost use Rattle.std.specs.Io.{ReadsAtMost, WritesAtMost};
ghost use Rattle.std.specs.Io.KnownBytes.{ReadConsumes, WriteAppends};
ghost use Rattle.std.specs.IoError.{error_kind};
ghost use Rattle.line_cuts.specs.Devices.{most, IsRisen};
ghost use Rattle.line_cuts.specs.Memory.{passing, passed, source_rest, source_gate, source_failures, source_turns, sink_taken, sink_gate, sink_failures};

use crate::{ByteSink, ByteSource};
use std::alloc::Global;
use std::io;
use std::io::ErrorKind;

// How many bytes pass at once, and how many pass in all from here on, where that is bounded.
#[derive(Drop)]
struct Gate {
    piece: usize,
    left: Option<usize>,
}

impl Gate {
    fn is_shut(&self) -> bool
        ensures { IsTrue result ↔ (self.now.left ≡ Some 0) }
    {
        self.left == Some(0)
    }

    fn passing(&self, wanted: usize) -> usize
        ensures { result ≡ passing self.now wanted }
    {
        let at_once = self.piece.max(1).min(wanted);
        match self.left {
            Some(left) => left.min(at_once),
            None => at_once,
        }
    }

    fn pass(&mut self, count: usize)
        ensures { self.new ≡ passed self.old count }
    {
        self.left = self.left.map(|left| left.saturating_sub(count));
    }
}

/// A source that gives bytes in pieces, and fails from a given place on.
#[derive(Drop)]
pub struct MemorySource<'a> {
    rest: &'a [u8],
    gate: Gate,
    failures: u64,
    turns: u64,
}

impl<'a> MemorySource<'a> {
    /// A read gives at most `piece` bytes, or one where `piece` is 0. After `fails_at` bytes in all each read fails.
    /// It reads at most 2^64 - 1 times.
    pub fn new(bytes: &'a [u8], piece: usize, fails_at: Option<usize>) -> Self
        ensures rest { source_rest result ≡ bytes.entry.now }
        ensures gate { source_gate result ≡ record { piece = piece; left = fails_at } }
        ensures failures { source_failures result ≡ 0 }
        ensures turns { source_turns result ≡ most }
    {
        let left = fails_at;
        MemorySource {
            rest: bytes,
            gate: Gate { piece, left },
            failures: 0,
            turns: u64::MAX,
        }
    }

    /// How often a read has failed. It stays at `u64::MAX`.
    pub fn failures(&self) -> u64
        ensures { result ≡ source_failures self.now }
    {
        self.failures
    }
}

impl<'a> ByteSource for MemorySource<'a> {
    ghost remaining = { λ s. Some (source_rest s) };

    ghost failures = { source_failures };

    ghost turns = { source_turns };

    fn read(&mut self, buf: &mut [u8]) -> io::Result<usize>
        ensures bound { ReadsAtMost result buf.new }
        ensures bytes { ReadConsumes (Some (source_rest self.old)) (Some (source_rest self.new)) result buf.new }
        ensures turn { OnOk result (source_turns self.new < source_turns self.old) }
        ensures quiet { OnOk result (source_failures self.new ≡ source_failures self.old) }
        ensures failed { OnErr result (IsRisen (source_failures self.old) (source_failures self.new)) }
        ensures fails { IsErr result ↔ ((source_turns self.old ≡ 0) ⊎ ((source_gate self.old).left ≡ Some 0)) }
        ensures count { IfOk result (λ n. n ≡ passing (source_gate self.old) (min (length (source_rest self.old)) (length buf.old))) }
        ensures after { IfOk result (λ n. buf.new ≡ take n buf.new ++ drop n buf.old) }
        ensures gate { IfOk result (λ n. source_gate self.new ≡ passed (source_gate self.old) n) }
        ensures turns { OnOk result (source_turns self.new ≡ source_turns self.old - 1) }
        ensures same { OnErr result (self.new ≡ record self.old { failures = self.new.failures }) }
    {
        if self.turns == 0 || self.gate.is_shut() {
            self.failures = self.failures.saturating_add(1);
            return Err(io::Error::other("the source fails here"));
        }
        let count = self.gate.passing(self.rest.len().min(buf.len()));
        let (given, rest) = self.rest.split_at(count);
        buf[..count].copy_from_slice(given);
        self.rest = rest;
        self.gate.pass(count);
        self.turns -= 1;
        Ok(count)
    }
}

/// A sink that takes bytes in pieces, and fails from a given place on.
#[derive(Drop)]
pub struct MemorySink {
    taken: Vec<u8>,
    gate: Gate,
    failures: u64,
}

impl MemorySink {
    /// A write takes at most `piece` bytes, or one where `piece` is 0. After `fails_at` bytes in all each write fails.
    pub fn new(alloc: Global, piece: usize, fails_at: Option<usize>) -> Self
        ensures taken { sink_taken result ≡ [] }
        ensures gate { sink_gate result ≡ record { piece = piece; left = fails_at } }
        ensures failures { sink_failures result ≡ 0 }
    {
        let left = fails_at;
        MemorySink {
            taken: Vec::new(alloc),
            gate: Gate { piece, left },
            failures: 0,
        }
    }

    /// How often a write has failed. It stays at `u64::MAX`.
    pub fn failures(&self) -> u64
        ensures { result ≡ sink_failures self.now }
    {
        self.failures
    }

    /// The bytes taken.
    pub fn as_slice(&self) -> &[u8]
        ensures { result.now ≡ sink_taken self.now }
    {
        self.taken.as_slice()
    }

    /// The bytes taken.
    pub fn into_bytes(self) -> Vec<u8>
        ensures { result.items ≡ sink_taken self }
    {
        self.taken
    }

    // A write that counts no failure.
    fn take(&mut self, bytes: &[u8]) -> io::Result<usize>
        ensures shut { (sink_gate self.old).left ≡ Some 0 → IsErr result }
        ensures memory { IfErr result (λ e. (error_kind e ≡ ErrorKind.OutOfMemory) ⊎ ((sink_gate self.old).left ≡ Some 0)) }
        ensures count { IfOk result (λ n. n ≡ passing (sink_gate self.old) (length bytes.now)) }
        ensures taken { IfOk result (λ n. sink_taken self.new ≡ sink_taken self.old ++ take n bytes.now) }
        ensures gate { IfOk result (λ n. sink_gate self.new ≡ passed (sink_gate self.old) n) }
        ensures failures { sink_failures self.new ≡ sink_failures self.old }
        ensures same { OnErr result ((sink_taken self.new ≡ sink_taken self.old) × (sink_gate self.new ≡ sink_gate self.old)) }
    {
        if self.gate.is_shut() {
            return Err(io::Error::other("the sink fails here"));
        }
        let count = self.gate.passing(bytes.len());
        self.taken.extend_from_slice(&bytes[..count])?;
        self.gate.pass(count);
        Ok(count)
    }
}

impl ByteSink for MemorySink {
    ghost contents = { λ s. Some (sink_taken s) };

    ghost failures = { sink_failures };

    /// A write also fails where memory is refused.
    fn write(&mut self, bytes: &[u8]) -> io::Result<usize>
        ensures bound { WritesAtMost result bytes.now }
        ensures bytes { WriteAppends (Some (sink_taken self.old)) (Some (sink_taken self.new)) result bytes.now }
        ensures quiet { IfOk result (λ n. 0 < n → sink_failures self.new ≡ sink_failures self.old) }
        ensures none { IfOk result (λ n. n ≡ 0 → 0 < length bytes.now → IsRisen (sink_failures self.old) (sink_failures self.new)) }
        ensures failed { OnErr result (IsRisen (sink_failures self.old) (sink_failures self.new)) }
        ensures shut { (sink_gate self.old).left ≡ Some 0 → IsErr result }
        ensures memory { IfErr result (λ e. (error_kind e ≡ ErrorKind.OutOfMemory) ⊎ ((sink_gate self.old).left ≡ Some 0)) }
        ensures count { IfOk result (λ n. n ≡ passing (sink_gate self.old) (length bytes.now)) }
        ensures gate { IfOk result (λ n. sink_gate self.new ≡ passed (sink_gate self.old) n) }
        ensures counted { OnOk result (sink_failures self.new ≡ sink_failures self.old) }
        ensures same { OnErr result (sink_gate self.new ≡ sink_gate self.old) }
    {
        let result = self.take(bytes);
        if result.is_err() {
            self.failures = self.failures.saturating_add(1);
        }
        result
    }
}
