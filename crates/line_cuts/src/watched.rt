//! A source that tells how far it was read.
ghost use Rattle.std.specs.Prelude.{◌≡◌};
ghost use Rattle.line_cuts.specs.Watched.{source_watched};

use crate::writing::write_whole;
use crate::{ByteSink, ByteSource};
use std::alloc::{AllocError, Global};
use std::io;
use std::time::{Clock, Duration, Instant};

// How long is waited between two tellings, in milliseconds.
const PAUSE: u64 = 250;

// The bytes of a tenth of a megabyte.
const TENTH: u64 = 100_000;

/// A source that tells how many lines and megabytes it has given, at most four times a second, on one line that is written anew each time.
#[derive(Drop)]
pub struct WatchedSource<S, K, C> {
    inner: S,
    told: Telling<K, C>,
}

// How far a source was read, and where that is told.
#[derive(Drop)]
struct Telling<K, C> {
    alloc: Global,
    sink: K,
    clock: C,
    last: Option<Instant>,
    bytes: u64,
    lines: u64,
    is_told: bool,
}

impl<K: ByteSink, C: Clock> Telling<K, C> {
    // Counts what a read gave, and tells it where that was not done just now.
    fn add(&mut self, given: &[u8]) {
        self.bytes = self.bytes.saturating_add(given.len() as u64);
        for byte in given {
            if *byte == b'\n' {
                self.lines = self.lines.saturating_add(1);
            }
        }
        if given.is_empty() {
            self.end();
        } else if self.is_due() {
            self.tell();
        }
    }

    // Whether enough time has gone by. The first reading of the clock begins it.
    fn is_due(&mut self) -> bool {
        let Ok(now) = Instant::now(&self.clock) else {
            return false;
        };
        let is_due = match self.last {
            Some(last) => now.duration_since(last) >= Duration::from_millis(PAUSE),
            None => false,
        };
        if is_due || self.last.is_none() {
            self.last = Some(now);
        }
        is_due
    }

    // Tells it on the present line. A write that fails changes nothing.
    fn tell(&mut self) {
        if let Ok(text) = self.text() {
            let _written = write_whole(&mut self.sink, text.as_bytes());
            self.is_told = true;
        }
    }

    // Ends the line where something was told.
    fn end(&mut self) {
        if self.is_told {
            let _written = write_whole(&mut self.sink, b"\n");
            self.is_told = false;
        }
    }

    fn text(&self) -> Result<String, AllocError> {
        let tenths = self.bytes / TENTH;
        format!(in self.alloc;
            "\r{} lines, {}.{} MB",
            self.lines,
            tenths / 10,
            tenths % 10
        )
    }
}

impl<S: ByteSource, K: ByteSink, C: Clock> WatchedSource<S, K, C> {
    /// A source of which nothing is told yet. What is told goes to the sink, and a write there that fails changes nothing.
    pub fn new(alloc: Global, inner: S, sink: K, clock: C) -> Self
        ensures { source_watched result ≡ inner }
    {
        let told = Telling {
            alloc,
            sink,
            clock,
            last: None,
            bytes: 0,
            lines: 0,
            is_told: false,
        };
        WatchedSource { inner, told }
    }

    /// The sink to which it is told.
    pub fn sink(&self) -> &K {
        &self.told.sink
    }
}

impl<S: ByteSource, K: ByteSink, C: Clock> ByteSource for WatchedSource<S, K, C> {
    ghost remaining = { λ s. S.remaining (source_watched s) };

    ghost failures = { λ s. S.failures (source_watched s) };

    ghost turns = { λ s. S.turns (source_watched s) };

    fn read(&mut self, buf: &mut [u8]) -> io::Result<usize> {
        let count = self.inner.read(buf)?;
        self.told.add(&buf[..count]);
        Ok(count)
    }
}
