// What a watched source tells.
use line_cuts::{ByteSource, MemorySink, MemorySource, WatchedSource};
use std::alloc::Global;
use std::cell::Cell;
use std::io;
use std::process::Abort;
use std::time::{Clock, Duration};

// A clock that goes on by so many milliseconds each time that it is read.
#[derive(Drop)]
struct Steps {
    now: Cell<u64>,
    step: u64,
}

impl Clock for Steps {
    fn monotonic(&self) -> io::Result<Duration> {
        let now = self.now.get().saturating_add(self.step);
        self.now.set(now);
        Ok(Duration::from_millis(now))
    }

    fn since_1970(&self) -> io::Result<Duration> {
        self.monotonic()
    }
}

// What ten reads of at most four bytes each tell.
fn told(rt: &impl Abort, alloc: Global, bytes: &[u8], step: u64) -> String {
    let source = MemorySource::new(bytes, 4, None);
    let sink = MemorySink::new(alloc, 3, None);
    let now = Cell::new(0);
    let mut watched = WatchedSource::new(alloc, source, sink, Steps { now, step });
    let mut buf = [0; 8];
    for _ in 0..10 {
        let result = watched.read(&mut buf);
        assert!(rt; result.is_ok());
    }
    let mut told = Vec::new(alloc);
    told.extend_from_slice(watched.sink().as_slice())
        .expect(rt, "memory");
    String::from_utf8(told).expect(rt, "UTF-8")
}

// Nothing where reads come soon one after another; else the lines read so far, and a line end at the end of the input.
#[test]
fn lines_and_megabytes(rt: HostRuntime) {
    let alloc = rt.alloc();
    let bytes = b"ab\ncd\n\nxyz";
    for (step, want) in [
        (100, ""),
        (124, ""),
        (250, "\r3 lines, 0.0 MB\r3 lines, 0.0 MB\n"),
        (125, "\r3 lines, 0.0 MB\n"),
    ] {
        assert_eq!(rt; told(&rt, alloc, bytes, step).as_str(), want);
    }
    assert_eq!(rt; told(&rt, alloc, b"", 1000).as_str(), "");
}
