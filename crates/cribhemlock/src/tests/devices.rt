// Bytes in pieces, devices that fail, and the counts of it.
ghost use Rattle.std.specs.Prelude.{◌≡◌, Some};
ghost use Rattle.line_cuts.specs.Devices.{most};

use line_cuts::{ByteSink, ByteSource, MemorySink, MemorySource, OverRead, OverWrite};
use std::alloc::Global;
use std::io;
use std::io::{Cursor, ErrorKind, Read, Write};
use std::process::Abort;

// Each answer of a device: how many bytes it passed, or a dash where it failed.
fn told(rt: &impl Abort, text: &mut String, answer: io::Result<usize>) {
    match answer {
        Ok(count) => write!(text, "{count}"),
        Err(_) => write!(text, "-"),
    }
    .expect(rt, "memory");
}

// What ten reads answer, then the bytes they gave.
fn ten_reads<S: ByteSource>(rt: &impl Abort, alloc: Global, source: &mut S, room: usize) -> String {
    let mut text = String::new(alloc);
    let mut bytes = Vec::new(alloc);
    let mut buf = [0; 4];
    let room = room.min(4);
    for _ in 0..10 {
        let result = source.read(&mut buf[..room]);
        if let Ok(count) = &result {
            bytes.extend_from_slice(&buf[..*count]).expect(rt, "memory");
        }
        told(rt, &mut text, result);
    }
    let bytes = String::from_utf8(bytes).expect(rt, "UTF-8");
    write!(text, " {bytes}").expect(rt, "memory");
    text
}

// What five writes answer, each of what is not yet taken.
fn five_writes<S: ByteSink>(rt: &impl Abort, alloc: Global, sink: &mut S, bytes: &[u8]) -> String {
    let mut text = String::new(alloc);
    let mut rest = bytes;
    for _ in 0..5 {
        let result = sink.write(rest);
        if let Ok(count) = &result {
            rest = &rest[*count..];
        }
        told(rt, &mut text, result);
    }
    text
}

// What it makes, as a caller of the trait sees it.
fn made(bytes: &[u8]) -> MemorySource<'_>
    ensures remaining { ⟦<MemorySource<'static> as ByteSource>⟧.remaining result ≡ Some bytes.entry.now }
    ensures failures { ⟦<MemorySource<'static> as ByteSource>⟧.failures result ≡ 0 }
    ensures turns { ⟦<MemorySource<'static> as ByteSource>⟧.turns result ≡ most }
{
    MemorySource::new(bytes, 1, None)
}

#[test]
fn sources_in_memory(rt: HostRuntime) {
    let alloc = rt.alloc();
    assert_eq!(rt;
        ten_reads(&rt, alloc, &mut made(b"hello"), 4).as_str(),
        "1111100000 hello"
    );
    for (piece, fails_at, room, want, failures) in [
        (1, None, 4, "1111100000 hello", 0),
        (0, None, 4, "1111100000 hello", 0),
        (2, None, 4, "2210000000 hello", 0),
        (9, None, 3, "3200000000 hello", 0),
        (2, Some(3), 4, "21-------- hel", 8),
        (2, Some(5), 4, "221------- hello", 7),
        (2, Some(6), 4, "2210000000 hello", 0),
        (9, Some(0), 4, "---------- ", 10),
        (2, Some(3), 0, "0000000000 ", 0),
    ] {
        let mut source = MemorySource::new(b"hello", piece, fails_at);
        assert_eq!(rt; ten_reads(&rt, alloc, &mut source, room).as_str(), want);
        assert_eq!(rt; source.failures(), failures, "at a piece of {piece}");
    }
}

#[test]
fn sinks_in_memory(rt: HostRuntime) {
    let alloc = rt.alloc();
    for (piece, fails_at, want, taken, failures) in [
        (1, None, "11111", "hello", 0),
        (0, None, "11111", "hello", 0),
        (3, None, "32000", "hello", 0),
        (2, Some(3), "21---", "hel", 3),
        (9, Some(5), "5----", "hello", 4),
        (9, Some(6), "50000", "hello", 0),
        (9, Some(0), "-----", "", 5),
    ] {
        let mut sink = MemorySink::new(alloc, piece, fails_at);
        assert_eq!(rt; five_writes(&rt, alloc, &mut sink, b"hello").as_str(), want);
        assert_eq!(rt; sink.failures(), failures, "at a piece of {piece}");
        assert_eq!(rt; sink.as_slice(), taken.as_bytes());
        assert_eq!(rt; sink.into_bytes().as_slice(), taken.as_bytes());
    }
}

// A device that fails with each kind in turn, and then passes what is asked to the one inside.
#[derive(Drop)]
struct Faulty<'a, D> {
    faults: &'a [ErrorKind],
    device: D,
}

impl<'a, D> Faulty<'a, D> {
    fn fault(&mut self) -> io::Result<()> {
        if let Some((kind, later)) = self.faults.split_first() {
            self.faults = later;
            return Err(io::Error::from(*kind));
        }
        Ok(())
    }
}

impl<'a, R: Read> Read for Faulty<'a, R> {
    fn read(&mut self, buf: &mut [u8]) -> io::Result<usize> {
        self.fault()?;
        self.device.read(buf)
    }
}

impl<'a, W: Write> Write for Faulty<'a, W> {
    fn write(&mut self, bytes: &[u8]) -> io::Result<usize> {
        self.fault()?;
        self.device.write(bytes)
    }

    fn flush(&mut self) -> io::Result<()> {
        self.device.flush()
    }
}

const FAULTS: [ErrorKind; 4] = [
    ErrorKind::Interrupted,
    ErrorKind::BrokenPipe,
    ErrorKind::Interrupted,
    ErrorKind::Interrupted,
];

#[test]
fn over_readers(rt: HostRuntime) {
    let alloc = rt.alloc();
    let text: &[u8] = b"hello";
    let mut plain = OverRead::new(text);
    assert_eq!(rt;
        ten_reads(&rt, alloc, &mut plain, 4).as_str(),
        "4100000000 hello"
    );
    assert_eq!(rt; plain.failures(), 0);
    let mut cursor = Cursor::new(text);
    cursor.set_position(3);
    let mut moved = OverRead::new(cursor);
    assert_eq!(rt;
        ten_reads(&rt, alloc, &mut moved, 1).as_str(),
        "1100000000 lo"
    );
    assert_eq!(rt; moved.into_inner().position(), 5);
    let mut faulty = OverRead::new(Faulty {
        faults: &FAULTS,
        device: text,
    });
    assert_eq!(rt;
        ten_reads(&rt, alloc, &mut faulty, 2).as_str(),
        "-221000000 hello"
    );
    assert_eq!(rt; faulty.failures(), 1);
}

#[test]
fn over_writers(rt: HostRuntime) {
    let alloc = rt.alloc();
    let mut plain = OverWrite::new(Vec::new(alloc));
    assert_eq!(rt;
        five_writes(&rt, alloc, &mut plain, b"hello").as_str(),
        "50000"
    );
    assert_eq!(rt; plain.failures(), 0);
    assert_eq!(rt; plain.into_inner().as_slice(), b"hello".as_slice());
    let mut room = [0; 3];
    let mut full = OverWrite::new(&mut room[..]);
    assert_eq!(rt;
        five_writes(&rt, alloc, &mut full, b"hello").as_str(),
        "30000"
    );
    assert_eq!(rt; full.failures(), 4);
    let mut faulty = OverWrite::new(Faulty {
        faults: &FAULTS,
        device: Vec::new(alloc),
    });
    assert_eq!(rt;
        five_writes(&rt, alloc, &mut faulty, b"hello").as_str(),
        "-5000"
    );
    assert_eq!(rt; faulty.failures(), 1);
    assert_eq!(rt; faulty.into_inner().device.as_slice(), b"hello".as_slice());
}
