//! Devices in memory, and writers that take less than they are given: what each gives, and a call of it that fails.
use crate::asserts::{assert_row, assert_same};
use outside::{
    Clock, Failed, FileSink, FixedClock, MemorySink, MemorySource, NoShelf, NoSource, Place,
    QuietSource, Shelf, Sink, Source,
};
use std::alloc::Global;
use std::io;
use std::io::Write;
use std::process::Abort;
use std::test::Fail;

/// What the takes of two bytes answer of a source of three whose second call fails, and the first byte after each.
const TAKES: [(Result<usize, Failed>, u8); 4] = [
    (Ok(2), b'a'),
    (Err(Failed), b'a'),
    (Ok(1), b'c'),
    (Ok(0), b'c'),
];

/// How much two bytes of room take of a source of three, where these are the most that it gives at once.
const PIECES: [(usize, usize); 3] = [(1, 1), (3, 2), (3, 0)];

/// What is put into a sink with room for four bytes whose second call fails, the answer, and what it has then.
const PUTS: [(&[u8], Result<(), Failed>, &[u8]); 4] = [
    (b"ab", Ok(()), b"ab"),
    (b"c", Err(Failed), b"ab"),
    (b"cd", Ok(()), b"abcd"),
    (b"e", Err(Failed), b"abcd"),
];

fn sources_give_their_bytes<R: Abort>(rt: &R, alloc: Global) -> Result<(), Fail> {
    let mut source = MemorySource::new(b"abc".as_slice().to_vec(alloc)?, [2].to_vec(alloc)?);
    let mut buf = [0u8; 2];
    for &(answer, first) in &TAKES {
        assert_same(rt, source.take(&mut buf), answer);
        assert_same(rt, buf[0], first);
    }
    let mut pieces = MemorySource::new(b"abc".as_slice().to_vec(alloc)?, Vec::new(alloc));
    for &(most, count) in &PIECES {
        pieces.set_piece(most);
        assert_row(rt, most, pieces.take(&mut buf), Ok(count));
    }
    let mut quiet = QuietSource::new(b"ab".as_slice().to_vec(alloc)?);
    let mut buf = [0u8; 4];
    assert_same(rt, quiet.take(&mut buf), Ok(2));
    assert_same(rt, buf, *b"ab\0\0");
    assert_same(rt, NoSource.take(&mut buf), Ok(0));
    Ok(())
}

fn a_sink_fails_at_its_call_and_when_full<R: Abort>(rt: &R, alloc: Global) -> Result<(), Fail> {
    let mut sink = MemorySink::new(alloc, 4, [2].to_vec(alloc)?)?;
    for &(bytes, answer, held) in &PUTS {
        assert_same(rt, sink.put(bytes), answer);
        assert_same(rt, sink.bytes(), held);
    }
    Ok(())
}

fn no_shelf_refuses_each_call<R: Abort>(rt: &R) {
    let mut shelf = NoShelf::new();
    let mut buf = [0u8; 4];
    assert_same(rt, shelf.size(Place::A), Err(Failed));
    assert_same(rt, shelf.read(Place::B, 0, &mut buf), Err(Failed));
    assert_same(rt, shelf.write_at(Place::T, 0, b"ab"), Err(Failed));
    assert_same(rt, shelf.cut(Place::A, 0), Err(Failed));
    assert_same(rt, shelf.sync(Place::B), Err(Failed));
}

/// A writer that takes up to `at_once` bytes at a call and `room` bytes in all. When it is full it takes
/// nothing, or fails.
#[derive(Clone, Copy, Drop)]
struct FakeWriter {
    at_once: usize,
    room: usize,
    fails_when_full: bool,
    fails_to_flush: bool,
}

impl Write for FakeWriter {
    fn write(&mut self, buf: &[u8]) -> io::Result<usize> {
        let count = buf.len().min(self.at_once).min(self.room);
        if count == 0 && self.fails_when_full {
            return Err(io::Error::from(io::ErrorKind::Other));
        }
        self.room -= count;
        Ok(count)
    }

    fn flush(&mut self) -> io::Result<()> {
        if self.fails_to_flush {
            return Err(io::Error::from(io::ErrorKind::Other));
        }
        Ok(())
    }
}

/// A writer that takes a byte at once, and four in all.
const PATIENT: FakeWriter = FakeWriter {
    at_once: 1,
    room: 4,
    fails_when_full: false,
    fails_to_flush: false,
};

/// Writers, and what a sink over each answers to four bytes: one that is asked again, one that takes nothing, one that takes
/// less in all, one that fails, and one that fails to flush.
const WRITERS: [(FakeWriter, Result<(), Failed>); 5] = [
    (PATIENT, Ok(())),
    (FakeWriter { room: 0, ..PATIENT }, Err(Failed)),
    (FakeWriter { room: 3, ..PATIENT }, Err(Failed)),
    (
        FakeWriter {
            room: 3,
            fails_when_full: true,
            ..PATIENT
        },
        Err(Failed),
    ),
    (
        FakeWriter {
            fails_to_flush: true,
            ..PATIENT
        },
        Err(Failed),
    ),
];

fn puts_fail_where_a_writer_does_not_take_all<R: Abort>(rt: &R) {
    for &(writer, answer) in &WRITERS {
        assert_row(rt, writer.room, FileSink::new(writer).put(b"abcd"), answer);
    }
}

#[test]
fn devices_fail_where_they_are_told_to(rt: HostRuntime) -> Result<(), Fail> {
    sources_give_their_bytes(&rt, rt.alloc())?;
    a_sink_fails_at_its_call_and_when_full(&rt, rt.alloc())?;
    no_shelf_refuses_each_call(&rt);
    puts_fail_where_a_writer_does_not_take_all(&rt);
    let mut clock = FixedClock::new(1_700_000_000);
    assert_same(&rt, clock.now(), 1_700_000_000);
    assert_same(&rt, clock.now(), 1_700_000_000);
    Ok(())
}
