//! The adapters of real devices over fakes of which all is known: a clock that tells a time, an outlet that keeps what it
//! took, and a folder in memory.
ghost use Rattle.std.specs.Prelude.{Some};

use crate::asserts::{assert_row, assert_same};
use kit::LAST_MOMENT;
use outside::{Clock, Failed, FileSink, Outlet, Place, RealClock, Shelf, Sink, TimeTeller};
use shelves::{FileShelf, MemoryFolder};
use std::alloc::Global;
use std::io;
use std::process::Abort;
use std::test::Fail;
use std::time::Duration;

/// A clock that tells the same at each call.
#[derive(Drop)]
struct Told {
    time: io::Result<Duration>,
}

impl TimeTeller for Told {
    ghost tells = { λ clock. Some clock.time };

    fn time(&mut self) -> io::Result<Duration> {
        self.time
    }
}

/// Seconds that a clock tells, and the moment that they are.
const MOMENTS: [(u64, u64); 5] = [
    (0, 0),
    (59, 59),
    (1_700_000_000, 1_700_000_000),
    (LAST_MOMENT, LAST_MOMENT),
    (LAST_MOMENT + 1, LAST_MOMENT),
];

fn a_clock_gives_whole_seconds<R: Abort>(rt: &R) {
    for &(seconds, moment) in &MOMENTS {
        let time = Ok(Duration::new(seconds, 999_999_999));
        assert_row(rt, seconds, RealClock::new(Told { time }).now(), moment);
    }
    // A system whose clock is before 1970 tells no time.
    let time = Err(io::Error::from(io::ErrorKind::InvalidData));
    assert_same(rt, RealClock::new(Told { time }).now(), 0);
}

/// Keeps what it took, and what of it was handed on.
#[derive(Drop)]
struct Pipe {
    bytes: Vec<u8>,
    handed_on: Vec<u8>,
}

fn out_of_memory() -> io::Error {
    io::Error::from(io::ErrorKind::OutOfMemory)
}

impl Outlet for Pipe {
    ghost taken = { λ pipe. Some pipe.bytes.items };

    ghost flushed = { λ pipe. Some pipe.handed_on.items };

    fn take_all(&mut self, chunk: &[u8]) -> io::Result<()> {
        match self.bytes.extend_from_slice(chunk) {
            Ok(()) => Ok(()),
            Err(_) => Err(out_of_memory()),
        }
    }

    fn hand_on(&mut self) -> io::Result<()> {
        self.handed_on.clear();
        match self.handed_on.extend_from_slice(&self.bytes) {
            Ok(()) => Ok(()),
            Err(_) => Err(out_of_memory()),
        }
    }
}

fn a_sink_puts_into_an_outlet<R: Abort>(rt: &R, alloc: Global) {
    let pipe = Pipe {
        bytes: Vec::new(alloc),
        handed_on: Vec::new(alloc),
    };
    let mut sink = FileSink::new(pipe);
    assert_same(rt, sink.put(b"ab"), Ok(()));
    assert_same(rt, sink.put(b""), Ok(()));
}

/// A shelf over a folder in which the file of the second place holds five bytes, and whose calls with these numbers fail.
fn shelf_with(alloc: Global, fails: &[u64]) -> Result<FileShelf<'static, MemoryFolder>, Fail> {
    let folder = MemoryFolder::new(alloc, "b", b"bytes", 8, fails.to_vec(alloc)?)?;
    Ok(FileShelf::new(folder, "a", "b", "tail"))
}

fn each_place_has_its_file<R: Abort>(rt: &R, alloc: Global) -> Result<(), Fail> {
    let mut shelf = shelf_with(alloc, &[])?;
    let mut buf = [0u8; 8];
    assert_same(rt, shelf.size(Place::A), Ok(0));
    assert_same(rt, shelf.size(Place::B), Ok(5));
    assert_same(rt, shelf.write_at(Place::T, 0, b"end"), Ok(()));
    assert_same(rt, shelf.write_at(Place::B, 5, b"123"), Ok(()));
    assert_same(rt, shelf.write_at(Place::B, 5, b"1234"), Err(Failed));
    assert_same(rt, shelf.cut(Place::B, 6), Ok(()));
    assert_same(rt, shelf.read(Place::B, 3, &mut buf), Ok(3));
    assert_same(rt, &buf[..3], b"es1".as_slice());
    assert_same(rt, shelf.read(Place::T, 0, &mut buf), Ok(3));
    assert_same(rt, shelf.size(Place::A), Ok(0));
    Ok(())
}

fn faults_are_told<R: Abort>(rt: &R, alloc: Global) -> Result<(), Fail> {
    let mut shelf = shelf_with(alloc, &[1, 3, 5, 7])?;
    let mut buf = [0u8; 8];
    // It can't be opened, and is not asked for again.
    assert_same(rt, shelf.size(Place::B), Err(Failed));
    assert_same(rt, shelf.read(Place::B, 0, &mut buf), Err(Failed));
    // It is absent, and is made only at the second try.
    assert_same(rt, shelf.write_at(Place::A, 0, b"a"), Err(Failed));
    assert_same(rt, shelf.size(Place::A), Ok(0));
    assert_same(rt, shelf.write_at(Place::A, 0, b"a"), Err(Failed));
    assert_same(rt, shelf.write_at(Place::A, 0, b"a"), Ok(()));
    assert_same(rt, shelf.sync(Place::A), Err(Failed));
    assert_same(rt, shelf.sync(Place::A), Ok(()));
    Ok(())
}

#[test]
fn adapters_do_what_their_devices_tell(rt: HostRuntime) -> Result<(), Fail> {
    a_clock_gives_whole_seconds(&rt);
    a_sink_puts_into_an_outlet(&rt, rt.alloc());
    each_place_has_its_file(&rt, rt.alloc())?;
    faults_are_told(&rt, rt.alloc())
}
