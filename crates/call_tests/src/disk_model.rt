//! The disk model on the shelf in memory, sentence by sentence.
use crate::asserts::{assert_row, assert_same};
use outside::{Failed, Place, Shelf};
use shelves::{Crash, Did, MemoryShelf, ShelfCall};
use std::alloc::Global;
use std::process::Abort;
use std::test::Fail;

/// The number of a call that there is not.
const NEVER: u64 = 0;

/// What is done to a place.
#[derive(Clone, Copy)]
enum Step {
    Write(Place, u64, &'static [u8]),
    Cut(Place, u64),
    Sync(Place),
}

/// What the crashes are to leave of a place.
#[derive(Clone, Copy)]
enum Left {
    /// These bytes, whatever came to the disk.
    Only(&'static [u8]),
    /// Such bytes with nothing done since its last sync, with all done, and with bytes 1.
    Each(&'static [u8], &'static [u8], &'static [u8]),
}

/// A shelf of `[7, 8, 9]`, nothing and `[5]`, with room for 16 bytes in each place and for 12 calls, whose calls fail from
/// the number `stop` on.
fn small(alloc: Global, stop: u64) -> Result<MemoryShelf, Fail> {
    let stop = if stop == NEVER { None } else { Some(stop) };
    Ok(MemoryShelf::new(alloc, &[7, 8, 9], &[], &[5], 16, 12, Vec::new(alloc), stop)?)
}

/// A write that begins within the place or at its end.
fn write(shelf: &mut MemoryShelf, place: Place, at: u64, bytes: &[u8]) -> Result<(), Failed> {
    if (shelf.bytes(place).len() as u64) < at {
        return Err(Failed);
    }
    shelf.write_at(place, at, bytes)
}

/// A cut to no more than the size.
fn cut(shelf: &mut MemoryShelf, place: Place, size: u64) -> Result<(), Failed> {
    if (shelf.bytes(place).len() as u64) < size {
        return Err(Failed);
    }
    shelf.cut(place, size)
}

fn make(shelf: &mut MemoryShelf, step: Step) -> Result<(), Failed> {
    match step {
        Step::Write(place, at, bytes) => write(shelf, place, at, bytes),
        Step::Cut(place, size) => cut(shelf, place, size),
        Step::Sync(place) => shelf.sync(place),
    }
}

/// Makes steps up to one that fails.
fn make_all(shelf: &mut MemoryShelf, steps: &[Step]) -> Result<(), Failed> {
    for step in steps {
        make(shelf, *step)?;
    }
    Ok(())
}

fn is_left(shelf: &MemoryShelf, place: Place, crash: Crash, bytes: &[u8]) -> Result<bool, Fail> {
    Ok(shelf.crash(crash)?.bytes(place) == bytes)
}

fn leaves(shelf: &MemoryShelf, place: Place, left: Left) -> Result<bool, Fail> {
    let (old, new, ones) = match left {
        Left::Only(bytes) => (bytes, bytes, bytes),
        Left::Each(old, new, ones) => (old, new, ones),
    };
    Ok(
        is_left(shelf, place, Crash::Old, old)?
            && is_left(shelf, place, Crash::New, new)?
            && is_left(shelf, place, Crash::Ones, ones)?,
    )
}

/// What is done to the shelf, a place, and what each crash leaves of it.
const OUTCOMES: [(&[Step], Place, Left); 14] = [
    // A new shelf has one crash outcome.
    (&[], Place::A, Left::Only(&[7, 8, 9])),
    (&[], Place::B, Left::Only(&[])),
    (&[], Place::T, Left::Only(&[5])),
    // A range that was written may hold any bytes.
    (
        &[Step::Write(Place::A, 1, &[4])],
        Place::A,
        Left::Each(&[7, 8, 9], &[7, 4, 9], &[7, 1, 9]),
    ),
    // What lies past the synced size may hold any bytes.
    (
        &[Step::Write(Place::A, 3, &[4, 4])],
        Place::A,
        Left::Each(&[7, 8, 9], &[7, 8, 9, 4, 4], &[7, 8, 9, 1, 1]),
    ),
    // The size may be any since the sync.
    (
        &[Step::Cut(Place::A, 1), Step::Write(Place::A, 1, &[4])],
        Place::A,
        Left::Each(&[7, 8, 9], &[7, 4], &[7, 1, 9]),
    ),
    // All other bytes stay.
    (
        &[
            Step::Write(Place::A, 0, &[4]),
            Step::Write(Place::A, 2, &[4, 4]),
        ],
        Place::A,
        Left::Each(&[7, 8, 9], &[4, 8, 4, 4], &[1, 8, 1, 1]),
    ),
    (
        &[
            Step::Write(Place::A, 0, &[4]),
            Step::Write(Place::A, 2, &[4, 4]),
        ],
        Place::B,
        Left::Only(&[]),
    ),
    (
        &[
            Step::Write(Place::A, 0, &[4]),
            Step::Write(Place::A, 2, &[4, 4]),
        ],
        Place::T,
        Left::Only(&[5]),
    ),
    // A sync makes what a read gives last.
    (
        &[Step::Write(Place::A, 0, &[4]), Step::Sync(Place::A)],
        Place::A,
        Left::Only(&[4, 8, 9]),
    ),
    (
        &[
            Step::Write(Place::A, 0, &[4]),
            Step::Sync(Place::A),
            Step::Cut(Place::A, 0),
            Step::Sync(Place::A),
        ],
        Place::A,
        Left::Only(&[]),
    ),
    // A sync of another place makes nothing last.
    (
        &[Step::Write(Place::T, 0, &[4]), Step::Sync(Place::A)],
        Place::T,
        Left::Each(&[5], &[4], &[1]),
    ),
    (
        &[Step::Write(Place::T, 0, &[4]), Step::Sync(Place::A)],
        Place::A,
        Left::Only(&[7, 8, 9]),
    ),
    (
        &[Step::Write(Place::T, 0, &[4]), Step::Sync(Place::T)],
        Place::T,
        Left::Only(&[4]),
    ),
];

/// Each crash leaves what the model allows.
fn leaves_each_outcome<R: Abort>(rt: &R, alloc: Global) -> Result<(), Fail> {
    for (index, &(steps, place, left)) in OUTCOMES.iter().enumerate() {
        let mut shelf = small(alloc, NEVER)?;
        assert_row(rt, index, make_all(&mut shelf, steps), Ok(()));
        assert_row(rt, index, leaves(&shelf, place, left)?, true);
    }
    Ok(())
}

/// Five calls of the first place.
const SCRIPT: [Step; 5] = [
    Step::Write(Place::A, 0, &[4]),
    Step::Sync(Place::A),
    Step::Write(Place::A, 3, &[4]),
    Step::Cut(Place::A, 2),
    Step::Sync(Place::A),
];

/// What a crash leaves after the script was stopped at its first call, its second and so on, and after its end.
const STOPPED: [Left; 6] = [
    Left::Only(&[7, 8, 9]),
    Left::Each(&[7, 8, 9], &[4, 8, 9], &[1, 8, 9]),
    Left::Only(&[4, 8, 9]),
    Left::Each(&[4, 8, 9], &[4, 8, 9, 4], &[4, 8, 9, 1]),
    Left::Each(&[4, 8, 9], &[4, 8], &[4, 8, 9, 1]),
    Left::Only(&[4, 8]),
];

/// The script is stopped at each call, and each call after the stop fails too.
fn is_stopped_at_each_call<R: Abort>(rt: &R, alloc: Global) -> Result<(), Fail> {
    for (&left, stop) in STOPPED.iter().zip(1..7u64) {
        let mut shelf = small(alloc, stop)?;
        assert_row(rt, stop, make_all(&mut shelf, &SCRIPT).is_ok(), stop == 6);
        assert_row(rt, stop, leaves(&shelf, Place::A, left)?, true);
        assert_row(rt, stop, shelf.sync(Place::A), Err(Failed));
        assert_row(rt, stop, leaves(&shelf, Place::A, left)?, true);
    }
    Ok(())
}

/// A read gives what there is.
fn is_read<R: Abort>(rt: &R, alloc: Global) -> Result<(), Fail> {
    let mut shelf = small(alloc, NEVER)?;
    let mut buf = [0u8; 2];
    assert_same(rt, shelf.read(Place::A, 0, &mut buf), Ok(2));
    assert_same(rt, buf, [7, 8]);
    assert_same(rt, shelf.read(Place::A, 2, &mut buf), Ok(1));
    assert_same(rt, buf[0], 9);
    assert_same(rt, shelf.read(Place::A, 3, &mut buf), Ok(0));
    assert_same(rt, shelf.read(Place::A, 99, &mut buf), Ok(0));
    assert_same(rt, shelf.size(Place::A), Ok(3));
    Ok(())
}

/// A call that is to fail changes nothing.
fn fails_at_two_calls<R: Abort>(rt: &R, alloc: Global) -> Result<(), Fail> {
    let fails = [1, 3].to_vec(alloc)?;
    let mut shelf = MemoryShelf::new(alloc, &[7, 8], &[], &[], 16, 12, fails, None)?;
    assert_same(rt, shelf.write_at(Place::A, 0, &[4]), Err(Failed));
    assert!(rt; leaves(&shelf, Place::A, Left::Only(&[7, 8]))?);
    assert_same(rt, shelf.write_at(Place::A, 0, &[4]), Ok(()));
    assert_same(rt, shelf.sync(Place::A), Err(Failed));
    let left = Left::Each(&[7, 8], &[4, 8], &[1, 8]);
    assert!(rt; leaves(&shelf, Place::A, left)?);
    Ok(())
}

/// Calls are recorded, the one at which it stops too.
fn is_recorded<R: Abort>(rt: &R, alloc: Global) -> Result<(), Fail> {
    let mut shelf = small(alloc, 2)?;
    assert_same(rt, write(&mut shelf, Place::B, 0, &[4, 4]), Ok(()));
    assert_same(rt, cut(&mut shelf, Place::B, 1), Err(Failed));
    let written = ShelfCall {
        did: Did::Write,
        place: Place::B,
        at: 0,
        len: 2,
    };
    let cut = ShelfCall {
        did: Did::Cut,
        place: Place::B,
        at: 1,
        len: 0,
    };
    assert_same(rt, shelf.calls(), [written, cut].as_slice());
    Ok(())
}

/// A write past the room and a call past the record fail.
fn has_no_room<R: Abort>(rt: &R, alloc: Global) -> Result<(), Fail> {
    let mut shelf = MemoryShelf::new(alloc, &[], &[], &[], 2, 3, Vec::new(alloc), None)?;
    assert_same(rt, shelf.write_at(Place::B, 0, &[4, 4, 4]), Err(Failed));
    assert_same(rt, shelf.write_at(Place::B, 0, &[4, 4]), Ok(()));
    assert_same(rt, shelf.sync(Place::B), Ok(()));
    assert_same(rt, shelf.size(Place::B), Err(Failed));
    assert_same(rt, shelf.calls().len(), 3);
    Ok(())
}

/// A crash is a shelf that goes on.
fn goes_on<R: Abort>(rt: &R, alloc: Global) -> Result<(), Fail> {
    let mut shelf = small(alloc, 2)?;
    assert_same(rt, write(&mut shelf, Place::A, 0, &[4]), Ok(()));
    let mut left = shelf.crash(Crash::Ones)?;
    assert!(rt; leaves(&left, Place::A, Left::Only(&[1, 8, 9]))?);
    assert_same(rt, left.calls().len(), 0);
    assert_same(rt, write(&mut left, Place::A, 3, &[6]), Ok(()));
    assert_same(rt, left.sync(Place::A), Ok(()));
    assert!(rt; leaves(&left, Place::A, Left::Only(&[1, 8, 9, 6]))?);
    Ok(())
}

#[test]
fn a_shelf_in_memory_is_as_the_disk_model_says(rt: HostRuntime) -> Result<(), Fail> {
    let alloc = rt.alloc();
    leaves_each_outcome(&rt, alloc)?;
    is_stopped_at_each_call(&rt, alloc)?;
    is_read(&rt, alloc)?;
    fails_at_two_calls(&rt, alloc)?;
    is_recorded(&rt, alloc)?;
    has_no_room(&rt, alloc)?;
    goes_on(&rt, alloc)
}
