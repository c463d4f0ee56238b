//! A save of a slot that is stopped at each call, over slots that a run does not save over.
ghost use Rattle.std.specs.Prelude.{◌≡◌, ◌<◌, IfSome, true};
ghost use Rattle.checkpoint.specs.Kept.{count_of as kept_count_of};

use crate::asserts::assert_row;
use box_state::Mailbox;
use checkpoint::{Opened, Slots};
use outside::{Shelf, StateFault};
use shelves::{Crash, MemoryShelf};
use state_image::Position;
use std::alloc::Global;
use std::test::Fail;

/// The image of a mailbox with one mail from Bob, which is longer than those below.
const ONE: &[u8] =
    b"CHATSIM1\0\0\0\x08me@x.org\0\0\0\0\0\0\0\x02\0\0\0\0\0\0\0\x7e\0\0\0\0\0\0\0\0\0\0\0\0\0\0\0\0\0\0\0\0f2.\xc0\0\0\0\x02\0\0\0\x01\0\0\0\x01\0\0\0\0f2.\xc0\0\0\0\0\0\x08m1@x.org\0\0\0\x09bob@x.org\0\0\0\x03Bob\0\0\0\x01\0\0\0\x08me@x.org\0\0\0\0\x01\0\0\0\0f2\x12\xa0\0\0\0\0\0\0\0\0\x01\0\0\0\0\0\0\0\0\0\0\0\0\0\0\0\0\0\0\0\0\0\0\0\0\x02Hi\0\0\0\0\0\0\0\0\0\0\0";

/// The image of an empty mailbox after two changes.
const TWO: &[u8] =
    b"CHATSIM1\0\0\0\x08me@x.org\0\0\0\0\0\0\0\x02\0\0\0\0\0\0\0\0\0\0\0\0\0\0\0\0\0\0\0\0\0\0\0\0\0\0\0\0f2.\xc0\0\0\0\x01\0\0\0\0";

/// The same after three.
const THREE: &[u8] =
    b"CHATSIM1\0\0\0\x08me@x.org\0\0\0\0\0\0\0\x03\0\0\0\0\0\0\0\0\0\0\0\0\0\0\0\0\0\0\0\0\0\0\0\0\0\0\0\0f2.\xc0\0\0\0\x01\0\0\0\0";

/// No image.
const NONE: &[u8] = b"CHATSIM0";

/// A slot as it is kept: its gate, its number, the length of its image and the image.
fn slot(alloc: Global, gate: u8, number: u8, image: &[u8]) -> Result<Vec<u8>, Fail> {
    let mut bytes = Vec::new(alloc);
    bytes.push(gate)?;
    bytes.extend_from_slice(&[0, 0, 0, 0, 0, 0, 0, number])?;
    bytes.extend_from_slice(&(image.len() as u64).to_be_bytes())?;
    bytes.extend_from_slice(image)?;
    Ok(bytes)
}

/// A shelf of two such contents with room for 240 bytes in each place and for 32 calls, which fail from the number `stop` on.
fn shelf_of(alloc: Global, a: &[u8], b: &[u8], stop: Option<u64>) -> Result<MemoryShelf, Fail> {
    if a.len() > 240 || b.len() > 240 {
        return Err(Fail::from("no room"));
    }
    let fails = Vec::new(alloc);
    Ok(MemoryShelf::new(alloc, a, b, &[], 240, 32, fails, stop)?)
}

/// The count that is kept, where anything is.
fn kept_count<H: Shelf>(alloc: Global, shelf: &mut H) -> Result<Option<u64>, StateFault> {
    let opened = Slots::open(alloc, shelf)?;
    Ok(count_of(&opened.kept))
}

fn count_of(kept: &Option<(Mailbox, Position)>) -> Option<u64> {
    match kept {
        Some((_, position)) => Some(position.count),
        None => None,
    }
}

/// Whether a number is greater than the count that is kept, where anything is.
fn is_above(number: u64, kept: &Option<(Mailbox, Position)>) -> bool
    ensures { result ≡ true → IfSome (kept_count_of kept.now) (λ count. count < number) }
{
    match kept {
        Some((_, position)) => position.count < number,
        None => true,
    }
}

/// Opens the slots, and saves an image where its number is greater than the count that is kept. It answers whether it was
/// saved.
fn save(alloc: Global, shelf: &mut MemoryShelf, number: u64, image: &[u8]) -> bool {
    let Ok(Opened { mut slots, kept }) = Slots::open(alloc, shelf) else {
        return false;
    };
    if !is_above(number, &kept) {
        return false;
    }
    slots.save(shelf, number, image).is_ok()
}

/// What is done where a run stops: three changes are saved, after the number of calls that this takes.
#[derive(Clone, Copy)]
struct Stopped<'a> {
    a: &'a [u8],
    b: &'a [u8],
    /// The count that is kept in these.
    old: Option<u64>,
    calls: u64,
}

/// Saves three changes again on what a crash leaves, where it did not leave them. It answers the count that was left.
fn save_again(alloc: Global, shelf: &MemoryShelf, crash: Crash) -> Result<Option<u64>, Fail> {
    let mut left = shelf.crash(crash)?;
    let count = kept_count(alloc, &mut left)?;
    if count == Some(3) {
        return Ok(count);
    }
    if save(alloc, &mut left, 3, THREE) && kept_count(alloc, &mut left)? == Some(3) {
        Ok(count)
    } else {
        Err(Fail::from("not saved"))
    }
}

/// Whether a run that is stopped at this call leaves, after each crash, what was kept or what was saved, and only what was
/// saved where it was.
fn leaves_old_or_new(alloc: Global, run: Stopped<'_>, stop: u64) -> Result<bool, Fail> {
    let mut shelf = shelf_of(alloc, run.a, run.b, Some(stop))?;
    let saved = save(alloc, &mut shelf, 3, THREE);
    for crash in [Crash::Old, Crash::New, Crash::Ones] {
        let count = save_again(alloc, &shelf, crash)?;
        if count != Some(3) && (saved || count != run.old) {
            return Ok(false);
        }
    }
    Ok(saved == (run.calls < stop))
}

#[test]
fn a_save_is_stopped_at_each_call(rt: HostRuntime) -> Result<(), Fail> {
    let alloc = rt.alloc();
    let older = slot(alloc, 1, 1, ONE)?;
    let two = slot(alloc, 1, 2, TWO)?;
    let torn = slot(alloc, 0, 9, NONE)?;
    let runs = [
        // nothing is kept, an older slot is in its place, and a torn body is
        (b"".as_slice(), b"".as_slice(), None, 14),
        (older.as_slice(), two.as_slice(), Some(2), 15),
        (two.as_slice(), torn.as_slice(), Some(2), 13),
    ];
    for &(a, b, old, calls) in &runs {
        for stop in 1..calls + 3 {
            let run = Stopped { a, b, old, calls };
            assert_row(
                &rt,
                (calls, stop),
                leaves_old_or_new(alloc, run, stop)?,
                true,
            );
        }
    }
    Ok(())
}
