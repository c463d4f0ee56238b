//! What is said of a change before it is made, and of the items of a mailbox.
use box_state::{Mailbox, PlanFault};
use kit::Memory;
use mailbox_model::{Change, Item, Turn};
use scripts::add_number;
use std::alloc::Global;

/// Adds a word, and then numbers.
fn add_numbers(
    said: &mut Vec<u8>,
    alloc: Global,
    word: &[u8],
    numbers: &[u64],
) -> Result<(), Memory> {
    said.extend_from_slice(word)?;
    for &number in numbers {
        said.push(b' ')?;
        add_number(said, alloc, number)?;
    }
    said.push(b'\n')?;
    Ok(())
}

/// Says what a change does to the present cards: of a card that comes in its date and its uid, and else the uids.
fn add_turn(said: &mut Vec<u8>, alloc: Global, turn: &Turn) -> Result<(), Memory> {
    match turn {
        Turn::Nothing => add_numbers(said, alloc, b"nothing", &[]),
        Turn::Add(spot) => add_numbers(said, alloc, b"add", &[spot.date, u64::from(spot.uid)]),
        Turn::Remove(spot) => add_numbers(said, alloc, b"remove", &[u64::from(spot.uid)]),
        Turn::Replace(from, to) => {
            said.extend_from_slice(b"replace ")?;
            add_number(said, alloc, u64::from(from.uid))?;
            add_numbers(said, alloc, b" by", &[u64::from(to.uid)])
        }
        Turn::Marked(uid) => add_numbers(said, alloc, b"marked", &[u64::from(*uid)]),
        Turn::Moved(moment) => add_numbers(said, alloc, b"moved", &[*moment]),
    }
}

/// Says what a change would do to the present cards.
pub fn add_plan(
    said: &mut Vec<u8>,
    alloc: Global,
    mailbox: &Mailbox,
    change: &Change,
) -> Result<(), Memory> {
    match mailbox.plan(change) {
        Ok(turn) => add_turn(said, alloc, &turn),
        Err(PlanFault::Full) => Ok(()),
        Err(PlanFault::Memory) => Err(Memory),
    }
}

fn add_item(said: &mut Vec<u8>, alloc: Global, item: &Item) -> Result<(), Memory> {
    let uid = u64::from(item.uid);
    match item.seen {
        Some(seen) => add_numbers(said, alloc, b"item", &[uid, item.arrival, seen]),
        None => add_numbers(said, alloc, b"item", &[uid, item.arrival]),
    }
}

/// Says of each item its uid, when it arrived, and when it was seen.
pub fn add_items(said: &mut Vec<u8>, alloc: Global, items: &[Item]) -> Result<(), Memory> {
    for item in items {
        add_item(said, alloc, item)?;
    }
    Ok(())
}

/// Says how many items there are.
pub fn add_count(said: &mut Vec<u8>, alloc: Global, count: usize) -> Result<(), Memory> {
    add_numbers(said, alloc, b"items", &[count as u64])
}
