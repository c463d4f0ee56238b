//! What was done to the places of a shelf in memory.
ghost use Rattle.std.specs.Prelude.{◌≡◌, ◌<◌, ◌≤◌, ◌+◌, ◌++◌, ◌∷◌, [], length, vec_len, vec_capacity, IfOk};
ghost use Rattle.shelves.specs.Room.{HaveRoom};

use outside::Place;
use std::alloc::{AllocError, Global};

// What was done to a place.
#[derive(Drop)]
pub enum What {
    // These bytes were written from this offset on.
    Wrote(usize, Vec<u8>),
    // It was cut to this size.
    Cut(usize),
    Synced,
}

#[derive(Drop)]
pub struct Event {
    pub place: Place,
    pub what: What,
}

// Adds an event where there is room for it.
pub fn add_event(events: &mut Vec<Event>, place: Place, what: What)
    requires { vec_len events.old < vec_capacity events.old }
    ensures events { events.new.items ≡ events.old.items ++ (record { place = place; what = what }) ∷ [] }
    ensures len { vec_len events.new ≡ vec_len events.old + 1 }
    ensures room { vec_capacity events.old ≤ vec_capacity events.new }
{
    match events.push(Event { place, what }) {
        Ok(()) => {}
        Err(_) => unreachable!(),
    }
}

// A copy of the bytes in memory that was taken before.
pub fn copied(spare: &mut Vec<Vec<u8>>, room: usize, bytes: &[u8]) -> Vec<u8>
    requires some { 0 < vec_len spare.old }
    requires have { HaveRoom room spare.old.items }
    requires fits { length bytes.now ≤ room }
    ensures copy { result.items ≡ bytes.now }
    ensures len { vec_len spare.new + 1 ≡ vec_len spare.old }
    ensures have { HaveRoom room spare.new.items }
{
    match spare.pop() {
        Some(mut copy) => {
            copy.clear();
            match copy.extend_from_slice(bytes) {
                Ok(()) => copy,
                Err(_) => unreachable!(),
            }
        }
        None => unreachable!(),
    }
}

// As many empty vectors as there are calls, each with this room.
pub fn spare_copies(alloc: Global, room: usize, calls: usize) -> Result<Vec<Vec<u8>>, AllocError>
    ensures len { IfOk result (λ spare. vec_len spare ≡ calls) }
    ensures have { IfOk result (λ spare. HaveRoom room spare.items) }
{
    let mut spare = Vec::with_capacity(alloc, calls)?;
    for _ in 0..calls {
        spare.push(Vec::with_capacity(alloc, room)?)?;
    }
    Ok(spare)
}
