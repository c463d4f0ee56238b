//! The places of a shelf in memory, and all that was done to them.
ghost use Rattle.std.specs.Prelude.{◌≡◌, ◌≤◌, ◌<◌, ◌+◌, [], length, vec_len, vec_capacity, IfOk};
ghost use Rattle.shelves.specs.History.{disk_at_first, after};
ghost use Rattle.shelves.specs.Kept.{AreKept, HaveRooms};
ghost use Rattle.shelves.specs.Room.{HaveRoom};

use crate::call::Crash;
use crate::event::{Event, What, add_event, copied, spare_copies};
use crate::file::{File, filled};
use crate::files::Files;
use outside::Place;
use std::alloc::{AllocError, Global};

// The contents at first, the events since then in their order, and what these made of the places. Each place has room
// for so many bytes, and so has each vector of `spare`, into which a write's bytes are copied.
#[derive(Drop)]
pub struct Disk {
    pub first_a: Vec<u8>,
    pub first_b: Vec<u8>,
    pub first_t: Vec<u8>,
    pub events: Vec<Event>,
    pub files: Files,
    pub spare: Vec<Vec<u8>>,
    pub room: usize,
    // How many events have room.
    pub calls: usize,
    pub ghost are_kept: { AreKept (after (disk_at_first (record { a = first_a.items; b = first_b.items; t = first_t.items }))
        events.items) files },
    pub ghost rooms: { HaveRooms room files },
    pub ghost spare_rooms: { HaveRoom room spare.items },
    pub ghost spares: { calls ≤ vec_len events + vec_len spare },
    pub ghost event_room: { calls ≤ vec_capacity events },
}

impl Disk {
    ghost use Rattle.outside.specs.Places.{Places, content};
    ghost use Rattle.shelves.specs.History.{reads, written, cut_to, synced_now, picked};
    ghost use Rattle.shelves.specs.Disks.{state_of, first_of, Went};

    // Places that hold these bytes at first, with room for so many bytes in each and for so many events.
    pub fn new(
        alloc: Global,
        a: &[u8],
        b: &[u8],
        t: &[u8],
        room: usize,
        calls: usize,
    ) -> Result<Disk, AllocError>
        requires a { length a.now ≤ room }
        requires b { length b.now ≤ room }
        requires t { length t.now ≤ room }
        ensures first { IfOk result (λ disk. first_of disk ≡ record { a = a.now; b = b.now; t = t.now }) }
        ensures events { IfOk result (λ disk. disk.events.items ≡ []) }
        ensures room { IfOk result (λ disk. disk.room ≡ room) }
        ensures calls { IfOk result (λ disk. disk.calls ≡ calls) }
    {
        Ok(Disk {
            first_a: filled(alloc, a, a.len())?,
            first_b: filled(alloc, b, b.len())?,
            first_t: filled(alloc, t, t.len())?,
            events: Vec::with_capacity(alloc, calls)?,
            files: Files {
                a: File::new(alloc, a, room)?,
                b: File::new(alloc, b, room)?,
                t: File::new(alloc, t, room)?,
            },
            spare: spare_copies(alloc, room, calls)?,
            room,
            calls,
        })
    }

    pub fn write(&mut self, place: Place, at: usize, bytes: &[u8])
        requires start { at ≤ length (content (reads (state_of self.old)) place) }
        requires room { at + length bytes.now ≤ self.old.room }
        requires calls { vec_len self.old.events < self.old.calls }
        ensures went { Went place (written at bytes.now) (length bytes.now) self.old self.new }
        ensures len { vec_len self.new.events ≡ vec_len self.old.events + 1 }
        ensures room { self.new.room ≡ self.old.room }
        ensures calls { self.new.calls ≡ self.old.calls }
    {
        let copy = copied(&mut self.spare, self.room, bytes);
        self.files.write(place, at, bytes);
        add_event(&mut self.events, place, What::Wrote(at, copy));
    }

    pub fn cut(&mut self, place: Place, size: usize)
        requires calls { vec_len self.old.events < self.old.calls }
        ensures went { Went place (cut_to size) 0 self.old self.new }
        ensures len { vec_len self.new.events ≡ vec_len self.old.events + 1 }
        ensures room { self.new.room ≡ self.old.room }
        ensures calls { self.new.calls ≡ self.old.calls }
    {
        self.files.cut(place, size);
        add_event(&mut self.events, place, What::Cut(size));
    }

    pub fn sync(&mut self, place: Place)
        requires calls { vec_len self.old.events < self.old.calls }
        ensures went { Went place synced_now 0 self.old self.new }
        ensures len { vec_len self.new.events ≡ vec_len self.old.events + 1 }
        ensures room { self.new.room ≡ self.old.room }
        ensures calls { self.new.calls ≡ self.old.calls }
    {
        self.files.sync(place);
        add_event(&mut self.events, place, What::Synced);
    }

    pub fn bytes(&self, place: Place) -> &[u8]
        ensures { result.now ≡ content (reads (state_of self.now)) place }
    {
        &self.files.at(place).bytes
    }

    // What a crash leaves of a place.
    pub fn outcome(&self, place: Place, crash: Crash) -> &[u8]
        ensures outcome { result.now ≡ content (picked crash (state_of self.now)) place }
        ensures fits { length result.now ≤ self.now.room }
    {
        self.files.at(place).outcome(crash)
    }
}
