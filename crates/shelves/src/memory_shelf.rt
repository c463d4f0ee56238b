//! A shelf in memory, whose calls fail where they are told to, and whose crashes can be looked at.
ghost use Rattle.std.specs.Prelude.{◌≡◌, ◌≤◌, ◌+◌, ◌-◌, ◌↔◌, [], min, length, take, drop, vec_len, Some, None, IfOk, IfSome, IsErr, IsTrue, OnOk, OnErr};
ghost use Rattle.std.specs.Io.{ReadsAtMost};
ghost use Rattle.outside.specs.Places.{Places, content, Changes};
ghost use Rattle.outside.specs.Causes.{HasCause};

use crate::call::{Crash, Did, ShelfCall};
use crate::call_log::CallLog;
use crate::disk::Disk;
use kit::Memory;
use outside::{Failed, FaultCount, Place, Shelf};
use std::alloc::Global;

/// Three places in memory that is taken when the shelf is made. Its contents, its crash outcomes and its calls are known.
///
/// What it stores is the history of what was done to it, and its crash outcomes are what the disk model makes of that
/// history. A call fails where its number is one of those that are to fail, from the stop on, where no room is left
/// to record it, and, if it is a write, where no room is left for its bytes. It fails at no other call, and a call
/// that fails changes no place.
#[derive(Drop)]
pub struct MemoryShelf {
    alloc: Global,
    disk: Disk,
    log: CallLog,
    faults: FaultCount,
    ghost events_fit: { vec_len disk.events ≤ length log.calls },
    ghost same_calls: { disk.calls ≡ log.room },
}

// Reads what there is from an offset on.
pub fn read_part(all: &[u8], at: u64, buf: &mut [u8]) -> usize
    ensures count { result ≡ min (length buf.old) (length all.now - at) }
    ensures bytes { take result buf.new ≡ take result (drop at all.now) }
    ensures len { length buf.new ≡ length buf.old }
{
    let at = at as usize;
    if all.len() <= at {
        return 0;
    }
    let count = buf.len().min(all.len() - at);
    buf[..count].copy_from_slice(&all[at..at + count]);
    count
}

// Whether so many bytes from this offset on end within the room.
pub fn has_room(room: usize, at: u64, len: usize) -> bool
    ensures { IsTrue result ↔ (at + len ≤ room) }
{
    match (at as usize).checked_add(len) {
        Some(end) => end <= room,
        None => false,
    }
}

impl MemoryShelf {
    ghost use Rattle.shelves.specs.MemoryShelf.{seen_of, left_of, moment_of, written_of, faults_of, calls_of, room_of, no_calls, outcome_of};

    /// A shelf that holds these three contents, each synced, whose calls with these numbers fail, and all from the
    /// number `stop` on. The first call has the number 1.
    ///
    /// `room` is the number of bytes that each place can hold, at least the length of each content, and `calls` the number of
    /// calls that can be recorded. `Memory` comes where there is no memory for these.
    pub fn new(
        alloc: Global,
        a: &[u8],
        b: &[u8],
        t: &[u8],
        room: usize,
        calls: usize,
        fails: Vec<u64>,
        stop: Option<u64>,
    ) -> Result<MemoryShelf, Memory>
        requires a { length a.now ≤ room }
        requires b { length b.now ≤ room }
        requires t { length t.now ≤ room }
        ensures seen { IfOk result (λ shelf. seen_of shelf ≡ Some (record { a = a.now; b = b.now; t = t.now })) }
        ensures synced { IfOk result (λ shelf. (c : Places) → left_of shelf c
            → c ≡ record { a = a.now; b = b.now; t = t.now }) }
        ensures moment { IfOk result (λ shelf. moment_of shelf ≡ 0) }
        ensures written { IfOk result (λ shelf. written_of shelf ≡ 0) }
        ensures faults { IfOk result (λ shelf. faults_of shelf ≡ 0) }
        ensures calls { IfOk result (λ shelf. calls_of shelf ≡ no_calls calls fails.items stop) }
        ensures room { IfOk result (λ shelf. room_of shelf ≡ room) }
    {
        let disk = Disk::new(alloc, a, b, t, room, calls)?;
        let log = CallLog::new(alloc, calls, fails, stop)?;
        Ok(MemoryShelf {
            alloc,
            disk,
            log,
            faults: FaultCount::new(),
        })
    }

    /// The bytes of the place. Takes no memory, and is no call of the shelf.
    pub fn bytes(&self, place: Place) -> &[u8]
        ensures { IfSome (seen_of self.now) (λ places. result.now ≡ content places place) }
    {
        self.disk.bytes(place)
    }

    /// The calls so far, in their order: as many as there is room for. Takes no memory.
    pub fn calls(&self) -> &[ShelfCall]
        ensures { result.now ≡ (calls_of self.now).calls }
    {
        self.log.calls()
    }

    /// What a crash now leaves, as a new shelf with the same room for bytes and for calls, of which no call is to fail.
    ///
    /// `Memory` comes where there is no memory for it.
    pub fn crash(&self, pick: Crash) -> Result<MemoryShelf, Memory>
        ensures seen { IfOk result (λ shelf. seen_of shelf ≡ Some (outcome_of pick self.now)) }
        ensures outcome { IfOk result (λ shelf. IfSome (seen_of shelf) (left_of self.now)) }
        ensures synced { IfOk result (λ shelf. (c : Places) → left_of shelf c → c ≡ outcome_of pick self.now) }
        ensures moment { IfOk result (λ shelf. moment_of shelf ≡ 0) }
        ensures written { IfOk result (λ shelf. written_of shelf ≡ 0) }
        ensures faults { IfOk result (λ shelf. faults_of shelf ≡ 0) }
        ensures calls { IfOk result (λ shelf. calls_of shelf ≡ no_calls (calls_of self.now).room [] None) }
        ensures room { IfOk result (λ shelf. room_of shelf ≡ room_of self.now) }
    {
        let fails = Vec::new(self.alloc);
        MemoryShelf::new(
            self.alloc,
            self.disk.outcome(Place::A, pick),
            self.disk.outcome(Place::B, pick),
            self.disk.outcome(Place::T, pick),
            self.disk.room,
            self.disk.calls,
            fails,
            None,
        )
    }
}

impl Shelf for MemoryShelf {
    ghost use Rattle.outside.specs.Places.{OthersStay};
    ghost use Rattle.outside.specs.Crash.{Holds, Torn, PartlyCut, IfKnown, Follows, WasOutcome, SameOutcomes, OnlyAt, Elapses, RisesUpTo};
    ghost use Rattle.shelves.specs.declared.call.Did.TheVariants as did;
    ghost use Rattle.shelves.specs.Calls.{recorded};
    ghost use Rattle.shelves.specs.Disks.{first_of};
    ghost use Rattle.shelves.specs.History.{disk_at_first};
    ghost use Rattle.shelves.specs.Laws.{is_outcome as an_outcome, counts_now as now_counts, only_now as now_only};
    ghost use Rattle.shelves.specs.MemoryShelf.{seen_of, left_of, moment_of, left_since_of, written_of, faults_of, calls_of, room_of, Refuses, RefusesWrite};

    ghost seen = { λ shelf. seen_of shelf };

    ghost may_leave = { λ shelf. left_of shelf };

    ghost moment = { λ shelf. moment_of shelf };

    ghost left_since = { λ shelf. left_since_of shelf };

    ghost faults = { λ shelf. faults_of shelf };

    ghost written = { λ shelf. written_of shelf };

    ghost is_outcome = { λ shelf. an_outcome (first_of shelf.disk) shelf.disk.events.items };

    ghost counts_now = { λ shelf t c earlier now. now_counts (disk_at_first (first_of shelf.disk))
        shelf.disk.events.items t c earlier now };

    ghost only_now = { λ shelf c left. now_only (disk_at_first (first_of shelf.disk))
        shelf.disk.events.items c left };

    fn size(&mut self, place: Place) -> Result<u64, Failed>
        ensures size { IfOk result (λ n. IfSome (seen_of self.old) (λ places. n ≡ length (content places place))) }
        ensures reads { IfKnown (seen_of self.old) (seen_of self.new) (λ old new. new ≡ old) }
        ensures crash { SameOutcomes (left_of self.old) (left_of self.new) }
        ensures clock { Elapses (moment_of self.old) (moment_of self.new) (left_since_of self.old)
            (left_since_of self.new) (left_of self.new) }
        ensures written { written_of self.new ≡ written_of self.old }
        ensures cause { HasCause (faults_of self.old) (faults_of self.new) result }
        ensures fails { IsErr result ↔ Refuses self.old }
        ensures recorded { calls_of self.new ≡ recorded (record { did = did.Size; place = place; at = 0; len = 0 })
            (calls_of self.old) }
        ensures room { room_of self.new ≡ room_of self.old }
    {
        let call = ShelfCall {
            did: Did::Size,
            place,
            at: 0,
            len: 0,
        };
        if self.log.refuses(call) {
            return Err(self.faults.fail());
        }
        Ok(self.disk.bytes(place).len() as u64)
    }

    fn read(&mut self, place: Place, at: u64, buf: &mut [u8]) -> Result<usize, Failed>
        ensures bound { ReadsAtMost result buf.new }
        ensures count { IfOk result (λ n. IfSome (seen_of self.old) (λ places.
            n ≡ min (length buf.old) (length (content places place) - at))) }
        ensures bytes { IfOk result (λ n. IfSome (seen_of self.old) (λ places.
            take n buf.new ≡ take n (drop at (content places place)))) }
        ensures reads { IfKnown (seen_of self.old) (seen_of self.new) (λ old new. new ≡ old) }
        ensures crash { SameOutcomes (left_of self.old) (left_of self.new) }
        ensures clock { Elapses (moment_of self.old) (moment_of self.new) (left_since_of self.old)
            (left_since_of self.new) (left_of self.new) }
        ensures written { written_of self.new ≡ written_of self.old }
        ensures cause { HasCause (faults_of self.old) (faults_of self.new) result }
        ensures fails { IsErr result ↔ Refuses self.old }
        ensures recorded { calls_of self.new ≡ recorded (record {
          did = did.Read;
          place = place;
          at = at;
          len = length buf.old;
        }) (calls_of self.old) }
        ensures room { room_of self.new ≡ room_of self.old }
    {
        let call = ShelfCall {
            did: Did::Read,
            place,
            at,
            len: buf.len() as u64,
        };
        if self.log.refuses(call) {
            return Err(self.faults.fail());
        }
        Ok(read_part(self.disk.bytes(place), at, buf))
    }

    fn write_at(&mut self, place: Place, at: u64, bytes: &[u8]) -> Result<(), Failed>
        requires { IfSome (seen_of self.old) (λ places. at ≤ length (content places place)) }
        ensures holds { OnOk result (IfKnown (seen_of self.old) (seen_of self.new) (Changes place (Holds at bytes.now))) }
        ensures others { IfKnown (seen_of self.old) (seen_of self.new) (OthersStay place) }
        ensures crash { Follows (Changes place (Torn at (length bytes.now))) (left_of self.old) (left_of self.new) }
        ensures clock { Elapses (moment_of self.old) (moment_of self.new) (left_since_of self.old)
            (left_since_of self.new) (left_of self.new) }
        ensures written { RisesUpTo (length bytes.now) (written_of self.old) (written_of self.new) }
        ensures cause { HasCause (faults_of self.old) (faults_of self.new) result }
        ensures nothing { OnErr result (seen_of self.new ≡ seen_of self.old) }
        ensures fails { IsErr result ↔ RefusesWrite self.old at (length bytes.now) }
        ensures recorded { calls_of self.new ≡ recorded (record {
          did = did.Write;
          place = place;
          at = at;
          len = length bytes.now;
        }) (calls_of self.old) }
        ensures room { room_of self.new ≡ room_of self.old }
    {
        let call = ShelfCall {
            did: Did::Write,
            place,
            at,
            len: bytes.len() as u64,
        };
        if self.log.refuses(call) || !has_room(self.disk.room, at, bytes.len()) {
            return Err(self.faults.fail());
        }
        self.disk.write(place, at as usize, bytes);
        Ok(())
    }

    fn cut(&mut self, place: Place, size: u64) -> Result<(), Failed>
        requires { IfSome (seen_of self.old) (λ places. size ≤ length (content places place)) }
        ensures cut { OnOk result (IfKnown (seen_of self.old) (seen_of self.new)
            (Changes place (λ old new. new ≡ take size old))) }
        ensures others { IfKnown (seen_of self.old) (seen_of self.new) (OthersStay place) }
        ensures crash { Follows (Changes place (PartlyCut size)) (left_of self.old) (left_of self.new) }
        ensures clock { Elapses (moment_of self.old) (moment_of self.new) (left_since_of self.old)
            (left_since_of self.new) (left_of self.new) }
        ensures written { written_of self.new ≡ written_of self.old }
        ensures cause { HasCause (faults_of self.old) (faults_of self.new) result }
        ensures nothing { OnErr result (seen_of self.new ≡ seen_of self.old) }
        ensures fails { IsErr result ↔ Refuses self.old }
        ensures recorded { calls_of self.new ≡ recorded (record { did = did.Cut; place = place; at = size; len = 0 })
            (calls_of self.old) }
        ensures room { room_of self.new ≡ room_of self.old }
    {
        let call = ShelfCall {
            did: Did::Cut,
            place,
            at: size,
            len: 0,
        };
        if self.log.refuses(call) {
            return Err(self.faults.fail());
        }
        self.disk.cut(place, size as usize);
        Ok(())
    }

    fn sync(&mut self, place: Place) -> Result<(), Failed>
        ensures durable { OnOk result (IfSome (seen_of self.old) (λ places.
            OnlyAt place (content places place) (left_of self.new))) }
        ensures reads { IfKnown (seen_of self.old) (seen_of self.new) (λ old new. new ≡ old) }
        ensures crash { WasOutcome (left_of self.old) (left_of self.new) }
        ensures clock { Elapses (moment_of self.old) (moment_of self.new) (left_since_of self.old)
            (left_since_of self.new) (left_of self.new) }
        ensures written { written_of self.new ≡ written_of self.old }
        ensures cause { HasCause (faults_of self.old) (faults_of self.new) result }
        ensures fails { IsErr result ↔ Refuses self.old }
        ensures recorded { calls_of self.new ≡ recorded (record { did = did.Sync; place = place; at = 0; len = 0 })
            (calls_of self.old) }
        ensures room { room_of self.new ≡ room_of self.old }
    {
        let call = ShelfCall {
            did: Did::Sync,
            place,
            at: 0,
            len: 0,
        };
        if self.log.refuses(call) {
            return Err(self.faults.fail());
        }
        self.disk.sync(place);
        Ok(())
    }
}
