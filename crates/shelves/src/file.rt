//! One place of a shelf in memory.
ghost use Rattle.std.specs.Prelude.{◌≡◌, ◌≤◌, ◌+◌, ◌++◌, max, length, take, drop, replicate, vec_len, vec_capacity, IfOk};
ghost use Rattle.outside.specs.Crash.{Holds};
ghost use Rattle.shelves.specs.Room.{Fits};

use crate::call::Crash;
use std::alloc::{AllocError, Global};

// The bytes of a place as a read gives them, as they were at its last sync, and these with a 1 wherever one was written
// since.
#[derive(Drop)]
pub struct File {
    pub bytes: Vec<u8>,
    pub synced: Vec<u8>,
    pub ones: Vec<u8>,
    pub room: usize,
    pub ghost bytes_fit: { Fits room bytes },
    pub ghost synced_fit: { Fits room synced },
    pub ghost ones_fit: { Fits room ones },
    pub ghost ones_are_longest: { vec_len bytes ≤ vec_len ones },
}

// Writes over what is there, and past the end.
fn write_over(all: &mut Vec<u8>, at: usize, bytes: &[u8])
    requires start { at ≤ vec_len all.old }
    requires room { at + length bytes.now ≤ vec_capacity all.old }
    ensures holds { Holds at bytes.now all.old.items all.new.items }
    ensures len { vec_len all.new ≡ max (vec_len all.old) (at + length bytes.now) }
    ensures room { vec_capacity all.old ≤ vec_capacity all.new }
{
    let end = at + bytes.len();
    if all.len() < end {
        match all.resize(end, 0) {
            Ok(()) => {}
            Err(_) => unreachable!(),
        }
    }
    all[at..end].copy_from_slice(bytes);
}

// The same with n bytes 1.
fn write_ones(all: &mut Vec<u8>, at: usize, n: usize)
    requires start { at ≤ vec_len all.old }
    requires room { at + n ≤ vec_capacity all.old }
    ensures ones { all.new.items ≡ take at all.old.items ++ replicate n 1 ++ drop (at + n) all.old.items }
    ensures len { vec_len all.new ≡ max (vec_len all.old) (at + n) }
    ensures room { vec_capacity all.old ≤ vec_capacity all.new }
{
    let end = at + n;
    if all.len() < end {
        match all.resize(end, 1) {
            Ok(()) => {}
            Err(_) => unreachable!(),
        }
    }
    all[at..end].fill(1);
}

// Makes one vector as another.
fn set_to(all: &mut Vec<u8>, bytes: &[u8])
    requires room { length bytes.now ≤ vec_capacity all.old }
    ensures set { all.new.items ≡ bytes.now }
    ensures len { vec_len all.new ≡ length bytes.now }
    ensures room { vec_capacity all.old ≤ vec_capacity all.new }
{
    all.clear();
    match all.extend_from_slice(bytes) {
        Ok(()) => {}
        Err(_) => unreachable!(),
    }
}

// A copy with room for so many bytes.
pub fn filled(alloc: Global, bytes: &[u8], room: usize) -> Result<Vec<u8>, AllocError>
    requires { length bytes.now ≤ room }
    ensures copy { IfOk result (λ all. all.items ≡ bytes.now) }
    ensures fits { IfOk result (λ all. Fits room all) }
{
    let mut all = Vec::with_capacity(alloc, room)?;
    all.extend_from_slice(bytes)?;
    Ok(all)
}

impl File {
    ghost use Rattle.shelves.specs.Files.{file_pick, Writes, Cuts, Syncs};

    pub fn new(alloc: Global, bytes: &[u8], room: usize) -> Result<File, AllocError>
        requires { length bytes.now ≤ room }
        ensures now { IfOk result (λ file. file.bytes.items ≡ bytes.now) }
        ensures synced { IfOk result (λ file. file.synced.items ≡ bytes.now) }
        ensures ones { IfOk result (λ file. file.ones.items ≡ bytes.now) }
        ensures room { IfOk result (λ file. file.room ≡ room) }
    {
        Ok(File {
            bytes: filled(alloc, bytes, room)?,
            synced: filled(alloc, bytes, room)?,
            ones: filled(alloc, bytes, room)?,
            room,
        })
    }

    // What a crash leaves.
    pub fn outcome(&self, crash: Crash) -> &[u8]
        ensures outcome { result.now ≡ file_pick crash self.now }
        ensures fits { length result.now ≤ self.now.room }
    {
        match crash {
            Crash::Old => &self.synced,
            Crash::New => &self.bytes,
            Crash::Ones => &self.ones,
        }
    }

    pub fn write(&mut self, at: usize, bytes: &[u8])
        requires start { at ≤ vec_len self.old.bytes }
        requires room { at + length bytes.now ≤ self.old.room }
        ensures { Writes at bytes.now self.old self.new }
    {
        write_over(&mut self.bytes, at, bytes);
        write_ones(&mut self.ones, at, bytes.len());
    }

    pub fn cut(&mut self, size: usize)
        ensures { Cuts size self.old self.new }
    {
        self.bytes.truncate(size);
    }

    pub fn sync(&mut self)
        ensures { Syncs self.old self.new }
    {
        set_to(&mut self.synced, &self.bytes);
        set_to(&mut self.ones, &self.bytes);
    }
}
