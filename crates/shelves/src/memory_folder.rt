//! A folder in memory, whose calls fail where they are told to.
ghost use Rattle.std.specs.Prelude.{◌≡◌, ◌≤◌, ◌-◌, [], min, length, take, drop, vec_len, IfOk, IfSome, OnOk, Ok, Some, None};
ghost use Rattle.std.specs.Io.{ReadsAtMost};
ghost use Rattle.outside.specs.Causes.{HasCause};
ghost use Rattle.outside.specs.Schedule.{unstarted};

use crate::Folder;
use crate::file::{File, filled};
use crate::memory_shelf::{has_room, read_part};
use kit::Memory;
use outside::{FailPlan, Failed, FaultCount};
use std::alloc::{AllocError, Global};

/// A folder in which one file stands, and others can be made. What its files hold is known, and what of it was synced.
///
/// A call fails where its number is one of those that are to fail, where there is no memory to open or to make a file, and
/// where a file has no room for what is written.
#[derive(Drop)]
pub struct MemoryFolder {
    alloc: Global,
    there: KeptFile,
    room: usize,
    plan: FailPlan,
    faults: FaultCount,
    ghost fits: { vec_len there.bytes ≤ room },
}

#[derive(Drop)]
struct KeptFile {
    name: Vec<u8>,
    bytes: Vec<u8>,
}

/// A file of a folder in memory.
#[derive(Drop)]
pub struct MemoryFile {
    name: Vec<u8>,
    file: File,
}

impl MemoryFile {
    fn new(alloc: Global, name: &str, bytes: &[u8], room: usize) -> Result<MemoryFile, AllocError>
        requires { length bytes.now ≤ room }
        ensures name { IfOk result (λ it. it.name.items ≡ name.now) }
        ensures bytes { IfOk result (λ it. it.file.bytes.items ≡ bytes.now) }
        ensures synced { IfOk result (λ it. it.file.synced.items ≡ bytes.now) }
    {
        Ok(MemoryFile {
            name: filled(alloc, name.as_bytes(), name.len())?,
            file: File::new(alloc, bytes, room)?,
        })
    }
}

impl MemoryFolder {
    ghost use Rattle.shelves.specs.MemoryFolder.{kept_in};

    /// A folder in which a file of this name holds these bytes, and whose calls with these numbers fail. The first call has
    /// the number 1.
    ///
    /// `room` is the number of bytes that each file can hold, at least the length of these. `Memory` comes where there is no
    /// memory for them.
    pub fn new(
        alloc: Global,
        name: &str,
        bytes: &[u8],
        room: usize,
        fails: Vec<u64>,
    ) -> Result<MemoryFolder, Memory>
        requires { length bytes.now ≤ room }
        ensures kept { IfOk result (λ folder. ⟦<MemoryFolder as Folder>⟧.kept folder name.now ≡ Some bytes.now) }
        ensures faults { IfOk result (λ folder. ⟦<MemoryFolder as Folder>⟧.faults folder ≡ 0) }
    {
        Ok(MemoryFolder {
            alloc,
            there: KeptFile {
                name: filled(alloc, name.as_bytes(), name.len())?,
                bytes: filled(alloc, bytes, bytes.len())?,
            },
            room,
            plan: FailPlan::new(fails),
            faults: FaultCount::new(),
        })
    }

    // Counts a call, and fails where it is to fail.
    fn start(&mut self) -> Result<(), Failed>
        ensures there { self.new.there ≡ self.old.there }
        ensures cause { HasCause self.old.faults.total self.new.faults.total result }
    {
        if self.plan.next_fails() {
            return Err(self.faults.fail());
        }
        Ok(())
    }
}

impl Folder for MemoryFolder {
    ghost use Rattle.shelves.specs.MemoryFolder.{kept_in};

    type File = MemoryFile;

    ghost kept = { λ folder name. Some (kept_in folder.there name) };

    ghost name_of = { λ it. Some it.name.items };

    ghost holds = { λ it. Some it.file.bytes.items };

    ghost synced = { λ it. Some it.file.synced.items };

    ghost faults = { λ folder. folder.faults.total };

    fn open(&mut self, name: &str) -> Result<Option<MemoryFile>, Failed> {
        self.start()?;
        if self.there.name.as_slice() != name.as_bytes() {
            return Ok(None);
        }
        match MemoryFile::new(self.alloc, name, &self.there.bytes, self.room) {
            Ok(file) => Ok(Some(file)),
            Err(AllocError) => Err(self.faults.fail()),
        }
    }

    fn make(&mut self, name: &str) -> Result<MemoryFile, Failed> {
        self.start()?;
        match MemoryFile::new(self.alloc, name, &[], self.room) {
            Ok(file) => Ok(file),
            Err(AllocError) => Err(self.faults.fail()),
        }
    }

    fn size(&mut self, it: &mut MemoryFile) -> Result<u64, Failed> {
        self.start()?;
        Ok(it.file.bytes.len() as u64)
    }

    fn read(&mut self, it: &mut MemoryFile, at: u64, buf: &mut [u8]) -> Result<usize, Failed> {
        self.start()?;
        Ok(read_part(&it.file.bytes, at, buf))
    }

    fn write(&mut self, it: &mut MemoryFile, at: u64, bytes: &[u8]) -> Result<(), Failed> {
        self.start()?;
        if at as usize > it.file.bytes.len() || !has_room(it.file.room, at, bytes.len()) {
            return Err(self.faults.fail());
        }
        it.file.write(at as usize, bytes);
        Ok(())
    }

    fn cut(&mut self, it: &mut MemoryFile, size: u64) -> Result<(), Failed> {
        self.start()?;
        it.file.cut(size as usize);
        Ok(())
    }

    fn sync(&mut self, it: &mut MemoryFile) -> Result<(), Failed> {
        self.start()?;
        it.file.sync();
        Ok(())
    }
}
