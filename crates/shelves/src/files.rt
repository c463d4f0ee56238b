//! The three places of a shelf in memory.
ghost use Rattle.std.specs.Prelude.{◌≡◌, ◌≤◌, ◌+◌, length, vec_len};
ghost use Rattle.shelves.specs.Files.{Writes, Cuts, Syncs};
ghost use Rattle.shelves.specs.Kept.{file_at, OneChanges};

use crate::file::File;
use outside::Place;

#[derive(Drop)]
pub struct Files {
    pub a: File,
    pub b: File,
    pub t: File,
}

impl Files {
    pub fn at(&self, place: Place) -> &File
        ensures { result.now ≡ file_at place self.now }
    {
        match place {
            Place::A => &self.a,
            Place::B => &self.b,
            Place::T => &self.t,
        }
    }

    pub fn write(&mut self, place: Place, at: usize, bytes: &[u8])
        requires start { at ≤ vec_len (file_at place self.old).bytes }
        requires room { at + length bytes.now ≤ (file_at place self.old).room }
        ensures { OneChanges place (Writes at bytes.now) self.old self.new }
    {
        match place {
            Place::A => self.a.write(at, bytes),
            Place::B => self.b.write(at, bytes),
            Place::T => self.t.write(at, bytes),
        }
    }

    pub fn cut(&mut self, place: Place, size: usize)
        ensures { OneChanges place (Cuts size) self.old self.new }
    {
        match place {
            Place::A => self.a.cut(size),
            Place::B => self.b.cut(size),
            Place::T => self.t.cut(size),
        }
    }

    pub fn sync(&mut self, place: Place)
        ensures { OneChanges place Syncs self.old self.new }
    {
        match place {
            Place::A => self.a.sync(),
            Place::B => self.b.sync(),
            Place::T => self.t.sync(),
        }
    }
}
