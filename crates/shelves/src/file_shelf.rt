//! A shelf of three files.
ghost use Rattle.std.specs.Prelude.{◌≡◌, ◌⊎◌, ◌<◌, ◌-◌, min, length, take, drop, IfOk, OnOk, OnErr, IfSome, IsOk, IsErr, IsSome, Ok, Some, None};
ghost use Rattle.std.specs.Io.{ReadsAtMost};
ghost use Rattle.outside.specs.Causes.{HasCause};

use crate::place_file::{PlaceFile, cut_to, read_at, size_of, sync_file, write_at};
use crate::{Folder, RealFolder};
use kit::Memory;
use outside::{Failed, FaultCount, Place, Shelf};
use std::rt::Files;

/// Three files of a folder by their names. As a shelf it tells no contents, since no clause can say what the system keeps.
/// What it makes of those that the folder knows is said by its further clauses.
///
/// A file is opened at the first call on its place. One that is absent has size 0 and is made at its first write. Until then
/// a sync of it, and a cut to 0, do nothing. Of one that is there and can't be opened, or is no regular file, each call fails.
#[derive(Drop)]
pub struct FileShelf<'a, D: Folder> {
    folder: D,
    names: PlaceNames<'a>,
    files: PlaceFiles<D::File>,
    // How many bytes were asked to be written, whether or not all of them came to a file.
    written: u64,
    faults: FaultCount,
}

#[derive(Drop)]
struct PlaceNames<'a> {
    a: &'a str,
    b: &'a str,
    t: &'a str,
}

#[derive(Drop)]
struct PlaceFiles<F> {
    a: PlaceFile<F>,
    b: PlaceFile<F>,
    t: PlaceFile<F>,
}

impl<'a, D: Folder> FileShelf<'a, D> {
    ghost use Rattle.outside.specs.declared.shelf.Place.{Place};
    ghost use Rattle.shelves.specs.FileShelf.{file_of};
    ghost use Rattle.shelves.specs.declared.place_file.PlaceFile.TheVariants.{Unopened};

    /// The files of these names in a folder. Nothing is opened yet. Takes no memory.
    pub fn new(folder: D, a: &'a str, b: &'a str, t: &'a str) -> FileShelf<'a, D>
        ensures faults { ⟦<FileShelf<'a, D> as Shelf>⟧.faults result ≡ 0 }
        ensures folder { result.folder ≡ folder }
        ensures unopened { (place : Place) → file_of place result.files ≡ Unopened }
        ensures a { result.names.a.now ≡ a.now }
        ensures b { result.names.b.now ≡ b.now }
        ensures t { result.names.t.now ≡ t.now }
    {
        FileShelf {
            folder,
            names: PlaceNames { a, b, t },
            files: PlaceFiles {
                a: PlaceFile::Unopened,
                b: PlaceFile::Unopened,
                t: PlaceFile::Unopened,
            },
            written: 0,
            faults: FaultCount::new(),
        }
    }

    // Counts a fault where there is no answer.
    fn counted<T: Drop>(&mut self, answer: Option<T>) -> Result<T, Failed>
        ensures cause { HasCause self.old.faults.total self.new.faults.total result }
        ensures answer { IfOk result (λ value. answer ≡ Some value) }
        ensures some { IsSome answer → IsOk result }
        ensures none { answer ≡ None → IsErr result }
        ensures folder { self.new.folder ≡ self.old.folder }
        ensures names { self.new.names ≡ self.old.names }
        ensures files { self.new.files ≡ self.old.files }
        ensures written { self.new.written ≡ self.old.written }
    {
        match answer {
            Some(answer) => Ok(answer),
            None => Err(self.faults.fail()),
        }
    }
}

impl<'a, R: Files> FileShelf<'a, RealFolder<'a, R>> {
    /// The files of these names in the folder in which the program runs. Nothing is opened yet.
    ///
    /// `Memory` comes where the shelf gets no memory of its own. The present one takes none.
    // No clause rules that answer out, so that a later shelf may have a buffer.
    pub fn open(
        rt: &'a R,
        a: &'a str,
        b: &'a str,
        t: &'a str,
    ) -> Result<FileShelf<'a, RealFolder<'a, R>>, Memory>
        ensures faults { IfOk result (λ shelf. ⟦<FileShelf<'a, RealFolder<'a, R>> as Shelf>⟧.faults shelf ≡ 0) }
        ensures a { IfOk result (λ shelf. shelf.names.a.now ≡ a.now) }
        ensures b { IfOk result (λ shelf. shelf.names.b.now ≡ b.now) }
        ensures t { IfOk result (λ shelf. shelf.names.t.now ≡ t.now) }
    {
        Ok(FileShelf::new(RealFolder::new(rt), a, b, t))
    }
}

impl<'a, D: Folder> Shelf for FileShelf<'a, D> {
    ghost use Rattle.outside.specs.Crash.{RisesUpTo};
    ghost use Rattle.shelves.specs.Folder.{Reaches, written_over, cut_off};
    ghost use Rattle.shelves.specs.FileShelf.{content_at, HasItsName, IsSyncedAt, FailsAt, IsAbsent, IsBroken, OtherFilesStay};

    ghost faults = { λ shelf. shelf.faults.total };

    ghost written = { λ shelf. shelf.written };

    ghost is_outcome = { λ _. tt };

    ghost counts_now = { λ shelf t c earlier now. absurd now };

    ghost only_now = { λ shelf c left. absurd left };

    fn size(&mut self, place: Place) -> Result<u64, Failed>
        ensures cause { HasCause (⟦<FileShelf<'a, D> as Shelf>⟧.faults self.old)
            (⟦<FileShelf<'a, D> as Shelf>⟧.faults self.new) result }
        ensures size { IfOk result (λ n. IfSome (content_at D.kept D.holds place self.old)
            (λ bytes. n ≡ length bytes)) }
        ensures content { content_at D.kept D.holds place self.new ≡ content_at D.kept D.holds place self.old }
        ensures named { HasItsName D.name_of place self.old → HasItsName D.name_of place self.new }
        ensures why { OnErr result (FailsAt D.faults place self.old self.new) }
        ensures absent { IsAbsent place self.old.files → result ≡ Ok 0 }
        ensures broken { IsBroken place self.old.files → IsErr result }
        ensures stays { IsAbsent place self.old.files → IsAbsent place self.new.files }
        ensures others { OtherFilesStay place self.old.files self.new.files }
        ensures kept { D.kept self.new.folder ≡ D.kept self.old.folder }
        ensures names { self.new.names ≡ self.old.names }
        ensures written { self.new.written ≡ self.old.written }
    {
        let answer = match place {
            Place::A => size_of(&mut self.folder, self.names.a, &mut self.files.a),
            Place::B => size_of(&mut self.folder, self.names.b, &mut self.files.b),
            Place::T => size_of(&mut self.folder, self.names.t, &mut self.files.t),
        };
        self.counted(answer)
    }

    fn read(&mut self, place: Place, at: u64, buf: &mut [u8]) -> Result<usize, Failed>
        ensures bound { ReadsAtMost result buf.new }
        ensures cause { HasCause (⟦<FileShelf<'a, D> as Shelf>⟧.faults self.old)
            (⟦<FileShelf<'a, D> as Shelf>⟧.faults self.new) result }
        ensures count { IfOk result (λ n. IfSome (content_at D.kept D.holds place self.old)
            (λ bytes. n ≡ min (length buf.old) (length bytes - at))) }
        ensures bytes { IfOk result (λ n. IfSome (content_at D.kept D.holds place self.old)
            (λ bytes. take n buf.new ≡ take n (drop at bytes))) }
        ensures content { content_at D.kept D.holds place self.new ≡ content_at D.kept D.holds place self.old }
        ensures named { HasItsName D.name_of place self.old → HasItsName D.name_of place self.new }
        ensures why { OnErr result (FailsAt D.faults place self.old self.new) }
        ensures absent { IsAbsent place self.old.files → result ≡ Ok 0 }
        ensures broken { IsBroken place self.old.files → IsErr result }
        ensures stays { IsAbsent place self.old.files → IsAbsent place self.new.files }
        ensures others { OtherFilesStay place self.old.files self.new.files }
        ensures kept { D.kept self.new.folder ≡ D.kept self.old.folder }
        ensures names { self.new.names ≡ self.old.names }
        ensures written { self.new.written ≡ self.old.written }
    {
        let answer = match place {
            Place::A => read_at(&mut self.folder, self.names.a, &mut self.files.a, at, buf),
            Place::B => read_at(&mut self.folder, self.names.b, &mut self.files.b, at, buf),
            Place::T => read_at(&mut self.folder, self.names.t, &mut self.files.t, at, buf),
        };
        self.counted(answer)
    }

    fn write_at(&mut self, place: Place, at: u64, bytes: &[u8]) -> Result<(), Failed>
        ensures cause { HasCause (⟦<FileShelf<'a, D> as Shelf>⟧.faults self.old)
            (⟦<FileShelf<'a, D> as Shelf>⟧.faults self.new) result }
        ensures content { OnOk result (Reaches at (content_at D.kept D.holds place self.old)
            → content_at D.kept D.holds place self.new
            ≡ written_over at bytes.now (content_at D.kept D.holds place self.old)) }
        ensures named { HasItsName D.name_of place self.old → HasItsName D.name_of place self.new }
        ensures why { OnErr result (FailsAt D.faults place self.old self.new) }
        ensures made { OnOk result (¬ IsAbsent place self.new.files) }
        ensures broken { IsBroken place self.old.files → IsErr result }
        ensures others { OtherFilesStay place self.old.files self.new.files }
        ensures kept { D.kept self.new.folder ≡ D.kept self.old.folder }
        ensures names { self.new.names ≡ self.old.names }
        ensures written { RisesUpTo (length bytes.now) self.old.written self.new.written }
    {
        let answer = match place {
            Place::A => write_at(&mut self.folder, self.names.a, &mut self.files.a, at, bytes),
            Place::B => write_at(&mut self.folder, self.names.b, &mut self.files.b, at, bytes),
            Place::T => write_at(&mut self.folder, self.names.t, &mut self.files.t, at, bytes),
        };
        self.written = self.written.saturating_add(bytes.len() as u64);
        self.counted(answer)
    }

    fn cut(&mut self, place: Place, size: u64) -> Result<(), Failed>
        ensures cause { HasCause (⟦<FileShelf<'a, D> as Shelf>⟧.faults self.old)
            (⟦<FileShelf<'a, D> as Shelf>⟧.faults self.new) result }
        ensures content { OnOk result (Reaches size (content_at D.kept D.holds place self.old)
            → content_at D.kept D.holds place self.new
            ≡ cut_off size (content_at D.kept D.holds place self.old)) }
        ensures named { HasItsName D.name_of place self.old → HasItsName D.name_of place self.new }
        ensures why { OnErr result (FailsAt D.faults place self.old self.new
            ⊎ (IsAbsent place self.new.files × (0 < size))) }
        ensures nothing { IsAbsent place self.old.files → size ≡ 0 → IsOk result }
        ensures absent { IsAbsent place self.old.files → 0 < size → IsErr result }
        ensures broken { IsBroken place self.old.files → IsErr result }
        ensures stays { IsAbsent place self.old.files → IsAbsent place self.new.files }
        ensures others { OtherFilesStay place self.old.files self.new.files }
        ensures kept { D.kept self.new.folder ≡ D.kept self.old.folder }
        ensures names { self.new.names ≡ self.old.names }
        ensures written { self.new.written ≡ self.old.written }
    {
        let answer = match place {
            Place::A => cut_to(&mut self.folder, self.names.a, &mut self.files.a, size),
            Place::B => cut_to(&mut self.folder, self.names.b, &mut self.files.b, size),
            Place::T => cut_to(&mut self.folder, self.names.t, &mut self.files.t, size),
        };
        self.counted(answer)
    }

    fn sync(&mut self, place: Place) -> Result<(), Failed>
        ensures cause { HasCause (⟦<FileShelf<'a, D> as Shelf>⟧.faults self.old)
            (⟦<FileShelf<'a, D> as Shelf>⟧.faults self.new) result }
        ensures durable { OnOk result (IsSyncedAt D.synced D.holds place self.new) }
        ensures content { content_at D.kept D.holds place self.new ≡ content_at D.kept D.holds place self.old }
        ensures named { HasItsName D.name_of place self.old → HasItsName D.name_of place self.new }
        ensures why { OnErr result (FailsAt D.faults place self.old self.new) }
        ensures nothing { IsAbsent place self.old.files → IsOk result }
        ensures broken { IsBroken place self.old.files → IsErr result }
        ensures stays { IsAbsent place self.old.files → IsAbsent place self.new.files }
        ensures others { OtherFilesStay place self.old.files self.new.files }
        ensures kept { D.kept self.new.folder ≡ D.kept self.old.folder }
        ensures names { self.new.names ≡ self.old.names }
        ensures written { self.new.written ≡ self.old.written }
    {
        let answer = match place {
            Place::A => sync_file(&mut self.folder, self.names.a, &mut self.files.a),
            Place::B => sync_file(&mut self.folder, self.names.b, &mut self.files.b),
            Place::T => sync_file(&mut self.folder, self.names.t, &mut self.files.t),
        };
        self.counted(answer)
    }
}
