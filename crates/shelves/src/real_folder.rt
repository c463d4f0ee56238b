//! The folder of the system.
ghost use Rattle.std.specs.Prelude.{◌≡◌, ◌≢◌, true, length, IfOk, IfErr, OnOk, IsOk, IsErr, Ok, Err, Some, None};
ghost use Rattle.std.specs.IoError.{error_kind};
ghost use Rattle.std.specs.Fs.{metadata_len, new_options, with_read, with_write, with_create};
ghost use Rattle.std.specs.Io.{ReadsAtMost};
ghost use Rattle.std.specs.Io.KnownBytes.{Appends};
ghost use Rattle.outside.specs.Causes.{HasCause};
ghost use Rattle.shelves.specs.RealFolder.{IsMoved, ReadsOn};

use crate::Folder;
use outside::{Failed, FaultCount, open_regular};
use std::fs::{Metadata, OpenFile, OpenOptions};
use std::io;
use std::io::{ErrorKind, Read, Seek, SeekFrom, Write};
use std::rt::Files;

/// The folder in which the program runs. Nothing is known of its files, since no clause can say what the system keeps.
///
/// Each call is one of the system. What the library of the language tells of that call is said by further clauses, so that
/// what is left to be read and tried is that it is made.
#[derive(Drop)]
pub struct RealFolder<'a, R: Files> {
    rt: &'a R,
    faults: FaultCount,
}

// To read and to write a file as it is.
fn as_it_is() -> OpenOptions
    ensures { result ≡ with_write (with_read new_options true) true }
{
    let mut how = OpenOptions::new();
    how.read(true).write(true);
    how
}

// The same, and to make it where it is absent.
fn made() -> OpenOptions
    ensures { result ≡ with_create (with_write (with_read new_options true) true) true }
{
    let mut how = OpenOptions::new();
    how.read(true).write(true).create(true);
    how
}

// Only what is not found is absent.
fn found<F>(answer: io::Result<F>) -> io::Result<Option<F>>
    ensures file { IfOk answer (λ file. result ≡ Ok (Some file)) }
    ensures absent { IfErr answer (λ e. error_kind e ≡ ErrorKind.NotFound → result ≡ Ok None) }
    ensures broken { IfErr answer (λ e. error_kind e ≢ ErrorKind.NotFound → result ≡ Err e) }
{
    match answer {
        Ok(file) => Ok(Some(file)),
        Err(e) if e.kind() == ErrorKind::NotFound => Ok(None),
        Err(e) => Err(e),
    }
}

// The size that is told.
fn size_told(answer: io::Result<Metadata>) -> io::Result<u64>
    ensures size { IfOk answer (λ told. result ≡ Ok (metadata_len told)) }
    ensures none { IfErr answer (λ e. result ≡ Err e) }
{
    Ok(answer?.len())
}

fn move_to<F: Seek>(file: &mut F, at: u64) -> io::Result<()>
    ensures { OnOk result (IsMoved at (F.stream_position file.old) (F.stream_position file.new)) }
{
    file.seek(SeekFrom::Start(at))?;
    Ok(())
}

// Reads until the buffer is full or the file ends.
fn read_on<F: Read>(file: &mut F, buf: &mut [u8]) -> io::Result<usize>
    ensures bound { ReadsAtMost result buf.new }
    ensures reads { IfOk result (λ n. ReadsOn buf.new n (length buf.old) (F.remaining file.old) (F.remaining file.new)) }
{
    let mut filled = 0usize;
    while filled < buf.len() {
        match file.read(&mut buf[filled..])? {
            0 => break,
            count => filled += count,
        }
    }
    Ok(filled)
}

fn read_from<F: Read + Seek>(file: &mut F, at: u64, buf: &mut [u8]) -> io::Result<usize>
    ensures bound { ReadsAtMost result buf.new }
    ensures reads { IfOk result (λ n. (there : F) × IsMoved at (F.stream_position file.old) (F.stream_position there)
        × ReadsOn buf.new n (length buf.old) (F.remaining there) (F.remaining file.new)) }
{
    move_to(file, at)?;
    read_on(file, buf)
}

fn write_from<F: Write + Seek>(file: &mut F, at: u64, bytes: &[u8]) -> io::Result<()>
    ensures { OnOk result ((there : F) × IsMoved at (F.stream_position file.old) (F.stream_position there)
        × Appends (F.contents there) (F.contents file.new) bytes.now) }
{
    move_to(file, at)?;
    file.write_all(bytes)
}

impl<'a, R: Files> RealFolder<'a, R> {
    /// The folder in which the program runs. Takes no memory.
    pub fn new(rt: &'a R) -> RealFolder<'a, R>
        ensures { ⟦<RealFolder<'a, R> as Folder>⟧.faults result ≡ 0 }
    {
        RealFolder {
            rt,
            faults: FaultCount::new(),
        }
    }

    // Counts a fault where the system has one.
    fn counted<T>(&mut self, answer: io::Result<T>) -> Result<T, Failed>
        ensures cause { HasCause self.old.faults.total self.new.faults.total result }
        ensures answer { IfOk answer (λ value. result ≡ Ok value) }
        ensures fault { IsErr answer → IsErr result }
    {
        match answer {
            Ok(answer) => Ok(answer),
            Err(_) => Err(self.faults.fail()),
        }
    }
}

impl<'a, R: Files> Folder for RealFolder<'a, R> {
    type File = R::File;

    ghost kept = { λ _ _. None };

    ghost name_of = { λ _. None };

    ghost holds = { λ _. None };

    ghost synced = { λ _. None };

    ghost faults = { λ folder. folder.faults.total };

    fn open(&mut self, name: &str) -> Result<Option<R::File>, Failed> {
        let answer = found(open_regular(self.rt, name, &as_it_is()));
        self.counted(answer)
    }

    fn make(&mut self, name: &str) -> Result<R::File, Failed> {
        let answer = made().open(self.rt, name);
        self.counted(answer)
    }

    fn size(&mut self, file: &mut R::File) -> Result<u64, Failed>
        ensures same { file.new ≡ file.old }
        ensures cause { HasCause (⟦<RealFolder<'a, R> as Folder>⟧.faults self.old)
            (⟦<RealFolder<'a, R> as Folder>⟧.faults self.new) result }
    {
        self.counted(size_told(file.metadata()))
    }

    fn read(&mut self, file: &mut R::File, at: u64, buf: &mut [u8]) -> Result<usize, Failed>
        ensures bound { ReadsAtMost result buf.new }
        ensures reads { IfOk result (λ n. (there : R.File) × IsMoved at (R.File.stream_position file.old) (R.File.stream_position there)
            × ReadsOn buf.new n (length buf.old) (R.File.remaining there) (R.File.remaining file.new)) }
        ensures cause { HasCause (⟦<RealFolder<'a, R> as Folder>⟧.faults self.old)
            (⟦<RealFolder<'a, R> as Folder>⟧.faults self.new) result }
    {
        self.counted(read_from(file, at, buf))
    }

    fn write(&mut self, file: &mut R::File, at: u64, bytes: &[u8]) -> Result<(), Failed>
        ensures writes { OnOk result ((there : R.File) × IsMoved at (R.File.stream_position file.old) (R.File.stream_position there)
            × Appends (R.File.contents there) (R.File.contents file.new) bytes.now) }
        ensures cause { HasCause (⟦<RealFolder<'a, R> as Folder>⟧.faults self.old)
            (⟦<RealFolder<'a, R> as Folder>⟧.faults self.new) result }
    {
        self.counted(write_from(file, at, bytes))
    }

    fn cut(&mut self, file: &mut R::File, size: u64) -> Result<(), Failed>
        ensures same { file.new ≡ file.old }
        ensures cause { HasCause (⟦<RealFolder<'a, R> as Folder>⟧.faults self.old)
            (⟦<RealFolder<'a, R> as Folder>⟧.faults self.new) result }
    {
        self.counted(file.set_len(size))
    }

    fn sync(&mut self, file: &mut R::File) -> Result<(), Failed>
        ensures same { file.new ≡ file.old }
        ensures cause { HasCause (⟦<RealFolder<'a, R> as Folder>⟧.faults self.old)
            (⟦<RealFolder<'a, R> as Folder>⟧.faults self.new) result }
    {
        self.counted(file.sync_all())
    }
}
