//! Devices over the real system: files that are read, the shelf of files, standard output and the clock.
use crate::asserts::assert_same;
use kit::LAST_MOMENT;
use outside::{Clock, Failed, FileSink, FileSource, Place, RealClock, Shelf, Sink, Source};
use shelves::FileShelf;
use std::alloc::Global;
use std::process::Abort;
use std::rt::Files;
use std::test::Fail;
use std::{env, fs, process};

/// A file is read to its end.
fn is_read_to_its_end<R: Files + Abort>(rt: &R, name: &str) -> Result<(), Fail> {
    fs::write(rt, name, "abc")?;
    let mut source = FileSource::open(rt, name)?;
    let mut buf = [0u8; 2];
    assert_same(rt, source.take(&mut buf), Ok(2));
    assert_same(rt, buf, *b"ab");
    assert_same(rt, source.take(&mut buf), Ok(1));
    assert_same(rt, buf[0], b'c');
    assert_same(rt, source.take(&mut buf), Ok(0));
    fs::remove_file(rt, name)?;
    Ok(())
}

/// What is no regular file, or is not there, can be named, and fails at each take.
fn fail_at_each_take<R: Files + Abort>(rt: &R) -> Result<(), Fail> {
    for name in ["no/such/folder/no_such_file", "/proc", "/dev/null"] {
        let mut source = FileSource::open(rt, name)?;
        let mut buf = [0u8; 4];
        assert_same(rt, source.take(&mut buf), Err(Failed));
        assert_same(rt, source.take(&mut buf), Err(Failed));
    }
    let mut broken = FileSource::<R>::broken();
    let mut buf = [0u8; 4];
    assert_same(rt, broken.take(&mut buf), Err(Failed));
    assert_same(rt, broken.take(&mut buf), Err(Failed));
    Ok(())
}

#[test]
fn what_is_read_and_written_of_the_system(rt: HostRuntime) -> Result<(), Fail> {
    let folder = env::temp_dir(&rt)?;
    let name = format!(in rt.alloc();
        "{}/chats_source_{}",
        folder.to_string_lossy(),
        process::id(rt.process())
    )?;
    is_read_to_its_end(&rt, name.as_str())?;
    fail_at_each_take(&rt)?;
    assert_same(&rt, FileSink::stdout(&rt)?.put(b"a chunk\n"), Ok(()));
    let now = RealClock::new(&rt).now();
    assert!(rt; now > 1_600_000_000);
    assert!(rt; now <= LAST_MOMENT);
    Ok(())
}

/// Three absent files, of which two are written: they are made at their first write.
fn absent_then_made<R: Files + Abort>(rt: &R, a: &str, b: &str, t: &str) -> Result<(), Fail> {
    let mut shelf = FileShelf::open(rt, a, b, t)?;
    let mut buf = [0u8; 4];
    assert_same(rt, shelf.size(Place::A), Ok(0));
    assert_same(rt, shelf.read(Place::A, 0, &mut buf), Ok(0));
    assert_same(rt, shelf.sync(Place::A), Ok(()));
    assert_same(rt, shelf.cut(Place::A, 0), Ok(()));
    assert!(rt; !fs::exists(rt, a)?);
    assert_same(rt, shelf.cut(Place::A, 1), Err(Failed));
    assert_same(rt, shelf.write_at(Place::A, 0, b"abcd"), Ok(()));
    assert_same(rt, shelf.write_at(Place::A, 3, b"e"), Ok(()));
    assert_same(rt, shelf.write_at(Place::T, 0, b"t"), Ok(()));
    assert!(rt; fs::exists(rt, a)?);
    assert_same(rt, shelf.size(Place::A), Ok(4));
    assert_same(rt, shelf.cut(Place::A, 2), Ok(()));
    assert_same(rt, shelf.write_at(Place::A, 2, b"fg"), Ok(()));
    assert_same(rt, shelf.sync(Place::A), Ok(()));
    assert_same(rt, shelf.read(Place::A, 1, &mut buf), Ok(3));
    assert_same(rt, &buf[..3], b"bfg".as_slice());
    Ok(())
}

/// The same files, opened anew.
fn reopened<R: Files + Abort>(rt: &R, a: &str, b: &str, t: &str) -> Result<(), Fail> {
    let mut shelf = FileShelf::open(rt, a, b, t)?;
    let mut buf = [0u8; 2];
    assert_same(rt, shelf.size(Place::A), Ok(4));
    assert_same(rt, shelf.size(Place::B), Ok(0));
    assert_same(rt, shelf.size(Place::T), Ok(1));
    assert_same(rt, shelf.read(Place::A, 0, &mut buf), Ok(2));
    assert_same(rt, buf, *b"ab");
    assert_same(rt, shelf.read(Place::A, 4, &mut buf), Ok(0));
    assert_same(rt, shelf.cut(Place::A, 0), Ok(()));
    assert_same(rt, shelf.size(Place::A), Ok(0));
    Ok(())
}

/// Makes, opens and removes the files of a shelf in a folder. The second one is not made.
fn made_in<R: Files + Abort>(alloc: Global, rt: &R, folder: &str) -> Result<(), Fail> {
    let a = format!(in alloc; "{folder}/a")?;
    let b = format!(in alloc; "{folder}/b")?;
    let t = format!(in alloc; "{folder}/t")?;
    absent_then_made(rt, a.as_str(), b.as_str(), t.as_str())?;
    reopened(rt, a.as_str(), b.as_str(), t.as_str())?;
    assert!(rt; !fs::exists(rt, b.as_str())?);
    fs::remove_file(rt, a.as_str())?;
    fs::remove_file(rt, t.as_str())?;
    Ok(())
}

/// A file that can't be made, whoever tries, fails its write and stays absent.
fn is_not_made<R: Files + Abort>(rt: &R) -> Result<(), Fail> {
    let mut shelf = FileShelf::open(rt, "/proc/chats_a", "/proc/chats_b", "/proc/chats_t")?;
    assert_same(rt, shelf.size(Place::B), Ok(0));
    assert_same(rt, shelf.write_at(Place::B, 0, b"b"), Err(Failed));
    assert_same(rt, shelf.size(Place::B), Ok(0));
    assert_same(rt, shelf.sync(Place::B), Ok(()));
    Ok(())
}

/// A folder is no file, and fails each call. The other places don't.
fn is_not_opened<R: Files + Abort>(rt: &R) -> Result<(), Fail> {
    let mut shelf = FileShelf::open(rt, "/proc", "/proc/chats_b", "/proc/chats_t")?;
    let mut buf = [0u8; 4];
    assert_same(rt, shelf.size(Place::A), Err(Failed));
    assert_same(rt, shelf.read(Place::A, 0, &mut buf), Err(Failed));
    assert_same(rt, shelf.write_at(Place::A, 0, b"a"), Err(Failed));
    assert_same(rt, shelf.cut(Place::A, 0), Err(Failed));
    assert_same(rt, shelf.sync(Place::A), Err(Failed));
    assert_same(rt, shelf.size(Place::T), Ok(0));
    Ok(())
}

#[test]
fn the_shelf_of_files(rt: HostRuntime) -> Result<(), Fail> {
    let alloc = rt.alloc();
    let temp = env::temp_dir(&rt)?;
    let id = process::id(rt.process());
    let folder = format!(in alloc; "{}/chats_shelf_{id}", temp.to_string_lossy())?;
    fs::create_dir(&rt, folder.as_str())?;
    made_in(alloc, &rt, folder.as_str())?;
    // Nothing else was made in it.
    fs::remove_dir(&rt, folder.as_str())?;
    is_not_made(&rt)?;
    is_not_opened(&rt)
}
