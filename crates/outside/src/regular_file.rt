//! Regular files by their names.
use std::fs::OpenOptions;
use std::io::ErrorKind;
use std::rt::Files;
use std::{fs, io};

/// Opens the regular file of this name, or the one that a symbolic link of this name leads to. Takes no memory.
///
/// What else stands there, as a folder, a FIFO or a device file, is refused and not opened: to open a FIFO waits until its
/// other end is open.
// No clause can say what stands there, so this body is tried on real files.
pub fn open_regular<R: Files>(rt: &R, name: &str, how: &OpenOptions) -> io::Result<R::File> {
    if fs::metadata(rt, name)?.is_file() {
        return how.open(rt, name);
    }
    Err(io::Error::from(ErrorKind::InvalidInput))
}
