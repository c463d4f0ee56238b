//! The calls of a shelf in memory as they are recorded, and its crashes.
use outside::Place;

/// Which call was made.
#[derive(Clone, Copy, Debug, PartialEq, Eq, Hash)]
pub enum Did {
    Size,
    Read,
    Write,
    Cut,
    Sync,
}

/// A call of a shelf.
#[derive(Clone, Copy, Debug, PartialEq, Eq, Hash)]
pub struct ShelfCall {
    pub did: Did,
    pub place: Place,
    /// The offset of a read or write, or the new size of a cut; else 0.
    pub at: u64,
    /// The length of the buffer of a read or of the bytes of a write; else 0.
    pub len: u64,
}

/// What a crash makes of what was done to each place since its last sync.
#[derive(Clone, Copy, Debug, PartialEq, Eq, Hash)]
pub enum Crash {
    /// Nothing of it came to the disk.
    Old,
    /// All of it came to the disk.
    New,
    /// What was written has bytes 1, and the size is the greatest that the place had.
    Ones,
}
