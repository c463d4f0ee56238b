//! How far the changes have come.

/// The greatest count of a position: 2^62.
pub const MAX_COUNT: u64 = 1 << 62;

/// How many changes were made, and how far the mbox and the steps file were read for them.
#[derive(Clone, Copy, Debug, PartialEq, Eq)]
pub struct Position {
    /// The number of changes; in an image from 1 to 2^62.
    pub count: u64,
    /// The offset in the mbox, in bytes.
    pub mbox: u64,
    /// The offset in the steps file, in bytes.
    pub steps: u64,
    /// The number of lines of the steps file before that offset; in an image at most `steps`.
    pub lines: u64,
    /// The chain of the mbox up to that offset, or 32 zero bytes where none was kept.
    pub mbox_trace: [u8; 32],
    /// The chain of the steps file up to its offset, or 32 zero bytes where none was kept.
    pub steps_trace: [u8; 32],
}
