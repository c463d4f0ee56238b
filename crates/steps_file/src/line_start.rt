//! The first bytes of a line that comes in chunks.
ghost use Rattle.std.specs.Prelude.{◌≡◌, ◌++◌, [], take};

use std::marker::Model;

/// One byte more than the longest line that is a step has with its CR LF.
const KEPT: usize = 23;

/// The first 23 bytes of a line, or all where it has fewer: as many as tell whether it is a step.
#[derive(Drop)]
pub struct LineStart {
    bytes: [u8; 23],
    len: usize,
}

impl Model for LineStart {
    ghost use Rattle.std.specs.Prelude.{◌≤◌, ℕ, List, take};

    ghost Value = { List ℕ };

    ghost view = { λ line. take line.len line.bytes };

    ghost invariant = { λ line. line.len ≤ 23 };
}

impl LineStart {
    /// No bytes yet. Takes no memory.
    pub fn new() -> LineStart
        ensures { result ≡ [] }
    {
        LineStart {
            bytes: [0; 23],
            len: 0,
        }
    }

    /// Adds a chunk of the line. Takes no memory.
    pub fn keep(&mut self, chunk: &[u8])
        ensures { self.new ≡ take 23 (self.old ++ chunk.now) }
    {
        let count = chunk.len().min(KEPT - self.len);
        let end = self.len + count;
        self.bytes[self.len..end].copy_from_slice(&chunk[..count]);
        self.len = end;
    }

    /// The bytes. Takes no memory.
    pub fn bytes(&self) -> &[u8]
        ensures { result.now ≡ self.now }
    {
        &self.bytes[..self.len]
    }
}
