//! The prefix of what comes in chunks.
ghost use Rattle.std.specs.Prelude.{◌≡◌, [], take, OnOk};
ghost use Rattle.source_buffer.specs.Kept.{Kept, Keeps};

use kit::Memory;
use std::alloc::Global;
use std::marker::Model;

/// The first bytes of what comes in chunks, at most `limit`. Those after them are not kept.
#[derive(Drop)]
pub struct Prefix {
    bytes: Vec<u8>,
    limit: usize,
}

impl Model for Prefix {
    ghost use Rattle.source_buffer.specs.Kept.{Kept};
    ghost use Rattle.std.specs.Prelude.{◌≤◌, vec_len};

    ghost Value = { Kept };

    ghost view = { λ prefix. record { bytes = prefix.bytes.items; limit = prefix.limit } };

    ghost invariant = { λ prefix. vec_len prefix.bytes ≤ prefix.limit };
}

impl Prefix {
    /// No bytes yet, and at most `limit` later. Takes no memory.
    pub fn new(alloc: Global, limit: usize) -> Prefix
        ensures bytes { result.bytes ≡ [] }
        ensures limit { result.limit ≡ limit }
    {
        Prefix {
            bytes: Vec::new(alloc),
            limit,
        }
    }

    /// Adds a chunk, and keeps of it what there is room for. Takes memory; `Err` only when it runs out.
    #[tactic(auto, using(crate::proofs::Prefixes::Keeps_room))]
    pub fn keep(&mut self, chunk: &[u8]) -> Result<(), Memory>
        ensures { OnOk result (Keeps self.old self.new chunk.now) }
    {
        let room = self.limit - self.bytes.len();
        let count = room.min(chunk.len());
        self.bytes.extend_from_slice(&chunk[..count])?;
        Ok(())
    }

    /// The bytes that are kept. Takes no memory.
    pub fn into_bytes(self) -> Vec<u8>
        ensures { result.items ≡ take self.limit self.bytes }
    {
        self.bytes
    }
}
