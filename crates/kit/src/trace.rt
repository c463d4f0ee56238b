//! The chain of bytes that come piece by piece.
ghost use Rattle.std.specs.Prelude.{◌≡◌, ◌<◌, ◌+◌, ◌-◌, ◌++◌, ℕ, List, [], length};
ghost use Rattle.kit.specs.Chains.{Adds, Cut, StandsFor, block_len, chain, cut_on, no_cut, value_of, with_block, with_bytes};

use sha2::{Digest, Sha256};
use std::marker::Model;

/// So many bytes has a block.
const BLOCK_LEN: usize = 4_096;

/// A digest of bytes that come piece by piece, which is the same however they are cut into pieces: SHA-256
/// (FIPS 180-4) of one block after the other, of 4,096 bytes each, with the value of the blocks before it.
///
/// A contract sees the value after the whole blocks and the bytes of the block that is not full. The trace
/// stands for the bytes that are cut into these two.
#[derive(Drop)]
pub struct Trace {
    value: [u8; 32],
    block: [u8; 4096],
    len: usize,
    // It has taken in the value and the bytes of the block, so that no byte is digested twice.
    hasher: Sha256,
}

impl Model for Trace {
    ghost use Rattle.std.specs.Prelude.{◌<◌, ◌++◌, take};
    ghost use Rattle.sha2.specs.Hashers.{Holds256};
    ghost use Rattle.kit.specs.Chains.{Cut};

    ghost Value = { Cut };

    ghost view = { λ trace. record { value = trace.value; block = take trace.len trace.block } };

    ghost invariant = { λ trace. (trace.len < 4096) × Holds256 trace.hasher (trace.value ++ take trace.len trace.block) };
}

impl Trace {
    /// The trace of no bytes. Takes no memory.
    pub fn new() -> Trace
        ensures none { result ≡ no_cut }
        ensures stands { StandsFor result [] }
    {
        let value = [0; 32];
        let mut hasher = Sha256::new();
        hasher.update(&value);
        Trace {
            value,
            block: [0; 4096],
            len: 0,
            hasher,
        }
    }

    /// A trace of the same bytes. Takes no memory.
    pub fn copy(&self) -> Trace
        ensures { result ≡ self.now }
    {
        match self.hasher.clone() {
            Ok(hasher) => Trace {
                value: self.value,
                block: self.block,
                len: self.len,
                hasher,
            },
            Err(_) => unreachable!(),
        }
    }

    // How many bytes fill the block.
    fn room(&self) -> usize
        ensures room { result ≡ block_len - length self.now.block }
        ensures some { length self.now.block < block_len }
    {
        BLOCK_LEN - self.len
    }

    // Goes on with bytes that leave the block not full.
    fn keep(&mut self, bytes: &[u8])
        requires few { length self.old.block + length bytes.now < block_len }
        ensures { self.new ≡ with_bytes self.old bytes.now }
    {
        let end = self.len + bytes.len();
        self.block[self.len..end].copy_from_slice(bytes);
        self.len = end;
        self.hasher.update(bytes);
    }

    // Goes on with bytes that fill the block.
    fn close(&mut self, bytes: &[u8])
        requires fills { length self.old.block + length bytes.now ≡ block_len }
        ensures { self.new ≡ with_block self.old bytes.now }
    {
        self.hasher.update(bytes);
        self.value = self.hasher.finalize_reset();
        self.hasher.update(&self.value);
        self.len = 0;
    }

    /// Goes on with these bytes. Takes no memory.
    ///
    /// - `stands`: where it stands for some bytes, it then stands for them with these after them.
    pub fn add(&mut self, bytes: &[u8])
        ensures value { self.new ≡ cut_on self.old bytes.now }
        ensures stands { Adds self.old self.new bytes.now }
    {
        let mut left = bytes;
        while left.len() >= self.room() {
            let (block, rest) = left.split_at(self.room());
            self.close(block);
            left = rest;
        }
        self.keep(left);
    }

    /// The chain of all bytes: 32 zero bytes where there are none. Takes no memory.
    ///
    /// - `chain`: it is that of all bytes for which the trace stands.
    pub fn value(&self) -> [u8; 32]
        ensures value { result ≡ value_of self.now }
        ensures chain { (bytes : List ℕ) → StandsFor self.now bytes → result ≡ chain bytes }
    {
        if self.len == 0 {
            return self.value;
        }
        match self.hasher.clone() {
            Ok(hasher) => hasher.finalize(),
            Err(_) => unreachable!(),
        }
    }
}

/// It does not matter how bytes are cut into pieces: one piece after the other is both as one.
pub fn pieces_of_a_trace_join()
    ensures { (trace : Cut) (first second : List ℕ) → cut_on (cut_on trace first) second ≡ cut_on trace (first ++ second) }
{}
