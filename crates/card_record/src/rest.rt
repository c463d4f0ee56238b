//! Bytes that are read from the left.
ghost use Rattle.std.specs.Prelude.{◌≡◌, ◌≤◌, List, ℕ, length, take, drop, IfOk};
ghost use Rattle.std.specs.Int.{w16, w32, w64};
ghost use Rattle.card_record.specs.Reading.{Moves, byte_at, number_at, block_at, run_at};
ghost use Rattle.card_record.specs.Spelling.{IsBytes};

use crate::fault::ReadFault;
use std::marker::Model;

/// What is left of bytes that are read from the left. A contract sees it as the list of these bytes. Each read takes
/// from the front what it reads; where it fails, nothing is promised of what is left. No method takes memory.
#[derive(Drop)]
pub struct Rest<'a> {
    bytes: &'a [u8],
}

impl<'a> Model for Rest<'a> {
    ghost Value = { List ℕ };

    ghost view = { λ rest. rest.bytes.now };

    ghost invariant = { λ rest. IsBytes rest.bytes.now };
}

impl<'a> Rest<'a> {
    /// All of the bytes.
    pub fn new(bytes: &'a [u8]) -> Self
        ensures { result ≡ bytes.now }
    {
        Rest { bytes }
    }

    /// The number of bytes that are left.
    pub fn len(&self) -> usize
        ensures value { result ≡ length self.now }
        ensures bytes { IsBytes self.now }
    {
        self.bytes.len()
    }

    /// The next so many bytes.
    fn front(&mut self, count: usize) -> &'a [u8]
        requires { count ≤ length self.old }
        ensures front { result.now ≡ take count self.old }
        ensures rest { self.new ≡ drop count self.old }
    {
        let (front, rest) = self.bytes.split_at(count);
        self.bytes = rest;
        front
    }

    /// A number of one byte.
    pub fn b8(&mut self) -> Result<u8, ReadFault>
        ensures { Moves (λ n. n) result (byte_at self.old) self.new }
    {
        if self.bytes.is_empty() {
            return Err(ReadFault::Malformed(0));
        }
        let front = self.front(1);
        Ok(front[0])
    }

    /// A number of two bytes, the highest first.
    pub fn b16(&mut self) -> Result<u16, ReadFault>
        ensures { Moves (λ n. n) result (number_at w16 self.old) self.new }
    {
        let left = self.bytes.len();
        if left < 2 {
            return Err(ReadFault::Malformed(left));
        }
        let front = self.front(2);
        Ok(u16::from_be_bytes([front[0], front[1]]))
    }

    /// A number of four bytes, the highest first.
    pub fn b32(&mut self) -> Result<u32, ReadFault>
        ensures { Moves (λ n. n) result (number_at w32 self.old) self.new }
    {
        let left = self.bytes.len();
        if left < 4 {
            return Err(ReadFault::Malformed(left));
        }
        let front = self.front(4);
        Ok(u32::from_be_bytes([front[0], front[1], front[2], front[3]]))
    }

    /// A number of eight bytes, the highest first.
    pub fn b64(&mut self) -> Result<u64, ReadFault>
        ensures { Moves (λ n. n) result (number_at w64 self.old) self.new }
    {
        let left = self.bytes.len();
        if left < 8 {
            return Err(ReadFault::Malformed(left));
        }
        let front = self.front(8);
        Ok(u64::from_be_bytes([
            front[0], front[1], front[2], front[3], front[4], front[5], front[6], front[7],
        ]))
    }

    /// A run of so many bytes.
    pub fn run(&mut self, count: usize) -> Result<&'a [u8], ReadFault>
        ensures moves { Moves (λ run. run.now) result (run_at count self.old) self.new }
        ensures len { IfOk result (λ run. length run.now ≡ count) }
    {
        let left = self.bytes.len();
        if left < count {
            return Err(ReadFault::Malformed(left));
        }
        Ok(self.front(count))
    }

    /// Bytes, after their number in four bytes.
    #[tactic(auto, unfolding(crate::specs::Reading::block_at))]
    pub fn block(&mut self) -> Result<&'a [u8], ReadFault>
        ensures { Moves (λ block. block.now) result (block_at self.old) self.new }
    {
        let left = self.bytes.len();
        if left < 4 {
            return Err(ReadFault::Malformed(left));
        }
        let front = self.front(4);
        let len = u32::from_be_bytes([front[0], front[1], front[2], front[3]]) as usize;
        if self.bytes.len() < len {
            return Err(ReadFault::Malformed(left));
        }
        Ok(self.front(len))
    }
}
