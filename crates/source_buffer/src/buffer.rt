//! The bytes of a source, chunk by chunk.
ghost use Rattle.std.specs.Prelude.{◌≡◌, ◌<◌, ◌≤◌, ◌++◌, ◌-◌, ℕ, List, [], take, drop, length, vec_len, IfOk, IsErrOf, OnErr, MatchResult, true, false};
ghost use Rattle.std.specs.Io.KnownBytes.{IsAtEnd, Consumes};
ghost use Rattle.outside.specs.Causes.{HasCause, Rose};
ghost use Rattle.source_buffer.specs.Buffered.{Buffered, BufferTakes, Drops, position};

use crate::fault::BufferFault;
use kit::{Memory, Trace};
use outside::{Failed, Source};
use std::alloc::Global;
use std::marker::Model;

/// Bytes that were taken of a source: those of the chunk from `start` to `end` are held. `taken` counts
/// those that were taken so far, and is at most `budget`.
#[derive(Drop)]
pub struct Buffer {
    chunk: Vec<u8>,
    start: usize,
    end: usize,
    taken: u64,
    budget: u64,
}

impl Model for Buffer {
    ghost use Rattle.std.specs.Prelude.{vec_len, slice_range};
    ghost use Rattle.source_buffer.specs.Buffered.{Buffered};
    ghost use Rattle.source_buffer.specs.Sound.{IsSound};

    ghost Value = { Buffered };

    ghost view = { λ buffer. record { held = slice_range buffer.chunk.items buffer.start buffer.end; taken = buffer.taken; budget = buffer.budget } };

    ghost invariant = { λ buffer. IsSound buffer.start buffer.end (vec_len buffer.chunk) buffer.taken buffer.budget };
}

impl Buffer {
    /// A buffer that holds no bytes. It takes up to `chunk_len` bytes at once, and no more than `budget` in
    /// all. Takes memory; `Err` only when it runs out.
    pub fn new(alloc: Global, chunk_len: usize, budget: u64) -> Result<Buffer, Memory>
        requires { 0 < chunk_len }
        ensures { IfOk result (λ buffer. buffer ≡ record { held = []; taken = 0; budget = budget }) }
    {
        let chunk = vec![in alloc; 0u8; chunk_len]?;
        Ok(Buffer {
            chunk,
            start: 0,
            end: 0,
            taken: 0,
            budget,
        })
    }

    /// The offset of what is held: how many bytes of the source come before that.
    pub fn position(&self) -> u64
        ensures { result ≡ position self.now }
    {
        self.taken - (self.end - self.start) as u64
    }

    /// The bytes that are held.
    pub fn held(&self) -> &[u8]
        ensures { result.now ≡ self.now.held }
    {
        &self.chunk[self.start..self.end]
    }

    /// Drops so many of the first bytes that are held.
    pub fn advance(&mut self, count: usize)
        requires { count ≤ length self.old.held }
        ensures held { self.old.held ≡ take count self.old.held ++ self.new.held }
        ensures taken { self.new.taken ≡ self.old.taken }
        ensures budget { self.new.budget ≡ self.old.budget }
        ensures within { self.new.taken ≤ self.new.budget }
        ensures fewer { length self.new.held ≤ self.new.taken }
    {
        self.start += count;
    }

    // Takes the next chunk where no bytes are held. At the end it is empty.
    fn refill<S: Source>(&mut self, source: &mut S) -> Result<(), BufferFault>
        requires { self.old.held ≡ [] }
        ensures later { S.faults source.old ≤ S.faults source.new }
        ensures read { IsErrOf result BufferFault.Read → Rose (S.faults source.old) (S.faults source.new) }
        ensures endless { IsErrOf result BufferFault.Endless → self.new.taken ≡ self.new.budget }
        ensures within { self.new.taken ≤ self.new.budget }
        ensures fewer { length self.new.held ≤ self.new.taken }
        ensures took { BufferTakes (S.left source.old) (S.left source.new) self.old self.new self.new.held }
        ensures err { OnErr result (self.new.held ≡ []) }
        ensures end { IfOk result (λ _. self.new.held ≡ [] → IsAtEnd (S.left source.new)) }
    {
        self.start = 0;
        self.end = 0;
        let room = self.budget - self.taken;
        if room == 0 {
            return Err(BufferFault::Endless);
        }
        let want = if room < self.chunk.len() as u64 {
            room as usize
        } else {
            self.chunk.len()
        };
        let count = fill(&mut self.chunk, want, source)?;
        self.end = count;
        self.taken += count as u64;
        Ok(())
    }

    /// Whether a byte is held or can be taken: none can at the end. Where no bytes are held this takes the
    /// next chunk, so a second call at once takes none. Takes no memory.
    pub fn has_more<S: Source>(&mut self, source: &mut S) -> Result<bool, BufferFault>
        ensures later { S.faults source.old ≤ S.faults source.new }
        ensures read { IsErrOf result BufferFault.Read → Rose (S.faults source.old) (S.faults source.new) }
        ensures endless { IsErrOf result BufferFault.Endless → self.new.taken ≡ self.new.budget }
        ensures within { self.new.taken ≤ self.new.budget }
        ensures fewer { length self.new.held ≤ self.new.taken }
        ensures took { (bytes : List ℕ) × BufferTakes (S.left source.old) (S.left source.new) self.old self.new bytes
            × (self.old.held ++ bytes ≡ self.new.held) }
        ensures err { OnErr result (self.new.held ≡ []) }
        ensures more { IfOk result (λ more. more ≡ true → 0 < length self.new.held) }
        ensures end { IfOk result (λ more. more ≡ false → IsAtEnd (S.left source.new) × (self.new.held ≡ [])) }
    {
        if self.start == self.end {
            self.refill(source)?;
        }
        Ok(self.start < self.end)
    }

    /// Drops up to `count` bytes, and says how many: fewer only at the end. They are added to the trace. Takes no
    /// memory.
    pub fn skip<S: Source>(
        &mut self,
        source: &mut S,
        count: u64,
        trace: &mut Trace,
    ) -> Result<u64, BufferFault>
        ensures later { S.faults source.old ≤ S.faults source.new }
        ensures read { IsErrOf result BufferFault.Read → Rose (S.faults source.old) (S.faults source.new) }
        ensures endless { IsErrOf result BufferFault.Endless → self.new.taken ≡ self.new.budget }
        ensures fewer { length self.old.held ≤ self.old.taken → length self.new.held ≤ self.new.taken }
        ensures took { (bytes : List ℕ) × BufferTakes (S.left source.old) (S.left source.new) self.old self.new bytes
            × (MatchResult result
            (λ dropped. Drops trace.old trace.new self.old.held bytes dropped self.new.held)
            (λ _. (length (self.old.held ++ bytes) < count) × (self.new.held ≡ []))) }
        ensures count { IfOk result (λ dropped. dropped ≤ count) }
        ensures end { IfOk result (λ dropped. dropped < count → IsAtEnd (S.left source.new) × (self.new.held ≡ [])) }
    {
        let mut dropped = 0;
        while dropped < count {
            if !self.has_more(source)? {
                return Ok(dropped);
            }
            let held = self.held().len();
            let some = if count - dropped < held as u64 {
                (count - dropped) as usize
            } else {
                held
            };
            trace.add(&self.held()[..some]);
            self.advance(some);
            dropped += some as u64;
        }
        Ok(count)
    }
}

// Takes at most `want` bytes to the start of the chunk, and says how many.
fn fill<S: Source>(chunk: &mut [u8], want: usize, source: &mut S) -> Result<usize, Failed>
    requires some { 0 < want }
    requires fits { want ≤ length chunk.old }
    ensures cause { HasCause (S.faults source.old) (S.faults source.new) result }
    ensures count { IfOk result (λ count. count ≤ want) }
    ensures bytes { MatchResult result
        (λ count. Consumes (S.left source.old) (S.left source.new) (take count chunk.new))
        (λ _. Consumes (S.left source.old) (S.left source.new) []) }
    ensures end { IfOk result (λ count. count ≡ 0 → IsAtEnd (S.left source.new)) }
{
    source.take(&mut chunk[..want])
}
