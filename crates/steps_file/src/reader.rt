//! The reader of a steps file.
ghost use Rattle.std.specs.Prelude.{◌≡◌, ◌≢◌, ◌<◌, ◌≤◌, ◌+◌, ◌++◌, ℕ, List, [], length, IfOk, OnOk, OnErr, IsErrOf, MatchResult, true, false, take};
ghost use Rattle.std.specs.Io.KnownBytes.{IsAtEnd};
ghost use Rattle.kit.specs.Lines.{content};
ghost use Rattle.kit.specs.Moments.{last_moment};
ghost use Rattle.outside.specs.Causes.{Rose};
ghost use Rattle.source_buffer.specs.Buffered.{Drops};
ghost use Rattle.source_buffer.specs.Known.{IfKnown};
ghost use Rattle.steps_file.specs.Lines.{ended_lines};
ghost use Rattle.steps_file.specs.Steps.{step_of};
ghost use Rattle.kit.specs.Chains.{StandsFor, chain, no_cut, value_of};
ghost use Rattle.steps_file.specs.Reading.{IsAt, IsTraced, Takes, position};
ghost use Rattle.steps_file.specs.Answers.{IsNext, Decides, GoesBy, HoldsRest, answer_of};
ghost use Rattle.steps_file.specs.declared.step.Step.TheVariants as step;
ghost use Rattle.steps_file.specs.declared.taken.Taken.TheVariants as taken;

use crate::line_start::LineStart;
use crate::passing::pass_line;
use crate::step::step_of;
use crate::taken::Taken;
use kit::{Memory, Trace, content};
use outside::Source;
use source_buffer::{Buffer, BufferFault};
use std::alloc::Global;
use std::marker::Model;

/// Reads the lines of a steps file from a source, one after the other.
///
/// An LF ends a line, and neither it nor one CR before it is of the line's content. A line is a step where its
/// content is `next`, `expunge UID`, `seen UID` or `at MOMENT`, with one space: a uid has 1 to 12 digits and is at
/// most 4,294,967,295, a moment has as many and is at most 253,402,300,799, in seconds since 1970. A last line
/// that no LF ends is no line yet.
///
/// Each call takes the source, which must be the same for all calls. After a call that failed none but
/// [`StepsReader::place`] may follow.
#[derive(Drop)]
pub struct StepsReader {
    buffer: Buffer,
    place: u64,
    refused: bool,
    // Of the bytes up to the place.
    trace: Trace,
}

impl Model for StepsReader {
    ghost use Rattle.std.specs.Prelude.{◌+◌, ◌≤◌, length};
    ghost use Rattle.steps_file.specs.Reading.{Reading};

    ghost Value = { Reading };

    ghost view = { λ reader. record {
      held = reader.buffer.held;
      place = reader.place;
      taken = reader.buffer.taken;
      budget = reader.buffer.budget;
      refused = reader.refused;
      trace = reader.trace;
    } };

    ghost invariant = { λ reader. reader.place + length reader.buffer.held ≤ reader.buffer.taken };
}

// The answer for a line, by its first 23 bytes.
fn answer_of(start: &[u8]) -> Taken
    ensures { result ≡ answer_of (step_of (content start.now)) }
{
    match step_of(content(start)) {
        Some(step) => Taken::Step(step),
        None => Taken::NoStep,
    }
}

impl StepsReader {
    /// A reader at offset 0. It takes up to `chunk_len` bytes of its source at once, from 1 to 1,048,576, and no
    /// more than `budget` bytes in all. Takes memory for one chunk; `Err` only when it runs out.
    pub fn new(alloc: Global, chunk_len: usize, budget: u64) -> Result<StepsReader, Memory>
        requires some { 1 ≤ chunk_len }
        requires limit { chunk_len ≤ 1048576 }
        ensures value { IfOk result (λ reader. reader ≡ record {
          held = [];
          place = 0;
          taken = 0;
          budget = budget;
          refused = false;
          trace = no_cut;
        }) }
        ensures traced { IfOk result (λ reader. (file : List ℕ) → IsTraced file reader) }
    {
        let buffer = Buffer::new(alloc, chunk_len, budget)?;
        Ok(StepsReader {
            buffer,
            place: 0,
            refused: false,
            trace: Trace::new(),
        })
    }

    /// The offset after the last ended line that was given: a number of bytes from the start of the source. Before
    /// the first one it is where the last skip ended, or 0. Takes no memory.
    pub fn place(&self) -> u64
        ensures { result ≡ self.now.place }
    {
        self.place
    }

    /// The chain of the bytes up to `place` ([`kit::Trace`]). Takes no memory.
    pub fn trace(&self) -> [u8; 32]
        ensures value { result ≡ value_of self.now.trace }
        ensures chain { (file : List ℕ) → StandsFor self.now.trace (take self.now.place file) → result ≡ chain (take self.now.place file) }
    {
        self.trace.value()
    }

    /// Passes over up to `count` bytes, and says how many: fewer only at the end. The bytes after them begin a
    /// line. It may not be called after a call that failed. Takes no memory.
    ///
    /// `Read` comes only where the source failed in this call, and `Endless` only where exactly the budget was
    /// taken in this reader's life and one more byte was needed.
    pub fn skip<S: Source>(&mut self, source: &mut S, count: u64) -> Result<u64, BufferFault>
        requires usable { self.old.refused ≡ false }
        ensures later { S.faults source.old ≤ S.faults source.new }
        ensures read { IsErrOf result BufferFault.Read → Rose (S.faults source.old) (S.faults source.new) }
        ensures endless { IsErrOf result BufferFault.Endless → self.new.taken ≡ self.new.budget }
        // These bytes were taken of the source, and at Err they and what was held were too few.
        ensures took { (bytes : List ℕ) × Takes (S.left source.old) (S.left source.new) self.old self.new bytes
            × (MatchResult result
            (λ dropped. Drops self.old.trace self.new.trace self.old.held bytes dropped self.new.held)
            (λ _. length (self.old.held ++ bytes) < count)) }
        ensures count { IfOk result (λ dropped. dropped ≤ count) }
        ensures end { IfOk result (λ dropped. dropped < count → IsAtEnd (S.left source.new) × (self.new.held ≡ [])) }
        ensures moved { IfOk result (λ dropped. position self.new ≡ position self.old + dropped) }
        ensures place { OnOk result (self.new.place ≡ position self.new) }
        ensures usable { OnOk result (self.new.refused ≡ false) }
        ensures refused { OnErr result (self.new.refused ≡ true) }
        // What is held, followed by what the source has left, is the file from the reader's position on.
        ensures position { OnOk result (IfKnown (S.left source.old) (S.left source.new) (λ before after.
            (file : List ℕ) → IsAt file before self.old → IsAt file after self.new)) }
        // Where the trace stands for the bytes up to the place, it does so then.
        ensures traced { OnOk result (IfKnown (S.left source.old) (S.left source.new) (λ before after.
            (file : List ℕ) → IsAt file before self.old → IsTraced file self.old → IsTraced file self.new)) }
    {
        self.refused = true;
        let dropped = self.buffer.skip(source, count, &mut self.trace)?;
        self.refused = false;
        self.place = self.buffer.position();
        Ok(dropped)
    }

    /// The step that the next ended line is, or that it is none, or that no ended line is left. Of the line no
    /// more than 23 bytes are kept, since a longer one is no step. It may not be called after a call that failed.
    /// Takes no memory.
    ///
    /// `Read` comes only where the source failed in this call, and `Endless` only where exactly the budget was
    /// taken in this reader's life and one more byte was needed.
    pub fn next<S: Source>(&mut self, source: &mut S) -> Result<Taken, BufferFault>
        requires usable { self.old.refused ≡ false }
        ensures later { S.faults source.old ≤ S.faults source.new }
        ensures read { IsErrOf result BufferFault.Read → Rose (S.faults source.old) (S.faults source.new) }
        ensures endless { IsErrOf result BufferFault.Endless → self.new.taken ≡ self.new.budget }
        // These bytes were taken of the source. They and what was held decide the answer, and at Err no ended line is in
        // them.
        ensures took { (bytes : List ℕ) × Takes (S.left source.old) (S.left source.new) self.old self.new bytes
            × (MatchResult result
            (λ answer. Decides self.old bytes answer self.new × HoldsRest self.old bytes self.new × GoesBy answer self.old bytes self.new)
            (λ _. ended_lines (self.old.held ++ bytes) ≡ [])) }
        ensures end { IfOk result (λ answer. answer ≡ taken.End → IsAtEnd (S.left source.new) × (self.new.held ≡ [])) }
        ensures passed { IfOk result (λ answer. answer ≢ taken.End → self.old.place < self.new.place) }
        ensures within { OnOk result (self.new.place ≤ self.new.taken) }
        ensures moment { IfOk result (λ answer. (n : ℕ) → answer ≡ taken.Step (step.At n) → n ≤ last_moment) }
        ensures usable { OnOk result (self.new.refused ≡ false) }
        ensures refused { OnErr result (self.new.refused ≡ true) }
        // Where the source's bytes are known, the answer is that of the first of the ended lines from the old position on,
        // `place` is its end, and the others are those from the new position on.
        ensures answer { IfOk result (λ answer. IfKnown (S.left source.old) (S.left source.new) (λ before after.
            IsNext (ended_lines (self.old.held ++ before)) answer self.old self.new (ended_lines (self.new.held ++ after)))) }
        // What is held, followed by what the source has left, is the file from the reader's position on.
        ensures position { OnOk result (IfKnown (S.left source.old) (S.left source.new) (λ before after.
            (file : List ℕ) → IsAt file before self.old → IsAt file after self.new)) }
        // Where the trace stands for the bytes up to the place, it does so then.
        ensures traced { IfOk result (λ answer. IfKnown (S.left source.old) (S.left source.new) (λ before after.
            (file : List ℕ) → IsAt file before self.old → IsTraced file self.old
            → StandsFor self.new.trace (take self.new.place file) × (answer ≢ taken.End → IsTraced file self.new))) }
    {
        self.refused = true;
        let start = self.buffer.position();
        let mut line = LineStart::new();
        let mut trace = self.trace.copy();
        let ended = pass_line(&mut self.buffer, source, &mut line, &mut trace)?;
        self.refused = false;
        if !ended {
            // The place stays, and so does its trace.
            return Ok(Taken::End);
        }
        self.trace = trace;
        self.place += self.buffer.position() - start;
        Ok(answer_of(line.bytes()))
    }
}
