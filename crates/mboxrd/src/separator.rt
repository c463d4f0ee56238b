//! Reading to the next separator line, or to the end.
ghost use Rattle.std.specs.Prelude.{◌≡◌, ◌≤◌, ◌++◌, ℕ, List, [], length, IfOk, IsErrOf, MatchResult, false};
ghost use Rattle.std.specs.Io.KnownBytes.{IsAtEnd};
ghost use Rattle.outside.specs.Causes.{Rose};
ghost use Rattle.source_buffer.specs.Buffered.{BufferTakes};
ghost use Rattle.source_buffer.specs.Kept.{Keeps};
ghost use Rattle.mboxrd.specs.LineStates.{IsLineState};
ghost use Rattle.mboxrd.specs.ToSeparator.{Reaches, NoSeparator};
ghost use Rattle.mboxrd.specs.Traced.{HoldsBack, Traced, held_back, held_back_at, held_back_if};

use crate::fault::BoxFault;
use crate::line_state::LineState;
use crate::step::{finish, held_back, holds_any, read_on};
use kit::Trace;
use outside::Source;
use source_buffer::{Buffer, Prefix};

// Adds what was held back and what is read, unless all this is held back now.
fn trace_step(trace: &mut Trace, state: LineState, read: &[u8], next: Option<LineState>)
    requires state { IsLineState state }
    requires back { HoldsBack state read.now next }
    ensures { Traced (held_back state) read.now (held_back_at next) trace.old trace.new }
{
    if holds_any(next) {
        return;
    }
    trace.add(held_back(state));
    trace.add(read);
}

/// Reads from a state within a line to after the `From ` of the next separator line, or to the end, and says
/// whether there is one. What comes before it is added to the mail and to the trace. Takes memory for the mail.
pub fn read_to_separator<S: Source>(
    buffer: &mut Buffer,
    source: &mut S,
    start: LineState,
    mail: &mut Prefix,
    trace: &mut Trace,
) -> Result<bool, BoxFault>
    requires { IsLineState start }
    ensures later { S.faults source.old ≤ S.faults source.new }
    ensures read { IsErrOf result BoxFault.Read → Rose (S.faults source.old) (S.faults source.new) }
    ensures endless { IsErrOf result BoxFault.Endless → buffer.new.taken ≡ buffer.new.budget }
    ensures fewer { length buffer.new.held ≤ buffer.new.taken }
    ensures took { (bytes : List ℕ) × BufferTakes (S.left source.old) (S.left source.new) buffer.old buffer.new bytes
        × (MatchResult result
        (λ found. (passed : List ℕ) × (added : List ℕ) × (buffer.old.held ++ bytes ≡ passed ++ buffer.new.held)
        × Keeps mail.old mail.new added × Reaches start passed added found
        × Traced (held_back start) passed (held_back_if found) trace.old trace.new)
        (λ why. why ≡ BoxFault.Endless → NoSeparator start (buffer.old.held ++ bytes))) }
    ensures end { IfOk result (λ found. found ≡ false → IsAtEnd (S.left source.new) × (buffer.new.held ≡ [])) }
{
    let mut state = start;
    while buffer.has_more(source)? {
        let step = read_on(state, buffer.held(), mail)?;
        trace_step(trace, state, &buffer.held()[..step.read], step.next);
        buffer.advance(step.read);
        match step.next {
            Some(next) => state = next,
            None => return Ok(true),
        }
    }
    finish(state, mail)?;
    trace.add(held_back(state));
    Ok(false)
}
