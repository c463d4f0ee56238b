//! Passing over one line.
ghost use Rattle.std.specs.Prelude.{◌≡◌, ◌≤◌, ◌++◌, ℕ, List, [], take, IfOk, IsErrOf, MatchResult, false};
ghost use Rattle.std.specs.Io.KnownBytes.{IsAtEnd};
ghost use Rattle.outside.specs.Causes.{Rose};
ghost use Rattle.source_buffer.specs.Buffered.{BufferTakes};
ghost use Rattle.kit.specs.Chains.{Adds};
ghost use Rattle.steps_file.specs.Passing.{HasNoLf, IsLineAt};

use crate::line_start::LineStart;
use kit::Trace;
use memchr::memchr;
use outside::Source;
use source_buffer::{Buffer, BufferFault};

/// Passes over the next line and the LF that ends it, and says whether there is one. Where none is left, all bytes
/// are passed, and the source is at its end. What is passed is added to the trace. Takes no memory.
pub fn pass_line<S: Source>(
    buffer: &mut Buffer,
    source: &mut S,
    line: &mut LineStart,
    trace: &mut Trace,
) -> Result<bool, BufferFault>
    requires { line.old ≡ [] }
    ensures later { S.faults source.old ≤ S.faults source.new }
    ensures read { IsErrOf result BufferFault.Read → Rose (S.faults source.old) (S.faults source.new) }
    ensures endless { IsErrOf result BufferFault.Endless → buffer.new.taken ≡ buffer.new.budget }
    ensures took { (bytes : List ℕ) × BufferTakes (S.left source.old) (S.left source.new) buffer.old buffer.new bytes
        × (MatchResult result
        (λ ended. (passed : List ℕ) × (buffer.old.held ++ bytes ≡ passed ++ buffer.new.held)
        × (line.new ≡ take 23 passed) × IsLineAt ended passed × Adds trace.old trace.new passed)
        (λ _. HasNoLf (buffer.old.held ++ bytes) × (buffer.new.held ≡ []))) }
    ensures end { IfOk result (λ ended. ended ≡ false → IsAtEnd (S.left source.new) × (buffer.new.held ≡ [])) }
{
    while buffer.has_more(source)? {
        let held = buffer.held();
        match memchr(b'\n', held) {
            Some(end) => {
                line.keep(&held[..end + 1]);
                trace.add(&held[..end + 1]);
                buffer.advance(end + 1);
                return Ok(true);
            }
            None => {
                let all = held.len();
                line.keep(held);
                trace.add(held);
                buffer.advance(all);
            }
        }
    }
    Ok(false)
}
