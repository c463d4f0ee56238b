//! Quoted-printable.
ghost use Rattle.std.specs.Prelude.{◌≡◌, ◌++◌, ℕ, List, IfOk, OnOk};
ghost use Rattle.kit.specs.Lines.{raw_lines};
ghost use Rattle.transfer_code.specs.Quoted.{LinesText, decode_quoted, line_text};

use crate::escapes::push_unescaped;
use kit::{Memory, content, split_line, trim_end};
use std::alloc::Global;

/// Adds what a line decodes to, of which the content is given and whether a break follows it.
fn push_line(out: &mut Vec<u8>, content: &[u8], broken: bool) -> Result<(), Memory>
    ensures { OnOk result (out.new.items ≡ out.old.items ++ line_text content.now broken) }
{
    match trim_end(content) {
        [joined @ .., b'='] => push_unescaped(out, joined)?,
        line => {
            push_unescaped(out, line)?;
            if broken {
                out.push(b'\n')?;
            }
        }
    }
    Ok(())
}

/// The bytes that text in quoted-printable decodes to.
pub fn decode_quoted(alloc: Global, bytes: &[u8]) -> Result<Vec<u8>, Memory>
    ensures value { IfOk result (λ out. out.items ≡ decode_quoted bytes.now) }

    // The same by cases on what is left of each line: the lines decode to these bytes and to no others.
    ensures decodes { IfOk result (λ out. LinesText (raw_lines bytes.now) out.items) }
    ensures alone { IfOk result (λ out. (other : List ℕ) → LinesText (raw_lines bytes.now) other → other ≡ out.items) }
{
    let mut out = Vec::new(alloc);
    let mut left = bytes;
    while let Some((raw, rest)) = split_line(left) {
        let line = content(raw);
        push_line(&mut out, line, line.len() < raw.len())?;
        left = rest;
    }
    Ok(out)
}
