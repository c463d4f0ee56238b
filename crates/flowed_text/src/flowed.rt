//! Flowed text made whole.
ghost use Rattle.std.specs.Prelude.{◌≡◌, ◌++◌, IfOk, OnOk, if◌then◌else◌, map, string_bytes};
ghost use Rattle.flowed_text.specs.Writing.{break_before, line_end, shown};
ghost use Rattle.flowed_text.specs.Flowed.{line_texts, marks, quoted_line, runs_on, unflow, unspaced};

use crate::quoted::{QuotedLine, is_soft, quoted_line, unspaced};
use crate::signature::is_signature;
use kit::{Memory, Text, split_text_line};
use std::alloc::Global;

/// Whether a line is joined with the first line of the text that follows it.
fn runs_on(line: &QuotedLine, rest: &str) -> bool
    ensures { result ≡ runs_on (shown line.now) (map quoted_line (line_texts rest.now)) }
{
    if !is_soft(line.text) {
        return false;
    }
    match split_text_line(rest) {
        Some((next, _further)) => {
            let next = quoted_line(next);
            line.depth == next.depth && !is_signature(next.text)
        }
        None => false,
    }
}

/// Adds the quote marks of a depth, and the space between them and the text.
fn push_marks(out: &mut String, depth: usize) -> Result<(), Memory>
    ensures { OnOk result (string_bytes out.new ≡ string_bytes out.old ++ marks depth) }
{
    for _ in 0..depth {
        out.push('>')?;
    }
    if depth > 0 {
        out.push(' ')?;
    }
    Ok(())
}

/// Adds the text of a line, without its last space where that is to go.
fn push_text(out: &mut String, text: &str, drops_space: bool) -> Result<(), Memory>
    ensures { OnOk result (string_bytes out.new ≡ string_bytes out.old ++ (if drops_space then unspaced text.now else text.now)) }
{
    let kept = if drops_space { unspaced(text) } else { text };
    Ok(out.push_str(kept)?)
}

/// Adds the LF between a line and the text that follows it.
fn push_break(out: &mut String, rest: &str) -> Result<(), Memory>
    ensures { OnOk result (string_bytes out.new ≡ string_bytes out.old ++ break_before (map quoted_line (line_texts rest.now))) }
{
    if !rest.is_empty() {
        out.push('\n')?;
    }
    Ok(())
}

/// Adds what follows the marks of a line, up to the next line, and returns whether that continues it.
fn push_end(out: &mut String, line: &QuotedLine, rest: &str, delsp: bool) -> Result<bool, Memory>
    ensures runs { IfOk result (λ runs. runs ≡ runs_on (shown line.now) (map quoted_line (line_texts rest.now))) }
    ensures text { OnOk result (string_bytes out.new ≡ string_bytes out.old ++ line_end delsp (shown line.now) (map quoted_line (line_texts rest.now))) }
{
    let runs = runs_on(line, rest);
    push_text(out, line.text, runs && delsp)?;
    if !runs {
        push_break(out, rest)?;
    }
    Ok(runs)
}

/// Adds the lines of a text, each joined with the next one where it runs on.
fn push_lines(out: &mut String, text: &str, delsp: bool) -> Result<(), Memory>
    ensures { OnOk result (string_bytes out.new ≡ string_bytes out.old ++ unflow text.now delsp) }
{
    let mut continues = false;
    let mut left = text;
    while let Some((line, rest)) = split_text_line(left) {
        let line = quoted_line(line);
        if !continues {
            push_marks(out, line.depth)?;
        }
        continues = push_end(out, &line, rest, delsp)?;
        left = rest;
    }
    Ok(())
}

/// A flowed text of any length with its soft lines joined (RFC 3676, section 4). Takes memory; `Err` only
/// when it runs out.
///
/// A line ends by LF, and one CR before it is not of the line. The depth of a line is the number of `>`
/// that it begins with; after them one space is stuffing, and the rest is its text. A line whose text
/// ends in a space is soft, unless the text is `-- `. A soft line is joined with the next line where that
/// has the same depth and its text is not `-- `; with `delsp`, the parameter DelSp, the space between
/// them is dropped. Any other soft line keeps its space. Each line is written as its `>`, a space where
/// it has any, and its text, with an LF between each two: a final LF is dropped.
pub fn unflow(alloc: Global, text: &Text, delsp: bool) -> Result<Text, Memory>
    ensures { IfOk result (λ whole. whole ≡ unflow text.now delsp) }
{
    let mut out = String::new(alloc);
    push_lines(&mut out, text.as_str(), delsp)?;
    Ok(Text::from(out))
}
