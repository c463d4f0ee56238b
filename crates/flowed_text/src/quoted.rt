//! A line of flowed text by itself.
ghost use Rattle.std.specs.Prelude.{◌≡◌};
ghost use Rattle.flowed_text.specs.Flowed.{is_soft, quoted_line, unspaced, unstuffed};

use crate::signature::is_signature;

/// A line without its quote marks and the space of stuffing (RFC 3676, sections 4.4 and 4.5).
#[derive(Clone, Copy)]
pub struct QuotedLine<'a> {
    /// How many quote marks, `>`, the line began with.
    pub depth: usize,
    /// What follows them and one space.
    pub text: &'a str,
}

fn unstuffed(text: &str) -> &str
    ensures { result.now ≡ unstuffed text.now }
{
    text.strip_prefix(' ').unwrap_or(text)
}

/// Reads a line.
pub fn quoted_line(line: &str) -> QuotedLine<'_>
    ensures depth { result.depth ≡ (quoted_line line.now).depth }
    ensures text { result.text.now ≡ (quoted_line line.now).text }
{
    let mut depth = 0;
    let mut text = line;
    while let Some(rest) = text.strip_prefix('>') {
        depth += 1;
        text = rest;
    }
    QuotedLine {
        depth,
        text: unstuffed(text),
    }
}

/// The text without one space at its end.
pub fn unspaced(text: &str) -> &str
    ensures { result.now ≡ unspaced text.now }
{
    text.strip_suffix(' ').unwrap_or(text)
}

/// Whether the text of a line is to be joined with the next line.
pub fn is_soft(text: &str) -> bool
    ensures { result ≡ is_soft text.now }
{
    text.ends_with(" ") && !is_signature(text)
}
