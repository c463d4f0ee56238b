//! The text above a signature.
ghost use Rattle.std.specs.Prelude.{◌≡◌, ◌∷◌, ◌++◌, IfOk, OnOk, if◌then◌else◌, string_bytes};
ghost use Rattle.flowed_text.specs.Flowed.{is_signature, user_text};

use kit::{Memory, Text, split_text_line};
use std::alloc::Global;

/// Whether a line is the one above a signature (RFC 3676, section 4.3).
pub fn is_signature(line: &str) -> bool
    ensures { result ≡ is_signature line.now }
{
    line == "-- "
}

/// Appends a line to others, after an LF unless it is the first of them. What is appended may have lines of
/// its own. Takes memory; `Err` only when it runs out.
pub fn push_line(above: &mut String, first: bool, line: &str) -> Result<(), Memory>
    ensures { OnOk result (string_bytes above.new ≡ string_bytes above.old ++ (if first then line.now else 10 ∷ line.now)) }
{
    if !first {
        above.push('\n')?;
    }
    Ok(above.push_str(line)?)
}

/// The lines of a text before the first that is exactly `-- `, or all where none is, joined by LF (RFC
/// 3676, section 4.3). A line ends by LF, and one CR before it is not of the line, so the text has no
/// CR LF, and a final LF is dropped. Takes memory; `Err` only when it runs out.
pub fn user_text(alloc: Global, text: &Text) -> Result<Text, Memory>
    ensures { IfOk result (λ above. above ≡ user_text text.now) }
{
    let mut above = String::new(alloc);
    let mut first = true;
    let mut left = text.as_str();
    while let Some((line, rest)) = split_text_line(left) {
        if is_signature(line) {
            break;
        }
        push_line(&mut above, first, line)?;
        first = false;
        left = rest;
    }
    Ok(Text::from(above))
}
