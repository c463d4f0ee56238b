//! The text that a mail shows.
ghost use Rattle.std.specs.Prelude.{◌≡◌, IfOk, map};
ghost use Rattle.std.specs.List.{filter_map, join_with_byte};
ghost use Rattle.chat_card.specs.Shown.{decoded_text, text_in, text_of};
ghost use Rattle.chat_card.specs.Views.{kept};

use crate::leaf::Kept;
use crate::part::{Part, param};
use flowed_text::{push_line, unflow, user_text};
use kit::{Memory, Text, charset_of, same_name, to_text};
use std::alloc::Global;

/// The content of a part as a text in its charset (RFC 2046, section 4.1.2).
pub fn decoded_text(alloc: Global, part: &Part) -> Result<Text, Memory>
    ensures { IfOk result (λ text. text ≡ decoded_text part.now) }
{
    let charset = charset_of(param(&part.node.kind, b"charset"));
    to_text(alloc, charset, &part.content(alloc)?)
}

/// That text without soft line breaks (RFC 3676) and without a signature.
fn text_in(alloc: Global, part: &Part) -> Result<Text, Memory>
    ensures { IfOk result (λ text. text ≡ text_in part.now) }
{
    let text = decoded_text(alloc, part)?;
    let kind = &part.node.kind;
    if same_name(param(kind, b"format"), b"flowed") {
        let delsp = same_name(param(kind, b"delsp"), b"yes");
        return user_text(alloc, &unflow(alloc, &text, delsp)?);
    }
    user_text(alloc, &text)
}

/// The text of parts that are kept: that of each that is a text, with an LF between each two.
pub fn shown_text(alloc: Global, parts: &[Kept<'_, '_>]) -> Result<Text, Memory>
    ensures { IfOk result (λ text. text ≡ join_with_byte 10 (filter_map text_of (map kept parts.now))) }
{
    let mut shown = String::new(alloc);
    let mut first = true;
    for part in parts {
        if let Kept::Text(part) = part {
            push_line(&mut shown, first, text_in(alloc, part)?.as_str())?;
            first = false;
        }
    }
    Ok(Text::from(shown))
}
