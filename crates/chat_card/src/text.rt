//! The text of a card.
ghost use Rattle.std.specs.Prelude.{◌≡◌, ◌≤◌, ℕ, IfOk, length};
ghost use Rattle.std.specs.Str.{IsCharBoundary};
ghost use Rattle.chat_card.specs.Texts.{card_text, prefix, trimmed, unmarked};

use card_type::MAX_TEXT_LEN;
use kit::{Id, Memory, Text};
use std::alloc::Global;

/// What an edit puts before its text, for those who don't know its field: a pencil.
const EDIT_MARK: &str = "\u{270F}\u{FE0F}";

fn without_spaces(mut bytes: &[u8]) -> &[u8]
    ensures { result.now ≡ trimmed bytes.now }
{
    while let [rest @ .., b' ' | b'\t' | b'\r' | b'\n'] = bytes {
        bytes = rest;
    }
    bytes
}

/// The text without the spaces, tabs, CR and LF at its end.
fn trimmed(text: &str) -> &str
    ensures { result.now ≡ trimmed text.now }
{
    &text[..without_spaces(text.as_bytes()).len()]
}

/// The text of an edit without one mark at its beginning; any other text as it is.
fn unmarked<'a>(edit: &Option<Id>, text: &'a str) -> &'a str
    ensures { result.now ≡ unmarked edit.now text.now }
{
    match edit {
        Some(_) => text.strip_prefix(EDIT_MARK).unwrap_or(text),
        None => text,
    }
}

/// The longest prefix of a text that has at most so many bytes and ends between two characters.
pub fn prefix(text: &str, limit: usize) -> &str
    ensures value { result.now ≡ prefix limit text.now }
    ensures room { length result.now ≤ limit }
    ensures longest { (at : ℕ) → at ≤ limit → IsCharBoundary text.now at → at ≤ length result.now }
{
    &text[..text.floor_char_boundary(limit)]
}

/// The text of a card.
#[derive(Drop)]
pub struct CardText {
    /// At most 32,768 bytes.
    pub text: Text,
    /// Whether it is only the beginning of what the mail says.
    pub cut: bool,
}

/// The text of the card of a mail that shows this one, and that is an edit or is none.
pub fn card_text(alloc: Global, edit: &Option<Id>, shown: &Text) -> Result<CardText, Memory>
    ensures value { IfOk result (λ text. text ≡ card_text edit.now shown.now) }
    ensures room { IfOk result (λ text. length text.text ≤ 32768) }
{
    let text = unmarked(edit, trimmed(shown.as_str()));
    let kept = prefix(text, MAX_TEXT_LEN);
    Ok(CardText {
        text: Text::from(String::from_str(alloc, kept)?),
        cut: kept.len() < text.len(),
    })
}
