//! The texts of a chat: the body of a row, and the name.
ghost use Rattle.std.specs.Prelude.{◌≡◌, ◌++◌, IfOk, OnOk, string_bytes, unwrap_or, option_copied};
ghost use Rattle.std.specs.Str.{IsUtf8};
ghost use Rattle.mailbox_model.specs.Bodies.{body, text_with_subject};
ghost use Rattle.mailbox_model.specs.Names.{name_by, name_or_empty};

use card_type::ChatKey;
use kit::{Addr, Memory, Text};
use mailbox_model::{Roster, Row};
use std::alloc::Global;
use std::str;

/// Appends the text of a row, after the subject in brackets where no chat program sent the mail.
fn push_text(body: &mut String, row: &Row) -> Result<(), Memory>
    ensures { OnOk result (string_bytes body.new ≡ string_bytes body.old ++ text_with_subject row.now) }
{
    if row.chat || row.subject.as_str().is_empty() {
        return Ok(body.push_str(row.text.as_str())?);
    }
    body.push('[')?;
    body.push_str(row.subject.as_str())?;
    body.push(']')?;
    if !row.text.as_str().is_empty() {
        body.push(' ')?;
        body.push_str(row.text.as_str())?;
    }
    Ok(())
}

/// The body of a row: its text, after the subject in brackets where no chat program sent the mail, then ` [cut]` and
/// ` [edited]` where it is so; `(no text)` in place of an empty one. Takes memory; `Err` only when it runs out.
pub fn body_of(alloc: Global, row: &Row) -> Result<Text, Memory>
    ensures { IfOk result (λ text. text ≡ body row.now) }
{
    let mut body = String::new(alloc);
    push_text(&mut body, row)?;
    if row.cut {
        body.push_str(" [cut]")?;
    }
    if row.edited {
        body.push_str(" [edited]")?;
    }
    if body.is_empty() {
        body.push_str("(no text)")?;
    }
    Ok(Text::from(body))
}

/// The bytes, which are UTF-8, as a text.
fn text_of(alloc: Global, bytes: &[u8]) -> Result<Text, Memory>
    requires { IsUtf8 bytes.now }
    ensures { IfOk result (λ text. text ≡ bytes.now) }
{
    let text = String::from_str(alloc, str::from_utf8(bytes).unwrap())?;
    Ok(Text::from(text))
}

/// The name of a contact, and the address where there is none.
fn contact_name(alloc: Global, address: &Addr, contact: Option<&Text>) -> Result<Text, Memory>
    ensures { IfOk result (λ name. name ≡ unwrap_or (option_copied contact.entry) address.now) }
{
    match contact {
        Some(name) => name.copy(),
        None => text_of(alloc, address.bytes()),
    }
}

/// The name of a chat, empty where a group or thread has none.
fn name_or_empty(
    alloc: Global,
    key: &ChatKey,
    roster: &Roster,
    contact: Option<&Text>,
) -> Result<Text, Memory>
    ensures { IfOk result (λ name. name ≡ name_or_empty key.now roster.now (unwrap_or (option_copied contact.entry))) }
{
    match key {
        ChatKey::SelfChat => Ok(Text::from(String::from_str(alloc, "self")?)),
        ChatKey::Single(address) => contact_name(alloc, address, contact),
        ChatKey::Group(_) | ChatKey::Thread(_) => roster.name.copy(),
    }
}

/// The name of a chat, where `contact` is the name of the contact with whom it is, if there is one: `self`, the name of
/// the only other or its address, or the name that the roster has; an empty name gives way to the text of the key.
/// Takes memory; `Err` only when it runs out.
pub fn page_name(
    alloc: Global,
    key: &ChatKey,
    roster: &Roster,
    contact: Option<&Text>,
) -> Result<Text, Memory>
    ensures { IfOk result (λ name. name ≡ name_by key.now roster.now (unwrap_or (option_copied contact.entry))) }
{
    let name = name_or_empty(alloc, key, roster, contact)?;
    if name.bytes().is_empty() {
        return key.text(alloc);
    }
    Ok(name)
}
