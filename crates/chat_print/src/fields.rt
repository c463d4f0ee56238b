//! The fields of printed lines.
ghost use Rattle.std.specs.Prelude.{◌≡◌, ◌++◌, if◌then◌else◌, OnOk, string_bytes};
ghost use Rattle.std.specs.Char.{is_ascii_control};
ghost use Rattle.card_type.specs.KeyTexts.{key_text};
ghost use Rattle.mailbox_model.specs.Printed.{field, short};

use card_type::ChatKey;
use kit::{Addr, Memory};
use std::alloc::Global;

/// No more characters of the body of a row are printed in the list.
const MAX_CHARS: usize = 60;

/// What is printed of a character: a space in place of a control character.
fn printed(character: char) -> char
    ensures { result ≡ (if is_ascii_control character then 32 else character) }
{
    if character.is_ascii_control() {
        ' '
    } else {
        character
    }
}

/// Appends a field.
pub fn push_field(text: &mut String, value: &str) -> Result<(), Memory>
    ensures { OnOk result (string_bytes text.new ≡ string_bytes text.old ++ field value.now) }
{
    for character in value.chars() {
        text.push(printed(character))?;
    }
    Ok(())
}

/// Appends the first characters of a body as a field.
pub fn push_short(text: &mut String, body: &str) -> Result<(), Memory>
    ensures { OnOk result (string_bytes text.new ≡ string_bytes text.old ++ field (short body.now)) }
{
    for character in body.chars().take(MAX_CHARS) {
        text.push(printed(character))?;
    }
    Ok(())
}

/// Appends an address as a field.
pub fn push_addr(text: &mut String, addr: &Addr) -> Result<(), Memory>
    ensures { OnOk result (string_bytes text.new ≡ string_bytes text.old ++ field addr.now) }
{
    push_field(text, addr.as_str())
}

/// Appends the text of a key as a field.
pub fn push_key(alloc: Global, text: &mut String, key: &ChatKey) -> Result<(), Memory>
    ensures { OnOk result (string_bytes text.new ≡ string_bytes text.old ++ field (key_text key.now)) }
{
    let key = key.text(alloc)?;
    push_field(text, key.as_str())
}
