//! Texts in one line.
ghost use Rattle.std.specs.Prelude.{◌≡◌, ◌&&◌, ◌∷◌, ◌++◌, [], IfOk, OnOk, chars, if◌then◌else◌, string_bytes};
ghost use Rattle.card_type.specs.Kinds.{has_some};
ghost use Rattle.chat_card.specs.Reactions.{one_line};
ghost use Rattle.chat_card.specs.Texts.{is_space};

use kit::Memory;
use std::alloc::Global;

fn is_space(character: char) -> bool
    ensures { result ≡ is_space character }
{
    matches!(character, ' ' | '\t' | '\r' | '\n')
}

/// Appends a character of a word to a line, after a space where it begins a word that is not the first.
fn push_character(line: &mut String, begins: bool, character: char) -> Result<(), Memory>
    ensures { OnOk result (chars (string_bytes line.new) ≡ chars (string_bytes line.old)
        ++ (if begins && has_some (string_bytes line.old) then 32 ∷ character ∷ [] else character ∷ [])) }
{
    if begins && !line.is_empty() {
        line.push(' ')?;
    }
    line.push(character)?;
    Ok(())
}

/// The words of a text, which are between spaces, tabs, CR and LF, with one space between each two.
pub fn one_line(alloc: Global, text: &str) -> Result<String, Memory>
    ensures { IfOk result (λ line. string_bytes line ≡ one_line text.now) }
{
    let mut line = String::new(alloc);
    let mut begins = true;
    for character in text.chars() {
        if is_space(character) {
            begins = true;
        } else {
            push_character(&mut line, begins, character)?;
            begins = false;
        }
    }
    Ok(line)
}
