//! Texts in one line.
ghost use Rattle.std.specs.Prelude.{◌≡◌, ◌==◌, ◌&&◌, ◌||◌, bytes_eq, not};
ghost use Rattle.chat_card.specs.Reactions.{one_line};
ghost use Rattle.chat_card.specs.Texts.{is_space};

fn is_space(character: char) -> bool
    ensures { result ≡ is_space character }
{
    matches!(character, ' ' | '\t' | '\r' | '\n')
}

/// Whether a character may follow where a word begins or goes on: of the spaces only one, and only after a word.
fn may_follow(begins: bool, character: char) -> bool
    ensures { result ≡ (not (is_space character) || (not begins && character == 32)) }
{
    if is_space(character) {
        !begins && character == ' '
    } else {
        true
    }
}

/// Whether a text of any length is its words with one space between each two. Words are what is between spaces, tabs, CR
/// and LF, and is not empty. Takes no memory.
pub fn is_one_line(text: &str) -> bool
    ensures { result ≡ bytes_eq (one_line text.now) text.now }
{
    if text.is_empty() {
        return true;
    }
    let mut follow = true;
    let mut begins = true;
    for character in text.chars() {
        follow &= may_follow(begins, character);
        begins = is_space(character);
    }
    // The last of them is in a word.
    follow & !begins
}
