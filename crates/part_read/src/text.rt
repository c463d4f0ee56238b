//! Texts of strings.
ghost use Rattle.std.specs.Prelude.{◌≡◌, IsTrue};
ghost use Rattle.std.specs.Str.{is_utf8};
ghost use Rattle.std.specs.String.{string_bytes};

use kit::Text;

/// The string as a text, which is UTF-8.
pub fn text_from(string: String) -> Text
    ensures value { result ≡ string_bytes string }
    ensures utf8 { IsTrue (is_utf8 result) }
{
    let text = Text::from(string);
    // Only the prover reads the bytes: they are UTF-8 by the clause of `bytes`.
    let _bytes = text.bytes();
    text
}
