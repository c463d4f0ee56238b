//! Printing bytes.
ghost use Rattle.std.specs.Prelude.{◌≡◌};
ghost use Rattle.std.specs.Char.{is_ascii_graphic};
ghost use Rattle.std.specs.List.{list_all};
ghost use Rattle.kit.specs.Printing.{is_printing, is_visible};

fn are_graphic(bytes: &[u8]) -> bool
    ensures { result ≡ list_all is_ascii_graphic bytes.now }
{
    bytes.iter().all(|b| b.is_ascii_graphic())
}

/// Whether the bytes are one or more visible characters, from 33 to 126 (RFC 5234, appendix B.1). Takes
/// no memory.
pub fn is_visible(bytes: &[u8]) -> bool
    ensures { result ≡ is_visible bytes.now }
{
    1 <= bytes.len() && are_graphic(bytes)
}

/// Whether each of the bytes is a visible character or a space, from 32 to 126. Takes no memory.
pub fn is_printing(bytes: &[u8]) -> bool
    ensures { result ≡ is_printing bytes.now }
{
    bytes.iter().all(|b| 32 <= *b && *b <= 126)
}
