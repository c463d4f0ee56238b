//! What bytes say in a charset, in a transfer encoding, in encoded words and in escapes.
use crate::shown::{add_counted, add_quoted_line, add_word};
use encoded_words::decode_words;
use kit::{Memory, charset_of, to_text};
use std::alloc::Global;
use transfer_code::{Encoding, decode_body, decoded_len, encoding_of, unescaped};

/// Adds the text of bytes in the charset of a name.
pub fn add_charset(
    said: &mut Vec<u8>,
    alloc: Global,
    name: &[u8],
    bytes: &[u8],
) -> Result<(), Memory> {
    let text = to_text(alloc, charset_of(name), bytes)?;
    add_quoted_line(said, alloc, text.bytes())
}

/// The word for an encoding.
pub fn encoding_word(encoding: Encoding) -> &'static str {
    match encoding {
        Encoding::Plain => "plain",
        Encoding::Quoted => "quoted",
        Encoding::Base64 => "base64",
    }
}

/// The encoding that a word stands for.
fn encoding_named(word: &[u8]) -> Encoding {
    match word {
        b"quoted" => Encoding::Quoted,
        b"base64" => Encoding::Base64,
        _ => Encoding::Plain,
    }
}

/// Adds the encoding that the body of a field names.
pub fn add_encoding(said: &mut Vec<u8>, body: &[u8]) -> Result<(), Memory> {
    add_word(said, encoding_word(encoding_of(body)))
}

/// Adds what a body decodes to, and how many bytes that is said to be.
pub fn add_decoded(
    said: &mut Vec<u8>,
    alloc: Global,
    encoding: &[u8],
    body: &[u8],
) -> Result<(), Memory> {
    let encoding = encoding_named(encoding);
    let decoded = decode_body(alloc, encoding, body)?;
    add_quoted_line(said, alloc, &decoded)?;
    add_counted(
        said,
        alloc,
        "length",
        decoded_len(alloc, encoding, body)? as u64,
    )
}

/// Adds a body with its encoded words read.
pub fn add_words(said: &mut Vec<u8>, alloc: Global, body: &[u8]) -> Result<(), Memory> {
    let text = decode_words(alloc, body)?;
    add_quoted_line(said, alloc, text.bytes())
}

/// Adds a word with its escapes of quoted-printable read.
pub fn add_unescaped(said: &mut Vec<u8>, alloc: Global, word: &[u8]) -> Result<(), Memory> {
    let bytes = unescaped(alloc, word)?;
    add_quoted_line(said, alloc, &bytes)
}
