//! Which transfer encoding a body has, and what it decodes to.
ghost use Rattle.std.specs.Prelude.{◌≡◌, IfOk, length};
ghost use Rattle.kit.specs.Lines.{raw_lines};
ghost use Rattle.transfer_code.specs.declared.encoding.Encoding.TheVariants.{Quoted};
ghost use Rattle.transfer_code.specs.Quoted.{LinesText};
ghost use Rattle.transfer_code.specs.Encodings.{encoding_named, encoding_of, decode_body};

use crate::quoted::decode_quoted;
use crate::sextets::{base64_len, decode_base64};
use kit::{Memory, same_name, trim};
use std::alloc::Global;

/// How the bytes of a body are encoded in a mail (RFC 2045, section 6).
#[derive(Clone, Copy, Debug, PartialEq, Eq)]
pub enum Encoding {
    /// As they are: `7bit`, `8bit`, `binary`, and every other encoding that is not read.
    Plain,
    /// Quoted-printable (RFC 2045, section 6.7).
    Quoted,
    /// Base64 (RFC 2045, section 6.8).
    Base64,
}

fn encoding_named(name: &[u8]) -> Encoding
    ensures { result ≡ encoding_named name.now }
{
    if same_name(name, b"quoted-printable") {
        Encoding::Quoted
    } else if same_name(name, b"base64") {
        Encoding::Base64
    } else {
        Encoding::Plain
    }
}

/// The encoding that the body of a Content-Transfer-Encoding field names, in which the case of ASCII letters does not
/// count (RFC 2045, section 6.1). The name is the whole body without spaces and tabs at its ends: a comment or a
/// parameter after it makes it another name, and another name is `Plain`. Takes no memory.
pub fn encoding_of(body: &[u8]) -> Encoding
    ensures { result ≡ encoding_of body.now }
{
    encoding_named(trim(body))
}

/// The bytes that a body of any length decodes to in its encoding. Takes memory; `Err` only when it runs out.
///
/// `Plain` keeps the bytes. `Quoted` goes line by line (RFC 2045, section 6.7): spaces and tabs at the end of a line are
/// dropped; a last `=` is dropped and joins the next line; `=` and two hexadecimal digits of either case are a byte,
/// and any other `=` is kept; the break that ends a line, LF or CR LF, is one LF. `Base64` reads up to the first `=`
/// and skips what is no symbol (RFC 2045, section 6.8): each eight bits of the symbols are a byte, and what is
/// left over at the end is dropped.
pub fn decode_body(alloc: Global, encoding: Encoding, bytes: &[u8]) -> Result<Vec<u8>, Memory>
    ensures value { IfOk result (λ out. out.items ≡ decode_body encoding bytes.now) }

    // Quoted-printable also by cases on what is left of each line, as the RFC has its rules.
    ensures quoted { encoding ≡ Quoted → IfOk result (λ out. LinesText (raw_lines bytes.now) out.items) }
{
    match encoding {
        Encoding::Plain => Ok(Vec::from_slice(alloc, bytes)?),
        Encoding::Quoted => decode_quoted(alloc, bytes),
        Encoding::Base64 => decode_base64(alloc, bytes),
    }
}

/// How many bytes a body of any length decodes to in its encoding: the length of what `decode_body` gives. Only `Quoted`
/// takes memory, for the bytes themselves; `Err` only when it runs out.
pub fn decoded_len(alloc: Global, encoding: Encoding, bytes: &[u8]) -> Result<usize, Memory>
    ensures { IfOk result (λ len. len ≡ length (decode_body encoding bytes.now)) }
{
    match encoding {
        Encoding::Plain => Ok(bytes.len()),
        Encoding::Quoted => Ok(decode_quoted(alloc, bytes)?.len()),
        Encoding::Base64 => Ok(base64_len(bytes)),
    }
}
