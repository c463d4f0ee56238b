//! Content types.
ghost use Rattle.std.specs.Prelude.{◌≡◌, IfOk, IfSome, IsTrue, option_map};
ghost use Rattle.std.specs.Option.{option_copied};
ghost use Rattle.kit.specs.Letters.{lowered};
ghost use Rattle.kit.specs.Printing.{is_visible};
ghost use Rattle.mime_fields.specs.Kinds.{content_type, content_type_in, default_type, type_in, type_of};

use crate::param::{Param, params};
use crate::raw_param::lowered;
use crate::segment::main_word;
use kit::{Charset, Memory, Text, is_visible, same_name, split_once, to_text};
use std::alloc::Global;
use std::marker::Model;

/// The content type of a part (RFC 2045, section 5.1), as `text/plain; charset=utf-8`.
#[derive(Debug, Drop)]
pub struct ContentType {
    /// The top-level type in small letters, as `text`: where it was read, one or more bytes from 33 to 126, none a `/`.
    pub top: Text,
    /// The subtype in small letters, as `plain`, of such bytes as well.
    pub sub: Text,
    /// The parameters: where they were read, each name once, in the order in which the names first come.
    pub params: Vec<Param>,
}

impl Model for ContentType {
    ghost use Rattle.mime_fields.specs.Kinds.{Kind};

    ghost Value = { Kind };

    ghost view = { λ kind. record { top = kind.top; sub = kind.sub; params = kind.params.items } };
}

impl ContentType {
    ghost use Rattle.mime_fields.specs.Kinds.{param_of};

    /// The value of the first parameter of a name, in which the case of ASCII letters does not count: `None` exactly
    /// where the type has no parameter of that name (RFC 2045, section 5.1). Takes no memory.
    pub fn param(&self, name: &[u8]) -> Option<&Text>
        ensures { option_copied result ≡ param_of self.now name.now }
    {
        let param = self
            .params
            .iter()
            .find(|param| same_name(param.name.bytes(), name))?;
        Some(&param.value)
    }
}

/// The two sides of the `/` of a word, if it is a type.
fn type_of(word: &[u8]) -> Option<(&[u8], &[u8])>
    ensures value { option_map (λ p. (p.0.now, p.1.now)) result ≡ type_of word.now }
    ensures top { IfSome result (λ p. IsTrue (is_visible p.0.now)) }
    ensures sub { IfSome result (λ p. IsTrue (is_visible p.1.now)) }
{
    let (top, sub) = split_once(word, b'/')?;
    if !is_visible(top) || !is_visible(sub) || sub.contains(&b'/') {
        return None;
    }
    Some((top, sub))
}

/// What a part is that names no type.
fn default_type(digest: bool) -> (&'static [u8], &'static [u8])
    ensures value { (result.0.now, result.1.now) ≡ default_type digest }
    ensures top { IsTrue (is_visible result.0.now) }
    ensures sub { IsTrue (is_visible result.1.now) }
{
    if digest {
        (b"message", b"rfc822")
    } else {
        (b"text", b"plain")
    }
}

/// The type that a body names.
fn type_in(digest: bool, body: &[u8]) -> (&[u8], &[u8])
    ensures value { (result.0.now, result.1.now) ≡ type_in digest body.now }
    ensures top { IsTrue (is_visible result.0.now) }
    ensures sub { IsTrue (is_visible result.1.now) }
{
    match type_of(main_word(body)) {
        Some(sides) => sides,
        None => default_type(digest),
    }
}

/// Visible characters in small letters.
fn lowered_text(alloc: Global, word: &[u8]) -> Result<Text, Memory>
    requires { IsTrue (is_visible word.now) }
    ensures { IfOk result (λ text. text ≡ lowered word.now) }
{
    to_text(alloc, Charset::Ascii, &lowered(alloc, word)?)
}

/// What the body of a Content-Type field says in a part of a digest or elsewhere: as `read_content_type`, but in a digest
/// what names no type is message/rfc822 (RFC 2046, section 5.1.5). Takes memory; `Err` only when it runs out.
pub fn content_type_in(alloc: Global, digest: bool, body: &[u8]) -> Result<ContentType, Memory>
    ensures { IfOk result (λ kind. kind ≡ content_type_in digest body.now) }
{
    let (top, sub) = type_in(digest, body);
    Ok(ContentType {
        top: lowered_text(alloc, top)?,
        sub: lowered_text(alloc, sub)?,
        params: params(alloc, body)?,
    })
}

/// What the body of a Content-Type field says, of any bytes and any length (RFC 2045, section 5). Takes memory; `Err`
/// only when it runs out.
///
/// The body is cut at each `;` outside a quoted string. Its first segment, up to white space or a `(`, is the type where
/// it has exactly one `/` and bytes from 33 to 126 on either side; any other is text/plain (section 5.2). Each further
/// segment with a `=` is a parameter, of which the name has no case, and the value is a quoted string or ends at a `(`.
/// Of equal names the first counts. The value of the parameter n is that of `n*`, or of its sections `n*0` or `n*0*`,
/// `n*1` or `n*1*` and so on up to the first that is missing, put together and read in their charset (RFC 2231), or of
/// `n`, with encoded words read.
pub fn read_content_type(alloc: Global, body: &[u8]) -> Result<ContentType, Memory>
    ensures { IfOk result (λ kind. kind ≡ content_type body.now) }
{
    content_type_in(alloc, false, body)
}
