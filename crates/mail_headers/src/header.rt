//! The header of a mail.
ghost use Rattle.std.specs.Prelude.{◌≡◌, ◌≤◌, ◌++◌, IfOk, OnOk, length};
ghost use Rattle.kit.specs.Lines.{raw_lines};
ghost use Rattle.mail_headers.specs.Fields.{fields_of};
ghost use Rattle.mail_headers.specs.Headers.{header_lines, header_len, header_of};
ghost use Rattle.mail_headers.specs.Layout.{IsFull, all_fields};

use crate::field::push_line;
use crate::fields::Fields;
use kit::{Memory, content, split_line};
use std::alloc::Global;
use std::marker::Model;

/// The header of a mail (RFC 5322, section 2.2): its fields in their order, and the offset in the mail
/// where the body begins.
#[derive(Debug, Drop)]
pub struct Header {
    fields: Fields,
    body_at: usize,
}

impl Model for Header {
    ghost use Rattle.mail_headers.specs.Headers.{Head};
    ghost use Rattle.mail_headers.specs.Layout.{IsFull, all_fields};

    ghost Value = { Head };

    ghost view = { λ header. record { fields = all_fields header.fields; body_at = header.body_at } };

    ghost invariant = { λ header. IsFull header.fields };
}

impl Header {
    ghost use Rattle.std.specs.Prelude.{◌≡◌, ◌↔◌, Any, IsSome, IsTrue, length};
    ghost use Rattle.kit.specs.Letters.{same_name};
    ghost use Rattle.std.specs.Option.{option_copied};
    ghost use Rattle.mail_headers.specs.Headers.{field, first_of};

    /// The body of the first field of that name, where the case of ASCII letters does not count:
    /// `None` exactly where the header has no field of that name. The body is what follows the colon,
    /// with the contents of the lines that continue it appended as they are, and without outer white
    /// space (RFC 5322, sections 2.2.3 and 3.6). Takes no memory.
    pub fn first(&self, name: &[u8]) -> Option<&[u8]>
        ensures body { option_copied result ≡ first_of self.now name.now }
        ensures found { IsSome result ↔ Any (λ field. IsTrue (same_name field.name name.now)) self.now.fields }
    {
        self.fields.first(name)
    }

    /// The body of the first field of that name, as `first` gives it, or an empty one where the header has
    /// no field of that name. Takes no memory.
    pub fn field(&self, name: &[u8]) -> &[u8]
        ensures { result.now ≡ field self.now name.now }
    {
        self.first(name).unwrap_or(b"")
    }

    /// The number of fields; where several share a name, each is counted. Takes no memory.
    pub fn len(&self) -> usize
        ensures { result ≡ length self.now.fields }
    {
        self.fields.lengths.len()
    }

    /// Where the body begins, as an offset from the beginning of the mail: after the first empty line,
    /// or where the mail ends if there is none. Takes no memory.
    pub fn body_at(&self) -> usize
        ensures { result ≡ self.now.body_at }
    {
        self.body_at
    }
}

/// The number of the header's lines, and the offset where the body begins.
fn extent(mail: &[u8]) -> (usize, usize)
    ensures offset { result.1 ≡ header_len (raw_lines mail.now) }
    ensures within { result.1 ≤ length mail.now }
{
    let mut lines = 0;
    let mut left = mail;
    while let Some((raw, rest)) = split_line(left) {
        left = rest;
        if content(raw).is_empty() {
            break;
        }
        lines += 1;
    }
    (lines, mail.len() - left.len())
}

/// Appends the fields that begin in the header's lines. A line that begins no field is skipped, and the
/// lines that continue it with it.
fn push_fields(alloc: Global, fields: &mut Fields, mail: &[u8]) -> Result<(), Memory>
    requires { IsFull fields.old }
    ensures full { OnOk result (IsFull fields.new) }
    ensures fields { OnOk result (all_fields fields.new ≡ all_fields fields.old ++ fields_of (header_lines (raw_lines mail.now))) }
{
    let mut unfolded = Vec::new(alloc);
    let mut left = mail;
    while let Some((raw, rest)) = split_line(left) {
        left = rest;
        let line = content(raw);
        if line.is_empty() {
            break;
        }
        push_line(fields, &mut unfolded, line, rest)?;
    }
    Ok(())
}

/// Reads the header of a mail: the lines before the first empty one, or all (RFC 5322, sections 2.1,
/// 2.2 and 4.5). A field begins in a line of a name, white space or none, and a colon; lines that begin
/// with white space continue it. Every other line is skipped, with those that continue it. Any bytes are
/// a mail. Takes memory for the bytes of these lines, for two numbers for each line, and meanwhile for the
/// longest body of more than one line; `Err` only when it runs out.
pub fn read_header(alloc: Global, mail: &[u8]) -> Result<Header, Memory>
    ensures read { IfOk result (λ header. header ≡ header_of mail.now) }
    ensures within { IfOk result (λ header. header.body_at ≤ length mail.now) }
{
    // No line begins more than one field, and no field has more bytes than its lines.
    let (lines, body_at) = extent(mail);
    let mut fields = Fields::with_capacity(alloc, lines, body_at)?;
    push_fields(alloc, &mut fields, mail)?;
    Ok(Header { fields, body_at })
}
