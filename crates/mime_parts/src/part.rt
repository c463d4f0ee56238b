//! The parts of a mail.
ghost use Rattle.std.specs.Prelude.{◌≡◌, Bool, IfOk};
ghost use Rattle.std.specs.Option.{option_copied};
ghost use Rattle.mime_parts.specs.Trees.{boundary_of, file_name, is_digest, is_kind, kind_of, node_of, part};

use crate::multipart::Span;
use kit::{Memory, Text};
use mail_headers::Header;
use mime_fields::{ContentType, content_type_in, read_disposition};
use std::alloc::Global;
use transfer_code::{Encoding, encoding_of};

/// A part below this many others is not opened.
pub const MAX_DEPTH: u32 = 16;

/// A part of a mail (RFC 2045, section 2.4).
#[derive(Debug, Drop)]
pub struct PartNode {
    /// How many multiparts it is in: 0 to 16, and 0 is the mail itself.
    pub depth: u32,
    /// Its content type: where none was read it is text/plain, and message/rfc822 in a digest.
    pub kind: ContentType,
    /// How its content is encoded (RFC 2045, section 6).
    pub encoding: Encoding,
    /// Whether its disposition says that it is an attachment (RFC 2183, section 2.2).
    pub attach: bool,
    /// Whether its disposition says that it is a reaction (RFC 9078, section 2).
    pub reaction: bool,
    /// The file name that its disposition gives, or else its type; empty where none is given.
    pub name: Text,
    /// Where its content begins, after its own header, as an offset in the body of the mail.
    pub start: usize,
    /// The offset after its content, no less than `start` and no more than the body has bytes.
    pub end: usize,
    /// Whether no parts of it are in the tree: it is no multipart, or one that was not opened.
    pub leaf: bool,
}

/// The content type that a header gives, in a digest or elsewhere.
pub fn kind_of(alloc: Global, digest: bool, header: &Header) -> Result<ContentType, Memory>
    ensures { IfOk result (λ kind. kind ≡ kind_of digest header.now) }
{
    content_type_in(alloc, digest, header.field(b"Content-Type"))
}

/// Whether a content type is that of these two names, which are in small letters (RFC 2045, section 5.1). Takes no memory.
pub fn is_kind(top: &[u8], sub: &[u8], kind: &ContentType) -> bool
    ensures { result ≡ is_kind top.now sub.now kind.now }
{
    kind.top.bytes() == top && kind.sub.bytes() == sub
}

/// Whether the parts of a multipart are mails where they name no type (RFC 2046, section 5.1.5).
pub fn is_digest(kind: &ContentType) -> bool
    ensures { result ≡ is_digest kind.now }
{
    is_kind(b"multipart", b"digest", kind)
}

/// The boundary at which a part of a type is cut (RFC 2046, section 5.1.1), if it is to be opened: that of a multipart,
/// unless it is encrypted (RFC 1847, section 2.2).
pub fn boundary_of(kind: &ContentType) -> Option<&[u8]>
    ensures { option_copied result ≡ boundary_of kind.now }
{
    if kind.top.bytes() != b"multipart".as_slice() || kind.sub.bytes() == b"encrypted".as_slice() {
        return None;
    }
    let boundary = kind.param(b"boundary")?.bytes();
    if boundary.is_empty() {
        return None;
    }
    Some(boundary)
}

/// The file name, of that which a disposition gives.
fn file_name(alloc: Global, given: Text, kind: &ContentType) -> Result<Text, Memory>
    ensures { IfOk result (λ name. name ≡ file_name given kind.now) }
{
    if !given.bytes().is_empty() {
        return Ok(given);
    }
    match kind.param(b"name") {
        Some(name) => name.copy(),
        None => Ok(Text::from(String::new(alloc))),
    }
}

/// The node of a part of this header and type, and of this content.
pub fn node_of(
    alloc: Global,
    header: &Header,
    kind: ContentType,
    levels: u32,
    content: Span,
    leaf: bool,
) -> Result<PartNode, Memory>
    ensures { (digest : Bool) → kind ≡ kind_of digest header.now
        → IfOk result (λ node. node ≡ node_of levels digest (part header.now content) leaf) }
{
    let disposition = read_disposition(alloc, header.field(b"Content-Disposition"))?;
    let name = file_name(alloc, disposition.name, &kind)?;
    Ok(PartNode {
        depth: MAX_DEPTH.saturating_sub(levels),
        kind,
        encoding: encoding_of(header.field(b"Content-Transfer-Encoding")),
        attach: disposition.attach,
        reaction: disposition.reaction,
        name,
        start: content.start,
        end: content.end,
        leaf,
    })
}
