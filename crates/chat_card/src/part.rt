//! Parts and their contents.
ghost use Rattle.std.specs.Prelude.{◌≡◌, ◌≤◌, IfOk, length};
ghost use Rattle.mime_parts.specs.Trees.{IsNodeWithin};
ghost use Rattle.transfer_code.specs.Encodings.{decode_body};
ghost use Rattle.chat_card.specs.Parts.{content_of, param, parts_of};

use kit::Memory;
use mail_headers::Header;
use mime_fields::ContentType;
use mime_parts::{PartNode, parts};
use std::alloc::Global;
use std::marker::Model;
use transfer_code::{decode_body, decoded_len};

/// A part of a mail, and its content, which is decoded where it is asked for.
#[derive(Debug, Drop)]
pub struct Part<'a> {
    /// What its header says of it, and where it is.
    pub node: PartNode,
    /// Its content as it is encoded; empty where parts of it are in the tree.
    encoded: &'a [u8],
}

impl<'a> Model for Part<'a> {
    ghost use Rattle.transfer_code.specs.Encodings.{decode_body};
    ghost use Rattle.chat_card.specs.Parts.{Part};

    ghost Value = { Part };

    ghost view = { λ part. record { node = part.node; content = decode_body part.node.encoding part.encoded.now } };
}

impl<'a> Part<'a> {
    /// Its content, decoded (RFC 2045, section 6). Takes memory; `Err` only when it runs out.
    pub fn content(&self, alloc: Global) -> Result<Vec<u8>, Memory>
        ensures { IfOk result (λ content. content.items ≡ self.now.content) }
    {
        decode_body(alloc, self.node.encoding, self.encoded)
    }

    /// How many bytes its content has. Only quoted-printable takes memory; `Err` only when it runs out.
    pub fn content_len(&self, alloc: Global) -> Result<usize, Memory>
        ensures { IfOk result (λ len. len ≡ length self.now.content) }
    {
        decoded_len(alloc, self.node.encoding, self.encoded)
    }
}

/// The value of a parameter, or nothing.
pub fn param<'a>(kind: &'a ContentType, name: &[u8]) -> &'a [u8]
    ensures { result.now ≡ param kind.now name.now }
{
    match kind.param(name) {
        Some(value) => value.bytes(),
        None => b"",
    }
}

/// The content of a node in a body, as it is encoded.
fn encoded_in<'a>(body: &'a [u8], node: &PartNode) -> &'a [u8]
    requires { IsNodeWithin (length body.now) node.now }
    ensures { decode_body node.now.encoding result.now ≡ content_of body.now node.now }
{
    if node.leaf {
        &body[node.start..node.end]
    } else {
        b""
    }
}

/// The parts of a mail of this header and body, in preorder.
pub fn parts_of<'a>(alloc: Global, header: &Header, body: &'a [u8]) -> Result<Vec<Part<'a>>, Memory>
    ensures { IfOk result (λ found. found.items ≡ parts_of header.now body.now) }
{
    let mut nodes = parts(alloc, header, body)?.nodes;
    let mut found = Vec::new(alloc);
    while let Some(node) = nodes.pop() {
        let encoded = encoded_in(body, &node);
        found.push(Part { node, encoded })?;
    }
    found.reverse();
    Ok(found)
}
