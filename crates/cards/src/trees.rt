//! The parts of a mail.
use crate::bodies::encoding_word;
use crate::shown::{add_count, add_quoted, is_shown};
use crate::types::add_kind;
use kit::Memory;
use mail_headers::read_header;
use mime_parts::{PartNode, parts};
use std::alloc::Global;
use transfer_code::{Encoding, decode_body};

/// Adds the parts of a mail, each indented by the parts that it is in.
pub fn add_tree(said: &mut Vec<u8>, alloc: Global, mail: &[u8]) -> Result<(), Memory> {
    let header = read_header(alloc, mail)?;
    let body = &mail[header.body_at()..];
    let tree = parts(alloc, &header, body)?;
    for (index, node) in tree.nodes.iter().enumerate() {
        if is_shown(index, tree.nodes.len()) {
            add_node(said, alloc, body, node)?;
        }
    }
    add_count(said, alloc, tree.nodes.len())
}

/// Adds a part: its type, its file name, whether it is an attachment or a reaction, and the content of one that has no
/// parts.
fn add_node(said: &mut Vec<u8>, alloc: Global, body: &[u8], node: &PartNode) -> Result<(), Memory> {
    add_indent(said, node.depth)?;
    add_kind(said, &node.kind)?;
    if !node.name.bytes().is_empty() {
        said.extend_from_slice(b" named ")?;
        add_quoted(said, alloc, node.name.bytes())?;
    }
    if node.attach {
        said.extend_from_slice(b" attached")?;
    }
    if node.reaction {
        said.extend_from_slice(b" reaction")?;
    }
    if node.leaf {
        add_content(said, alloc, body, node)?;
    }
    said.push(b'\n')?;
    Ok(())
}

fn add_indent(said: &mut Vec<u8>, depth: u32) -> Result<(), Memory> {
    for _ in 0..depth {
        said.extend_from_slice(b"  ")?;
    }
    Ok(())
}

/// Adds the content of a part and, where it is encoded, what it decodes to.
fn add_content(
    said: &mut Vec<u8>,
    alloc: Global,
    body: &[u8],
    node: &PartNode,
) -> Result<(), Memory> {
    let content = body.get(node.start..node.end).unwrap_or(b"out of the body");
    said.push(b' ')?;
    add_quoted(said, alloc, content)?;
    if node.encoding == Encoding::Plain {
        return Ok(());
    }
    said.push(b' ')?;
    said.extend_from_slice(encoding_word(node.encoding).as_bytes())?;
    said.push(b' ')?;
    add_quoted(said, alloc, &decode_body(alloc, node.encoding, content)?)
}
