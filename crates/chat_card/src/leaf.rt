//! What the leaves of a mail are: texts that are shown, and files.
ghost use Rattle.std.specs.Prelude.{◌≡◌, option_map};
ghost use Rattle.chat_card.specs.Shown.{is_any_text, is_inline, is_text, leaf_beside, leaf_of};
ghost use Rattle.chat_card.specs.Views.{kept};

use crate::part::Part;
use mime_parts::{PartNode, is_kind};

/// A part that is kept.
#[derive(Clone, Copy, Debug)]
pub enum Kept<'p, 'a> {
    /// Its content is shown as a text.
    Text(&'p Part<'a>),
    /// It is a file.
    File(&'p Part<'a>),
}

/// Whether a part has no file name, and its disposition does not say that it is an attachment (RFC 2183).
fn is_inline(node: &PartNode) -> bool
    ensures { result ≡ is_inline node.now }
{
    node.name.bytes().is_empty() && !node.attach
}

/// Whether a part is a text that is shown.
pub fn is_text(node: &PartNode) -> bool
    ensures { result ≡ is_text node.now }
{
    node.leaf && is_kind(b"text", b"plain", &node.kind) && is_inline(node)
}

/// Whether a part is a text of any type.
fn is_any_text(node: &PartNode) -> bool
    ensures { result ≡ is_any_text node.now }
{
    node.kind.top.bytes() == b"text".as_slice() && is_inline(node)
}

/// What a leaf is.
pub fn leaf_of<'p, 'a>(part: &'p Part<'a>) -> Option<Kept<'p, 'a>>
    ensures { option_map kept result ≡ leaf_of part.now }
{
    if !part.node.leaf {
        None
    } else if is_text(&part.node) {
        Some(Kept::Text(part))
    } else {
        Some(Kept::File(part))
    }
}

/// What a leaf is beside an alternative that was chosen.
pub fn leaf_beside<'p, 'a>(part: &'p Part<'a>) -> Option<Kept<'p, 'a>>
    ensures { option_map kept result ≡ leaf_beside part.now }
{
    if !part.node.leaf || is_any_text(&part.node) {
        None
    } else {
        Some(Kept::File(part))
    }
}
