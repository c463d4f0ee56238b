//! What a mail says of the mail that it answers, as a reaction to it (RFC 9078).
ghost use Rattle.std.specs.Prelude.{◌≡◌, ◌<◌, IfOk, IfSome, IsTrue, OnOk, length, position};
ghost use Rattle.card_type.specs.Kinds.{has_some};
ghost use Rattle.card_type.specs.Rules.{is_short, where_some};
ghost use Rattle.chat_card.specs.Reactions.{is_reaction, is_reaction_node, reaction_in, reaction_text, read_parts};
ghost use Rattle.chat_card.specs.Shown.{shown};
ghost use Rattle.chat_card.specs.Texts.{card_text};

use crate::kept::kept_of;
use crate::line::one_line;
use crate::part::Part;
use crate::shown::{decoded_text, shown_text};
use crate::text::{card_text, prefix};
use card_type::MAX_REACTION_LEN;
use kit::{Id, Memory, Text};
use mime_parts::{PartNode, is_kind};
use std::alloc::Global;

/// Whether a part is a text whose disposition is that of a reaction, without a file name.
fn is_reaction(node: &PartNode) -> bool
    ensures { result ≡ is_reaction_node node.now }
{
    node.leaf
        && is_kind(b"text", b"plain", &node.kind)
        && node.name.bytes().is_empty()
        && node.reaction
}

fn reaction_index(parts: &[Part]) -> Option<usize>
    ensures index { result ≡ position is_reaction parts.now }
    ensures bound { IfSome result (λ at. at < length parts.now) }
{
    parts.iter().position(|part| is_reaction(&part.node))
}

/// Whether a mail of these parts, which edits another or none, has a text.
fn has_text(alloc: Global, edit: &Option<Id>, parts: &[Part]) -> Result<bool, Memory>
    ensures { IfOk result (λ has. has ≡ has_some (card_text edit.now (shown parts.now)).text) }
{
    let shown = shown_text(alloc, &kept_of(alloc, parts)?)?;
    let text = card_text(alloc, edit, &shown)?;
    Ok(!text.text.bytes().is_empty())
}

/// What a part says as a reaction: its words in one line, of at most 255 bytes.
fn reaction_text(alloc: Global, part: &Part) -> Result<Text, Memory>
    ensures value { IfOk result (λ text. text ≡ reaction_text part.now) }
    ensures short { IfOk result (λ text. IsTrue (is_short text)) }
{
    let text = decoded_text(alloc, part)?;
    let line = one_line(alloc, text.as_str())?;
    let kept = prefix(line.as_str(), MAX_REACTION_LEN);
    Ok(Text::from(String::from_str(alloc, kept)?))
}

/// Takes the reaction out of the parts of a mail, which answers another or none and edits another or none, and returns what
/// it says: `None`, and all parts stay, where the mail is no reaction.
pub fn take_reaction(
    alloc: Global,
    parts: &mut Vec<Part<'_>>,
    is_reply: bool,
    edit: &Option<Id>,
) -> Result<Option<Text>, Memory>
    ensures reaction { IfOk result (λ reaction. reaction ≡ reaction_in is_reply edit.now parts.old.items) }
    ensures parts { OnOk result (parts.new.items ≡ read_parts is_reply edit.now parts.old.items) }
    ensures short { IfOk result (λ reaction. IsTrue (where_some is_short reaction)) }
{
    if !is_reply {
        return Ok(None);
    }
    let Some(index) = reaction_index(parts) else {
        return Ok(None);
    };
    let part = parts.remove(index);
    if has_text(alloc, edit, parts)? {
        parts.insert(index, part)?;
        return Ok(None);
    }
    Ok(Some(reaction_text(alloc, &part)?))
}
