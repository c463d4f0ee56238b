//! Which parts of a mail are kept, as texts and as files.
ghost use Rattle.std.specs.Prelude.{◌≡◌, ◌||◌, [], ◌∷◌, IfNone, IfOk, IfSome, OnOk, map, nat_lt, reverse, take_while};
ghost use Rattle.std.specs.List.{list_any};
ghost use Rattle.chat_card.specs.Shown.{is_text, kept_of};
ghost use Rattle.chat_card.specs.Views.{kept};
ghost use Rattle.chat_card.specs.Walks.{closed, entered, is_whole, turned, way_of};

use crate::leaf::{Kept, is_text};
use crate::part::Part;
use crate::way::{Way, own, way_within};
use kit::Memory;
use mime_parts::PartNode;
use std::alloc::Global;

/// A part whose parts are being read.
#[derive(Clone, Copy, Debug, PartialEq, Eq)]
struct Parent {
    depth: u32,
    /// The way of the next of its parts.
    way: Way,
}

/// Whether a text is shown in a part at a depth, which these parts follow.
fn shows_text(depth: u32, more: &[Part]) -> bool
    ensures { result ≡ list_any (λ p. is_text p.node) (take_while (λ p. nat_lt depth p.node.depth) more.now) }
{
    more.iter()
        .take_while(|part| depth < part.node.depth)
        .any(|part| is_text(&part.node))
}

/// Takes the innermost parent of a part at a depth off the parents, and those that the part is not in.
fn pop_parent(parents: &mut Vec<Parent>, depth: u32) -> Option<Parent>
    ensures some { IfSome result (λ parent. closed depth (reverse parents.old.items) ≡ parent ∷ reverse parents.new.items) }
    ensures none { IfNone result (closed depth (reverse parents.old.items) ≡ []) }
    ensures empty { IfNone result (parents.new.items ≡ []) }
{
    while let Some(parent) = parents.pop() {
        if parent.depth < depth {
            return Some(parent);
        }
    }
    None
}

/// Notes in the innermost parent of a part at a depth whether the part has a text to show, and says whether the part is
/// kept whole.
fn turn(parents: &mut Vec<Parent>, depth: u32, has_text: bool) -> Result<bool, Memory>
    ensures whole { IfOk result (λ whole. whole ≡ is_whole (way_of (closed depth (reverse parents.old.items))) has_text) }
    ensures parents { OnOk result (reverse parents.new.items ≡ turned has_text (closed depth (reverse parents.old.items))) }
{
    let Some(Parent { depth, way }) = pop_parent(parents, depth) else {
        return Ok(true);
    };
    parents.push(Parent {
        depth,
        way: way.after(has_text),
    })?;
    Ok(way.keeps_whole(has_text))
}

/// Makes a part the innermost parent, in which a text is shown or none, and says whether it is kept whole.
fn enter(parents: &mut Vec<Parent>, node: &PartNode, below: bool) -> Result<bool, Memory>
    ensures whole { IfOk result (λ whole. whole ≡ is_whole (way_of (closed node.now.depth (reverse parents.old.items))) (is_text node.now || below)) }
    ensures parents { OnOk result (reverse parents.new.items ≡ entered node.now below (reverse parents.old.items)) }
{
    let has_text = is_text(node) || below;
    let whole = turn(parents, node.depth, has_text)?;
    parents.push(Parent {
        depth: node.depth,
        way: way_within(whole, &node.kind, below),
    })?;
    Ok(whole)
}

/// What is kept of parts in preorder.
pub fn kept_of<'p, 'a>(alloc: Global, parts: &'p [Part<'a>]) -> Result<Vec<Kept<'p, 'a>>, Memory>
    ensures { IfOk result (λ found. map kept found.items ≡ kept_of parts.now) }
{
    let mut found = Vec::new(alloc);
    let mut parents = Vec::new(alloc);
    for (i, part) in parts.iter().enumerate() {
        let below = shows_text(part.node.depth, &parts[i + 1..]);
        let whole = enter(&mut parents, &part.node, below)?;
        if let Some(kept) = own(whole, part) {
            found.push(kept)?;
        }
    }
    Ok(found)
}
