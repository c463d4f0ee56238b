//! Which drafts are not written, and why.
ghost use Rattle.std.specs.Prelude.{◌≡◌, IfOk, None, OnOk};
ghost use Rattle.std.specs.List.{list_any};
ghost use Rattle.card_type.specs.Rules.{fits_weight, is_valid, keeps_bounds};
ghost use Rattle.chat_card.specs.Texts.{is_space};
ghost use Rattle.compose.specs.Intended.{intended};
ghost use Rattle.compose.specs.Refusals.{addresses, ends_in_space, has_bracket, is_fine_text, is_reaction_text, is_shown_text, lacks_group, lacks_target, named, refusal};

use crate::draft::{Act, Draft};
use crate::fault::DraftFault;
use crate::intended::intended;
use crate::line::is_one_line;
use card_type::{GroupId, MAX_REACTION_LEN, MAX_TEXT_LEN, fits_weight};
use flowed_text::user_text;
use kit::{Addr, Id, Memory, Text};
use std::alloc::Global;

/// Whether an act names no group, where it needs one.
fn lacks_group(act: &Act, group: &Option<GroupId>) -> bool
    ensures { result ≡ lacks_group act.now group.now }
{
    match act {
        Act::Add(_) | Act::Remove(_) | Act::Rename(_) => group.is_none(),
        _ => false,
    }
}

/// Whether an act names no mail that it is about, where it needs one.
fn lacks_target(act: &Act, reply: &Option<Id>) -> bool
    ensures { result ≡ lacks_target act.now reply.now }
{
    match act {
        Act::Delete(mails) => mails.is_empty(),
        Act::React => reply.is_none(),
        _ => false,
    }
}

fn has_bracket(addr: &Addr) -> bool
    ensures { result ≡ has_bracket addr.now }
{
    addr.bytes().iter().any(|b| *b == b'[' || *b == b']')
}

fn have_bracket(addrs: &[Addr]) -> bool
    ensures { result ≡ list_any has_bracket addrs.now }
{
    addrs.iter().any(has_bracket)
}

/// Whether the address that an act names has a bracket, if it names one.
fn names_bracket(act: &Act) -> bool
    ensures { result ≡ list_any has_bracket (named act.now) }
{
    match act {
        Act::Add(who) => has_bracket(who),
        Act::Remove(who) => has_bracket(who),
        _ => false,
    }
}

fn has_brackets(draft: &Draft) -> bool
    ensures { result ≡ list_any has_bracket (addresses draft.now) }
{
    has_bracket(&draft.from) || have_bracket(draft.to.as_slice()) || names_bracket(&draft.act)
}

fn is_space(byte: u8) -> bool
    ensures { result ≡ is_space byte }
{
    matches!(byte, b' ' | b'\t' | b'\r' | b'\n')
}

fn ends_in_space(text: &[u8]) -> bool
    ensures { result ≡ ends_in_space text.now }
{
    match text.last() {
        Some(last) => is_space(*last),
        None => false,
    }
}

/// Whether a text is shown as it is.
fn is_shown_text(alloc: Global, text: &Text) -> Result<bool, Memory>
    ensures { IfOk result (λ shown. shown ≡ is_shown_text text.now) }
{
    if text.bytes().len() > MAX_TEXT_LEN || ends_in_space(text.bytes()) {
        return Ok(false);
    }
    Ok(user_text(alloc, text)? == *text)
}

/// Whether a reaction is said as it is.
fn is_reaction_text(text: &Text) -> bool
    ensures { result ≡ is_reaction_text text.now }
{
    text.bytes().len() <= MAX_REACTION_LEN && is_one_line(text.as_str())
}

fn is_fine_text(alloc: Global, act: &Act, text: &Text) -> Result<bool, Memory>
    ensures { IfOk result (λ fine. fine ≡ is_fine_text act.now text.now) }
{
    match act {
        Act::React => Ok(is_reaction_text(text)),
        _ => is_shown_text(alloc, text),
    }
}

/// Whether the card of a draft is not too heavy.
///
/// By the clause `types` that card keeps its rules where it keeps those that the types of its values leave open.
fn fits(alloc: Global, draft: &Draft) -> Result<bool, Memory>
    ensures value { IfOk result (λ fits. fits ≡ fits_weight (intended draft.now)) }
    ensures types { OnOk result (is_valid (intended draft.now) ≡ keeps_bounds (intended draft.now)) }
{
    let card = intended(alloc, draft)?;
    Ok(fits_weight(&card))
}

/// Why a draft is not written, if it is not: the first cause that applies. Takes memory; `Err` only when it runs out.
///
/// By the clause `types` the card of a draft that is written keeps its rules where it keeps those that the types of its
/// values leave open.
pub fn refusal(alloc: Global, draft: &Draft) -> Result<Option<DraftFault>, Memory>
    ensures value { IfOk result (λ why. why ≡ refusal draft.now) }
    ensures types { IfOk result (λ why. why ≡ None → is_valid (intended draft.now) ≡ keeps_bounds (intended draft.now)) }
{
    if draft.to.is_empty() {
        return Ok(Some(DraftFault::NoTo));
    }
    if lacks_group(&draft.act, &draft.group) {
        return Ok(Some(DraftFault::NoGroup));
    }
    if lacks_target(&draft.act, &draft.reply) {
        return Ok(Some(DraftFault::NoTarget));
    }
    if has_brackets(draft) {
        return Ok(Some(DraftFault::BadAddr));
    }
    if !is_fine_text(alloc, &draft.act, &draft.text)? {
        return Ok(Some(DraftFault::BadText));
    }
    if !fits(alloc, draft)? {
        return Ok(Some(DraftFault::CardTooLong));
    }
    Ok(None)
}
