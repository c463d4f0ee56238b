//! The cards of a turn: those of the mails that come, leave or are marked.
ghost use Rattle.std.specs.Prelude.{◌≡◌, ◌≤◌, ◌+◌, ◌++◌, ◌∷◌, ◌||◌, [], false, IfNone, IfSome, OnOk};
ghost use Rattle.std.specs.List.{list_any};
ghost use Rattle.std.specs.Option.{option_and_then, option_copied, option_or, option_to_list};
ghost use Rattle.std.specs.Str.{bytes_eq};
ghost use Rattle.card_type.specs.Effects.{is_among, names};
ghost use Rattle.mailbox_model.specs.Lists.{Bytes};
ghost use Rattle.mailbox_model.specs.Mailbox as model;
ghost use Rattle.mailbox_model.specs.Mailbox.{card_at};
ghost use Rattle.mailbox_model.specs.Turns.{IsTurn};
ghost use Rattle.touched_chats.specs.Suspects.{is_told, turned_uids};
ghost use Rattle.repair.specs.Turned.{AreTurned, NameOneMail};

use box_state::Mailbox;
use card_type::Card;
use effects::names;
use indexes::View;
use kit::{Id, Memory, Steps};
use mailbox_model::Turn;
use std::collections::BTreeSet;
use std::sync::ledger::Ledger;

/// The cards of the mails that come, leave or are marked by a turn: two at most.
#[derive(Drop)]
pub(crate) struct TurnedCards<'a> {
    pub(crate) first: Option<&'a Card>,
    pub(crate) second: Option<&'a Card>,
}

/// The uids of a turn: two at most.
fn uids_of(turn: &Turn) -> (Option<u32>, Option<u32>)
    ensures { option_to_list result.0 ++ option_to_list result.1 ≡ turned_uids turn.now }
{
    match turn {
        Turn::Nothing | Turn::Moved(_) => (None, None),
        Turn::Add(at) | Turn::Remove(at) => (Some(at.uid), None),
        Turn::Replace(from, to) => (Some(from.uid), Some(to.uid)),
        Turn::Marked(uid) => (Some(*uid), None),
    }
}

/// The card of a uid that may be missing, before or after a change.
fn card_of<'a, L: Ledger>(
    mailbox: &'a Mailbox,
    view: &'a View<'_>,
    uid: Option<u32>,
    steps: &mut Steps<L>,
) -> Option<&'a Card>
    ensures card { option_copied result ≡ option_and_then (λ u. option_or (card_at mailbox.now.mailbox u) (card_at view.now u)) uid }
    ensures cost { steps.new ≤ steps.old + 2 }
{
    let uid = uid?;
    match mailbox.card(uid, steps) {
        Some(card) => Some(card),
        None => view.card(uid, steps),
    }
}

/// The cards of the mails that come, leave or are marked by the turn of a mailbox to the one that is seen. Takes no memory,
/// and four steps at most.
pub(crate) fn turned_cards<'a, L: Ledger>(
    mailbox: &'a Mailbox,
    view: &'a View<'_>,
    turn: &Turn,
    steps: &mut Steps<L>,
) -> TurnedCards<'a>
    requires turn { IsTurn mailbox.now.mailbox view.now turn.now }
    requires uids { NameOneMail mailbox.now.mailbox view.now }
    ensures cards { AreTurned mailbox.now.mailbox view.now turn.now result }
    ensures cost { steps.new ≤ steps.old + 4 }
{
    mailbox.keeps_rules();
    view.keeps_rules();
    let (first, second) = uids_of(turn);
    TurnedCards {
        first: card_of(mailbox, view, first, steps),
        second: card_of(mailbox, view, second, steps),
    }
}

/// Puts a copy of an id into a set. Takes memory; `Err` only when it runs out.
pub(crate) fn note(id: &Id, ids: &mut BTreeSet<Id>) -> Result<(), Memory>
    ensures { OnOk result ((other : Bytes) → is_among ids.new.keys other ≡ (is_among ids.old.keys other || bytes_eq other id.now)) }
{
    ids.insert(id.copy()?)?;
    Ok(())
}

/// Takes one of the ids out: `None` exactly where there is none.
pub(crate) fn next_of(ids: &mut BTreeSet<Id>) -> Option<Id>
    ensures none { IfNone result (ids.old.keys ≡ []) }
    ensures some { IfSome result (λ id. ids.old.keys ≡ id ∷ ids.new.keys) }
    ensures once { IfSome result (λ id. is_among ids.new.keys id ≡ false) }
{
    ids.pop_first()
}

/// Puts in the id of a card that may be missing, and all that it names.
fn note_about(card: Option<&Card>, ids: &mut BTreeSet<Id>) -> Result<(), Memory>
    ensures { OnOk result ((id : Bytes) → is_among ids.new.keys id
        ≡ (is_among ids.old.keys id || list_any (λ c. is_among (c.id ∷ names c) id) (option_to_list (option_copied card.entry)))) }
{
    let Some(told) = card else {
        return Ok(());
    };
    note(&told.id, ids)?;
    for id in names(told) {
        note(id, ids)?;
    }
    Ok(())
}

/// Puts in the ids of these cards, and all that they name. Takes memory; `Err` only when it runs out, and after it the set
/// may only be dropped.
pub(crate) fn note_told(cards: &TurnedCards<'_>, ids: &mut BTreeSet<Id>) -> Result<(), Memory>
    ensures { OnOk result ((m n : model.Mailbox) (turn : Turn) → AreTurned m n turn cards.now
        → (id : Bytes) → is_among ids.new.keys id ≡ (is_among ids.old.keys id || is_told m n turn id)) }
{
    note_about(cards.first, ids)?;
    note_about(cards.second, ids)
}
