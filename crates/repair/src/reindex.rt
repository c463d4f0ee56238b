//! The links, the effects and the contacts brought to those of the mailbox after a turn.
ghost use Rattle.std.specs.Prelude.{◌≡◌, ◌≤◌, ◌+◌, List, IfOk, OnOk};
ghost use Rattle.mailbox_model.specs.declared.links.Cites.{Cites};
ghost use Rattle.mailbox_model.specs.Chats.{chat};
ghost use Rattle.mailbox_model.specs.Lists.{Bytes};
ghost use Rattle.mailbox_model.specs.Present.{Mail, present};
ghost use Rattle.mailbox_model.specs.Turns.{IsTurn};
ghost use Rattle.indexes.specs.Kept.{AreOf};
ghost use Rattle.repair.specs.Moves.{chat_before, LeadBack};
ghost use Rattle.repair.specs.Reindexed.{IsOneOf};

use crate::moves::Moves;
use box_state::Mailbox;
use card_type::Spot;
use indexes::{Indexes, View};
use kit::{Memory, Steps};
use mailbox_model::Turn;
use std::alloc::Global;
use std::sync::ledger::Ledger;

/// Takes the card at a spot out of indexes that are those of a mailbox, and notes the moves.
///
/// - `cards`: they are those of the others, whichever one of the present mails is at the spot.
/// - `before`: the moves that are noted lead back to the same chats.
/// - `rest`: nothing else changes.
fn leave<L: Ledger>(
    alloc: Global,
    mailbox: &Mailbox,
    at: &Spot,
    indexes: &mut Indexes,
    moves: &mut Moves,
    steps: &mut Steps<L>,
) -> Result<(), Memory>
    requires kept { AreOf mailbox.now.mailbox.me (present mailbox.now.mailbox) indexes.old }
    requires there { (t : Mail) × (others : List Mail) × IsOneOf at.now t others (present mailbox.now.mailbox) }
    ensures cards { OnOk result ((t : Mail) (others : List Mail) → IsOneOf at.now t others (present mailbox.now.mailbox)
        → AreOf mailbox.now.mailbox.me others indexes.new) }
    ensures before { OnOk result ((first : List Cites) → LeadBack moves.old indexes.old.links.cites first
        → LeadBack moves.new indexes.new.links.cites first) }
    ensures rest { OnOk result (indexes.new ≡ record indexes.old { links = indexes.new.links; effects = indexes.new.effects; contacts = indexes.new.contacts }) }
    ensures cost { steps.new ≤ steps.old + 1 }
{
    mailbox.keeps_rules();
    let card = mailbox.card(at.uid, steps).unwrap();
    let moved = indexes.remove_card(alloc, at, card)?;
    moves.note(moved)
}

/// Puts the card at a spot into indexes that are those of the other mails, and notes the moves.
///
/// - `cards`: they are those of the mailbox that is seen.
/// - `before`: the moves that are noted lead back to the same chats.
/// - `rest`: nothing else changes.
fn come<L: Ledger>(
    alloc: Global,
    view: &View<'_>,
    at: &Spot,
    indexes: &mut Indexes,
    moves: &mut Moves,
    steps: &mut Steps<L>,
) -> Result<(), Memory>
    requires others { (t : Mail) × (others : List Mail) × IsOneOf at.now t others (present view.now) × AreOf view.now.me others indexes.old }
    ensures cards { OnOk result (AreOf view.now.me (present view.now) indexes.new) }
    ensures before { OnOk result ((first : List Cites) → LeadBack moves.old indexes.old.links.cites first
        → LeadBack moves.new indexes.new.links.cites first) }
    ensures rest { OnOk result (indexes.new ≡ record indexes.old { links = indexes.new.links; effects = indexes.new.effects; contacts = indexes.new.contacts }) }
    ensures cost { steps.new ≤ steps.old + 1 }
{
    let me = view.me();
    let card = view.card(at.uid, steps).unwrap();
    let moved = indexes.add_card(alloc, at, card, me)?;
    moves.note(moved)
}

/// Takes out the card that a turn takes out and puts in the one that it puts in, and notes the moves.
///
/// - `cards`: where the indexes are those of a mailbox, they are those of the mailbox that is seen.
/// - `before`: the moves that are noted lead back to the same chats.
/// - `rest`: nothing else changes.
fn follow<L: Ledger>(
    alloc: Global,
    mailbox: &Mailbox,
    view: &View<'_>,
    turn: &Turn,
    indexes: &mut Indexes,
    moves: &mut Moves,
    steps: &mut Steps<L>,
) -> Result<(), Memory>
    requires kept { AreOf mailbox.now.mailbox.me (present mailbox.now.mailbox) indexes.old }
    requires turn { IsTurn mailbox.now.mailbox view.now turn.now }
    requires me { mailbox.now.mailbox.me ≡ view.now.me }
    ensures cards { OnOk result (AreOf view.now.me (present view.now) indexes.new) }
    ensures before { OnOk result ((first : List Cites) → LeadBack moves.old indexes.old.links.cites first
        → LeadBack moves.new indexes.new.links.cites first) }
    ensures rest { OnOk result (indexes.new ≡ record indexes.old { links = indexes.new.links; effects = indexes.new.effects; contacts = indexes.new.contacts }) }
    ensures cost { steps.new ≤ steps.old + 2 }
{
    match turn {
        Turn::Add(at) => come(alloc, view, at, indexes, moves, steps),
        Turn::Remove(at) => leave(alloc, mailbox, at, indexes, moves, steps),
        Turn::Replace(from, to) => {
            leave(alloc, mailbox, from, indexes, moves, steps)?;
            come(alloc, view, to, indexes, moves, steps)
        }
        Turn::Nothing | Turn::Marked(_) | Turn::Moved(_) => Ok(()),
    }
}

/// Brings the links, the effects and the contacts to those of the mailbox after a turn, and answers the moves. Reads the
/// card that leaves and the one that comes. Takes memory; `Err` only when it runs out, and then the indexes may only be
/// dropped.
///
/// - `cards`: they are those of the mailbox that is seen.
/// - `before`: the moves tell the chat of each card before the turn.
/// - `rest`: nothing else changes.
pub(crate) fn reindex<L: Ledger>(
    alloc: Global,
    mailbox: &Mailbox,
    view: &View<'_>,
    turn: &Turn,
    indexes: &mut Indexes,
    steps: &mut Steps<L>,
) -> Result<Moves, Memory>
    requires kept { AreOf mailbox.now.mailbox.me (present mailbox.now.mailbox) indexes.old }
    requires turn { IsTurn mailbox.now.mailbox view.now turn.now }
    requires me { mailbox.now.mailbox.me ≡ view.now.me }
    ensures cards { OnOk result (AreOf view.now.me (present view.now) indexes.new) }
    ensures before { IfOk result (λ moves. (id : Bytes) → chat_before moves indexes.new.links.cites id ≡ chat mailbox.now.mailbox id) }
    ensures rest { OnOk result (indexes.new ≡ record indexes.old { links = indexes.new.links; effects = indexes.new.effects; contacts = indexes.new.contacts }) }
    ensures cost { steps.new ≤ steps.old + 2 }
{
    let mut moves = Moves::new(alloc);
    follow(alloc, mailbox, view, turn, indexes, &mut moves, steps)?;
    Ok(moves)
}
