//! A card that comes into the indexes, or leaves them.
ghost use Rattle.std.specs.Prelude.{◌≡◌, List, true, false, IfOk, OnOk};
ghost use Rattle.std.specs.List.{IsDistinct};
ghost use Rattle.std.specs.List.Sorted.{IsStrictlySortedBy};
ghost use Rattle.card_type.specs.Kinds.{is_content, kind_of};
ghost use Rattle.mailbox_model.specs.Chats.{is_id_among};
ghost use Rattle.mailbox_model.specs.Lists.{Bytes};
ghost use Rattle.mailbox_model.specs.Present.{Mail, mail_cmp, same_id, spot as place_of};
ghost use Rattle.mailbox_model.specs.Turns.{with_mail};
ghost use Rattle.indexes.specs.Kept.{AreCounted, AreOf};
ghost use Rattle.indexes.specs.Moves.{IsTold};

use crate::indexes::Indexes;
use card_type::{Card, Kind, Spot, kind_of};
use kit::{Addr, Memory};
use mailbox_model::Moved;
use std::alloc::Global;
use thread_links::cites_of;

impl Indexes {
    /// Adds a card at a spot to the links, the effects and the contacts. Answers, in mail order, each card whose chat is
    /// another one than before. Takes memory; `Err` only when it runs out, and then the indexes may only be dropped.
    ///
    /// - `cards`: where these are of some mails, they are of those and the mail of this card.
    /// - `told`: each move tells the chat before, and a card of which no move is told is in the same chat.
    /// - `rest`: nothing else changes.
    pub fn add_card(
        &mut self,
        alloc: Global,
        spot: &Spot,
        card: &Card,
        me: &Addr,
    ) -> Result<Vec<Moved>, Memory>
        requires whole { self.old.links.whole ≡ true }
        requires absent { is_content (kind_of card.now) ≡ true → is_id_among self.old.links.cites spot.now.id ≡ false }
        ensures cards { OnOk result ((t : Mail) (ts : List Mail) → place_of t.placed ≡ spot.now → t.placed.card ≡ card.now
            → IsStrictlySortedBy mail_cmp (with_mail t ts) → AreCounted (with_mail t ts)
            → AreOf me.now ts self.old → AreOf me.now (with_mail t ts) self.new) }
        ensures told { IfOk result (λ moved. IsTold moved.items self.old.links.cites self.new.links.cites) }
        ensures rest { OnOk result (self.new ≡ record self.old { links = self.new.links; effects = self.new.effects; contacts = self.new.contacts }) }
    {
        self.effects.add(spot, card)?;
        self.contacts.add(spot, card)?;
        if kind_of(card) != Kind::Content {
            return Ok(Vec::new(alloc));
        }
        let cites = cites_of(alloc, spot, card, me)?;
        let moved = self.links.add(cites)?;
        Ok(moved)
    }

    /// Removes the card at a spot from the links, the effects and the contacts. Answers, in mail order, each card whose chat
    /// is another one than before. Takes memory; `Err` only when it runs out, and then the indexes may only be dropped.
    ///
    /// - `cards`: where these are of some mails with the mail of this card, they are of the others.
    /// - `told`: each move tells the chat before, and a card of which no move is told is in the same chat.
    /// - `rest`: nothing else changes.
    pub fn remove_card(
        &mut self,
        alloc: Global,
        spot: &Spot,
        card: &Card,
    ) -> Result<Vec<Moved>, Memory>
        requires whole { self.old.links.whole ≡ true }
        requires there { is_content (kind_of card.now) ≡ true → is_id_among self.old.links.cites spot.now.id ≡ true }
        ensures cards { OnOk result ((me : Bytes) (t : Mail) (ts : List Mail) → place_of t.placed ≡ spot.now → t.placed.card ≡ card.now
            → IsStrictlySortedBy mail_cmp (with_mail t ts) → IsDistinct same_id (with_mail t ts)
            → AreOf me (with_mail t ts) self.old → AreOf me ts self.new) }
        ensures told { IfOk result (λ moved. IsTold moved.items self.old.links.cites self.new.links.cites) }
        ensures rest { OnOk result (self.new ≡ record self.old { links = self.new.links; effects = self.new.effects; contacts = self.new.contacts }) }
    {
        self.effects.remove(spot, card);
        self.contacts.remove(spot, card);
        if kind_of(card) != Kind::Content {
            return Ok(Vec::new(alloc));
        }
        let moved = self.links.remove(&spot.id)?;
        Ok(moved)
    }
}
