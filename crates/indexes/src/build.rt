//! Building the indexes of a mailbox.
ghost use Rattle.std.specs.Prelude.{◌≡◌, ◌≤◌, ◌<◌, ◌+◌, ◌++◌, ◌∷◌, [], ℕ, ◌==◌, ◌&&◌, if◌then◌else◌, List, Option, Some, None, true, false, is_some, length, map, find, option_map, IfOk, OnOk};
ghost use Rattle.std.specs.FinMap as map_of;
ghost use Rattle.card_type.specs.Kinds.{is_content, kind_of};
ghost use Rattle.card_type.specs.Keys.{key_eq};
ghost use Rattle.card_type.specs.declared.key.ChatKey.{ChatKey};
ghost use Rattle.chat_view.specs.declared.state.ChatState.{ChatState};
ghost use Rattle.chat_view.specs.Standing.{shown, state_of};
ghost use Rattle.mailbox_model.specs.Chats.{chat};
ghost use Rattle.mailbox_model.specs.Present.{Mail, contents, mail_at, present, spot};
ghost use Rattle.mailbox_model.specs.Rows.{expiry, row};
ghost use Rattle.mailbox_model.specs.States.{Shown};
ghost use Rattle.mailbox_model.specs.Turns.{is_mail};
ghost use Rattle.touched_chats.specs.Costs.{build_reads};
ghost use Rattle.indexes.specs.Costs.{load, pairs, times_named};
ghost use Rattle.indexes.specs.Kept.{AreDated, AreDeadlines, AreKept, AreOf, AreStates, deadline_at, spot_at};

use crate::indexes::Indexes;
use crate::present::present_spots;
use crate::rows::shown_at;
use crate::view::View;
use box_state::Mailbox;
use card_type::{Card, ChatKey, KeyMap, Spot};
use chat_view::{ChatState, Mark};
use chatlist::ChatList;
use kit::{Addr, Memory, Steps};
use std::alloc::Global;
use std::collections::BTreeSet;
use std::sync::ledger::Ledger;
use timers::Timers;

impl Indexes {
    /// The indexes of a mailbox, built in one pass over its cards in mail order, and one over what is shown of them. Takes
    /// memory; `Err` only when it runs out.
    ///
    /// - `cost`: each present card is read once, and each of a chat once more, with the cards that name it.
    /// - `load`: so kept cards are read no more often than the load of the mailbox says.
    pub fn build<L: Ledger>(
        alloc: Global,
        mailbox: &Mailbox,
        steps: &mut Steps<L>,
    ) -> Result<Self, Memory>
        ensures kept { IfOk result (AreKept mailbox.now.mailbox) }
        ensures cost { steps.new ≤ steps.old + build_reads mailbox.now.mailbox }
        ensures load { steps.new ≤ steps.old + load mailbox.now.mailbox }
    {
        let spots = present_spots(alloc, mailbox)?;
        let mut indexes = Indexes::new(alloc);
        indexes.add_cards(alloc, mailbox, &spots, steps)?;
        indexes.add_rows(alloc, mailbox, &spots, steps)?;
        indexes.order = order_of(alloc, &indexes.chats)?;
        Ok(indexes)
    }

    /// Adds the present cards, at these spots, to the links, the effects and the contacts.
    fn add_cards<L: Ledger>(
        &mut self,
        alloc: Global,
        mailbox: &Mailbox,
        spots: &BTreeSet<Spot>,
        steps: &mut Steps<L>,
    ) -> Result<(), Memory>
        requires spots { spots.now.keys ≡ map (λ t. spot t.placed) (present mailbox.now.mailbox) }
        requires none { AreOf mailbox.now.mailbox.me [] self.old }
        ensures cards { OnOk result (AreOf mailbox.now.mailbox.me (present mailbox.now.mailbox) self.new) }
        ensures rest { OnOk result (self.new ≡ record self.old { links = self.new.links; effects = self.new.effects; contacts = self.new.contacts }) }
        ensures cost { steps.new ≤ steps.old + length (present mailbox.now.mailbox) }
    {
        let me = mailbox.me();
        for spot in spots {
            let card = mailbox.card(spot.uid, steps).unwrap();
            self.add_card(alloc, spot, card, me)?;
        }
        Ok(())
    }

    /// Adds what is shown of the present cards, at these spots, to the states of their chats and to the deadlines.
    fn add_rows<L: Ledger>(
        &mut self,
        alloc: Global,
        mailbox: &Mailbox,
        spots: &BTreeSet<Spot>,
        steps: &mut Steps<L>,
    ) -> Result<(), Memory>
        requires spots { spots.now.keys ≡ map (λ t. spot t.placed) (present mailbox.now.mailbox) }
        requires cards { AreOf mailbox.now.mailbox.me (present mailbox.now.mailbox) self.old }
        requires no_states { AreStates mailbox.now.mailbox [] self.old.chats }
        requires no_deadlines { AreDeadlines mailbox.now.mailbox [] self.old.timers }
        ensures states { OnOk result (AreStates mailbox.now.mailbox (present mailbox.now.mailbox) self.new.chats) }
        ensures deadlines { OnOk result (AreDeadlines mailbox.now.mailbox (present mailbox.now.mailbox) self.new.timers) }
        ensures rest { OnOk result (self.new ≡ record self.old { chats = self.new.chats; timers = self.new.timers }) }
        ensures cost { steps.new ≤ steps.old + (length (contents mailbox.now.mailbox) + pairs mailbox.now.mailbox (contents mailbox.now.mailbox)) }
    {
        mailbox.keeps_rules();
        for spot in spots {
            if let Some(key) = self.links.chat_of(&spot.id) {
                let key = key.copy()?;
                self.add_row(alloc, mailbox, key, spot, steps)?;
            }
        }
        Ok(())
    }

    /// Adds what is shown of the card at a spot to the state of its chat and to the deadlines.
    ///
    /// - `states`: where the states are those of some mails, they are those of these and the one of this card.
    /// - `deadlines`: so are the deadlines, where no such mail has the uid.
    /// - `rest`: nothing else changes.
    fn add_row<L: Ledger>(
        &mut self,
        alloc: Global,
        mailbox: &Mailbox,
        key: ChatKey,
        spot: &Spot,
        steps: &mut Steps<L>,
    ) -> Result<(), Memory>
        requires cards { AreOf mailbox.now.mailbox.me (present mailbox.now.mailbox) self.old }
        requires there { spot_at mailbox.now.mailbox spot.now.uid ≡ Some spot.now }
        requires room { (state : ChatState) → map_of.get self.old.chats key ≡ Some state → length state.spots < 65536 }
        ensures states { OnOk result ((t : Mail) (ts : List Mail) → mail_at mailbox.now.mailbox spot.now.uid ≡ Some t
            → is_content (kind_of t.placed.card) ≡ true → chat mailbox.now.mailbox t.placed.card.id ≡ Some key
            → AreStates mailbox.now.mailbox ts self.old.chats → AreStates mailbox.now.mailbox (ts ++ t ∷ []) self.new.chats) }
        ensures deadlines { OnOk result ((t : Mail) (ts : List Mail) → mail_at mailbox.now.mailbox spot.now.uid ≡ Some t
            → is_content (kind_of t.placed.card) ≡ true → is_some (find (is_mail spot.now.uid) ts) ≡ false
            → AreDeadlines mailbox.now.mailbox ts self.old.timers → AreDeadlines mailbox.now.mailbox (ts ++ t ∷ []) self.new.timers) }
        ensures rest { OnOk result (self.new ≡ record self.old { chats = self.new.chats; timers = self.new.timers }) }
        ensures cost { steps.new ≤ steps.old + (1 + times_named mailbox.now.mailbox spot.now.id) }
    {
        let me = mailbox.me();
        let card = mailbox.card(spot.uid, steps).unwrap();
        let shown = shown_at(
            alloc,
            &View::as_is(mailbox),
            &self.effects,
            spot,
            card,
            steps,
        )?;
        set_deadline(&mut self.timers, spot.uid, shown.deadline)?;
        add_to_state(alloc, &mut self.chats, key, spot, card, shown.mark, me)
    }
}

/// Sets the deadline of a card, where it has one, and leaves all as it is where not. Takes memory; `Err` only when it runs
/// out, and then the deadlines may only be dropped.
pub fn set_deadline(timers: &mut Timers, uid: u32, deadline: Option<u64>) -> Result<(), Memory>
    ensures { OnOk result ((other : ℕ) → deadline_at timers.new other
        ≡ (if uid == other && is_some deadline then deadline else deadline_at timers.old other)) }
{
    match deadline {
        Some(deadline) => timers.put(uid, deadline),
        None => Ok(()),
    }
}

/// Adds a card with the mark of its row to the state of its chat.
///
/// - `kept`: where the state is that of some cards, it is that of those and this one.
/// - `begun`: where there is none, it is that of this card alone.
/// - `others`: the other chats keep theirs.
fn add_to_state(
    alloc: Global,
    chats: &mut KeyMap<ChatState>,
    key: ChatKey,
    spot: &Spot,
    card: &Card,
    mark: Option<Mark>,
    me: &Addr,
) -> Result<(), Memory>
    requires room { (state : ChatState) → map_of.get chats.old key ≡ Some state → length state.spots < 65536 }
    ensures kept { OnOk result ((cards : List Shown) → map_of.get chats.old key ≡ Some (state_of me.now key cards)
        → map_of.get chats.new key ≡ Some (state_of me.now key (cards ++ shown spot.now card.now mark ∷ []))) }
    ensures begun { OnOk result (map_of.get chats.old key ≡ None
        → map_of.get chats.new key ≡ Some (state_of me.now key (shown spot.now card.now mark ∷ []))) }
    ensures others { OnOk result ((other : ChatKey) → key_eq key other ≡ false
        → map_of.get chats.new other ≡ map_of.get chats.old other) }
{
    let mut state = match chats.remove(&key) {
        Some(state) => state,
        None => ChatState::begin(alloc, key.copy()?, me)?,
    };
    state.add(alloc, spot, card, mark, me)?;
    let _none = chats.insert(key, state)?;
    Ok(())
}

/// The chats in the order of the list.
fn order_of(alloc: Global, chats: &KeyMap<ChatState>) -> Result<ChatList, Memory>
    ensures { IfOk result (AreDated chats.now) }
{
    let mut order = ChatList::new(alloc);
    for (key, state) in chats.iter() {
        order.set(key, state.last_date())?;
    }
    Ok(order)
}
