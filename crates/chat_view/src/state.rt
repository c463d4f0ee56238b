//! What is kept of a chat while its cards are added, one after the other.
ghost use Rattle.std.specs.Prelude.{◌≡◌, ◌<◌, ◌-◌, [], ◌∷◌, ◌++◌, List, Some, IfOk, OnOk, length, is_some, if◌then◌else◌, suc, false};
ghost use Rattle.std.specs.Option.{option_map_or};
ghost use Rattle.mailbox_model.specs.Rows.{is_new};
ghost use Rattle.mailbox_model.specs.States.{Shown};
ghost use Rattle.chat_view.specs.Changes.{AreFew};
ghost use Rattle.chat_view.specs.Standing.{StandsFor, last_date, shown};

use card_type::{Card, ChatKey, Spot};
use group_roster::{Setters, add_at, begin};
use kit::{Addr, Memory, Text};
use lists::{ChunkedList, Items};
use mailbox_model::{Mark, Roster};
use std::alloc::Global;

/// What the page of a chat and its row in the list follow from, beside the rows.
#[derive(Debug, Drop)]
pub struct ChatState {
    /// The key of the chat.
    pub key: ChatKey,
    /// The spots of its cards, in mail order.
    pub spots: ChunkedList<Spot>,
    /// The marks of the rows of its cards, in mail order; `None` where a card is not shown.
    pub marks: ChunkedList<Option<Mark>>,
    /// Who is in it, how it is called, and when its mails vanish.
    pub roster: Roster,
    /// The cards on which the roster rests.
    pub setters: Setters,
    /// The spot of the last card that is shown; `None` where none is.
    pub last: Option<Spot>,
    /// How many shown cards are received and unseen.
    pub fresh: u32,
}

/// Puts the spot of a card in place of that of the last card that is shown, where it is shown.
fn renew_last(last: &mut Option<Spot>, spot: &Spot, mark: Option<Mark>) -> Result<(), Memory>
    ensures { OnOk result (last.new ≡ (if is_some mark then Some spot.now else last.old)) }
{
    if mark.is_some() {
        *last = Some(spot.copy()?);
    }
    Ok(())
}

/// How many cards are fresh with one more. The number never comes near what a `u32` holds, since no more are fresh than
/// there are.
pub(crate) fn fresh_with(fresh: u32, mark: Option<Mark>) -> u32
    ensures { fresh < 4294967295 → result ≡ (if option_map_or is_new mark false then suc fresh else fresh) }
{
    if mark == Some(Mark::New) {
        fresh.saturating_add(1)
    } else {
        fresh
    }
}

/// How many cards are fresh with one less.
pub(crate) fn fresh_without(fresh: u32, mark: Option<Mark>) -> u32
    ensures { result ≡ (if option_map_or is_new mark false then fresh - 1 else fresh) }
{
    if mark == Some(Mark::New) {
        fresh.saturating_sub(1)
    } else {
        fresh
    }
}

impl ChatState {
    /// The state of a chat that has no card yet, where `me` is the own address. Takes memory; `Err` only when it runs
    /// out.
    ///
    /// - `key`: it has this key.
    /// - `stands`: it stands for no card.
    pub fn begin(alloc: Global, key: ChatKey, me: &Addr) -> Result<Self, Memory>
        ensures key { IfOk result (λ state. state.key ≡ key) }
        ensures stands { IfOk result (StandsFor me.now []) }
    {
        let roster = begin(alloc, &key, me)?;
        Ok(ChatState {
            key,
            spots: ChunkedList::new(alloc),
            marks: ChunkedList::new(alloc),
            roster,
            setters: Setters::new(alloc),
            last: None,
            fresh: 0,
        })
    }

    /// A state of no chat, which stands in for another one. Takes no memory.
    pub fn empty(alloc: Global) -> Self
        ensures { result.spots ≡ [] }
    {
        ChatState {
            key: ChatKey::SelfChat,
            spots: ChunkedList::new(alloc),
            marks: ChunkedList::new(alloc),
            roster: Roster {
                begun: false,
                members: Items::new(alloc),
                name: Text::from(String::new(alloc)),
                timer: 0,
            },
            setters: Setters::new(alloc),
            last: None,
            fresh: 0,
        }
    }

    /// The date of the last row that is shown, in seconds since 1970-01-01 00:00:00 UTC; `None` where none is. Takes no
    /// memory.
    pub fn last_date(&self) -> Option<u64>
        ensures { result ≡ last_date self.now }
    {
        match &self.last {
            Some(spot) => Some(spot.date),
            None => None,
        }
    }

    /// Adds the next card of the chat in mail order, with the mark of its row, and `None` where it is not shown; the own
    /// address is that with which the state was begun. Takes memory; `Err` only when it runs out, and then the state may
    /// only be dropped.
    ///
    /// - `key`: the key stays.
    /// - `stands`: a state that stands for cards, so few that a `u32` counts them and this one, stands for them and this one.
    pub fn add(
        &mut self,
        alloc: Global,
        spot: &Spot,
        card: &Card,
        mark: Option<Mark>,
        me: &Addr,
    ) -> Result<(), Memory>
        ensures key { OnOk result (self.new.key ≡ self.old.key) }
        ensures stands { OnOk result ((cards : List Shown) → AreFew cards → StandsFor me.now cards self.old
            → StandsFor me.now (cards ++ shown spot.now card.now mark ∷ []) self.new) }
    {
        self.spots.push(spot.copy()?)?;
        self.marks.push(mark)?;
        add_at(
            alloc,
            &mut self.roster,
            &mut self.setters,
            &self.key,
            spot,
            card,
            me,
        )?;
        renew_last(&mut self.last, spot, mark)?;
        self.fresh = fresh_with(self.fresh, mark);
        Ok(())
    }
}
