//! How the state of a chat follows a card that comes, goes or is marked anew, and reads no other card.
ghost use Rattle.std.specs.Prelude.{◌≡◌, ◌<◌, ◌&&◌, [], ◌∷◌, ◌++◌, List, Option, true, false, length, nat_lt, slice_get, IfOk, OnOk};
ghost use Rattle.group_roster.specs.Setters.{at, setters_put, setters_taken, stays_with, stays_without};
ghost use Rattle.std.specs.List.Sorted.{IsStrictlySortedBy};
ghost use Rattle.std.specs.Option.{option_and_then, option_flatten};
ghost use Rattle.card_type.specs.Spots.{spot_cmp};
ghost use Rattle.mailbox_model.specs.declared.row.Mark.{Mark};
ghost use Rattle.mailbox_model.specs.Lists.{Bytes};
ghost use Rattle.mailbox_model.specs.States.{Shown};
ghost use Rattle.card_type.specs.declared.card.Card.{Card};
ghost use Rattle.chat_view.specs.Changes.{AreFew, AreInOrder, IsCounted, has_spot, last_shown, lets_go, marked_at, takes_in, with_at, with_last, without_at};
ghost use Rattle.chat_view.specs.Standing.{IsMarkedFor, StandsFor, shown};

use crate::state::{ChatState, fresh_with, fresh_without};
use card_type::{Card, Spot};
use group_roster::{put_in, take_out};
use kit::{Addr, Memory};
use lists::ChunkedList;
use mailbox_model::Mark;
use std::alloc::Global;

/// The index of the last of the marks that is one.
fn last_shown_among(marks: &[Option<Mark>]) -> Option<usize>
    ensures { result ≡ last_shown marks.now }
{
    let mut index = marks.len();
    while index > 0 {
        index -= 1;
        if marks[index].is_some() {
            return Some(index);
        }
    }
    None
}

/// The index of the last of all marks that is one.
fn last_shown(marks: &ChunkedList<Option<Mark>>) -> Option<usize>
    ensures { result ≡ last_shown marks.now }
{
    let chunks = marks.chunks();
    let mut start = marks.len();
    let mut chunk = chunks.len();
    while chunk > 0 {
        chunk -= 1;
        let values = chunks[chunk].as_slice();
        start -= values.len();
        if let Some(index) = last_shown_among(values) {
            return Some(start + index);
        }
    }
    None
}

/// A copy of the spot at an index, if there is one.
fn spot_at(spots: &ChunkedList<Spot>, index: Option<usize>) -> Result<Option<Spot>, Memory>
    ensures { IfOk result (λ spot. spot ≡ option_and_then (slice_get spots.now) index) }
{
    let Some(index) = index else {
        return Ok(None);
    };
    match spots.get(index) {
        Some(spot) => Ok(Some(spot.copy()?)),
        None => Ok(None),
    }
}

impl ChatState {
    /// Tells of the spots and the marks which card is shown last.
    fn settle(&mut self) -> Result<(), Memory>
        ensures key { OnOk result (self.new.key ≡ self.old.key) }
        ensures told { OnOk result (self.new ≡ with_last self.old) }
    {
        let last = last_shown(&self.marks);
        self.last = spot_at(&self.spots, last)?;
        Ok(())
    }

    /// Puts the spot and the mark of a card in at an index.
    fn insert(&mut self, index: usize, spot: &Spot, mark: Option<Mark>) -> Result<(), Memory>
        ensures key { OnOk result (self.new.key ≡ self.old.key) }
        ensures put { OnOk result (length self.old.marks < 4294967295 → IsCounted self.old → self.new ≡ with_at index spot.now mark self.old) }
    {
        self.spots.insert(index, spot.copy()?)?;
        self.marks.insert(index, mark)?;
        self.fresh = fresh_with(self.fresh, mark);
        self.settle()
    }

    /// The mark at an index; `None` where none is.
    fn mark_at(&self, index: usize) -> Option<Mark>
        ensures { result ≡ option_flatten (slice_get self.now.marks index) }
    {
        self.marks.get(index).copied().flatten()
    }

    /// Takes the spot and the mark of a card out at an index.
    fn remove(&mut self, index: usize) -> Result<(), Memory>
        ensures key { OnOk result (self.new.key ≡ self.old.key) }
        ensures taken { OnOk result (IsCounted self.old → self.new ≡ without_at index self.old) }
    {
        self.fresh = fresh_without(self.fresh, self.mark_at(index));
        self.spots.remove(index);
        self.marks.remove(index);
        self.settle()
    }
}

impl ChatState {
    /// Puts a card in at an index of the spots, where the roster stays as it is.
    fn put_among(
        &mut self,
        alloc: Global,
        index: usize,
        spot: &Spot,
        card: &Card,
        mark: Option<Mark>,
    ) -> Result<bool, Memory>
        ensures key { OnOk result (self.new.key ≡ self.old.key) }
        ensures when { IfOk result (λ taken. taken ≡ stays_with self.old.key self.old.roster self.old.setters (at spot.now card.now)) }
        ensures taken { IfOk result (λ taken. taken ≡ true → length self.old.marks < 4294967295 → IsCounted self.old
            → self.new ≡ with_at index spot.now mark (record self.old { setters = setters_put self.old.key self.old.setters (at spot.now card.now) })) }
        ensures left { IfOk result (λ taken. taken ≡ false → self.new ≡ self.old) }
    {
        if !put_in(
            alloc,
            &mut self.setters,
            &self.key,
            &self.roster,
            spot,
            card,
        )? {
            return Ok(false);
        }
        self.insert(index, spot, mark)?;
        Ok(true)
    }

    /// Takes the card at an index of the spots out, where others are left and the roster stays as it is.
    fn take_at(&mut self, index: usize, spot: &Spot) -> Result<bool, Memory>
        ensures key { OnOk result (self.new.key ≡ self.old.key) }
        ensures when { IfOk result (λ taken. taken ≡ (nat_lt 1 (length self.old.spots) && stays_without self.old.key self.old.setters spot.now)) }
        ensures taken { IfOk result (λ taken. taken ≡ true → IsCounted self.old
            → self.new ≡ without_at index (record self.old { setters = setters_taken self.old.key self.old.setters spot.now })) }
        ensures left { IfOk result (λ taken. taken ≡ false → self.new ≡ self.old) }
    {
        if self.spots.len() < 2 || !take_out(&mut self.setters, &self.key, spot) {
            return Ok(false);
        }
        self.remove(index)?;
        Ok(true)
    }

    /// Puts another mark in place of the one at an index.
    fn set_mark(&mut self, index: usize, mark: Option<Mark>) -> Result<(), Memory>
        ensures key { OnOk result (self.new.key ≡ self.old.key) }
        ensures marked { OnOk result (index < length self.old.marks → length self.old.marks < 4294967296 → IsCounted self.old → self.new ≡ marked_at index mark self.old) }
    {
        self.fresh = fresh_with(fresh_without(self.fresh, self.mark_at(index)), mark);
        self.marks.set(index, mark);
        self.settle()
    }

    /// Adds a card after all others.
    fn put_last(
        &mut self,
        alloc: Global,
        spot: &Spot,
        card: &Card,
        mark: Option<Mark>,
        me: &Addr,
    ) -> Result<bool, Memory>
        ensures key { OnOk result (self.new.key ≡ self.old.key) }
        ensures when { IfOk result (λ taken. taken ≡ true) }
        ensures stands { OnOk result ((cards : List Shown) → AreFew cards → StandsFor me.now cards self.old
            → StandsFor me.now (cards ++ shown spot.now card.now mark ∷ []) self.new) }
    {
        self.add(alloc, spot, card, mark, me)?;
        Ok(true)
    }

    /// Takes a card in at its place in mail order, with the mark of its row, and `None` where it is not shown; the own
    /// address is that with which the state was begun. It reads no other card: a card that goes after all others is added,
    /// and any other is taken in where the setters say that the roster stays as it is. Takes memory, and time in
    /// proportion to the number of spots and members; `Err` only when memory runs out, and then the state may only be dropped.
    ///
    /// - `key`: the key stays.
    /// - `when`: where the spots are in mail order, the answer is yes exactly where `takes_in` in `specs/Changes.antt` says
    ///   so.
    /// - `taken`: after yes a state that stood for the other cards stands for them and this one, in mail order.
    /// - `left`: after no the state is as before: it can't tell what the roster is with the card.
    pub fn put_in(
        &mut self,
        alloc: Global,
        spot: &Spot,
        card: &Card,
        mark: Option<Mark>,
        me: &Addr,
    ) -> Result<bool, Memory>
        ensures key { OnOk result (self.new.key ≡ self.old.key) }
        ensures when { IfOk result (λ taken. IsStrictlySortedBy spot_cmp self.old.spots → taken ≡ takes_in self.old spot.now card.now) }
        ensures taken { IfOk result (λ taken. taken ≡ true → (before after : List Shown) → AreFew (before ++ after)
            → AreInOrder (before ++ shown spot.now card.now mark ∷ after) → StandsFor me.now (before ++ after) self.old
            → StandsFor me.now (before ++ shown spot.now card.now mark ∷ after) self.new) }
        ensures left { IfOk result (λ taken. taken ≡ false → self.new ≡ self.old) }
    {
        match self.spots.binary_search(spot) {
            Ok(_) => Ok(false),
            Err(index) => {
                if index < self.spots.len() {
                    self.put_among(alloc, index, spot, card, mark)
                } else {
                    self.put_last(alloc, spot, card, mark, me)
                }
            }
        }
    }

    /// Lets the card at a spot go. It reads no other card: the card goes where it is not the only one and the setters say
    /// that the roster stays as it is. Takes memory for the spot of the last card that is shown, and time in proportion to
    /// the number of spots; `Err` only when memory runs out, and then the state may only be dropped.
    ///
    /// - `key`: the key stays.
    /// - `when`: where the spots are in mail order, the answer is yes exactly where `lets_go` in `specs/Changes.antt` says
    ///   so.
    /// - `taken`: after yes a state that stood for this card and the others stands for the others.
    /// - `left`: after no the state is as before: it can't tell what the roster is without the card.
    pub fn take_out(&mut self, spot: &Spot) -> Result<bool, Memory>
        ensures key { OnOk result (self.new.key ≡ self.old.key) }
        ensures when { IfOk result (λ taken. IsStrictlySortedBy spot_cmp self.old.spots → taken ≡ lets_go self.old spot.now) }
        ensures taken { IfOk result (λ taken. taken ≡ true → (me : Bytes) (before after : List Shown) (card : Card) (mark : Option Mark) → AreFew (before ++ after)
            → AreInOrder (before ++ shown spot.now card mark ∷ after) → StandsFor me (before ++ shown spot.now card mark ∷ after) self.old
            → StandsFor me (before ++ after) self.new) }
        ensures left { IfOk result (λ taken. taken ≡ false → self.new ≡ self.old) }
    {
        match self.spots.binary_search(spot) {
            Ok(index) => self.take_at(index, spot),
            Err(_) => Ok(false),
        }
    }

    /// Marks the card at a spot anew: `None` where it is no longer shown. It reads no card. Takes memory for the spot of the
    /// last card that is shown, and time in proportion to the number of spots; `Err` only when memory runs out, and then the
    /// state may only be dropped.
    ///
    /// - `key`: the key stays.
    /// - `stands`: a state that stood for cards, this one among them, stands for them with the other mark.
    /// - `marked`: a state that was marked for them, whatever its roster, is marked for them with the other mark.
    /// - `absent`: where no card is at the spot, the state stays as it is.
    pub fn remark(&mut self, spot: &Spot, mark: Option<Mark>) -> Result<(), Memory>
        ensures key { OnOk result (self.new.key ≡ self.old.key) }
        ensures stands { OnOk result ((me : Bytes) (before after : List Shown) (card : Card) (other : Option Mark) → AreFew (before ++ after)
            → AreInOrder (before ++ shown spot.now card other ∷ after) → StandsFor me (before ++ shown spot.now card other ∷ after) self.old
            → StandsFor me (before ++ shown spot.now card mark ∷ after) self.new) }
        ensures marked { OnOk result ((before after : List Shown) (card : Card) (other : Option Mark) → AreFew (before ++ after)
            → AreInOrder (before ++ shown spot.now card other ∷ after) → IsMarkedFor (before ++ shown spot.now card other ∷ after) self.old
            → IsMarkedFor (before ++ shown spot.now card mark ∷ after) self.new) }
        ensures absent { OnOk result (IsStrictlySortedBy spot_cmp self.old.spots → has_spot self.old spot.now ≡ false → self.new ≡ self.old) }
    {
        match self.spots.binary_search(spot) {
            Ok(index) => self.set_mark(index, mark),
            Err(_) => Ok(()),
        }
    }
}

impl ChatState {
    /// Puts the spot and the mark of a card in at their place in mail order, and leaves the roster as it is, whether that
    /// is right or not: it has to be told of the cards anew. Takes memory, and time in proportion to the number of spots;
    /// `Err` only when memory runs out, and then the state may only be dropped.
    ///
    /// - `key`: the key stays.
    /// - `marked`: a state that was marked for the other cards is marked for them and this one.
    /// - `there`: where a card is at the spot, the state stays as it is.
    pub fn place(&mut self, spot: &Spot, mark: Option<Mark>) -> Result<(), Memory>
        ensures key { OnOk result (self.new.key ≡ self.old.key) }
        ensures marked { OnOk result ((before after : List Shown) (card : Card) → AreFew (before ++ after)
            → AreInOrder (before ++ shown spot.now card mark ∷ after) → IsMarkedFor (before ++ after) self.old
            → IsMarkedFor (before ++ shown spot.now card mark ∷ after) self.new) }
        ensures there { OnOk result (IsStrictlySortedBy spot_cmp self.old.spots → has_spot self.old spot.now ≡ true → self.new ≡ self.old) }
    {
        match self.spots.binary_search(spot) {
            Ok(_) => Ok(()),
            Err(index) => self.insert(index, spot, mark),
        }
    }

    /// Takes the spot and the mark of a card out, and leaves the roster as it is, whether that is right or not: it has to
    /// be told of the cards anew. Takes memory for the spot of the last card that is shown, and time in proportion to the
    /// number of spots; `Err` only when memory runs out, and then the state may only be dropped.
    ///
    /// - `key`: the key stays.
    /// - `marked`: a state that was marked for this card and the others is marked for the others.
    /// - `absent`: where no card is at the spot, the state stays as it is.
    pub fn displace(&mut self, spot: &Spot) -> Result<(), Memory>
        ensures key { OnOk result (self.new.key ≡ self.old.key) }
        ensures marked { OnOk result ((before after : List Shown) (card : Card) (mark : Option Mark) → AreFew (before ++ after)
            → AreInOrder (before ++ shown spot.now card mark ∷ after) → IsMarkedFor (before ++ shown spot.now card mark ∷ after) self.old
            → IsMarkedFor (before ++ after) self.new) }
        ensures absent { OnOk result (IsStrictlySortedBy spot_cmp self.old.spots → has_spot self.old spot.now ≡ false → self.new ≡ self.old) }
    {
        match self.spots.binary_search(spot) {
            Ok(index) => self.remove(index),
            Err(_) => Ok(()),
        }
    }
}
