//! The mails that name each id.
ghost use Rattle.std.specs.Prelude.{◌≡◌, ◌==◌, ℕ, List, [], false, length, map, take, OnOk};
ghost use Rattle.std.specs.Option.{option_to_list};
ghost use Rattle.std.specs.Str.{bytes_eq};
ghost use Rattle.card_type.specs.Effects.{names};
ghost use Rattle.effects.specs.Named.{named, named_with, named_without, put_once, without_spot};

use crate::named::Named;
use card_type::{Card, Kind, Spot, kind_of};
use kit::{Id, Memory};
use std::alloc::Global;
use std::collections::BTreeMap;
use std::marker::Model;
use std::slice;

/// For each id the mails that name it, in mail order, of some cards, each at a spot.
#[derive(Drop)]
pub struct Effects {
    alloc: Global,
    by_id: BTreeMap<Id, Named>,
}

impl Model for Effects {
    ghost use Rattle.std.specs.Prelude.{ℕ, List};
    ghost use Rattle.card_type.specs.declared.spot.Spot.{Spot};

    ghost Value = { List (List ℕ × List Spot) };

    ghost view = { λ effects. effects.by_id.entries };
}

/// An id that may be missing, as a slice.
fn slice_of(id: &Option<Id>) -> &[Id]
    ensures { result.now ≡ option_to_list id.now }
{
    match id {
        Some(id) => slice::from_ref(id),
        None => &[],
    }
}

/// The first of these.
fn first_of(ids: &[Id]) -> &[Id]
    ensures { result.now ≡ take 1 ids.now }
{
    match ids {
        [first, ..] => slice::from_ref(first),
        [] => &[],
    }
}

/// The ids that a card names, in its order: those on which its mail may act. Takes no memory.
pub fn names(card: &Card) -> &[Id]
    ensures { result.now ≡ names card.now }
{
    match kind_of(card) {
        Kind::Receipt => slice_of(&card.receipt),
        Kind::Delete => card.deletes.as_slice(),
        Kind::Edit => slice_of(&card.edit),
        Kind::Update | Kind::Reaction => first_of(card.replies.as_slice()),
        Kind::Content => &[],
    }
}

impl Effects {
    /// Those of no cards. Takes no memory.
    pub fn new(alloc: Global) -> Self
        ensures { (id : List ℕ) → named result id ≡ [] }
    {
        Effects {
            alloc,
            by_id: BTreeMap::new(alloc),
        }
    }

    /// The uids of the mails that name an id, in mail order. Takes no memory, and time that grows with the logarithm of the
    /// number of ids.
    pub fn on(&self, id: &Id) -> &[u32]
        ensures { result.now ≡ map (λ spot. spot.uid) (named self.now id.now) }
    {
        match self.by_id.get(id) {
            Some(named) => named.uids(),
            None => &[],
        }
    }

    /// Puts a mail under an id, where it is not there.
    fn put(&mut self, id: &Id, spot: Spot) -> Result<(), Memory>
        ensures at { OnOk result (named self.new id.now ≡ put_once spot (named self.old id.now)) }
        ensures others { OnOk result ((other : List ℕ) → bytes_eq id.now other ≡ false → named self.new other ≡ named self.old other) }
    {
        if let Some(named) = self.by_id.get_mut(id) {
            named.put(spot)?;
            return Ok(());
        }
        let mut named = Named::new(self.alloc);
        named.put(spot)?;
        self.by_id.insert(id.copy()?, named)?;
        Ok(())
    }

    /// Takes a mail out from under an id, and keeps the list of the id also where it is empty.
    fn take_out(&mut self, id: &Id, spot: &Spot)
        ensures at { named self.new id.now ≡ without_spot spot.now (named self.old id.now) }
        ensures others { (other : List ℕ) → bytes_eq id.now other ≡ false → named self.new other ≡ named self.old other }
    {
        if let Some(named) = self.by_id.get_mut(id) {
            named.remove(spot);
        }
    }

    /// Whether no mail names an id.
    fn is_unnamed(&self, id: &Id) -> bool
        ensures { result ≡ (length (named self.now id.now) == 0) }
    {
        match self.by_id.get(id) {
            Some(named) => named.is_empty(),
            None => true,
        }
    }

    /// Drops the list of an id that no mail names.
    fn drop_empty(&mut self, id: &Id)
        ensures { (other : List ℕ) → named self.new other ≡ named self.old other }
    {
        if self.is_unnamed(id) {
            let _empty = self.by_id.remove(id);
        }
    }

    /// Adds a card at a spot where none is: to the mails of each id that it names, once also where it names an id twice.
    /// Takes memory; `Err` only when it runs out, and after it the effects may only be dropped.
    pub fn add(&mut self, spot: &Spot, card: &Card) -> Result<(), Memory>
        ensures { OnOk result ((id : List ℕ) → named self.new id ≡ named_with spot.now card.now id (named self.old id)) }
    {
        for id in names(card) {
            self.put(id, spot.copy()?)?;
        }
        Ok(())
    }

    /// Removes the card that is kept at a spot, from the mails of each id that it names. Takes no memory.
    pub fn remove(&mut self, spot: &Spot, card: &Card)
        ensures { (id : List ℕ) → named self.new id ≡ named_without spot.now card.now id (named self.old id) }
    {
        for id in names(card) {
            self.take_out(id, spot);
            self.drop_empty(id);
        }
    }
}
