//! The names of each address.
ghost use Rattle.std.specs.Prelude.{◌≡◌, ℕ, List, [], false, OnOk};
ghost use Rattle.std.specs.BTreeMap.{insert_entry, is_at};
ghost use Rattle.std.specs.Map.{remove_entry};
ghost use Rattle.std.specs.Option.{option_copied};
ghost use Rattle.std.specs.Str.{bytes_eq};
ghost use Rattle.card_type.specs.Kinds.{has_some};
ghost use Rattle.card_type.specs.Spots.{spot_cmp};
ghost use Rattle.contacts.specs.Kept.{names_at, names_with, names_without, last_name};

use card_type::{Card, Spot};
use kit::{Addr, Memory, Text};
use std::alloc::Global;
use std::collections::BTreeMap;
use std::marker::Model;

/// The names under which one address wrote, in mail order: in a map, so that a name comes and goes in a time that grows
/// with the logarithm of their number.
#[derive(Drop)]
struct Given {
    by_spot: BTreeMap<Spot, Text>,
}

impl Model for Given {
    ghost use Rattle.std.specs.Prelude.{ℕ, List};
    ghost use Rattle.card_type.specs.declared.spot.Spot.{Spot};

    ghost Value = { List (Spot × List ℕ) };

    ghost view = { λ given. given.by_spot.entries };
}

impl Given {
    /// No names. Takes no memory.
    fn new(alloc: Global) -> Self
        ensures { result ≡ [] }
    {
        Given {
            by_spot: BTreeMap::new(alloc),
        }
    }

    /// Keeps a name at a spot. Takes memory; `Err` only when it runs out.
    fn insert(&mut self, spot: Spot, name: Text) -> Result<(), Memory>
        ensures { OnOk result (self.new ≡ insert_entry spot_cmp self.old spot name) }
    {
        self.by_spot.insert(spot, name)?;
        Ok(())
    }

    /// Takes the name at a spot out, where there is one. Takes no memory.
    fn remove(&mut self, spot: &Spot)
        ensures { self.new ≡ remove_entry (is_at (spot_cmp spot.now)) self.old }
    {
        let _name = self.by_spot.remove(spot);
    }

    /// The last name. Takes no memory.
    fn last(&self) -> Option<&Text>
        ensures { option_copied result ≡ last_name self.now }
    {
        let (_, name) = self.by_spot.last_key_value()?;
        Some(name)
    }
}

/// The names under which each address wrote, in mail order. An address that is not there has none.
#[derive(Drop)]
pub(crate) struct Names {
    alloc: Global,
    by_addr: BTreeMap<Addr, Given>,
}

impl Model for Names {
    ghost use Rattle.std.specs.Prelude.{ℕ, List};
    ghost use Rattle.card_type.specs.declared.spot.Spot.{Spot};

    ghost Value = { List (List ℕ × List (Spot × List ℕ)) };

    ghost view = { λ names. names.by_addr.entries };
}

/// Whether a card gives its sender a name.
fn gives_name(card: &Card) -> bool
    ensures { result ≡ has_some card.now.from_name }
{
    !card.from_name.bytes().is_empty()
}

impl Names {
    /// No names. Takes no memory.
    pub(crate) fn new(alloc: Global) -> Self
        ensures { (addr : List ℕ) → names_at result addr ≡ [] }
    {
        Names {
            alloc,
            by_addr: BTreeMap::new(alloc),
        }
    }

    /// The last name of an address. Takes no memory.
    pub(crate) fn last(&self, addr: &Addr) -> Option<&Text>
        ensures { option_copied result ≡ last_name (names_at self.now addr.now) }
    {
        match self.by_addr.get(addr) {
            Some(given) => given.last(),
            None => None,
        }
    }

    /// Keeps a name of an address at a spot.
    fn insert(&mut self, addr: &Addr, spot: Spot, name: Text) -> Result<(), Memory>
        ensures at { OnOk result (names_at self.new addr.now ≡ insert_entry spot_cmp (names_at self.old addr.now) spot name) }
        ensures others { OnOk result ((other : List ℕ) → bytes_eq addr.now other ≡ false → names_at self.new other ≡ names_at self.old other) }
    {
        if let Some(names) = self.by_addr.get_mut(addr) {
            names.insert(spot, name)?;
            return Ok(());
        }
        let mut names = Given::new(self.alloc);
        names.insert(spot, name)?;
        self.by_addr.insert(addr.copy()?, names)?;
        Ok(())
    }

    /// Keeps the name that a card at a spot gives its sender, if it gives one. Takes memory; `Err` only when it runs out.
    pub(crate) fn add(&mut self, spot: &Spot, card: &Card) -> Result<(), Memory>
        ensures { OnOk result ((addr : List ℕ) → names_at self.new addr ≡ names_with spot.now card.now addr (names_at self.old addr)) }
    {
        if gives_name(card) {
            self.insert(&card.from, spot.copy()?, card.from_name.copy()?)?;
        }
        Ok(())
    }

    /// Takes the name of an address at a spot out, where there is one, and keeps the map of the address also where it has no
    /// names.
    fn take_out(&mut self, addr: &Addr, spot: &Spot)
        ensures at { names_at self.new addr.now ≡ remove_entry (is_at (spot_cmp spot.now)) (names_at self.old addr.now) }
        ensures others { (other : List ℕ) → bytes_eq addr.now other ≡ false → names_at self.new other ≡ names_at self.old other }
    {
        if let Some(names) = self.by_addr.get_mut(addr) {
            names.remove(spot);
        }
    }

    /// Drops the map of an address that has no names.
    fn drop_empty(&mut self, addr: &Addr)
        ensures { (other : List ℕ) → names_at self.new other ≡ names_at self.old other }
    {
        if self.last(addr).is_none() {
            let _empty = self.by_addr.remove(addr);
        }
    }

    /// Takes the name that a card at a spot gives its sender out, if it gives one. Takes no memory.
    pub(crate) fn remove(&mut self, spot: &Spot, card: &Card)
        ensures { (addr : List ℕ) → names_at self.new addr ≡ names_without spot.now card.now addr (names_at self.old addr) }
    {
        if gives_name(card) {
            self.take_out(&card.from, spot);
            self.drop_empty(&card.from);
        }
    }
}
