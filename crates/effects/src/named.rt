//! The mails that name one id.
ghost use Rattle.std.specs.Prelude.{◌≡◌, ◌==◌, [], false, length, map, OnOk};
ghost use Rattle.std.specs.List.{list_any};
ghost use Rattle.std.specs.List.Sorted.{IsStrictlySortedBy};
ghost use Rattle.lists.specs.Sorted.{insert_by};
ghost use Rattle.card_type.specs.Spots.{spot_cmp};
ghost use Rattle.effects.specs.Named.{same_spot, put_once, without_spot};

use card_type::Spot;
use kit::Memory;
use lists::SortedList;
use std::alloc::Global;
use std::marker::Model;

/// The mails that name one id, in mail order. A contract sees their spots.
#[derive(Drop)]
pub(crate) struct Named {
    spots: SortedList<Spot>,
    /// That of each spot, at its index.
    uids: Vec<u32>,
}

impl Model for Named {
    ghost use Rattle.std.specs.Prelude.{◌≡◌, List, map};
    ghost use Rattle.card_type.specs.declared.spot.Spot.{Spot};

    ghost Value = { List Spot };

    ghost view = { λ named. named.spots.values };

    ghost invariant = { λ named. named.uids.items ≡ map (λ spot. spot.uid) named.spots.values };
}

impl Named {
    /// No mails. Takes no memory.
    pub(crate) fn new(alloc: Global) -> Self
        ensures { result ≡ [] }
    {
        Named {
            spots: SortedList::new(alloc),
            uids: Vec::new(alloc),
        }
    }

    /// The uids of the mails, in mail order. Takes no memory.
    pub(crate) fn uids(&self) -> &[u32]
        ensures { result.now ≡ map (λ spot. spot.uid) self.now }
    {
        self.uids.as_slice()
    }

    /// Whether there are none. Takes no memory.
    pub(crate) fn is_empty(&self) -> bool
        ensures { result ≡ (length self.now == 0) }
    {
        self.spots.as_slice().is_empty()
    }

    /// Whether a mail is there.
    fn contains(&self, spot: &Spot) -> bool
        ensures { result ≡ list_any (same_spot spot.now) self.now }
    {
        self.spots.contains(spot)
    }

    /// Puts a mail that is not there in its place.
    fn insert(&mut self, spot: Spot) -> Result<(), Memory>
        requires absent { list_any (same_spot spot) self.old ≡ false }
        ensures { OnOk result (self.new ≡ insert_by spot_cmp spot self.old) }
    {
        self.spots.reserve()?;
        self.uids.reserve(1)?;
        let uid = spot.uid;
        let index = self.spots.insert(spot);
        let inserted: Result<_, _> = self.uids.insert(index, uid);
        inserted.unwrap();
        Ok(())
    }

    /// Puts a mail in its place, where it is not there yet. Takes memory; `Err` only when it runs out.
    pub(crate) fn put(&mut self, spot: Spot) -> Result<(), Memory>
        ensures { OnOk result (self.new ≡ put_once spot self.old) }
    {
        if !self.contains(&spot) {
            self.insert(spot)?;
        }
        Ok(())
    }

    /// Takes a mail out, where it is there. Takes no memory.
    pub(crate) fn remove(&mut self, spot: &Spot)
        ensures { self.new ≡ without_spot spot.now self.old }
    {
        if let Some(index) = self.spots.remove(spot) {
            let _uid = self.uids.remove(index);
        }
    }
}
