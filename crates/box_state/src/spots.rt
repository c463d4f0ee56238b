//! The spots of the mails that have a card.
ghost use Rattle.std.specs.Prelude.{◌≡◌, ◌==◌, ℕ, List, [], false, cond, Some, None, OnOk, slice_get, option_and_then};
ghost use Rattle.std.specs.List.{list_any};
ghost use Rattle.std.specs.Option.{option_copied};
ghost use Rattle.box_state.specs.Spots.{spot_at, copies_at, copies_with, copies_but, dated, HasRoom, ties};

use card_type::Spot;
use kit::{Id, Memory};
use lists::SortedById;
use std::alloc::Global;
use std::collections::HashMap;
use std::marker::Model;

/// The spot of each mail that has a card, by uid, and the copies of each id: the effective date and the uid of each mail
/// with it, in mail order.
#[derive(Drop)]
pub(crate) struct Spots {
    by_uid: HashMap<u32, Spot>,
    copies: SortedById<(u64, u32)>,
}

impl Model for Spots {
    ghost use Rattle.std.specs.HashMap.{spare};
    ghost use Rattle.box_state.specs.Spots.{SpotTable};

    ghost Value = { SpotTable };

    ghost view = { λ spots. record { by_uid = spots.by_uid.entries; spare = spare spots.by_uid; copies = spots.copies } };
}

impl Spots {
    /// No spots. Takes no memory.
    pub(crate) fn new(alloc: Global) -> Self
        ensures spots { (uid : ℕ) → spot_at result uid ≡ None }
        ensures copies { (id : List ℕ) → copies_at result id ≡ [] }
    {
        Spots {
            by_uid: HashMap::new(alloc),
            copies: SortedById::new(alloc),
        }
    }

    /// Makes room for one more spot with this id, and changes no spot, also where memory runs out. Takes memory; `Err` only
    /// when it runs out.
    pub(crate) fn reserve(&mut self, id: &Id) -> Result<(), Memory>
        ensures room { OnOk result (HasRoom self.new id.now) }
        ensures spots { (uid : ℕ) → spot_at self.new uid ≡ spot_at self.old uid }
        ensures copies { (other : List ℕ) → copies_at self.new other ≡ copies_at self.old other }
    {
        self.by_uid.reserve(1)?;
        self.copies.reserve(id)
    }

    /// Keeps a spot whose uid has none. Takes no memory: room for it was made before.
    pub(crate) fn insert(&mut self, spot: Spot)
        requires room { HasRoom self.old spot.id }
        requires absent { spot_at self.old spot.uid ≡ None }
        requires apart { list_any (ties (dated spot)) (copies_at self.old spot.id) ≡ false }
        ensures spots { (uid : ℕ) → spot_at self.new uid ≡ cond (spot.uid == uid) (Some spot) (spot_at self.old uid) }
        ensures copies { (id : List ℕ) → copies_at self.new id ≡ copies_with spot id (copies_at self.old id) }
    {
        self.copies.insert(&spot.id, (spot.date, spot.uid));
        let inserted: Result<_, _> = self.by_uid.insert(spot.uid, spot);
        let _ = inserted.unwrap();
    }

    /// Takes the spot of a uid out, where it has one. Takes no memory.
    pub(crate) fn remove(&mut self, uid: u32)
        ensures spots { (other : ℕ) → spot_at self.new other ≡ cond (uid == other) None (spot_at self.old other) }
        ensures copies { (id : List ℕ) → copies_at self.new id ≡ copies_but (spot_at self.old uid) id (copies_at self.old id) }
    {
        if let Some(spot) = self.by_uid.remove(&uid) {
            self.copies.remove(&spot.id, &(spot.date, spot.uid));
        }
    }

    /// The spot of a uid. Takes no memory.
    pub(crate) fn get(&self, uid: u32) -> Option<&Spot>
        ensures { option_copied result ≡ spot_at self.now uid }
    {
        self.by_uid.get(&uid)
    }

    /// The spot of the first copy of an id in mail order. Takes no memory.
    pub(crate) fn first(&self, id: &Id) -> Option<&Spot>
        ensures { option_copied result ≡ option_and_then (λ copy. spot_at self.now copy.1) (slice_get (copies_at self.now id.now) 0) }
    {
        let (_, uid) = self.copies.get(id).first()?;
        self.get(*uid)
    }

    /// The spot of the second copy of an id in mail order. Takes no memory.
    pub(crate) fn second(&self, id: &Id) -> Option<&Spot>
        ensures { option_copied result ≡ option_and_then (λ copy. spot_at self.now copy.1) (slice_get (copies_at self.now id.now) 1) }
    {
        let (_, uid) = self.copies.get(id).get(1)?;
        self.get(*uid)
    }
}
