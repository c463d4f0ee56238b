//! The cards of a mailbox, by uid.
ghost use Rattle.std.specs.Prelude.{◌≡◌, ◌≤◌, ◌<◌, ◌+◌, None, OnOk};
ghost use Rattle.std.specs.FinMap as map;
ghost use Rattle.std.specs.Option.{option_copied};

use card_type::Card;
use kit::{Memory, Steps};
use std::alloc::Global;
use std::collections::HashMap;
use std::marker::Model;
use std::sync::ledger::Ledger;

/// The cards of a mailbox, by the number of their mail. A contract sees them as a finite map, and beside it the number
/// of cards that can be inserted without memory.
#[derive(Drop)]
pub struct CardStore {
    by_uid: HashMap<u32, Card>,
}

impl Model for CardStore {
    ghost use Rattle.std.specs.FinMap as map;
    ghost use Rattle.std.specs.HashMap.{spare};
    ghost use Rattle.card_type.specs.contracts.card.Card as card;
    ghost use Rattle.box_state.specs.Stores.{Store, store_code};

    ghost Value = { Store };

    ghost coded = { store_code card.the_row.coded };

    ghost view = { λ store. record { cards = map.from_entries store.by_uid.entries; spare = spare store.by_uid } };
}

impl CardStore {
    /// A store without cards. Takes no memory.
    pub fn new(alloc: Global) -> Self
        ensures { result.cards ≡ map.empty }
    {
        CardStore {
            by_uid: HashMap::new(alloc),
        }
    }

    /// Makes room for `n` more cards, and changes nothing else, also where memory runs out. Takes memory; `Err` only when
    /// it runs out.
    pub fn reserve(&mut self, n: usize) -> Result<(), Memory>
        ensures spare { OnOk result (n ≤ self.new.spare) }
        ensures room { self.old.spare ≤ self.new.spare }
        ensures same { self.new.cards ≡ self.old.cards }
    {
        Ok(self.by_uid.reserve(n)?)
    }

    /// Keeps a card under a number that has none. Takes no memory: room for it was made before.
    pub fn insert(&mut self, uid: u32, card: Card)
        requires room { 0 < self.old.spare }
        requires absent { map.get self.old.cards uid ≡ None }
        ensures cards { self.new.cards ≡ map.insert self.old.cards uid card }
        ensures spare { self.old.spare ≤ self.new.spare + 1 }
    {
        let inserted: Result<_, _> = self.by_uid.insert(uid, card);
        let _ = inserted.unwrap();
    }

    /// Takes the card of a number out of the store: `None` exactly where it has none. Takes no memory.
    pub fn take(&mut self, uid: u32) -> Option<Card>
        ensures card { result ≡ map.get self.old.cards uid }
        ensures cards { self.new.cards ≡ map.remove self.old.cards uid }
        ensures spare { self.old.spare ≤ self.new.spare }
    {
        self.by_uid.remove(&uid)
    }

    /// The card of a number: `None` exactly where the store has none. Nothing else leads to a kept card, and each call
    /// is one step, so steps count the reads of kept cards. Takes no memory.
    pub fn read<L: Ledger>(&self, uid: u32, steps: &mut Steps<L>) -> Option<&Card>
        ensures card { option_copied result ≡ map.get self.now.cards uid }
        ensures cost { steps.new ≡ steps.old + 1 }
    {
        steps.tick();
        self.by_uid.get(&uid)
    }
}
