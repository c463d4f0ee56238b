//! The cards of kind Content by what they cite, and their chats.
ghost use Rattle.std.specs.Prelude.{◌≡◌, [], true, false, map, is_ok, is_some, IfOk, OnOk};
ghost use Rattle.std.specs.List.Sorted.{IsStrictlySortedBy};
ghost use Rattle.std.specs.Option.{option_copied};
ghost use Rattle.lists.specs.Sorted.{insert_by};
ghost use Rattle.card_type.specs.Spots.{spot_cmp};
ghost use Rattle.mailbox_model.specs.Chats.{cites_cmp, is_id_among, chat_among, moves};
ghost use Rattle.thread_links.specs.Linked.{without_id, citing};

use crate::kept::Kept;
use crate::work;
use card_type::{ChatKey, Spot};
use kit::{Id, Memory};
use lists::SortedById;
use mailbox_model::{Cites, Moved};
use std::alloc::Global;
use std::collections::BTreeMap;
use std::marker::Model;

/// The cites of cards of kind Content, and the chat of each of these cards. A contract sees the cites in mail order, and
/// whether they are whole: once memory ran out in `add` or `remove` they are not, and may only be dropped.
#[derive(Drop)]
pub struct Links {
    alloc: Global,
    kept: BTreeMap<Id, Kept>,
    /// For each id the spots of the cites that have it among their candidates.
    cited: SortedById<Spot>,
    whole: bool,
}

impl Model for Links {
    ghost use Rattle.std.specs.Prelude.{◌≡◌, true};
    ghost use Rattle.thread_links.specs.Linked.{Linked};
    ghost use Rattle.thread_links.specs.Kept.{cites_in, IsSettled};

    ghost Value = { Linked };

    ghost view = { λ links. record { cites = cites_in links.kept.entries; whole = links.whole } };

    ghost invariant = { λ links. links.whole ≡ true → IsSettled links.kept.entries links.cited };
}

impl Links {
    /// No cites. Takes no memory.
    pub fn new(alloc: Global) -> Self
        ensures cites { result.cites ≡ [] }
        ensures whole { result.whole ≡ true }
    {
        Links {
            alloc,
            kept: BTreeMap::new(alloc),
            cited: SortedById::new(alloc),
            whole: true,
        }
    }

    /// The chat of the card with an id: `None` exactly where no kept cites have it. Takes no memory.
    pub fn chat_of(&self, id: &Id) -> Option<&ChatKey>
        requires whole { self.now.whole ≡ true }
        ensures chat { option_copied result ≡ chat_among self.now.cites id.now }
        ensures kept { is_some result ≡ is_id_among self.now.cites id.now }
    {
        self.kept.get(id)?.chat.as_ref()
    }

    /// The spots of the cites that have an id among their candidates, each once, in mail order. Takes no memory.
    pub fn cited_by(&self, id: &Id) -> &[Spot]
        requires whole { self.now.whole ≡ true }
        ensures spots { result.now ≡ map (λ cites. cites.spot) (citing id.now self.now.cites) }
        ensures order { IsStrictlySortedBy spot_cmp result.now }
    {
        self.cited.get(id)
    }

    /// Keeps the cites of a card that is not kept yet. Answers, in mail order, this card and each card whose chat is
    /// another one than before. Takes memory; `Err` only when it runs out, and then the links may only be dropped.
    pub fn add(&mut self, cites: Cites) -> Result<Vec<Moved>, Memory>
        requires whole { self.old.whole ≡ true }
        requires absent { is_id_among self.old.cites cites.spot.id ≡ false }
        ensures cites { OnOk result (self.new.cites ≡ insert_by cites_cmp cites self.old.cites) }
        ensures moved { IfOk result (λ moved. moved.items ≡ moves self.new.cites self.old.cites self.new.cites) }
        ensures whole { self.new.whole ≡ is_ok result }
    {
        self.whole = false;
        let moved = work::add(self.alloc, &mut self.kept, &mut self.cited, cites)?;
        self.whole = true;
        Ok(moved)
    }

    /// Keeps the cites of a card that is kept no longer. Answers, in mail order, this card and each card whose chat is
    /// another one than before. Takes memory; `Err` only when it runs out, and then the links may only be dropped.
    pub fn remove(&mut self, id: &Id) -> Result<Vec<Moved>, Memory>
        requires whole { self.old.whole ≡ true }
        requires there { is_id_among self.old.cites id.now ≡ true }
        ensures cites { OnOk result (self.new.cites ≡ without_id id.now self.old.cites) }
        ensures moved { IfOk result (λ moved. moved.items ≡ moves self.old.cites self.old.cites self.new.cites) }
        ensures whole { self.new.whole ≡ is_ok result }
    {
        self.whole = false;
        let moved = work::remove(self.alloc, &mut self.kept, &mut self.cited, id)?;
        self.whole = true;
        Ok(moved)
    }
}
