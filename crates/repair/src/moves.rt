//! The cards that moved from chat to chat, each with the chat that it was in before.
ghost use Rattle.std.specs.Prelude.{◌≡◌, ◌||◌, List, [], Some, None, true, not, if◌then◌else◌, OnOk};
ghost use Rattle.std.specs.List.{list_any};
ghost use Rattle.std.specs.Map.{lookup};
ghost use Rattle.std.specs.Option.{option_copied, option_eq, option_or};
ghost use Rattle.std.specs.Str.{bytes_eq};
ghost use Rattle.card_type.specs.Keys.{key_eq};
ghost use Rattle.mailbox_model.specs.declared.links.Cites.{Cites};
ghost use Rattle.mailbox_model.specs.Chats.{chat_among};
ghost use Rattle.mailbox_model.specs.Lists.{Bytes};
ghost use Rattle.indexes.specs.Moves.{IsTold};
ghost use Rattle.repair.specs.Moves.{chat_before, LeadBack};

use card_type::ChatKey;
use kit::{Id, Memory};
use mailbox_model::Moved;
use std::alloc::Global;
use std::collections::{BTreeMap, BTreeSet};
use std::marker::Model;
use thread_links::Links;

/// For each card that moved the chat that it was in before, `None` where it was in none.
#[derive(Drop)]
pub(crate) struct Moves {
    before: BTreeMap<Id, Option<ChatKey>>,
}

impl Model for Moves {
    ghost use Rattle.std.specs.Prelude.{List, Option};
    ghost use Rattle.card_type.specs.declared.key.ChatKey.{ChatKey};
    ghost use Rattle.mailbox_model.specs.Lists.{Bytes};

    ghost Value = { List (Bytes × Option ChatKey) };

    ghost view = { λ moves. moves.before.entries };
}

/// The id of a card that moved, and its chat before.
fn told_before(moved: Moved) -> (Id, Option<ChatKey>)
    ensures { result ≡ (moved.id, moved.before) }
{
    (moved.id, moved.before)
}

impl Moves {
    /// No moves. Takes no memory.
    pub(crate) fn new(alloc: Global) -> Self
        ensures { result ≡ [] }
    {
        Moves {
            before: BTreeMap::new(alloc),
        }
    }

    /// Notes the chat before of one card, where none is noted of it.
    fn note_one(&mut self, id: Id, before: Option<ChatKey>) -> Result<(), Memory>
        ensures { OnOk result ((other : Bytes) → lookup (bytes_eq other) self.new
            ≡ option_or (lookup (bytes_eq other) self.old) (if bytes_eq other id then Some before else None)) }
    {
        if self.before.contains_key(&id) {
            return Ok(());
        }
        let _none = self.before.insert(id, before)?;
        Ok(())
    }

    /// Notes the moves of a card that came or went. Of a card that moved before, the first chat stays. Takes memory; `Err`
    /// only when it runs out.
    pub(crate) fn note(&mut self, moved: Vec<Moved>) -> Result<(), Memory>
        ensures { OnOk result ((first before after : List Cites) → IsTold moved.items before after
            → LeadBack self.old before first → LeadBack self.new after first) }
    {
        for one in moved {
            let (id, before) = told_before(one);
            self.note_one(id, before)?;
        }
        Ok(())
    }

    /// The chat that a card was in before, where the links have the chats now. Takes no memory.
    pub(crate) fn before<'a>(&'a self, links: &'a Links, id: &Id) -> Option<&'a ChatKey>
        requires whole { links.now.whole ≡ true }
        ensures { option_copied result ≡ chat_before self.now links.now.cites id.now }
    {
        match self.before.get(id) {
            Some(before) => before.as_ref(),
            None => links.chat_of(id),
        }
    }

    /// Adds the id of each card whose chat now is another one than before. Takes memory; `Err` only when it runs out.
    pub(crate) fn changed(&self, links: &Links, ids: &mut BTreeSet<Id>) -> Result<(), Memory>
        requires whole { links.now.whole ≡ true }
        ensures { OnOk result ((id : Bytes) → list_any (bytes_eq id) ids.new.keys ≡ (list_any (bytes_eq id) ids.old.keys
            || not (option_eq key_eq (chat_before self.now links.now.cites id) (chat_among links.now.cites id)))) }
    {
        for (id, before) in &self.before {
            if before.as_ref() != links.chat_of(id) {
                ids.insert(id.copy()?)?;
            }
        }
        Ok(())
    }
}
