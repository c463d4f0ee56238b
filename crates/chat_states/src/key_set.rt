//! Some of the chats.
ghost use Rattle.std.specs.Prelude.{◌≡◌, [], ◌∷◌, ◌||◌, length, IfNone, IfSome, OnOk, OnErr};
ghost use Rattle.std.specs.List.Sorted.{IsStrictlySortedBy};
ghost use Rattle.card_type.specs.Keys.{key_cmp, key_eq};
ghost use Rattle.card_type.specs.declared.key.ChatKey.{ChatKey};
ghost use Rattle.chat_states.specs.States.{has_key};

use card_type::ChatKey;
use kit::Memory;
use std::alloc::Global;
use std::collections::BTreeSet;
use std::marker::Model;

/// The keys of some chats. A contract sees the list of them.
#[derive(Drop)]
pub struct KeySet {
    keys: BTreeSet<ChatKey>,
}

impl Model for KeySet {
    ghost use Rattle.std.specs.Prelude.{List};
    ghost use Rattle.card_type.specs.declared.key.ChatKey.{ChatKey};

    ghost Value = { List ChatKey };

    ghost view = { λ set. set.keys.keys };
}

impl KeySet {
    /// No chats. Takes no memory.
    pub fn new(alloc: Global) -> Self
        ensures { result ≡ [] }
    {
        KeySet {
            keys: BTreeSet::new(alloc),
        }
    }

    /// How many there are. Takes no memory.
    ///
    /// - `order`: their keys are in order, and none is there twice.
    pub fn len(&self) -> usize
        ensures count { result ≡ length self.now }
        ensures order { IsStrictlySortedBy key_cmp self.now }
    {
        self.keys.len()
    }

    /// Whether a chat is one of them. Takes no memory.
    pub fn has(&self, key: &ChatKey) -> bool
        ensures { result ≡ has_key self.now key.now }
    {
        self.keys.contains(key)
    }

    /// Notes that a chat is one of them. Takes memory; `Err` only when it runs out, and then they are as before.
    pub fn note(&mut self, key: ChatKey) -> Result<(), Memory>
        ensures ok { OnOk result ((other : ChatKey) → has_key self.new other ≡ (key_eq key other || has_key self.old other)) }
        ensures err { OnErr result (self.new ≡ self.old) }
    {
        self.keys.insert(key)?;
        Ok(())
    }

    /// Takes one of them out: `None` exactly where there is none. Takes no memory.
    pub fn pop(&mut self) -> Option<ChatKey>
        ensures none { IfNone result (self.old ≡ []) }
        ensures some { IfSome result (λ key. self.old ≡ key ∷ self.new) }
    {
        self.keys.pop_first()
    }
}
