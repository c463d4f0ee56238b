//! Which chats a change touches.
ghost use Rattle.std.specs.Prelude.{◌≡◌, [], ◌||◌, OnOk, option_map};
ghost use Rattle.card_type.specs.declared.key.ChatKey.{ChatKey};
ghost use Rattle.mailbox_model.specs.Chats.{is_chat};
ghost use Rattle.chat_states.specs.States.{has_key};

use crate::place::Place;
use chat_states::KeySet;
use kit::Memory;
use std::alloc::Global;

/// The chats that a change touches, and those of them whose roster is to be folded anew.
#[derive(Drop)]
pub(crate) struct Touched {
    pub(crate) touched: KeySet,
    pub(crate) unsettled: KeySet,
}

impl Touched {
    /// No chats. Takes no memory.
    pub(crate) fn new(alloc: Global) -> Self
        ensures touched { result.touched ≡ [] }
        ensures unsettled { result.unsettled ≡ [] }
    {
        Touched {
            touched: KeySet::new(alloc),
            unsettled: KeySet::new(alloc),
        }
    }

    /// Notes the chat of a place as touched. Takes memory; `Err` only when it runs out.
    pub(crate) fn note(&mut self, place: &Option<Place<'_>>) -> Result<(), Memory>
        ensures touched { OnOk result ((key : ChatKey) → has_key self.new.touched key ≡ (has_key self.old.touched key || is_chat key (option_map (λ p. p.chat) place.now))) }
        ensures unsettled { self.new.unsettled ≡ self.old.unsettled }
    {
        match place {
            Some(place) => self.touched.note(place.chat.copy()?),
            None => Ok(()),
        }
    }
}
