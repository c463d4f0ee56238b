//! What is kept of a mailbox beside its cards.
ghost use Rattle.std.specs.Prelude.{[]};
ghost use Rattle.mailbox_model.specs.Lists.{Bytes};
ghost use Rattle.mailbox_model.specs.Mailbox.{Mailbox};
ghost use Rattle.indexes.specs.Kept.{AreDated, AreDeadlines, AreOf, AreStates};

use card_type::KeyMap;
use chat_view::ChatState;
use chatlist::ChatList;
use contacts::Contacts;
use effects::Effects;
use std::alloc::Global;
use thread_links::Links;
use timers::Timers;

/// What is kept of a mailbox beside its cards, so that a question reads few of them.
#[derive(Drop)]
pub struct Indexes {
    /// The chat of each card of kind Content.
    pub links: Links,
    /// Who names each id.
    pub effects: Effects,
    /// The people and their names.
    pub contacts: Contacts,
    /// The state of each chat.
    pub chats: KeyMap<ChatState>,
    /// The chats in the order of the list.
    pub order: ChatList,
    /// When shown cards expire.
    pub timers: Timers,
}

impl Indexes {
    /// Those of a mailbox without cards. Takes no memory.
    pub fn new(alloc: Global) -> Self
        ensures cards { (me : Bytes) → AreOf me [] result }
        ensures states { (m : Mailbox) → AreStates m [] result.chats }
        ensures deadlines { (m : Mailbox) → AreDeadlines m [] result.timers }
        ensures order { AreDated result.chats result.order }
    {
        Indexes {
            links: Links::new(alloc),
            effects: Effects::new(alloc),
            contacts: Contacts::new(alloc),
            chats: KeyMap::new(alloc),
            order: ChatList::new(alloc),
            timers: Timers::new(alloc),
        }
    }
}
