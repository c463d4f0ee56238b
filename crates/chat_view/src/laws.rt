//! Laws of chats and of their parts.
ghost use Rattle.std.specs.Prelude.{◌≡◌, Option, unwrap_or, option_map};
ghost use Rattle.card_type.specs.declared.key.ChatKey.{ChatKey};
ghost use Rattle.card_type.specs.declared.key.ChatKey.TheVariants.{Single};
ghost use Rattle.mailbox_model.specs.declared.roster.Roster.{Roster};
ghost use Rattle.mailbox_model.specs.ChatList.{list_row, list_row_by};
ghost use Rattle.mailbox_model.specs.Contacts.{all_cards, contact_name, given_name};
ghost use Rattle.mailbox_model.specs.Lists.{Bytes, last_of};
ghost use Rattle.mailbox_model.specs.Mailbox.{Mailbox};
ghost use Rattle.mailbox_model.specs.Names.{name_by};
ghost use Rattle.mailbox_model.specs.Pages.{page_by, page_of, shown_rows};
ghost use Rattle.mailbox_model.specs.Present.{Mail};
ghost use Rattle.mailbox_model.specs.Rows.{acting, row, row_by};
ghost use Rattle.chat_view.specs.Parts.{row_spot, state};

/// The pages of a mailbox are made of the parts that this crate makes, where `state` is that of a chat with its cards.
///
/// - `row`: the row of a card is made of what acts on it.
/// - `name`: where a chat has one other, its name is that of the contact, and no other name is asked of the contacts.
/// - `page`: the page of a chat has the roster of its state, and its rows that are shown.
/// - `list`: its row in the list is that of its state and of the last of these rows.
/// - `last`: the state says where that last row is.
pub fn pages_are_made_of_parts()
    ensures row { (m : Mailbox) (t : Mail) → row m t ≡ row_by m.me m.now t (acting m t.placed.card) }
    ensures name { (m : Mailbox) (key : ChatKey) (roster : Roster) (contact : Option Bytes)
        → ((addr : Bytes) → key ≡ Single addr → contact ≡ given_name (all_cards m) addr)
        → name_by key roster (unwrap_or contact) ≡ name_by key roster (contact_name m) }
    ensures page { (m : Mailbox) (key : ChatKey)
        → page_of m key ≡ page_by key (name_by key (state m key).roster (contact_name m)) (state m key).roster (shown_rows m key) }
    ensures list { (m : Mailbox) (key : ChatKey)
        → list_row m key ≡ list_row_by key (name_by key (state m key).roster (contact_name m)) (state m key).fresh (last_of (shown_rows m key)) }
    ensures last { (m : Mailbox) (key : ChatKey) → option_map row_spot (last_of (shown_rows m key)) ≡ (state m key).last }
{}
