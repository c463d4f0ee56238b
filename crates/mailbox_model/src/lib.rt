//! What a mailbox is and what is shown of it: the values that the crates above share, and in `specs/` the one
//! definition of the pages of a mailbox. It has no logic of its own; its functions are laws of that definition.
#![tactic(auto)]

mod change;
mod contact;
mod item;
mod laws;
mod limits;
mod links;
mod list;
mod page;
mod roster;
mod row;
mod turn;

pub use change::{Change, Fault};
pub use contact::ContactRow;
pub use item::{Held, Item};
pub use laws::{
    a_day_has_one_date, a_mail_comes_into_its_place, a_mailbox_is_bounded,
    a_page_follows_from_its_chat, a_row_follows_from_what_names_it, changes_keep_the_rules,
    changes_move_the_present, chats_have_names_and_members, chats_keep_the_rule,
    equal_mailboxes_print_alike, items_and_cards_make_entries, list_has_each_chat,
    present_is_in_order, uids_name_one_mail,
};
pub use limits::{MAX_MAILS, MAX_TOTAL_WEIGHT};
pub use links::{Cites, Moved};
pub use list::{FaultRow, ListPage, ListRow};
pub use page::ChatPage;
pub use roster::Roster;
pub use row::{Mark, Row, UpdateRow};
pub use turn::Turn;
