//! The order of the chats in the list: the latest first.
#![tactic(auto)]

mod dates;
mod list;
mod order;
mod two_ended;

pub use list::ChatList;
