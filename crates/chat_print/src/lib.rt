//! The printed pages: the list of chats, a chat, the contacts and the updates of an app. Each is written whole before it
//! is put, and put in one piece.
#![tactic(auto)]

mod chat;
mod contacts;
mod fields;
mod laws;
mod list;
mod print;
mod times;
mod updates;

pub use laws::pages_have_moments;
pub use print::{print_chat, print_contacts, print_list, print_updates};
