//! Mails that are drawn by numbers, and the pages of a mailbox by their definition, followed plainly: nothing is kept, and
//! each fact is looked for among all mails. What an engine answers is compared with them.
#![tactic(auto)]

mod acts;
mod drawn;
mod draws;
mod list;
mod mails;
mod people;
mod rows;
mod stop;
mod values;

pub use drawn::{COUNT, HOUR, ME, START, card, id_of};
pub use draws::{Draw, draw_for};
pub use list::list_of;
pub use mails::{Mail, present_mails};
pub use people::contacts_of;
pub use rows::{pages_of, updates_of};
pub use stop::Stop;
pub use values::{addr, text};
