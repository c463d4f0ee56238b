//! The trial mailbox: an mbox of as many mails as are asked for, made by a number and the same at each run. Its mails are
//! messages in groups, answers, edits, deletions, messages with a timer, additions of members, and mails with a subject.
#![tactic(auto)]

mod draws;
mod form;
mod mail;
mod trial;

pub use trial::{box_bytes, make_box};
