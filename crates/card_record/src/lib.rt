//! The record of a card as bytes: written, and read with the place of the first field that is malformed.
#![tactic(auto)]

mod card;
mod fault;
mod field;
mod laws;
mod rest;
mod updates;
mod values;
mod written;

pub use card::read_record;
pub use fault::ReadFault;
pub use field::{Field, read_flag, read_moment};
pub use laws::each_card_has_one_record;
pub use rest::Rest;
pub use written::{Written, write_block, write_count, write_record};
