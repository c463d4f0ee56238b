//! Images of a mailbox, and its changes, as bytes: written, and read with the offset of the first field that is malformed.
#![tactic(auto)]

mod change;
mod entries;
mod fault;
mod fault_code;
mod laws;
mod offset;
mod position;
mod read;
mod write;

pub use change::{append_change, read_change, take_change, write_change};
pub use fault::ImageFault;
pub use laws::{each_change_has_one_spelling, each_mailbox_has_one_image};
pub use position::{MAX_COUNT, Position};
pub use read::{read_image, read_traces};
pub use write::write_image;
