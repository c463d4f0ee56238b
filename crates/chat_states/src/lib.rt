//! The states of all chats, as single cards come, go and are marked anew.
#![tactic(auto)]

mod chats;
mod key_set;
mod laws;

pub use chats::{mark, put, settle, take};
pub use key_set::KeySet;
pub use laws::states_follow_their_family;
