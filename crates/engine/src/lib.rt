//! The engine: a mailbox, what is kept beside it, and the four questions that are asked of it.
#![tactic(auto)]

mod engine;
mod fault;

pub use engine::Engine;
pub use fault::{ApplyFault, AskFault};
pub use mailbox_model::{ChatPage, ContactRow, FaultRow, ListPage, ListRow, Row, UpdateRow};
