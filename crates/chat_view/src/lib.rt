//! What is shown of a chat: its rows, and its row in the list.
#![tactic(auto)]

mod changes;
mod laws;
mod list;
mod maker;
mod state;
mod text;

pub use laws::pages_are_made_of_parts;
pub use list::chat_row;
pub use mailbox_model::{ChatPage, ListRow, Mark, Row, UpdateRow};
pub use maker::RowMaker;
pub use state::ChatState;
pub use text::{body_of, page_name};
