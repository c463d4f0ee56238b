//! Parts of a mail that are read for what they say: receipts, and updates of an app.
#![tactic(auto)]

mod fault;
mod laws;
mod payload;
mod receipt;
mod text;
mod updates;

pub use fault::UpdateFault;
pub use laws::json_is_in_order;
pub use receipt::read_receipt;
pub use updates::read_updates;
