//! Listeners on the updates of an app.
#![tactic(auto)]

mod heard;
mod laws;
mod listener;

pub use heard::{Heard, Origin};
pub use laws::listeners_hold_what_they_want;
pub use listener::{Listener, Test};
