//! Which chats and cards a change touches, and why all others stay as they are. It has no logic of its own; its functions
//! are laws of the definition of a mailbox.
#![tactic(auto)]

mod laws;

pub use laws::{
    a_card_that_is_not_suspect_stays, a_change_is_told_ahead, a_chat_that_is_not_suspect_stays,
    a_repair_fits_the_cost, a_suspect_chat_has_a_suspect_card, a_suspect_chat_is_touched,
    a_touched_chat_is_suspect, building_later_fits_the_cost, moves_and_deadlines_tell_the_suspects,
    refolds_fit_the_cost,
};
