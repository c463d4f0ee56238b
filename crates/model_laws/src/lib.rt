//! What a user may rely on, whatever comes when: laws of the definition of a mailbox's pages.
#![tactic(auto)]

mod laws;

pub use laws::{
    answers_follow_from_the_present, copies_change_nothing, expunge_undoes_arrival,
    marks_change_marks_alone, only_deadlines_change_with_time, order_of_arrival_is_not_seen,
    strangers_change_little, unreadable_mails_are_lines,
};
