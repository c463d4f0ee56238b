//! A trial: the trial mailbox with a number is made in memory, its mails arrive, and one line says what the mailbox then
//! shows. It uses no file and no clock, and gives the same line at each run.
#![tactic(auto)]

mod box_mails;
mod fault;
mod made;
mod print;
mod summary;

pub use fault::TrialFault;
pub use print::print_trial;
