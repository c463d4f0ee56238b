//! The answer to a question on an engine, as it is printed.
#![tactic(auto)]

mod fault;
mod print;
mod question;
mod wanted;

pub use fault::AnswerFault;
pub use print::print_answer;
pub use question::Question;
