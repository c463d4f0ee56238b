//! Laws of the definition of the mails of an mbox. Each is the contract of a function that does nothing, and speaks of
//! any bytes.
ghost use Rattle.mboxrd.specs.Growth.{ClosedFrom, MailsGrow, MailsGoOn};

/// An mbox that is empty, or ends with an empty line, grows by whole mails: where what is added begins with a separator
/// line, the mails are those of before, each with its bytes and its end, and then those of what was added. From any
/// offset on, such an mbox is one as well.
#[tactic(auto, using(crate::proofs::Grown::mails_grow, crate::proofs::Grown::closed_from))]
pub fn mails_of_before_stay()
    ensures mails { MailsGrow }
    ensures from { ClosedFrom }
{}

/// The end of a mail is where to go on: from there on, the mails are those that come after it.
#[tactic(auto, using(crate::proofs::GoingOn::mails_go_on))]
pub fn others_follow_a_mail()
    ensures { MailsGoOn }
{}
