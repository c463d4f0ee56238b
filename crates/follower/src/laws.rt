//! A law of runs. Its function does nothing: its clause speaks of all states and files.
ghost use Rattle.follower.specs.Resuming.{ChangesGoOn};

/// A run that was stopped goes on with the changes that were left, also where its files have grown since: it comes to the
/// mailbox to which it would have come at once.
pub fn changes_go_on()
    ensures { ChangesGoOn }
{}
