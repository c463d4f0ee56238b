//! Laws of runs. Their functions do nothing: a clause speaks of what any two runs find.
ghost use Rattle.follow.specs.Rest.{KeptChangesStay, RunAfterACrash, TheRest};

use outside::Shelf;

/// A run that was stopped can be run again: whatever it kept of its changes, the same words then get the answer that an
/// unstopped run gives over the files as they are at the second run.
///
/// The mbox may have grown by whole mails, and the steps file by any bytes, but by none where a moment is given with it.
/// Neither run meets a change with a count of 2^62. A moment that both runs make changes nothing the second time.
pub fn following_the_rest()
    ensures { TheRest }
{}

/// A change that was acknowledged stays: whatever a crash at some moment of a run over a shelf leaves, no fewer changes are
/// kept than the run found. The reference is to the shelf before the run.
///
/// What the run found stands in each crash outcome at its start, as it does after each run that ended well and after each
/// crash, and it is the state of its address.
pub fn kept_changes_stay<H: Shelf>(shelf: &H)
    ensures { KeptChangesStay (H.may_leave shelf.now) }
{}

/// A run that a crash stopped can be run again: over whatever the crash left, the same words get the answer that they would
/// have got at once. The reference is to the shelf before the run that was stopped.
///
/// The files may have grown as in [`following_the_rest`], and the moment is the same. What the clause `crash` of
/// [`run`](crate::run) says of a moment is all that is known of the crash.
pub fn running_after_a_crash<H: Shelf>(shelf: &H)
    ensures { RunAfterACrash (H.may_leave shelf.now) }
{}
