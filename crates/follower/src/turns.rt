//! Following the files to their end, with a commit whenever 256 changes are pending.
ghost use Rattle.std.specs.Prelude.{◌≡◌, ◌≤◌, ◌<◌, ◌⊎◌, ℕ, List, Option, None, false, IfErr, IfOk, IfSome, OnOk};
ghost use Rattle.kit.specs.Moments.{last_moment};
ghost use Rattle.mboxrd.specs.Reading as mbox_reading;
ghost use Rattle.outside.specs.Causes.{Rose};
ghost use Rattle.outside.specs.Moments.{IsKnown, LeavesOnly, WhereKnown};
ghost use Rattle.state_store.specs.Stored.{IsStored};
ghost use Rattle.steps_file.specs.Reading as steps_reading;
ghost use Rattle.keeper.specs.Keeping.{IsKept};
ghost use Rattle.follower.specs.Committing.{AllGo, CommitGoes, EndGoes, LastGoes, LastToCome, LinesToCome, MailsToCome, NothingToCome, OnWay, Outset, Prefix, RoundGoes, Way};
ghost use Rattle.follower.specs.Feed.{Feed, Files};
ghost use Rattle.state_store.specs.States.{max_changes};
ghost use Rattle.follower.specs.Following.{HasTaken, IsCause, IsFedFrom, IsFollowFault, Raises};
ghost use Rattle.follower.specs.Spending.{counts};
ghost use Rattle.follower.specs.declared.fault.RunFault.TheVariants as fault;

use crate::fault::RunFault;
use crate::follower::{Follower, Turned};
use kit::Steps;
use outside::{Shelf, Source};
use std::sync::ledger::Ledger;

/// The most changes of one commit.
const MAX_PENDING: u32 = 256;

/// Commits where 256 changes are pending. Takes memory.
///
/// - `goes`: of a run on its way, a crash at any moment leaves the state after the changes of whole commits.
pub fn commit_if_full<H: Shelf, L: Ledger>(
    follower: &mut Follower,
    shelf: &mut H,
    steps: &mut Steps<L>,
) -> Result<(), RunFault>
    requires usable { follower.old.failed ≡ false }
    requires few { follower.old.keeper.pending.count ≤ 256 }
    requires kept { WhereKnown (H.seen shelf.old) (IsKept follower.old.keeper) }
    requires stored { WhereKnown (H.seen shelf.old) (IsStored follower.old.keeper.store (H.may_leave shelf.old)) }
    ensures goes { (start : Outset) (feed others : Feed)
        → IsKnown (H.seen shelf.old) (Way start feed others follower.old.keeper (counts steps.old (H.written shelf.old)))
        → LeavesOnly H.moment H.left_since shelf.old shelf.new (Prefix start.state feed)
        × CommitGoes result start feed others follower.new.keeper (counts steps.new (H.written shelf.new)) (H.seen shelf.new) }
    ensures usable { OnOk result (follower.new.failed ≡ false) }
    ensures few { OnOk result (follower.new.keeper.pending.count < 256) }
    ensures kept { OnOk result (WhereKnown (H.seen shelf.new) (IsKept follower.new.keeper)) }
    ensures stored { OnOk result (WhereKnown (H.seen shelf.new) (IsStored follower.new.keeper.store (H.may_leave shelf.new))) }
    ensures state { follower.new.keeper.state ≡ follower.old.keeper.state }
    ensures mbox { follower.new.mbox ≡ follower.old.mbox }
    ensures lines { follower.new.lines ≡ follower.old.lines }
    ensures later { H.faults shelf.old ≤ H.faults shelf.new }
    ensures cause { IfErr result (IsCause ⊥ ⊥ (Rose (H.faults shelf.old) (H.faults shelf.new)) ⊥ follower.new) }
    ensures possible { IfErr result (λ why. (why ≡ fault.Disk) ⊎ (why ≡ fault.Memory)) }
{
    if follower.pending() < MAX_PENDING {
        return Ok(());
    }
    follower.commit(shelf, steps)
}

/// A turn of a mail, with a commit before it where one is due. Takes memory.
///
/// - `goes`: of a run on its way, a crash at any moment leaves the state after the changes of whole commits.
fn round_of_mail<M: Source, H: Shelf, L: Ledger>(
    follower: &mut Follower,
    mbox: &mut M,
    shelf: &mut H,
    steps: &mut Steps<L>,
) -> Result<Turned, RunFault>
    requires usable { follower.old.failed ≡ false }
    requires few { follower.old.keeper.pending.count ≤ 256 }
    requires kept { WhereKnown (H.seen shelf.old) (IsKept follower.old.keeper) }
    requires stored { WhereKnown (H.seen shelf.old) (IsStored follower.old.keeper.store (H.may_leave shelf.old)) }
    ensures goes { (files : Files) (start : Outset) (feed : Feed)
        → OnWay start feed (MailsToCome files follower.old (M.left mbox.old)) follower.old.keeper
        (counts steps.old (H.written shelf.old)) (H.seen shelf.old)
        → LeavesOnly H.moment H.left_since shelf.old shelf.new (Prefix start.state feed)
        × RoundGoes None result start feed (MailsToCome files follower.new (M.left mbox.new)) follower.new.keeper
        (counts steps.new (H.written shelf.new)) (H.seen shelf.new) (H.may_leave shelf.new) }
    ensures usable { OnOk result (follower.new.failed ≡ false) }
    ensures few { OnOk result (follower.new.keeper.pending.count ≤ 256) }
    ensures kept { OnOk result (WhereKnown (H.seen shelf.new) (IsKept follower.new.keeper)) }
    ensures stored { OnOk result (WhereKnown (H.seen shelf.new) (IsStored follower.new.keeper.store (H.may_leave shelf.new))) }
    ensures raised { IfOk result (Raises follower.old.keeper follower.new.keeper) }
    ensures later { M.faults mbox.old ≤ M.faults mbox.new }
    ensures shelf_later { H.faults shelf.old ≤ H.faults shelf.new }
    ensures cause { IfErr result (IsCause (Rose (M.faults mbox.old) (M.faults mbox.new)) ⊥
        (Rose (H.faults shelf.old) (H.faults shelf.new)) (HasTaken follower.new) follower.new) }
    ensures possible { IfErr result IsFollowFault }
    ensures took { (bytes : List ℕ) × mbox_reading.Takes (M.left mbox.old) (M.left mbox.new) follower.old.mbox follower.new.mbox bytes }
    ensures lines { follower.new.lines ≡ follower.old.lines }
{
    commit_if_full(follower, shelf, steps)?;
    follower.turn_mail(mbox, steps)
}

/// Follows all mails of the mbox. Takes memory.
///
/// - `goes`: of a run on its way, a crash at any moment leaves the state after the changes of whole commits, and all changes
///   that the mails give are made, or the reason why not is theirs.
pub fn follow_mails<M: Source, H: Shelf, L: Ledger>(
    follower: &mut Follower,
    mbox: &mut M,
    shelf: &mut H,
    steps: &mut Steps<L>,
) -> Result<(), RunFault>
    requires usable { follower.old.failed ≡ false }
    requires few { follower.old.keeper.pending.count ≤ 256 }
    requires kept { WhereKnown (H.seen shelf.old) (IsKept follower.old.keeper) }
    requires stored { WhereKnown (H.seen shelf.old) (IsStored follower.old.keeper.store (H.may_leave shelf.old)) }
    ensures goes { (files : Files) (start : Outset) (feed : Feed)
        → OnWay start feed (MailsToCome files follower.old (M.left mbox.old)) follower.old.keeper
        (counts steps.old (H.written shelf.old)) (H.seen shelf.old)
        → LeavesOnly H.moment H.left_since shelf.old shelf.new (Prefix start.state feed)
        × AllGo None result start feed follower.new.keeper
        (counts steps.new (H.written shelf.new)) (H.seen shelf.new) (H.may_leave shelf.new) }
    ensures usable { OnOk result (follower.new.failed ≡ false) }
    ensures few { OnOk result (follower.new.keeper.pending.count ≤ 256) }
    ensures kept { OnOk result (WhereKnown (H.seen shelf.new) (IsKept follower.new.keeper)) }
    ensures stored { OnOk result (WhereKnown (H.seen shelf.new) (IsStored follower.new.keeper.store (H.may_leave shelf.new))) }
    ensures later { M.faults mbox.old ≤ M.faults mbox.new }
    ensures shelf_later { H.faults shelf.old ≤ H.faults shelf.new }
    ensures cause { IfErr result (IsCause (Rose (M.faults mbox.old) (M.faults mbox.new)) ⊥
        (Rose (H.faults shelf.old) (H.faults shelf.new)) (HasTaken follower.new) follower.new) }
    ensures possible { IfErr result IsFollowFault }
    ensures took { (bytes : List ℕ) × mbox_reading.Takes (M.left mbox.old) (M.left mbox.new) follower.old.mbox follower.new.mbox bytes }
    ensures lines { follower.new.lines ≡ follower.old.lines }
{
    loop {
        match round_of_mail(follower, mbox, shelf, steps)? {
            Turned::Applied => {}
            Turned::End => return Ok(()),
        }
    }
}

/// A turn of a line, with a commit before it where one is due. Takes memory.
///
/// - `goes`: of a run on its way, a crash at any moment leaves the state after the changes of whole commits.
fn round_of_line<M: Source, S: Source, H: Shelf, L: Ledger>(
    follower: &mut Follower,
    mbox: &mut M,
    steps_file: &mut S,
    shelf: &mut H,
    steps: &mut Steps<L>,
) -> Result<Turned, RunFault>
    requires usable { follower.old.failed ≡ false }
    requires few { follower.old.keeper.pending.count ≤ 256 }
    requires place { follower.old.lines.place ≡ follower.old.keeper.state.position.steps }
    requires kept { WhereKnown (H.seen shelf.old) (IsKept follower.old.keeper) }
    requires stored { WhereKnown (H.seen shelf.old) (IsStored follower.old.keeper.store (H.may_leave shelf.old)) }
    ensures goes { (files : Files) (last : Option ℕ) (start : Outset) (feed : Feed)
        → OnWay start feed (LinesToCome files last follower.old (M.left mbox.old) (S.left steps_file.old)) follower.old.keeper
        (counts steps.old (H.written shelf.old)) (H.seen shelf.old)
        → LeavesOnly H.moment H.left_since shelf.old shelf.new (Prefix start.state feed)
        × RoundGoes last result start feed (LinesToCome files last follower.new (M.left mbox.new) (S.left steps_file.new)) follower.new.keeper
        (counts steps.new (H.written shelf.new)) (H.seen shelf.new) (H.may_leave shelf.new) }
    ensures usable { OnOk result (follower.new.failed ≡ false) }
    ensures few { OnOk result (follower.new.keeper.pending.count ≤ 256) }
    ensures place { OnOk result (follower.new.lines.place ≡ follower.new.keeper.state.position.steps) }
    ensures fed { OnOk result (IsFedFrom follower.old.keeper.state follower.new) }
    ensures kept { OnOk result (WhereKnown (H.seen shelf.new) (IsKept follower.new.keeper)) }
    ensures stored { OnOk result (WhereKnown (H.seen shelf.new) (IsStored follower.new.keeper.store (H.may_leave shelf.new))) }
    ensures raised { IfOk result (Raises follower.old.keeper follower.new.keeper) }
    ensures mbox_later { M.faults mbox.old ≤ M.faults mbox.new }
    ensures steps_later { S.faults steps_file.old ≤ S.faults steps_file.new }
    ensures shelf_later { H.faults shelf.old ≤ H.faults shelf.new }
    ensures cause { IfErr result (IsCause (Rose (M.faults mbox.old) (M.faults mbox.new))
        (Rose (S.faults steps_file.old) (S.faults steps_file.new)) (Rose (H.faults shelf.old) (H.faults shelf.new))
        (HasTaken follower.new) follower.new) }
    ensures possible { IfErr result IsFollowFault }
    ensures mbox_took { (bytes : List ℕ) × mbox_reading.Takes (M.left mbox.old) (M.left mbox.new) follower.old.mbox follower.new.mbox bytes }
    ensures steps_took { (bytes : List ℕ) × steps_reading.Takes (S.left steps_file.old) (S.left steps_file.new) follower.old.lines follower.new.lines bytes }
{
    commit_if_full(follower, shelf, steps)?;
    follower.turn_line(mbox, steps_file, steps)
}

/// Follows all lines of the steps file, and the mails of the mbox that they take. Takes memory.
///
/// - `goes`: of a run on its way, a crash at any moment leaves the state after the changes of whole commits, and all changes
///   that the lines give are made, or the reason why not is theirs.
pub fn follow_lines<M: Source, S: Source, H: Shelf, L: Ledger>(
    follower: &mut Follower,
    mbox: &mut M,
    steps_file: &mut S,
    shelf: &mut H,
    steps: &mut Steps<L>,
) -> Result<(), RunFault>
    requires usable { follower.old.failed ≡ false }
    requires few { follower.old.keeper.pending.count ≤ 256 }
    requires place { follower.old.lines.place ≡ follower.old.keeper.state.position.steps }
    requires kept { WhereKnown (H.seen shelf.old) (IsKept follower.old.keeper) }
    requires stored { WhereKnown (H.seen shelf.old) (IsStored follower.old.keeper.store (H.may_leave shelf.old)) }
    ensures goes { (files : Files) (last : Option ℕ) (start : Outset) (feed : Feed)
        → OnWay start feed (LinesToCome files last follower.old (M.left mbox.old) (S.left steps_file.old)) follower.old.keeper
        (counts steps.old (H.written shelf.old)) (H.seen shelf.old)
        → LeavesOnly H.moment H.left_since shelf.old shelf.new (Prefix start.state feed)
        × AllGo last result start feed follower.new.keeper
        (counts steps.new (H.written shelf.new)) (H.seen shelf.new) (H.may_leave shelf.new) }
    ensures usable { OnOk result (follower.new.failed ≡ false) }
    ensures few { OnOk result (follower.new.keeper.pending.count ≤ 256) }
    ensures fed { OnOk result (IsFedFrom follower.old.keeper.state follower.new) }
    ensures kept { OnOk result (WhereKnown (H.seen shelf.new) (IsKept follower.new.keeper)) }
    ensures stored { OnOk result (WhereKnown (H.seen shelf.new) (IsStored follower.new.keeper.store (H.may_leave shelf.new))) }
    ensures mbox_later { M.faults mbox.old ≤ M.faults mbox.new }
    ensures steps_later { S.faults steps_file.old ≤ S.faults steps_file.new }
    ensures shelf_later { H.faults shelf.old ≤ H.faults shelf.new }
    ensures cause { IfErr result (IsCause (Rose (M.faults mbox.old) (M.faults mbox.new))
        (Rose (S.faults steps_file.old) (S.faults steps_file.new)) (Rose (H.faults shelf.old) (H.faults shelf.new))
        (HasTaken follower.new) follower.new) }
    ensures possible { IfErr result IsFollowFault }
    ensures mbox_took { (bytes : List ℕ) × mbox_reading.Takes (M.left mbox.old) (M.left mbox.new) follower.old.mbox follower.new.mbox bytes }
    ensures steps_took { (bytes : List ℕ) × steps_reading.Takes (S.left steps_file.old) (S.left steps_file.new) follower.old.lines follower.new.lines bytes }
{
    loop {
        match round_of_line(follower, mbox, steps_file, shelf, steps)? {
            Turned::Applied => {}
            Turned::End => return Ok(()),
        }
    }
}

/// Makes the moment that comes last, where there is one. Takes memory.
///
/// - `goes`: of a run that has made all else, a crash at any moment leaves the state after the changes of whole commits, and
///   the moment is made, or the count of changes has no room for it.
pub fn make_last<H: Shelf, L: Ledger>(
    follower: &mut Follower,
    last: Option<u64>,
    shelf: &mut H,
    steps: &mut Steps<L>,
) -> Result<(), RunFault>
    requires usable { follower.old.failed ≡ false }
    requires moment { IfSome last (λ moment. moment ≤ last_moment) }
    requires few { follower.old.keeper.pending.count ≤ 256 }
    requires kept { WhereKnown (H.seen shelf.old) (IsKept follower.old.keeper) }
    requires stored { WhereKnown (H.seen shelf.old) (IsStored follower.old.keeper.store (H.may_leave shelf.old)) }
    ensures goes { (start : Outset) (feed : Feed)
        → OnWay start feed (LastToCome last follower.old.keeper) follower.old.keeper
        (counts steps.old (H.written shelf.old)) (H.seen shelf.old)
        → LeavesOnly H.moment H.left_since shelf.old shelf.new (Prefix start.state feed)
        × LastGoes result start feed follower.new.keeper
        (counts steps.new (H.written shelf.new)) (H.seen shelf.new) (H.may_leave shelf.new) }
    ensures usable { OnOk result (follower.new.failed ≡ false) }
    ensures kept { OnOk result (WhereKnown (H.seen shelf.new) (IsKept follower.new.keeper)) }
    ensures stored { OnOk result (WhereKnown (H.seen shelf.new) (IsStored follower.new.keeper.store (H.may_leave shelf.new))) }
    ensures later { H.faults shelf.old ≤ H.faults shelf.new }
    ensures cause { IfErr result (IsCause ⊥ ⊥ (Rose (H.faults shelf.old) (H.faults shelf.new))
        (max_changes ≤ follower.old.keeper.state.position.count) follower.new) }
    ensures possible { IfErr result IsFollowFault }
    ensures mbox { follower.new.mbox ≡ follower.old.mbox }
    ensures lines { follower.new.lines ≡ follower.old.lines }
{
    let Some(moment) = last else {
        return Ok(());
    };
    commit_if_full(follower, shelf, steps)?;
    follower.at(moment, steps)
}

/// Commits all that is pending, where nothing is to come. Takes memory.
///
/// - `goes`: of a run that has made all changes, a crash at any moment leaves the state after the changes of whole commits or
///   after all, and after Ok the last.
pub fn commit_all<H: Shelf, L: Ledger>(
    follower: &mut Follower,
    shelf: &mut H,
    steps: &mut Steps<L>,
) -> Result<(), RunFault>
    requires usable { follower.old.failed ≡ false }
    requires kept { WhereKnown (H.seen shelf.old) (IsKept follower.old.keeper) }
    requires stored { WhereKnown (H.seen shelf.old) (IsStored follower.old.keeper.store (H.may_leave shelf.old)) }
    ensures goes { (start : Outset) (feed : Feed) → OnWay start feed NothingToCome follower.old.keeper
        (counts steps.old (H.written shelf.old)) (H.seen shelf.old)
        → LeavesOnly H.moment H.left_since shelf.old shelf.new (Prefix start.state feed)
        × EndGoes result start feed follower.new.keeper (counts steps.new (H.written shelf.new)) (H.may_leave shelf.new) }
    ensures usable { OnOk result (follower.new.failed ≡ false) }
    ensures later { H.faults shelf.old ≤ H.faults shelf.new }
    ensures cause { IfErr result (IsCause ⊥ ⊥ (Rose (H.faults shelf.old) (H.faults shelf.new)) ⊥ follower.new) }
    ensures possible { IfErr result (λ why. (why ≡ fault.Disk) ⊎ (why ≡ fault.Memory)) }
    ensures mbox { follower.new.mbox ≡ follower.old.mbox }
    ensures lines { follower.new.lines ≡ follower.old.lines }
{
    follower.commit(shelf, steps)
}
