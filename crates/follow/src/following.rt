//! A run follows its files: it opens what is kept, goes on from there, and commits.
ghost use Rattle.kit.specs.Chains.{no_cut};
ghost use Rattle.std.specs.Prelude.{◌≡◌, ◌⊎◌, ◌≤◌, ◌+◌, ◌^◌, ◌&&◌, List, ℕ, [], None, Some, Ok, false, IfErr, IfOk, IfSome, OnOk, is_none, not, unwrap_or};
ghost use Rattle.kit.specs.Moments.{last_moment};
ghost use Rattle.mailbox_model.specs.Lists.{Bytes};
ghost use Rattle.outside.specs.Causes.{Rose};
ghost use Rattle.outside.specs.Moments.{IsKnown, LeavesOnly, Reached, WhereKnown};
ghost use Rattle.outside.specs.Places.{Places};
ghost use Rattle.state_store.specs.States.{max_changes};
ghost use Rattle.state_store.specs.Stands.{found_of, stands};
ghost use Rattle.state_store.specs.Commits.{fill_of};
ghost use Rattle.state_store.specs.Stored.{IsStored, fill_in};
ghost use Rattle.keeper.specs.Keeping.{IsKept};
ghost use Rattle.keeper.specs.Opening.{opening_cost};
ghost use Rattle.tail_journal.specs.Pending.{none_pending};
ghost use Rattle.mboxrd.specs.Mails.{Mail};
ghost use Rattle.mboxrd.specs.Reading as mbox_reading;
ghost use Rattle.steps_file.specs.Reading as steps_reading;
ghost use Rattle.follower.specs.Committing.{EndGoes, Prefix, outset};
ghost use Rattle.follower.specs.Feed.{Feed, Files, mails_feed};
ghost use Rattle.follower.specs.Following.{HasTaken, IsCause, IsFollowFault, StandsInMbox, StandsInSteps, mails_ahead, to_come};
ghost use Rattle.follower.specs.Spending.{RoseWithin, counts};
ghost use Rattle.follow.specs.Outcome.{AsksClock, CauseOf, ClockGives, Found, Gave, GaveNone, Kept, MayStand, SameState, TakesUpTo, Tells, TellsSteps, follow_spends, given_of, mbox_budget, mbox_found, steps_budget, steps_found};
ghost use Rattle.follow.specs.Replies.{BeginGoes, FollowGoes, IsState, Took};
ghost use Rattle.follow.specs.Statuses.{refusal_of};

use follower::{Follower, RunFault, commit_all, follow_lines, follow_mails, make_last};
use kit::{Addr, Steps};
use outside::{Clock, Shelf, Source};
use std::alloc::Global;
use std::sync::ledger::Ledger;

/// The moment of a run without a steps file, for which the clock is asked where the words give none.
fn moment_or_now<C: Clock>(at: Option<u64>, clock: &mut C) -> u64
    requires { IfSome at (λ moment. moment ≤ last_moment) }
    ensures bound { result ≤ last_moment }
    ensures value { (next : ℕ) → ClockGives (is_none at) (C.next clock.old) next → result ≡ unwrap_or at next }
    ensures clock { AsksClock C.asked (is_none at) clock.old clock.new ⊥ }
{
    match at {
        Some(moment) => moment,
        None => clock.now(),
    }
}

/// Opens what the shelf keeps for an own address, and passes over what was followed of the mbox.
fn begin<M: Source, H: Shelf, L: Ledger>(
    alloc: Global,
    me: &Addr,
    mbox: &mut M,
    shelf: &mut H,
    steps: &mut Steps<L>,
) -> Result<Follower, RunFault>
    ensures goes { (bytes : Bytes) (places : Places) → M.left mbox.old ≡ Some bytes → H.seen shelf.old ≡ Some places
        → LeavesOnly H.moment H.left_since shelf.old shelf.new (Reached (H.may_leave shelf.old) (SameState me.now))
        × BeginGoes me.now bytes (stands me.now places) result (M.left mbox.new) (H.seen shelf.new) (H.may_leave shelf.new) }
    ensures opens { IfOk result (λ f. WhereKnown (H.seen shelf.old) (λ places. stands me.now places ≡ Ok f.keeper.state)) }
    ensures fill { IfOk result (λ f. WhereKnown (H.seen shelf.old) (λ places. fill_of f.keeper.store ≡ fill_in places)) }
    ensures cost { WhereKnown (H.seen shelf.old) (λ places. steps.new ≤ steps.old + opening_cost me.now (found_of places)) }
    ensures written { H.written shelf.new ≡ H.written shelf.old }
    ensures usable { IfOk result (λ f. f.failed ≡ false) }
    ensures pending { IfOk result (λ f. f.keeper.pending ≡ none_pending) }
    ensures kept { IfOk result (λ f. WhereKnown (H.seen shelf.new) (IsKept f.keeper)) }
    ensures stored { IfOk result (λ f. WhereKnown (H.seen shelf.new) (IsStored f.keeper.store (H.may_leave shelf.new))) }
    ensures mbox_took { IfOk result (λ f. Took (M.left mbox.old) (M.left mbox.new) mbox_budget (mbox_reading.buffered f.mbox)) }
    ensures lines { IfOk result (λ f. (f.lines.held ≡ []) × (f.lines.taken ≡ 0) × (f.lines.budget ≡ 2 ^ 32) × (f.lines.place ≡ 0) × (f.lines.trace ≡ no_cut)) }
    ensures mbox_later { M.faults mbox.old ≤ M.faults mbox.new }
    ensures shelf_later { H.faults shelf.old ≤ H.faults shelf.new }
    ensures cause { IfErr result (λ why. CauseOf (Rose (M.faults mbox.old) (M.faults mbox.new)) ⊥ (Rose (H.faults shelf.old) (H.faults shelf.new))
        (Gave (M.left mbox.old) (M.left mbox.new)) GaveNone (Kept me.now (H.seen shelf.old)) (refusal_of me.now why)) }
    ensures took { TakesUpTo (M.left mbox.old) (M.left mbox.new) mbox_budget }
{
    let mut follower = Follower::open(alloc, me, shelf, steps)?;
    follower.start_mbox(mbox)?;
    Ok(follower)
}

/// Makes a moment, follows all mails, and commits what is pending.
fn follow_mails_to_end<M: Source, H: Shelf, L: Ledger>(
    follower: &mut Follower,
    moment: u64,
    mbox: &mut M,
    shelf: &mut H,
    steps: &mut Steps<L>,
) -> Result<(), RunFault>
    requires moment { moment ≤ last_moment }
    requires usable { follower.old.failed ≡ false }
    requires pending { follower.old.keeper.pending ≡ none_pending }
    requires kept { WhereKnown (H.seen shelf.old) (IsKept follower.old.keeper) }
    requires stored { WhereKnown (H.seen shelf.old) (IsStored follower.old.keeper.store (H.may_leave shelf.old)) }
    ensures goes { (files : Files) (rest : Bytes) (mails : List Mail) → M.left mbox.old ≡ Some rest → StandsInMbox files follower.old rest
        → mails ≡ mails_ahead follower.old rest → IsKnown (H.seen shelf.old) (IsState follower.old.keeper.state)
        → LeavesOnly H.moment H.left_since shelf.old shelf.new (Prefix follower.old.keeper.state (mails_feed files follower.old.keeper.state mails (Some moment)))
        × EndGoes result (outset follower.old.keeper (counts steps.old (H.written shelf.old))) (mails_feed files follower.old.keeper.state mails (Some moment))
        follower.new.keeper (counts steps.new (H.written shelf.new)) (H.may_leave shelf.new) }
    ensures usable { OnOk result (follower.new.failed ≡ false) }
    ensures mbox_later { M.faults mbox.old ≤ M.faults mbox.new }
    ensures shelf_later { H.faults shelf.old ≤ H.faults shelf.new }
    ensures cause { IfErr result (IsCause (Rose (M.faults mbox.old) (M.faults mbox.new)) ⊥ (Rose (H.faults shelf.old) (H.faults shelf.new))
        (HasTaken follower.new ⊎ (max_changes ≤ follower.old.keeper.state.position.count)) follower.new) }
    ensures possible { IfErr result IsFollowFault }
    ensures took { (bytes : List ℕ) × mbox_reading.Takes (M.left mbox.old) (M.left mbox.new) follower.old.mbox follower.new.mbox bytes }
    ensures lines { follower.new.lines ≡ follower.old.lines }
{
    follower.at(moment, steps)?;
    follow_mails(follower, mbox, shelf, steps)?;
    commit_all(follower, shelf, steps)
}

/// Follows all lines, makes the moment that comes last, where there is one, and commits what is pending.
fn follow_lines_to_end<M: Source, S: Source, H: Shelf, L: Ledger>(
    follower: &mut Follower,
    last: Option<u64>,
    mbox: &mut M,
    steps_file: &mut S,
    shelf: &mut H,
    steps: &mut Steps<L>,
) -> Result<(), RunFault>
    requires moment { IfSome last (λ moment. moment ≤ last_moment) }
    requires usable { follower.old.failed ≡ false }
    requires pending { follower.old.keeper.pending ≡ none_pending }
    requires place { follower.old.lines.place ≡ follower.old.keeper.state.position.steps }
    requires kept { WhereKnown (H.seen shelf.old) (IsKept follower.old.keeper) }
    requires stored { WhereKnown (H.seen shelf.old) (IsStored follower.old.keeper.store (H.may_leave shelf.old)) }
    ensures goes { (files : Files) (rest left : Bytes) (feed : Feed) → M.left mbox.old ≡ Some rest → S.left steps_file.old ≡ Some left
        → StandsInMbox files follower.old rest → StandsInSteps files follower.old left
        → feed ≡ to_come files last follower.old rest (Some left) → IsKnown (H.seen shelf.old) (IsState follower.old.keeper.state)
        → LeavesOnly H.moment H.left_since shelf.old shelf.new (Prefix follower.old.keeper.state feed)
        × EndGoes result (outset follower.old.keeper (counts steps.old (H.written shelf.old))) feed
        follower.new.keeper (counts steps.new (H.written shelf.new)) (H.may_leave shelf.new) }
    ensures usable { OnOk result (follower.new.failed ≡ false) }
    ensures mbox_later { M.faults mbox.old ≤ M.faults mbox.new }
    ensures steps_later { S.faults steps_file.old ≤ S.faults steps_file.new }
    ensures shelf_later { H.faults shelf.old ≤ H.faults shelf.new }
    ensures cause { IfErr result (IsCause (Rose (M.faults mbox.old) (M.faults mbox.new)) (Rose (S.faults steps_file.old) (S.faults steps_file.new))
        (Rose (H.faults shelf.old) (H.faults shelf.new)) (HasTaken follower.new ⊎ (max_changes ≤ follower.old.keeper.state.position.count)) follower.new) }
    ensures possible { IfErr result IsFollowFault }
    ensures mbox_took { (bytes : List ℕ) × mbox_reading.Takes (M.left mbox.old) (M.left mbox.new) follower.old.mbox follower.new.mbox bytes }
    ensures steps_took { (bytes : List ℕ) × steps_reading.Takes (S.left steps_file.old) (S.left steps_file.new) follower.old.lines follower.new.lines bytes }
{
    follow_lines(follower, mbox, steps_file, shelf, steps)?;
    make_last(follower, last, shelf, steps)?;
    commit_all(follower, shelf, steps)
}

/// Follows the mbox alone from what is kept: a moment comes, and then all mails arrive.
fn follow_mbox<M: Source, H: Shelf, C: Clock, L: Ledger>(
    alloc: Global,
    me: &Addr,
    at: Option<u64>,
    mbox: &mut M,
    shelf: &mut H,
    clock: &mut C,
    steps: &mut Steps<L>,
) -> Result<Follower, RunFault>
    requires { IfSome at (λ moment. moment ≤ last_moment) }
    ensures goes { (bytes : Bytes) (places : Places) (next : ℕ) → M.left mbox.old ≡ Some bytes → H.seen shelf.old ≡ Some places
        → ClockGives (is_none at) (C.next clock.old) next
        → LeavesOnly H.moment H.left_since shelf.old shelf.new (MayStand (given_of me.now at (mbox_found bytes places next)) (H.may_leave shelf.old))
        × FollowGoes result (given_of me.now at (mbox_found bytes places next)) (H.may_leave shelf.new) }
    ensures spends { (bytes : Bytes) (places : Places) (next : ℕ) → M.left mbox.old ≡ Some bytes → H.seen shelf.old ≡ Some places
        → ClockGives (is_none at) (C.next clock.old) next
        → RoseWithin (counts steps.old (H.written shelf.old)) (follow_spends (given_of me.now at (mbox_found bytes places next)))
        (counts steps.new (H.written shelf.new)) }
    ensures usable { IfOk result (λ f. f.failed ≡ false) }
    ensures mbox_later { M.faults mbox.old ≤ M.faults mbox.new }
    ensures shelf_later { H.faults shelf.old ≤ H.faults shelf.new }
    ensures cause { IfErr result (λ why. CauseOf (Rose (M.faults mbox.old) (M.faults mbox.new)) ⊥ (Rose (H.faults shelf.old) (H.faults shelf.new))
        (Gave (M.left mbox.old) (M.left mbox.new)) GaveNone (Kept me.now (H.seen shelf.old)) (refusal_of me.now why)) }
    ensures took { TakesUpTo (M.left mbox.old) (M.left mbox.new) mbox_budget }
    ensures clock { AsksClock C.asked (is_none at) clock.old clock.new ⊥ }
{
    let moment = moment_or_now(at, clock);
    let mut follower = begin(alloc, me, mbox, shelf, steps)?;
    follower.check_inputs(false)?;
    follow_mails_to_end(&mut follower, moment, mbox, shelf, steps)?;
    Ok(follower)
}

/// Follows the steps file from what is kept, and then a moment comes where the words give one.
fn follow_steps<M: Source, S: Source, H: Shelf, L: Ledger>(
    alloc: Global,
    me: &Addr,
    at: Option<u64>,
    mbox: &mut M,
    steps_file: &mut S,
    shelf: &mut H,
    steps: &mut Steps<L>,
) -> Result<Follower, RunFault>
    requires { IfSome at (λ moment. moment ≤ last_moment) }
    ensures goes { (bytes lines : Bytes) (places : Places) (next : ℕ) → M.left mbox.old ≡ Some bytes → S.left steps_file.old ≡ Some lines
        → H.seen shelf.old ≡ Some places
        → LeavesOnly H.moment H.left_since shelf.old shelf.new (MayStand (given_of me.now at (steps_found bytes lines places next)) (H.may_leave shelf.old))
        × FollowGoes result (given_of me.now at (steps_found bytes lines places next)) (H.may_leave shelf.new) }
    ensures spends { (bytes lines : Bytes) (places : Places) (next : ℕ) → M.left mbox.old ≡ Some bytes → S.left steps_file.old ≡ Some lines
        → H.seen shelf.old ≡ Some places
        → RoseWithin (counts steps.old (H.written shelf.old)) (follow_spends (given_of me.now at (steps_found bytes lines places next)))
        (counts steps.new (H.written shelf.new)) }
    ensures usable { IfOk result (λ f. f.failed ≡ false) }
    ensures mbox_later { M.faults mbox.old ≤ M.faults mbox.new }
    ensures steps_later { S.faults steps_file.old ≤ S.faults steps_file.new }
    ensures shelf_later { H.faults shelf.old ≤ H.faults shelf.new }
    ensures cause { IfErr result (λ why. CauseOf (Rose (M.faults mbox.old) (M.faults mbox.new)) (Rose (S.faults steps_file.old) (S.faults steps_file.new))
        (Rose (H.faults shelf.old) (H.faults shelf.new)) (Gave (M.left mbox.old) (M.left mbox.new)) (Gave (S.left steps_file.old) (S.left steps_file.new))
        (Kept me.now (H.seen shelf.old)) (refusal_of me.now why)) }
    ensures mbox_took { TakesUpTo (M.left mbox.old) (M.left mbox.new) mbox_budget }
    ensures steps_took { TakesUpTo (S.left steps_file.old) (S.left steps_file.new) steps_budget }
{
    let mut follower = begin(alloc, me, mbox, shelf, steps)?;
    follower.start_lines(steps_file)?;
    follower.check_inputs(true)?;
    follow_lines_to_end(&mut follower, at, mbox, steps_file, shelf, steps)?;
    Ok(follower)
}

/// Follows the files, with a flag that says whether a steps file is given.
pub fn follow_files<M: Source, S: Source, H: Shelf, C: Clock, L: Ledger>(
    alloc: Global,
    me: &Addr,
    at: Option<u64>,
    given: bool,
    mbox: &mut M,
    steps_file: &mut S,
    shelf: &mut H,
    clock: &mut C,
    steps: &mut Steps<L>,
) -> Result<Follower, RunFault>
    requires { IfSome at (λ moment. moment ≤ last_moment) }
    ensures goes { (found : Found) → Tells (M.left mbox.old) (TellsSteps given (S.left steps_file.old)) (H.seen shelf.old)
        (ClockGives (not given && is_none at) (C.next clock.old)) found
        → LeavesOnly H.moment H.left_since shelf.old shelf.new (MayStand (given_of me.now at found) (H.may_leave shelf.old))
        × FollowGoes result (given_of me.now at found) (H.may_leave shelf.new) }
    ensures spends { (found : Found) → Tells (M.left mbox.old) (TellsSteps given (S.left steps_file.old)) (H.seen shelf.old)
        (ClockGives (not given && is_none at) (C.next clock.old)) found
        → RoseWithin (counts steps.old (H.written shelf.old)) (follow_spends (given_of me.now at found)) (counts steps.new (H.written shelf.new)) }
    ensures usable { IfOk result (λ f. f.failed ≡ false) }
    ensures shelf_later { H.faults shelf.old ≤ H.faults shelf.new }
    ensures cause { IfErr result (λ why. CauseOf (Rose (M.faults mbox.old) (M.faults mbox.new)) (Rose (S.faults steps_file.old) (S.faults steps_file.new))
        (Rose (H.faults shelf.old) (H.faults shelf.new)) (Gave (M.left mbox.old) (M.left mbox.new)) (Gave (S.left steps_file.old) (S.left steps_file.new))
        (Kept me.now (H.seen shelf.old)) (refusal_of me.now why)) }
    ensures mbox_took { TakesUpTo (M.left mbox.old) (M.left mbox.new) mbox_budget }
    ensures steps_took { TakesUpTo (S.left steps_file.old) (S.left steps_file.new) steps_budget }
    ensures clock { AsksClock C.asked (not given && is_none at) clock.old clock.new ⊥ }
{
    if given {
        follow_steps(alloc, me, at, mbox, steps_file, shelf, steps)
    } else {
        follow_mbox(alloc, me, at, mbox, shelf, clock, steps)
    }
}
