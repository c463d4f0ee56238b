//! The follower of a mailbox: it makes the changes of its files one after the other, and commits them.
ghost use Rattle.std.specs.Prelude.{◌≡◌, ◌≤◌, ◌+◌, ◌^◌, ◌⊎◌, ◌<◌, ◌≢◌, ℕ, List, [], length, is_some, Option, Some, None, Ok, false, true, IfOk, IfErr, IfSome, IsErrOf, OnOk, OnErr, is_err};
ghost use Rattle.kit.specs.Chains.{no_cut};
ghost use Rattle.kit.specs.Moments.{last_moment};
ghost use Rattle.indexes.specs.Costs.{load};
ghost use Rattle.mailbox_model.specs.Lists.{Bytes};
ghost use Rattle.mailbox_model.specs.Mailbox.{IsValidChange};
ghost use Rattle.mboxrd.specs.Reading as mbox_reading;
ghost use Rattle.outside.specs.Causes.{Rose};
ghost use Rattle.outside.specs.Crash.{RisesUpTo};
ghost use Rattle.outside.specs.Moments.{LeavesOnly, Reached, WhereKnown, KnownThen};
ghost use Rattle.outside.specs.Places.{Places};
ghost use Rattle.source_buffer.specs.Known.{IfKnown};
ghost use Rattle.state_store.specs.Commits.{OldOrNew, commit_reads, commit_writes, fill_of, fill_with};
ghost use Rattle.state_store.specs.Stands.{found_of, stands};
ghost use Rattle.state_store.specs.Stored.{IsStored, SameFound, fill_in};
ghost use Rattle.steps_file.specs.Reading as steps_reading;
ghost use Rattle.touched_chats.specs.Costs.{change_cost};
ghost use Rattle.state_store.specs.States.{IsWithin};
ghost use Rattle.keeper.specs.Keeping.{IsKept, is_refused};
ghost use Rattle.keeper.specs.Opening.{AllFindSame, opening_cost};
ghost use Rattle.tail_journal.specs.Pending.{none_pending, with_change};
ghost use Rattle.follower.specs.Feed.{Files, after_fed, moment_fed};
ghost use Rattle.follower.specs.Inputs.{GivesOther, IsPassedOver, is_same, other_of};
ghost use Rattle.follower.specs.Following.{Adds, ArrivesNext, HasTaken, IsCause, IsFedFrom, IsKeepFault, IsTurnFault, LacksMail, LineCosts, LineTurn, MailCosts, MailTurn, Makes, MakesMoment, ReadsForOne, StandsInMbox, TurnAdds, mails_ahead};
ghost use Rattle.follower.specs.Opening.{OnOtherMe, Opens, StartsLines, StartsMbox};
ghost use Rattle.follower.specs.declared.fault.Input.TheVariants.{Mbox};
ghost use Rattle.follower.specs.declared.fault.RunFault.TheVariants as fault;
ghost use Rattle.mailbox_model.specs.declared.change.Change.TheVariants.{At};

use crate::fault::{Input, RunFault};
use crate::position::{at_line, at_mail, counted};
use arrivals::arrival_of;
use engine::Engine;
use keeper::Keeper;
use kit::{Addr, Steps};
use mailbox_model::Change;
use mboxrd::MboxReader;
use outside::{Shelf, Source};
use state_image::Position;
use std::alloc::Global;
use std::marker::Model;
use std::sync::ledger::Ledger;
use steps_file::{Step, StepsReader, Taken};

/// So many bytes of the mbox are taken at once, at most.
const MBOX_CHUNK: usize = 65_536;

/// So many bytes of the mbox may be taken: 64 GiB.
const MBOX_BUDGET: u64 = 68_719_476_736;

/// So many bytes of the steps file are taken at once, at most.
const STEPS_CHUNK: usize = 4_096;

/// So many bytes of the steps file may be taken: 4 GiB.
const STEPS_BUDGET: u64 = 4_294_967_296;

/// Whether the trace that was kept is this one, or none was kept, which 32 zero bytes stand for.
fn is_same(kept: &[u8; 32], now: &[u8; 32]) -> bool
    ensures { result ≡ is_same kept.now now.now }
{
    kept == &[0; 32] || kept == now
}

/// What a turn did.
#[derive(Clone, Copy, Debug, PartialEq, Eq)]
pub enum Turned {
    /// It made the next change.
    Applied,
    /// There was none.
    End,
}

/// Follows the files of a mailbox and keeps what it followed: each turn makes the next change, and a commit makes the
/// changes lasting. After a call that failed it may only be dropped.
#[derive(Drop)]
pub struct Follower {
    alloc: Global,
    keeper: Keeper,
    mbox: MboxReader,
    lines: StepsReader,
    failed: bool,
}

impl Model for Follower {
    ghost use Rattle.std.specs.Prelude.{◌≡◌, false};
    ghost use Rattle.follower.specs.Following.{Following};

    ghost Value = { Following };

    ghost view = { λ f. record { keeper = f.keeper; mbox = f.mbox; lines = f.lines; failed = f.failed } };

    ghost invariant = { λ f. f.failed ≡ false → (f.keeper.stale ≡ false) × (f.mbox.refused ≡ false) × (f.lines.refused ≡ false) };
}

impl Follower {
    /// Opens what a shelf keeps, for an own address: a follower of the state that stands, with no change pending, whose
    /// readers are at the start of their files. Where nothing is kept that is the empty mailbox of the address. Takes memory.
    ///
    /// `Disk` comes only at a fault of the shelf, `Damaged` exactly where what is kept is damaged, with the place and the
    /// offset there, and `OtherMe` exactly where a whole state of another address is kept.
    ///
    /// - `opens`: what is opened is the state that stands in what the reads give at the start.
    /// - `kept`, `stored`, `same`: after Ok the shelf is settled for the follower, and the same is found there.
    /// - `any_moment`: a crash at any moment leaves that in which the same is found as in what it might have left at the start.
    /// - `other`: after `OtherMe` each crash outcome has that in which the same is found as in what the reads gave at the start.
    /// - `load`, `cost`: it reads kept cards no more often than the load of the mailbox says, whatever is answered, nor than that
    ///   of what the chosen slot keeps and the cost of each change after it.
    pub fn open<H: Shelf, L: Ledger>(
        alloc: Global,
        me: &Addr,
        shelf: &mut H,
        steps: &mut Steps<L>,
    ) -> Result<Follower, RunFault>
        ensures opens { WhereKnown (H.seen shelf.old) (λ places. Opens me.now result (stands me.now places)) }
        ensures me { IfOk result (λ f. f.keeper.state.mailbox.me ≡ me.now) }
        ensures usable { IfOk result (λ f. f.failed ≡ false) }
        ensures pending { IfOk result (λ f. f.keeper.pending ≡ none_pending) }
        ensures kept { IfOk result (λ f. WhereKnown (H.seen shelf.new) (IsKept f.keeper)) }
        ensures stored { IfOk result (λ f. WhereKnown (H.seen shelf.new) (IsStored f.keeper.store (H.may_leave shelf.new))) }
        ensures mbox { IfOk result (λ f. (f.mbox.held ≡ []) × (f.mbox.taken ≡ 0) × (f.mbox.budget ≡ 2 ^ 36) × (f.mbox.at_separator ≡ false) × (f.mbox.place ≡ 0) × (f.mbox.trace ≡ no_cut)) }
        ensures lines { IfOk result (λ f. (f.lines.held ≡ []) × (f.lines.taken ≡ 0) × (f.lines.budget ≡ 2 ^ 32) × (f.lines.place ≡ 0) × (f.lines.trace ≡ no_cut)) }
        ensures same { OnOk result (KnownThen (H.seen shelf.old) (H.seen shelf.new) SameFound) }
        ensures any_moment { WhereKnown (H.seen shelf.old) (λ _. LeavesOnly H.moment H.left_since shelf.old shelf.new
            (Reached (H.may_leave shelf.old) SameFound)) }
        ensures other { OnOtherMe result (WhereKnown (H.seen shelf.old) (AllFindSame (H.may_leave shelf.new))) }
        ensures written { H.written shelf.new ≡ H.written shelf.old }
        ensures fill { IfOk result (λ f. WhereKnown (H.seen shelf.old) (λ places. fill_of f.keeper.store ≡ fill_in places)) }
        ensures load { IfOk result (λ f. steps.new ≤ steps.old + load f.keeper.state.mailbox) }
        ensures cost { WhereKnown (H.seen shelf.old) (λ places. steps.new ≤ steps.old + opening_cost me.now (found_of places)) }
        ensures later { H.faults shelf.old ≤ H.faults shelf.new }
        ensures cause { IsErrOf result RunFault.Disk → Rose (H.faults shelf.old) (H.faults shelf.new) }
        ensures possible { IfErr result IsKeepFault }
    {
        let keeper = Keeper::open(alloc, me, shelf, steps)?;
        Ok(Follower {
            alloc,
            keeper,
            mbox: MboxReader::new(alloc, MBOX_CHUNK, MBOX_BUDGET)?,
            lines: StepsReader::new(alloc, STEPS_CHUNK, STEPS_BUDGET)?,
            failed: false,
        })
    }

    /// The engine, over the mailbox that was followed so far. Takes no memory.
    pub fn engine(&self) -> &Engine
        ensures mailbox { result.now.mailbox ≡ self.now.keeper.state.mailbox }
        ensures stale { result.now.stale ≡ self.now.keeper.stale }
        ensures current { self.now.failed ≡ false → self.now.keeper.stale ≡ false }
    {
        self.keeper.engine()
    }

    /// The position that was followed to. Takes no memory.
    pub fn position(&self) -> Position
        ensures { result ≡ self.now.keeper.state.position }
    {
        self.keeper.position()
    }

    /// How many changes are pending, from 0 to 256. Takes no memory.
    pub fn pending(&self) -> u32
        ensures { result ≡ self.now.keeper.pending.count }
    {
        u32::from(self.keeper.pending())
    }

    /// Whether a call has failed, after which the follower may only be dropped. Takes no memory.
    pub fn is_failed(&self) -> bool
        ensures { result ≡ self.now.failed }
    {
        self.failed
    }

    /// Passes over the mbox up to the place that was followed to. `Short(Mbox)` comes exactly where the mbox ends before
    /// it. Takes no memory.
    ///
    /// - `starts`: where the mbox tells its bytes, the mails after that place come next.
    pub fn start_mbox<M: Source>(&mut self, mbox: &mut M) -> Result<(), RunFault>
        requires usable { self.old.failed ≡ false }
        requires first { (self.old.mbox.held ≡ []) × (self.old.mbox.taken ≡ 0) × (self.old.mbox.at_separator ≡ false) × (self.old.mbox.place ≡ 0) × (self.old.mbox.trace ≡ no_cut) }
        ensures starts { IfKnown (M.left mbox.old) (M.left mbox.new) (λ before after. StartsMbox result self.old before self.new after) }
        ensures keeper { self.new.keeper ≡ self.old.keeper }
        ensures lines { self.new.lines ≡ self.old.lines }
        ensures failed { self.new.failed ≡ is_err result }
        ensures later { M.faults mbox.old ≤ M.faults mbox.new }
        ensures cause { IfErr result (IsCause (Rose (M.faults mbox.old) (M.faults mbox.new)) ⊥ ⊥ ⊥ self.new) }
        ensures took { (bytes : List ℕ) × mbox_reading.Takes (M.left mbox.old) (M.left mbox.new) self.old.mbox self.new.mbox bytes }
    {
        self.failed = true;
        let place = self.keeper.position().mbox;
        if self.mbox.skip(mbox, place)? < place {
            return Err(RunFault::Short(Input::Mbox));
        }
        self.failed = false;
        Ok(())
    }

    /// Passes over the steps file up to the place that was followed to. `Short(Steps)` comes exactly where the file ends
    /// before it. Takes no memory.
    ///
    /// - `starts`: where the steps file tells its bytes, the lines after that place come next.
    pub fn start_lines<S: Source>(&mut self, steps_file: &mut S) -> Result<(), RunFault>
        requires usable { self.old.failed ≡ false }
        requires first { (self.old.lines.held ≡ []) × (self.old.lines.taken ≡ 0) × (self.old.lines.place ≡ 0) × (self.old.lines.trace ≡ no_cut) }
        ensures starts { IfKnown (S.left steps_file.old) (S.left steps_file.new) (λ before after. StartsLines result self.old before self.new after) }
        ensures place { OnOk result (self.new.lines.place ≡ self.old.keeper.state.position.steps) }
        ensures keeper { self.new.keeper ≡ self.old.keeper }
        ensures mbox { self.new.mbox ≡ self.old.mbox }
        ensures failed { self.new.failed ≡ is_err result }
        ensures later { S.faults steps_file.old ≤ S.faults steps_file.new }
        ensures cause { IfErr result (IsCause ⊥ (Rose (S.faults steps_file.old) (S.faults steps_file.new)) ⊥ ⊥ self.new) }
        ensures took { (bytes : List ℕ) × steps_reading.Takes (S.left steps_file.old) (S.left steps_file.new) self.old.lines self.new.lines bytes }
    {
        self.failed = true;
        let place = self.keeper.position().steps;
        if self.lines.skip(steps_file, place)? < place {
            return Err(RunFault::Short(Input::Steps));
        }
        self.failed = false;
        Ok(())
    }

    /// The input that is not the one that was followed, if one is: the mbox first.
    fn other_input(&self, steps_given: bool) -> Option<Input>
        ensures { (mbox : Bytes) (steps : Option Bytes) → steps_given ≡ is_some steps → IsPassedOver mbox steps self.now
            → result ≡ other_of self.now.keeper.state.position mbox steps }
    {
        let position = self.keeper.position();
        if !is_same(&position.mbox_trace, &self.mbox.trace()) {
            return Some(Input::Mbox);
        }
        if steps_given && !is_same(&position.steps_trace, &self.lines.trace()) {
            return Some(Input::Steps);
        }
        None
    }

    /// Whether the inputs are those that were followed, which were passed over up to where they were: the mbox, and with it
    /// the steps file where one is given. `OtherFiles` comes exactly where a trace that was kept of one is not that of the
    /// bytes that were passed over, of the mbox first. Takes no memory.
    pub fn check_inputs(&self, steps_given: bool) -> Result<(), RunFault>
        ensures gives { (mbox : Bytes) (steps : Option Bytes) → steps_given ≡ is_some steps → IsPassedOver mbox steps self.now
            → GivesOther result (other_of self.now.keeper.state.position mbox steps) }
        ensures possible { IfErr result (λ why. (input : Input) × (why ≡ fault.OtherFiles input)) }
    {
        match self.other_input(steps_given) {
            Some(input) => Err(RunFault::OtherFiles(input)),
            None => Ok(()),
        }
    }

    /// The clock comes to a moment, in seconds since 1970-01-01 00:00:00 UTC. `Full` comes exactly where 2^62 changes were
    /// made. Takes memory.
    ///
    /// - `cost`: it reads kept cards no more often than the moment may cost, whatever is answered.
    pub fn at<L: Ledger>(&mut self, moment: u64, steps: &mut Steps<L>) -> Result<(), RunFault>
        requires usable { self.old.failed ≡ false }
        requires few { self.old.keeper.pending.count < 256 }
        requires moment { moment ≤ last_moment }
        ensures room { OnOk result (is_refused self.old.keeper.state (At moment) ≡ false) }
        ensures state { OnOk result (self.new.keeper.state ≡ after_fed self.old.keeper.state (moment_fed self.old.keeper.state.position moment)) }
        ensures pending { OnOk result (self.new.keeper.pending ≡ with_change self.old.keeper.pending (At moment)) }
        ensures adds { OnOk result (Adds self.old.keeper self.new.keeper) }
        ensures kept { OnOk result ((places : Places) → IsKept self.old.keeper places → IsKept self.new.keeper places) }
        ensures store { self.new.keeper.store ≡ self.old.keeper.store }
        ensures failed { self.new.failed ≡ is_err result }
        ensures full { IsErrOf result RunFault.Full → is_refused self.old.keeper.state (At moment) ≡ true }
        ensures cause { IfErr result (λ why. (why ≡ fault.Full) ⊎ (why ≡ fault.Memory)) }
        ensures mbox { self.new.mbox ≡ self.old.mbox }
        ensures lines { self.new.lines ≡ self.old.lines }
        ensures cost { steps.new ≤ steps.old + change_cost self.old.keeper.state.mailbox (At moment) }
    {
        self.failed = true;
        let position = counted(self.keeper.position());
        self.keeper.apply(Change::At(moment), position, steps)?;
        self.failed = false;
        Ok(())
    }

    /// The arrival of the next mail of the mbox, if there is one.
    ///
    /// - `next`: where the source tells its bytes, it is the one that they give.
    /// - `stands`: where the reader stood in the mbox, it does so after a mail.
    /// - `rest`: nothing changes but the reader of the mbox.
    fn next_arrival<M: Source>(&mut self, mbox: &mut M) -> Result<Option<Change>, RunFault>
        requires usable { self.old.mbox.refused ≡ false }
        requires failed { self.old.failed ≡ true }
        ensures next { IfOk result (λ change. IfKnown (M.left mbox.old) (M.left mbox.new) (λ before after.
            ArrivesNext self.old (mails_ahead self.old before) change self.new (mails_ahead self.new after))) }
        ensures stands { IfOk result (λ change. is_some change ≡ true → IfKnown (M.left mbox.old) (M.left mbox.new) (λ before after.
            (files : Files) → StandsInMbox files self.old before → StandsInMbox files self.new after)) }
        ensures valid { IfOk result (λ change. IfSome change IsValidChange) }
        ensures given { IfOk result (λ change. is_some change ≡ true → 1 ≤ self.new.mbox.taken) }
        ensures usable { OnOk result (self.new.mbox.refused ≡ false) }
        ensures later { M.faults mbox.old ≤ M.faults mbox.new }
        ensures cause { IfErr result (IsCause (Rose (M.faults mbox.old) (M.faults mbox.new)) ⊥ ⊥ (HasTaken self.new) self.new) }
        ensures possible { IfErr result (λ why. (why ≡ fault.Read Mbox) ⊎ (why ≡ fault.Endless Mbox) ⊎ (why ≡ fault.Memory)) }
        ensures took { (bytes : List ℕ) × mbox_reading.Takes (M.left mbox.old) (M.left mbox.new) self.old.mbox self.new.mbox bytes }
        ensures rest { self.new ≡ record self.old { mbox = self.new.mbox } }
    {
        let uid = self.keeper.engine().mailbox().next_uid();
        let taken = self.mbox.next(self.alloc, mbox)?;
        Ok(arrival_of(self.alloc, uid, taken)?)
    }

    /// Follows the next mail of the mbox, if there is one. Takes memory.
    ///
    /// - `goes`: where the mbox tells its bytes, the turn makes the next change that they give, or the reason why not is theirs.
    /// - `kept`, `store`: the shelf that was settled for the follower is so still.
    /// - `reads`: it reads kept cards no more often than a change may cost, and at the end not at all.
    /// - `cost`: where the bytes are told, that is the next change that they give.
    pub fn turn_mail<M: Source, L: Ledger>(
        &mut self,
        mbox: &mut M,
        steps: &mut Steps<L>,
    ) -> Result<Turned, RunFault>
        requires usable { self.old.failed ≡ false }
        requires few { self.old.keeper.pending.count < 256 }
        ensures goes { (files : Files) → IfKnown (M.left mbox.old) (M.left mbox.new) (λ before after.
            MailTurn files result self.old before self.new after) }
        ensures adds { IfOk result (TurnAdds self.old.keeper self.new.keeper) }
        ensures kept { OnOk result ((places : Places) → IsKept self.old.keeper places → IsKept self.new.keeper places) }
        ensures store { self.new.keeper.store ≡ self.old.keeper.store }
        ensures within { OnOk result (IsWithin self.new.keeper.state.position) }
        ensures failed { self.new.failed ≡ is_err result }
        ensures later { M.faults mbox.old ≤ M.faults mbox.new }
        ensures cause { IfErr result (IsCause (Rose (M.faults mbox.old) (M.faults mbox.new)) ⊥ ⊥ (HasTaken self.new) self.new) }
        ensures possible { IfErr result IsTurnFault }
        ensures took { (bytes : List ℕ) × mbox_reading.Takes (M.left mbox.old) (M.left mbox.new) self.old.mbox self.new.mbox bytes }
        ensures lines { self.new.lines ≡ self.old.lines }
        ensures reads { ReadsForOne result self.old.keeper.state.mailbox self.new.keeper.state.mailbox steps.old steps.new }
        ensures cost { (files : Files) → IfKnown (M.left mbox.old) (M.left mbox.new) (λ before _.
            MailCosts files result self.old before steps.old steps.new) }
    {
        self.failed = true;
        let position = self.keeper.position();
        let Some(change) = self.next_arrival(mbox)? else {
            self.failed = false;
            return Ok(Turned::End);
        };
        let position = at_mail(counted(position), self.mbox.place(), self.mbox.trace());
        self.keeper.apply(change, position, steps)?;
        self.failed = false;
        Ok(Turned::Applied)
    }

    /// The change of a step, and the position after it, where this is the one after its line.
    ///
    /// - `makes`: where the mbox tells its bytes, it is the change that the step makes of the mails that are left.
    /// - `bare`: `Steps` comes only where the step takes the next mail and none is left.
    fn change_of<M: Source>(
        &mut self,
        step: Step,
        position: Position,
        mbox: &mut M,
    ) -> Result<(Change, Position), RunFault>
        requires usable { self.old.mbox.refused ≡ false }
        requires failed { self.old.failed ≡ true }
        requires moment { MakesMoment step }
        requires counted { position.lines ≤ self.old.lines.taken }
        ensures makes { IfOk result (λ made. (files : Files) → IfKnown (M.left mbox.old) (M.left mbox.new) (λ before after.
            StandsInMbox files self.old before
            → Makes files step self.old.keeper.state.mailbox.next_uid position (mails_ahead self.old before) made (mails_ahead self.new after)
            × StandsInMbox files self.new after)) }
        ensures valid { IfOk result (λ made. IsValidChange made.0) }
        ensures count { IfOk result (λ made. made.1 ≡ record position { mbox = made.1.mbox; mbox_trace = made.1.mbox_trace }) }
        ensures usable { OnOk result (self.new.mbox.refused ≡ false) }
        ensures bare { IfErr result (λ why. IfKnown (M.left mbox.old) (M.left mbox.new) (λ before after.
            LacksMail step position.lines (mails_ahead self.old before) why)) }
        ensures later { M.faults mbox.old ≤ M.faults mbox.new }
        ensures cause { IfErr result (IsCause (Rose (M.faults mbox.old) (M.faults mbox.new)) ⊥ ⊥ (HasTaken self.new) self.new) }
        ensures possible { IfErr result IsTurnFault }
        ensures not_full { IfErr result (λ why. why ≢ fault.Full) }
        ensures took { (bytes : List ℕ) × mbox_reading.Takes (M.left mbox.old) (M.left mbox.new) self.old.mbox self.new.mbox bytes }
        ensures rest { self.new ≡ record self.old { mbox = self.new.mbox } }
    {
        let change = match step {
            Step::Next => {
                let Some(change) = self.next_arrival(mbox)? else {
                    return Err(RunFault::Steps(position.lines));
                };
                let position = at_mail(position, self.mbox.place(), self.mbox.trace());
                return Ok((change, position));
            }
            Step::Expunge(uid) => Change::Expunge(uid),
            Step::Seen(uid) => Change::Seen(uid),
            Step::At(moment) => Change::At(moment),
        };
        Ok((change, position))
    }

    /// Follows the next line of the steps file, if there is one. Takes memory.
    ///
    /// - `goes`: where both tell their bytes, the turn makes the next change that they give, or the reason why not is theirs.
    /// - `kept`, `store`: the shelf that was settled for the follower is so still.
    /// - `reads`: it reads kept cards no more often than a change may cost, and at the end not at all.
    /// - `cost`: where the bytes are told, that is the next change that they give.
    pub fn turn_line<M: Source, S: Source, L: Ledger>(
        &mut self,
        mbox: &mut M,
        steps_file: &mut S,
        steps: &mut Steps<L>,
    ) -> Result<Turned, RunFault>
        requires usable { self.old.failed ≡ false }
        requires few { self.old.keeper.pending.count < 256 }
        requires place { self.old.lines.place ≡ self.old.keeper.state.position.steps }
        ensures goes { (files : Files) (last : Option ℕ) → IfKnown (M.left mbox.old) (M.left mbox.new) (λ mbox_before mbox_after.
            IfKnown (S.left steps_file.old) (S.left steps_file.new) (λ steps_before steps_after.
            LineTurn files last result self.old mbox_before steps_before self.new mbox_after steps_after)) }
        ensures adds { IfOk result (TurnAdds self.old.keeper self.new.keeper) }
        ensures kept { OnOk result ((places : Places) → IsKept self.old.keeper places → IsKept self.new.keeper places) }
        ensures store { self.new.keeper.store ≡ self.old.keeper.store }
        ensures within { OnOk result (IsWithin self.new.keeper.state.position) }
        ensures place { OnOk result (self.new.lines.place ≡ self.new.keeper.state.position.steps) }
        ensures fed { OnOk result (IsFedFrom self.old.keeper.state self.new) }
        ensures failed { self.new.failed ≡ is_err result }
        ensures mbox_later { M.faults mbox.old ≤ M.faults mbox.new }
        ensures steps_later { S.faults steps_file.old ≤ S.faults steps_file.new }
        ensures cause { IfErr result (IsCause (Rose (M.faults mbox.old) (M.faults mbox.new))
            (Rose (S.faults steps_file.old) (S.faults steps_file.new)) ⊥ (HasTaken self.new) self.new) }
        ensures possible { IfErr result IsTurnFault }
        ensures mbox_took { (bytes : List ℕ) × mbox_reading.Takes (M.left mbox.old) (M.left mbox.new) self.old.mbox self.new.mbox bytes }
        ensures steps_took { (bytes : List ℕ) × steps_reading.Takes (S.left steps_file.old) (S.left steps_file.new) self.old.lines self.new.lines bytes }
        ensures reads { ReadsForOne result self.old.keeper.state.mailbox self.new.keeper.state.mailbox steps.old steps.new }
        ensures cost { (files : Files) (last : Option ℕ) → IfKnown (M.left mbox.old) (M.left mbox.new) (λ mbox_before _.
            IfKnown (S.left steps_file.old) (S.left steps_file.new) (λ steps_before _.
            LineCosts files last result self.old mbox_before steps_before steps.old steps.new)) }
    {
        self.failed = true;
        let position = self.keeper.position();
        let step = match self.lines.next(steps_file)? {
            Taken::Step(step) => step,
            Taken::NoStep => return Err(RunFault::Steps(
                at_line(position, self.lines.place(), self.lines.trace()).lines,
            )),
            Taken::End => {
                self.failed = false;
                return Ok(Turned::End);
            }
        };
        let position = at_line(counted(position), self.lines.place(), self.lines.trace());
        let (change, position) = self.change_of(step, position, mbox)?;
        self.keeper.apply(change, position, steps)?;
        self.failed = false;
        Ok(Turned::Applied)
    }

    /// Makes the pending changes lasting. Where nothing is pending nothing is done. Takes its memory before it writes:
    /// `Memory` leaves the shelf as it was.
    ///
    /// `Disk` comes only at a fault of the shelf.
    ///
    /// - `any_moment`: a crash at any moment leaves the state of before or that of the follower.
    /// - `lasting`, `kept`, `stored`, `pending`: after Ok the follower's state stands, it alone is left, and nothing is pending.
    /// - `fill`: after Ok the tail has the group too, or after a checkpoint nothing.
    /// - `written`: no more is written than 104 bytes beside the changes, or where a checkpoint falls due 18 beside the image.
    /// - `reads`: an image reads each kept card once, and a group none.
    /// - `few`, `none`: no more than 256 changes are pending, and where none is nothing is done.
    pub fn commit<H: Shelf, L: Ledger>(
        &mut self,
        shelf: &mut H,
        steps: &mut Steps<L>,
    ) -> Result<(), RunFault>
        requires usable { self.old.failed ≡ false }
        requires kept { WhereKnown (H.seen shelf.old) (IsKept self.old.keeper) }
        requires stored { WhereKnown (H.seen shelf.old) (IsStored self.old.keeper.store (H.may_leave shelf.old)) }
        ensures any_moment { WhereKnown (H.seen shelf.old) (λ _. LeavesOnly H.moment H.left_since shelf.old shelf.new
            (Reached (H.may_leave shelf.old) (OldOrNew self.old.keeper.state.mailbox.me self.old.keeper.state))) }
        ensures lasting { OnOk result (KnownThen (H.seen shelf.old) (H.seen shelf.new) (λ _ after.
            stands self.old.keeper.state.mailbox.me after ≡ Ok self.old.keeper.state)) }
        ensures kept { OnOk result (WhereKnown (H.seen shelf.new) (IsKept self.new.keeper)) }
        ensures stored { OnOk result (WhereKnown (H.seen shelf.new) (IsStored self.new.keeper.store (H.may_leave shelf.new))) }
        ensures pending { OnOk result (self.new.keeper.pending ≡ none_pending) }
        ensures state { self.new.keeper.state ≡ self.old.keeper.state }
        ensures mbox { self.new.mbox ≡ self.old.mbox }
        ensures lines { self.new.lines ≡ self.old.lines }
        ensures failed { self.new.failed ≡ is_err result }
        ensures untouched { IsErrOf result RunFault.Memory → shelf.new ≡ shelf.old }
        ensures fill { 1 ≤ self.old.keeper.pending.count
            → OnOk result (fill_of self.new.keeper.store ≡ fill_with (fill_of self.old.keeper.store) (length self.old.keeper.pending.bytes)) }
        ensures none { self.old.keeper.pending.count ≡ 0
            → (self.new.keeper.store ≡ self.old.keeper.store) × (shelf.new ≡ shelf.old) × (steps.new ≡ steps.old) }
        ensures reads { steps.new ≤ steps.old
            + commit_reads (fill_of self.old.keeper.store) (length self.old.keeper.pending.bytes) self.old.keeper.state }
        ensures written { RisesUpTo (commit_writes (fill_of self.old.keeper.store) (length self.old.keeper.pending.bytes) self.old.keeper.state)
            (H.written shelf.old) (H.written shelf.new) }
        ensures later { H.faults shelf.old ≤ H.faults shelf.new }
        ensures cause { IsErrOf result RunFault.Disk → Rose (H.faults shelf.old) (H.faults shelf.new) }
        ensures few { self.old.keeper.pending.count ≤ 256 }
        ensures possible { IfErr result (λ why. (why ≡ fault.Disk) ⊎ (why ≡ fault.Memory)) }
    {
        self.failed = true;
        self.keeper.commit(shelf, steps)?;
        self.failed = false;
        Ok(())
    }
}
