//! The engine.
ghost use Rattle.std.specs.Prelude.{◌≡◌, ◌≤◌, ◌+◌, [], true, false, if◌then◌else◌, Some, Ok, Err, length, IfOk, IfErr, MatchResult, OnOk, IsErrOf, OnErr};
ghost use Rattle.box_state.specs.Kept.{IsReady};
ghost use Rattle.mailbox_model.specs.ChatList.{list_page};
ghost use Rattle.mailbox_model.specs.Contacts.{contacts};
ghost use Rattle.mailbox_model.specs.Mailbox.{after, empty_mailbox, full, IsMailbox, IsValidChange};
ghost use Rattle.mailbox_model.specs.Pages.{page, updates};
ghost use Rattle.mailbox_model.specs.Turns.{turn as turn_of};
ghost use Rattle.touched_chats.specs.Costs.{build_reads, change_cost};
ghost use Rattle.indexes.specs.Kept.{AreAllChats, AreKept};
ghost use Rattle.indexes.specs.Views.{IsComing};
ghost use Rattle.repair.specs.Repaired.{AreTouched};
ghost use Rattle.indexes.specs.Costs.{list_cost, load, page_cost, row_cost};
ghost use Rattle.engine.specs.declared.fault.AskFault.TheVariants as ask;
ghost use Rattle.engine.specs.Followed.{IsApplyCause, IsChatCause, IsListCause, IsPrepared, IsUnprepared, IsUnrepaired, IsUpdatesCause};

use crate::fault::{ApplyFault, AskFault};
use box_state::Mailbox;
use card_type::ChatKey;
use indexes::Indexes;
use kit::{Addr, Id, Memory, Steps};
use lists::Items;
use mailbox_model::{Change, ChatPage, ContactRow, ListPage, Turn, UpdateRow};
use repair::repair;
use std::alloc::Global;
use std::marker::Model;
use std::sync::ledger::Ledger;

/// A mailbox that changes, and answers to questions on it. A contract sees the mailbox, the keys of the chats that the last
/// change touched, and whether the engine is stale: where memory ran out in `apply` or `rebuild` after something was changed,
/// it refuses all but a further `rebuild`.
#[derive(Drop)]
pub struct Engine {
    alloc: Global,
    mailbox: Mailbox,
    /// Those of the mailbox, where the engine is not stale.
    indexes: Indexes,
    touched: Vec<ChatKey>,
    stale: bool,
}

impl Model for Engine {
    ghost use Rattle.std.specs.Prelude.{◌≡◌, false};
    ghost use Rattle.indexes.specs.Kept.{AreKept};
    ghost use Rattle.engine.specs.Followed.{Followed};

    ghost Value = { Followed };

    ghost view = { λ e. record { mailbox = e.mailbox.mailbox; touched = e.touched.items; stale = e.stale } };

    ghost invariant = { λ e. e.stale ≡ false → AreKept e.mailbox.mailbox e.indexes };
}

impl Engine {
    /// An engine over the empty mailbox of an address. Takes no memory.
    pub fn new(alloc: Global, me: Addr) -> Self
        ensures mailbox { result.mailbox ≡ empty_mailbox me }
        ensures touched { result.touched ≡ [] }
        ensures stale { result.stale ≡ false }
    {
        Engine {
            alloc,
            mailbox: Mailbox::new(alloc, me),
            indexes: Indexes::new(alloc),
            touched: Vec::new(alloc),
            stale: false,
        }
    }

    /// An engine over a mailbox. Takes memory; `Err` only when it runs out, and then the mailbox is dropped.
    ///
    /// - `touched`: all chats count as touched.
    /// - `reads`: each present card is read once, and each of a chat once more, with the cards that name it.
    /// - `cost`: so it reads kept cards no more often than the load of the mailbox says.
    pub fn from_mailbox<L: Ledger>(
        alloc: Global,
        mailbox: Mailbox,
        steps: &mut Steps<L>,
    ) -> Result<Self, Memory>
        ensures mailbox { IfOk result (λ engine. engine.mailbox ≡ mailbox.mailbox) }
        ensures touched { IfOk result (λ engine. AreAllChats mailbox.mailbox engine.touched) }
        ensures stale { IfOk result (λ engine. engine.stale ≡ false) }
        ensures reads { steps.new ≤ steps.old + build_reads mailbox.mailbox }
        ensures cost { steps.new ≤ steps.old + load mailbox.mailbox }
    {
        let indexes = Indexes::build(alloc, &mailbox, steps)?;
        let touched = indexes.keys(alloc, &mailbox)?;
        Ok(Engine {
            alloc,
            mailbox,
            indexes,
            touched,
            stale: false,
        })
    }

    /// Makes a change, and brings all that is kept beside the mailbox to what it is after it. `Stale` comes exactly where the
    /// engine is stale, and then `Full` exactly for an arrival that has no place in the mailbox, as `Mailbox::plan` says.
    /// Takes memory; where that runs out the mailbox is as before, and the engine may be stale.
    ///
    /// - `touched`: the touched chats are those of the change.
    /// - `cause`: each refusal has its cause, and leaves the engine as before, or where memory ran out, the mailbox.
    /// - `cost`: it reads kept cards no more often than the change may cost.
    pub fn apply<L: Ledger>(
        &mut self,
        change: Change,
        steps: &mut Steps<L>,
    ) -> Result<(), ApplyFault>
        requires { IsValidChange change }
        ensures mailbox { OnOk result (self.new.mailbox ≡ after self.old.mailbox change) }
        ensures touched { OnOk result (AreTouched self.old.mailbox change self.new.touched) }
        ensures fresh { OnOk result (self.new.stale ≡ false) }
        ensures stale { self.old.stale ≡ true → IsErrOf result ApplyFault.Stale }
        ensures full { self.old.stale ≡ false → full self.old.mailbox change ≡ true → IsErrOf result ApplyFault.Full }
        ensures cause { IfErr result (IsApplyCause self.old change self.new) }
        ensures cost { steps.new ≤ steps.old + change_cost self.old.mailbox change }
    {
        let change = self.with_kept_addresses(change);
        let repaired = repair_for(
            self.alloc,
            &mut self.stale,
            &mut self.mailbox,
            &mut self.indexes,
            &change,
            steps,
        );
        match repaired {
            Ok(touched) => {
                self.mailbox.make(change);
                self.touched = touched;
                self.stale = false;
                Ok(())
            }
            Err(fault) => Err(fault),
        }
    }

    /// The same change. Where a card arrives, its addresses share their bytes with those that are kept, so that the mails of
    /// the same people take less memory, and their addresses are compared where the bytes are at hand.
    fn with_kept_addresses(&self, change: Change) -> Change
        ensures { result ≡ change }
    {
        match change {
            Change::Arrive(mut card) => {
                self.indexes.contacts.share(&mut card);
                Change::Arrive(card)
            }
            other => other,
        }
    }

    /// Builds anew what is kept beside the mailbox, which stays. Takes memory; `Err` only when it runs out, and then the
    /// engine is stale.
    ///
    /// - `touched`: all chats count as touched.
    /// - `cost`: it reads kept cards no more often than the load of the mailbox says.
    pub fn rebuild<L: Ledger>(&mut self, steps: &mut Steps<L>) -> Result<(), Memory>
        ensures mailbox { self.new.mailbox ≡ self.old.mailbox }
        ensures touched { OnOk result (AreAllChats self.old.mailbox self.new.touched) }
        ensures fresh { OnOk result (self.new.stale ≡ false) }
        ensures stale { OnErr result (self.new.stale ≡ true) }
        ensures cost { steps.new ≤ steps.old + load self.old.mailbox }
    {
        self.stale = true;
        self.indexes = Indexes::build(self.alloc, &self.mailbox, steps)?;
        self.touched = self.indexes.keys(self.alloc, &self.mailbox)?;
        self.stale = false;
        Ok(())
    }

    /// The keys of the chats that the last change touched, in their order: after `from_mailbox` and `rebuild` those of all
    /// chats. Takes no memory. On a stale engine nothing is said of it.
    pub fn touched(&self) -> &[ChatKey]
        ensures { result.now ≡ self.now.touched }
    {
        self.touched.as_slice()
    }

    /// The list of chats, the latest first, and then of the mails that have no card. `Stale` comes exactly where the engine
    /// is stale. Takes memory.
    ///
    /// - `cause`: each refusal has its cause.
    /// - `cost`: it reads kept cards no more often than the cost of its list says.
    pub fn list<L: Ledger>(&self, steps: &mut Steps<L>) -> Result<ListPage, AskFault>
        ensures page { IfOk result (λ found. found ≡ list_page self.now.mailbox) }
        ensures stale { self.now.stale ≡ true → IsErrOf result AskFault.Stale }
        ensures cause { IfErr result (IsListCause self.now) }
        ensures cost { steps.new ≤ steps.old + list_cost self.now.mailbox }
    {
        self.check_current()?;
        Ok(self.indexes.list(self.alloc, &self.mailbox, steps)?)
    }

    /// The page of a chat. `Stale` comes exactly where the engine is stale, and then `NoChat` exactly where no row of the list
    /// has the key. Takes memory.
    ///
    /// - `cause`: each refusal has its cause.
    /// - `cost`: it reads kept cards no more often than the cost of the page says.
    pub fn chat<L: Ledger>(&self, key: &ChatKey, steps: &mut Steps<L>) -> Result<ChatPage, AskFault>
        ensures page { IfOk result (λ found. page self.now.mailbox key.now ≡ Some found) }
        ensures stale { self.now.stale ≡ true → IsErrOf result AskFault.Stale }
        ensures cause { IfErr result (IsChatCause key.now self.now) }
        ensures cost { steps.new ≤ steps.old + page_cost self.now.mailbox key.now }
    {
        self.check_current()?;
        let page = self.indexes.chat(self.alloc, &self.mailbox, key, steps)?;
        page.ok_or(AskFault::NoChat)
    }

    /// The contacts, in the order of addresses. `Stale` comes exactly where the engine is stale. Takes memory.
    ///
    /// - `cause`: each refusal has its cause.
    pub fn contacts(&self) -> Result<Vec<ContactRow>, AskFault>
        ensures rows { IfOk result (λ rows. rows.items ≡ contacts self.now.mailbox) }
        ensures stale { self.now.stale ≡ true → IsErrOf result AskFault.Stale }
        ensures cause { IfErr result (IsListCause self.now) }
    {
        self.check_current()?;
        Ok(self.indexes.contacts(self.alloc, &self.mailbox)?)
    }

    /// The updates of an app, by the id of its mail. `Stale` comes exactly where the engine is stale, and then `NoApp` exactly
    /// where no row of an app with the id is shown. Takes memory.
    ///
    /// - `cause`: each refusal has its cause.
    /// - `cost`: it reads kept cards no more often than the cost of one row says.
    pub fn updates<L: Ledger>(
        &self,
        id: &Id,
        steps: &mut Steps<L>,
    ) -> Result<Items<UpdateRow>, AskFault>
        ensures rows { IfOk result (λ rows. updates self.now.mailbox id.now ≡ Some rows) }
        ensures stale { self.now.stale ≡ true → IsErrOf result AskFault.Stale }
        ensures cause { IfErr result (IsUpdatesCause id.now self.now) }
        ensures cost { steps.new ≤ steps.old + row_cost self.now.mailbox id.now }
    {
        self.check_current()?;
        let rows = self.indexes.updates(self.alloc, &self.mailbox, id, steps)?;
        rows.ok_or(AskFault::NoApp)
    }

    /// Refuses to answer where the engine is stale.
    fn check_current(&self) -> Result<(), AskFault>
        ensures { result ≡ (if self.now.stale then Err ask.Stale else Ok tt) }
    {
        if self.stale {
            Err(AskFault::Stale)
        } else {
            Ok(())
        }
    }

    /// The mailbox of an engine keeps the rules of one.
    pub fn keeps_rules(&self)
        ensures { IsMailbox self.now.mailbox }
    {
        self.mailbox.keeps_rules();
    }

    /// The mailbox. Takes no memory.
    pub fn mailbox(&self) -> &Mailbox
        ensures { result.now.mailbox ≡ self.now.mailbox }
    {
        &self.mailbox
    }

    /// The moment of the mailbox, in seconds since 1970-01-01 00:00:00 UTC. Takes no memory.
    pub fn now(&self) -> u64
        ensures { result ≡ self.now.mailbox.now }
    {
        self.mailbox.now()
    }

    /// The number of items of the mailbox. Takes no memory.
    pub fn count(&self) -> usize
        ensures { result ≡ length self.now.mailbox.entries }
    {
        self.mailbox.items().len()
    }

    /// Whether the engine is stale. Takes no memory.
    pub fn is_stale(&self) -> bool
        ensures { result ≡ self.now.stale }
    {
        self.stale
    }
}

/// Makes the mailbox of an engine ready for a change, and answers the turn of the change.
fn prepare(stale: bool, mailbox: &mut Mailbox, change: &Change) -> Result<Turn, ApplyFault>
    ensures same { mailbox.new.mailbox ≡ mailbox.old.mailbox }
    ensures turn { IfOk result (λ turn. turn ≡ turn_of mailbox.old.mailbox change.now) }
    ensures ready { OnOk result (IsReady mailbox.new.ready change.now) }
    ensures rules { IsMailbox mailbox.old.mailbox }
    ensures cause { MatchResult result (λ _. IsPrepared stale mailbox.old.mailbox change.now) (IsUnprepared stale mailbox.old.mailbox change.now) }
{
    mailbox.keeps_rules();
    if stale {
        return Err(ApplyFault::Stale);
    }
    let turn = mailbox.plan(change)?;
    mailbox.reserve(change)?;
    Ok(turn)
}

/// Brings the indexes of a mailbox to those after a change with this turn, and lets the turn go.
fn repair_by<L: Ledger>(
    alloc: Global,
    mailbox: &Mailbox,
    change: &Change,
    turn: Turn,
    indexes: &mut Indexes,
    steps: &mut Steps<L>,
) -> Result<Vec<ChatKey>, Memory>
    requires coming { IsComing mailbox.now.mailbox change.now turn }
    requires kept { AreKept mailbox.now.mailbox indexes.old }
    ensures kept { OnOk result (AreKept (after mailbox.now.mailbox change.now) indexes.new) }
    ensures touched { IfOk result (λ keys. AreTouched mailbox.now.mailbox change.now keys.items) }
    ensures cost { steps.new ≤ steps.old + change_cost mailbox.now.mailbox change.now }
{
    repair(alloc, mailbox, change, &turn, indexes, steps)
}

/// Makes the mailbox of an engine ready for a change, and brings its indexes to those after it. The engine is stale from
/// then on, until the change is made.
///
/// - `left`: after a refusal the indexes are those of the mailbox still, where the engine is not stale.
fn repair_for<L: Ledger>(
    alloc: Global,
    stale: &mut bool,
    mailbox: &mut Mailbox,
    indexes: &mut Indexes,
    change: &Change,
    steps: &mut Steps<L>,
) -> Result<Vec<ChatKey>, ApplyFault>
    requires valid { IsValidChange change.now }
    requires kept { stale.old ≡ false → AreKept mailbox.old.mailbox indexes.old }
    ensures same { mailbox.new.mailbox ≡ mailbox.old.mailbox }
    ensures ready { OnOk result (IsReady mailbox.new.ready change.now) }
    ensures kept { OnOk result (AreKept (after mailbox.old.mailbox change.now) indexes.new) }
    ensures touched { IfOk result (λ keys. AreTouched mailbox.old.mailbox change.now keys.items) }
    ensures left { OnErr result (stale.new ≡ false → AreKept mailbox.new.mailbox indexes.new) }
    ensures cause { MatchResult result (λ _. IsPrepared stale.old mailbox.old.mailbox change.now) (IsUnrepaired stale.old mailbox.old.mailbox change.now stale.new) }
    ensures cost { steps.new ≤ steps.old + change_cost mailbox.old.mailbox change.now }
{
    let turn = prepare(*stale, mailbox, change)?;
    *stale = true;
    Ok(repair_by(alloc, mailbox, change, turn, indexes, steps)?)
}

/// All that an engine keeps: the mailbox, its indexes, the keys of the touched chats and whether it is stale. Were there a
/// further field, in which it could keep cards beside the mailbox, this would not compile.
fn all_kept(engine: Engine) -> (Mailbox, Indexes, Vec<ChatKey>, bool) {
    let Engine {
        alloc: _,
        mailbox,
        indexes,
        touched,
        stale,
    } = engine;
    (mailbox, indexes, touched, stale)
}
