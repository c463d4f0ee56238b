//! The listener.
ghost use Rattle.std.specs.Prelude.{◌≡◌, ◌+◌, ◌≤◌, [], Bool, true, is_some, length, IfOk, IfErr, OnOk, OnErr, IsErrOf};
ghost use Rattle.mailbox_model.specs.declared.row.UpdateRow.{UpdateRow};
ghost use Rattle.mailbox_model.specs.Mailbox.{max_total_weight};
ghost use Rattle.mailbox_model.specs.Pages.{updates};
ghost use Rattle.indexes.specs.Costs.{row_cost};
ghost use Rattle.engine.specs.Followed.{IsUpdatesCause};
ghost use Rattle.app_listener.specs.Hearing.{back_to, having_heard, shown_updates, wanted_over};

use crate::heard::{Heard, Origin, copy_of, count_unmoved, origins};
use engine::{AskFault, Engine};
use kit::{Id, Memory, Steps};
use lists::Items;
use mailbox_model::{UpdateRow, a_mailbox_is_bounded};
use std::alloc::Global;
use std::marker::Model;
use std::sync::ledger::Ledger;

// A trait of its own, and not a closure: of a closure that a type holds it can't keep that it may be called, nor what it
// returns. Here both stand in the contract of each test.

/// Which updates a listener wants. A test may be asked of every update with a serial of at least 1, and its relation
/// `wanted` says what it answers.
pub trait Test {
    ghost wanted: { Self → UpdateRow → Bool };

    /// Whether the update is wanted.
    fn wants(&self, row: &UpdateRow) -> bool
        requires { 1 ≤ row.now.serial }
        ensures { result ≡ wanted self.now row.now };
}

/// A listener on one app: it is told of the updates that it wants, and from where on to forget those that it was told of,
/// since updates move where mails come late or leave. A contract sees its app, the serial over which it listens, its test,
/// and the origins of the updates that it heard of last.
#[derive(Drop)]
pub struct Listener<T> {
    alloc: Global,
    id: Id,
    from_serial: u32,
    test: T,
    heard: Items<Origin>,
}

impl<T> Model for Listener<T> {
    ghost use Rattle.app_listener.specs.Hearing.{Listening, listening_code};

    ghost Value = { Listening T };

    ghost coded = { listening_code T.code };

    ghost view = { λ l. record { id = l.id; from_serial = l.from_serial; test = l.test; heard = l.heard } };
}

impl<T: Test> Listener<T> {
    /// A listener on the app with an id, which has heard of no update. It will be told of the updates with a serial over
    /// `from_serial` that the test wants. Takes no memory.
    pub fn new(alloc: Global, id: Id, from_serial: u32, test: T) -> Self
        ensures { result ≡ record { id = id; from_serial = from_serial; test = test; heard = [] } }
    {
        Listener {
            alloc,
            id,
            from_serial,
            test,
            heard: Items::new(alloc),
        }
    }

    /// Tells what is new of the app since it was heard of last. Who holds what was told before drops of it the rows with a
    /// serial over `back_to` and appends `rows`, and then holds the wanted updates over `from_serial` as they are now.
    /// `Stale` comes exactly where the engine is stale, and then `NoApp` exactly where no row of the app is shown. Takes
    /// memory; after any refusal the listener is as before.
    ///
    /// - `shown`: where it answers the app is shown.
    /// - `back_to`: up to there the updates are those that were heard of, and it is at least `from_serial`.
    /// - `rows`: the updates over it that the test wants are told.
    /// - `max`: all updates count, also those that are not wanted.
    /// - `kept`: the updates as they are now have then been heard of.
    /// - `refused`, `cause`: each refusal has its cause, and leaves the listener as before.
    /// - `cost`: it reads kept cards no more often than the cost of one row says.
    pub fn hear<L: Ledger>(
        &mut self,
        engine: &Engine,
        steps: &mut Steps<L>,
    ) -> Result<Heard, AskFault>
        ensures shown { OnOk result (is_some (updates engine.now.mailbox self.old.id) ≡ true) }
        ensures back_to { IfOk result (λ heard. heard.back_to ≡ back_to self.old.from_serial self.old.heard (shown_updates engine.now.mailbox self.old.id)) }
        ensures rows { IfOk result (λ heard. heard.rows ≡ wanted_over (T.wanted self.old.test) heard.back_to (shown_updates engine.now.mailbox self.old.id)) }
        ensures max { IfOk result (λ heard. heard.max ≡ length (shown_updates engine.now.mailbox self.old.id)) }
        ensures kept { OnOk result (self.new ≡ having_heard (shown_updates engine.now.mailbox self.old.id) self.old) }
        ensures refused { OnErr result (self.new ≡ self.old) }
        ensures stale { engine.now.stale ≡ true → IsErrOf result AskFault.Stale }
        ensures cause { IfErr result (IsUpdatesCause self.old.id engine.now) }
        ensures cost { steps.new ≤ steps.old + row_cost engine.now.mailbox self.old.id }
    {
        // No app of a mailbox has 2^32 updates.
        engine.keeps_rules();
        a_mailbox_is_bounded();
        let rows = engine.updates(&self.id, steps)?;
        let heard = self.tell(rows.as_slice())?;
        self.heard = origins(self.alloc, rows.as_slice())?;
        Ok(heard)
    }

    /// What it is told where these are the updates of its app.
    fn tell(&self, rows: &[UpdateRow]) -> Result<Heard, Memory>
        requires bounded { length rows.now ≤ max_total_weight }
        ensures back_to { IfOk result (λ heard. heard.back_to ≡ back_to self.now.from_serial self.now.heard rows.now) }
        ensures rows { IfOk result (λ heard. heard.rows ≡ wanted_over (T.wanted self.now.test) heard.back_to rows.now) }
        ensures max { IfOk result (λ heard. heard.max ≡ length rows.now) }
    {
        let unmoved = count_unmoved(self.heard.as_slice(), rows) as u32;
        let back_to = self.from_serial.max(unmoved);
        Ok(Heard {
            back_to,
            max: rows.len() as u32,
            rows: self.wanted_over(back_to, rows)?,
        })
    }

    /// Copies of the updates with a serial over this one that it wants.
    fn wanted_over(&self, serial: u32, rows: &[UpdateRow]) -> Result<Items<UpdateRow>, Memory>
        ensures { IfOk result (λ copies. copies ≡ wanted_over (T.wanted self.now.test) serial rows.now) }
    {
        let mut copies = Items::new(self.alloc);
        for row in rows {
            if row.serial > serial && self.test.wants(row) {
                copies.push(copy_of(row)?)?;
            }
        }
        Ok(copies)
    }
}
