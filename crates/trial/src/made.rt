//! The mailbox of a trial.
ghost use Rattle.std.specs.Prelude.{◌≡◌, ◌≤◌, ◌+◌, [], ◌∷◌, false, Some, MatchResult, OnOk};
ghost use Rattle.mailbox_model.specs.Mailbox.{IsValidChange};
ghost use Rattle.touched_chats.specs.Costs.{change_cost, change_costs};
ghost use Rattle.trial.specs.Costs.{making_cost};
ghost use Rattle.trial.specs.Trials.{after_allowed, arrivals, trial_mailbox};
ghost use Rattle.trial.specs.Faults.{Makes, IsUnmade};

use crate::box_mails::BoxMails;
use crate::fault::TrialFault;
use box_maker::box_bytes;
use engine::{ApplyFault, Engine};
use kit::{Addr, Steps};
use mailbox_model::Change;
use std::alloc::Global;
use std::sync::ledger::Ledger;

/// So many mails does a trial mailbox have.
const MAILS: u32 = 2_000;

/// When they arrive: 2024-02-01 00:00 UTC, after the date of each.
const ARRIVAL: u64 = 1_706_745_600;

/// An engine in whose mailbox the mails of a trial have arrived. `Full` comes exactly where the mailbox has no place for one
/// of them, and `Memory` when memory runs out.
///
/// - `cost`: kept cards are read no more often than the changes may.
pub fn made_engine<L: Ledger>(
    alloc: Global,
    me: Addr,
    number: u64,
    steps: &mut Steps<L>,
) -> Result<Engine, TrialFault>
    ensures made { MatchResult result (λ engine. trial_mailbox me number ≡ Some engine.mailbox) (IsUnmade (trial_mailbox me number)) }
    ensures cost { steps.new ≤ steps.old + making_cost me number }
{
    let bytes = box_bytes(alloc, number, MAILS, &me)?;
    let mut mails = BoxMails::new(alloc, bytes)?;
    let mut engine = Engine::new(alloc, me);
    make(&mut engine, Change::At(ARRIVAL), steps)?;
    arrive_all(alloc, &mut engine, &mut mails, steps)?;
    Ok(engine)
}

/// Makes a change in an engine that is not stale.
fn make<L: Ledger>(
    engine: &mut Engine,
    change: Change,
    steps: &mut Steps<L>,
) -> Result<(), TrialFault>
    requires current { engine.old.stale ≡ false }
    requires valid { IsValidChange change }
    ensures made { Makes (after_allowed engine.old.mailbox (change ∷ [])) result engine.new.mailbox }
    ensures current { OnOk result (engine.new.stale ≡ false) }
    ensures cost { steps.new ≤ steps.old + change_cost engine.old.mailbox change }
{
    match engine.apply(change, steps) {
        Ok(()) => Ok(()),
        Err(ApplyFault::Full) => Err(TrialFault::Full),
        Err(ApplyFault::Memory) => Err(TrialFault::Memory),
        Err(ApplyFault::Stale) => unreachable!(),
    }
}

/// Has all these mails arrive in an engine that is not stale, one after the other.
fn arrive_all<L: Ledger>(
    alloc: Global,
    engine: &mut Engine,
    mails: &mut BoxMails,
    steps: &mut Steps<L>,
) -> Result<(), TrialFault>
    requires current { engine.old.stale ≡ false }
    requires usable { mails.old.refused ≡ false }
    ensures made { Makes (after_allowed engine.old.mailbox (arrivals engine.old.mailbox.next_uid mails.old.mails)) result engine.new.mailbox }
    ensures current { OnOk result (engine.new.stale ≡ false) }
    ensures cost { steps.new ≤ steps.old + change_costs engine.old.mailbox (arrivals engine.old.mailbox.next_uid mails.old.mails) }
{
    loop {
        let uid = engine.mailbox().next_uid();
        let Some(change) = mails.next_arrival(alloc, uid)? else {
            return Ok(());
        };
        make(engine, change, steps)?;
    }
}
