//! Two engines over one mailbox.
ghost use Rattle.std.specs.Prelude.{◌≡◌, IfOk};
ghost use Rattle.mailbox_model.specs.Mailbox.{IsValidChange};

use engine::{ApplyFault, Engine};
use kit::{Addr, Memory, Steps};
use mailbox_model::Change;
use plain_pages::Stop;
use std::alloc::Global;
use std::sync::ledger::Ledger;

/// Two engines that follow the same changes. It is forgotten and not dropped, where it is let go: to prove at each way out of
/// a function that each part of an engine is given back takes longer than all else here.
#[derive(Drop)]
pub struct Pair {
    /// It keeps its indexes, and repairs them at each change.
    pub kept: Engine,
    /// It builds its indexes anew before it is asked.
    pub anew: Engine,
}

impl Pair {
    /// Two engines over the empty mailbox of an address.
    pub fn new(alloc: Global, me: Addr) -> Result<Pair, Memory> {
        let kept = Engine::new(alloc, me.copy()?);
        let anew = Engine::new(alloc, me);
        Ok(Pair { kept, anew })
    }

    /// Makes a change in both. Whether there was a place for it.
    pub fn make<L: Ledger>(&mut self, change: Change, steps: &mut Steps<L>) -> Result<bool, Stop>
        requires { IsValidChange change }
    {
        let kept = make_in(&mut self.kept, &change, steps)?;
        let anew = is_made(self.anew.apply(change, steps))?;
        Ok(kept && anew)
    }
}

/// Makes a change in an engine. One to which memory is refused is built anew, and makes it then: so the pages of an engine that
/// was stale are compared too, where one allocation of the program is made to fail.
fn make_in<L: Ledger>(
    engine: &mut Engine,
    change: &Change,
    steps: &mut Steps<L>,
) -> Result<bool, Stop>
    requires { IsValidChange change.now }
{
    let applied = engine.apply(copy_of(change)?, steps);
    if matches!(applied, Err(ApplyFault::Memory)) {
        engine.rebuild(steps)?;
        return is_made(engine.apply(copy_of(change)?, steps));
    }
    is_made(applied)
}

/// Whether there was a place for a change.
fn is_made(applied: Result<(), ApplyFault>) -> Result<bool, Stop> {
    match applied {
        Ok(()) => Ok(true),
        Err(ApplyFault::Full) => Ok(false),
        Err(ApplyFault::Stale | ApplyFault::Memory) => Err(Stop::Memory),
    }
}

/// A change once more.
fn copy_of(change: &Change) -> Result<Change, Memory>
    ensures { IfOk result (λ copy. copy ≡ change.now) }
{
    match change {
        Change::Arrive(card) => Ok(Change::Arrive(card.copy()?)),
        Change::ArriveFault(fault) => Ok(Change::ArriveFault(*fault)),
        Change::Expunge(uid) => Ok(Change::Expunge(*uid)),
        Change::Seen(uid) => Ok(Change::Seen(*uid)),
        Change::At(moment) => Ok(Change::At(*moment)),
    }
}
