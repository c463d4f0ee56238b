//! From what a store finds to the state that stands.
ghost use Rattle.std.specs.Prelude.{◌≡◌, ◌≢◌, ◌∷◌, [], false, map, Ok, IfErr, IfOk, IfSome, OnOk};
ghost use Rattle.std.specs.List.{AllByRecursion};
ghost use Rattle.outside.specs.StateFaults.{Gives};
ghost use Rattle.outside.specs.declared.faults.StateFault.TheVariants as fault;
ghost use Rattle.mailbox_model.specs.Mailbox.{full};
ghost use Rattle.box_state.specs.Kept.{ready_for};
ghost use Rattle.state_image.specs.Changes.{FitsChange};
ghost use Rattle.state_image.specs.Images.{IsPosition};
ghost use Rattle.checkpoint.specs.Kept.{seen_kept};
ghost use Rattle.tail_journal.specs.Read.{applied_of, Fails, FitsApplied};
ghost use Rattle.state_store.specs.States.{IsWithin, state_of};
ghost use Rattle.state_store.specs.Stands.{made, after_groups, begins, stand_of, ComesOf};
ghost use Rattle.state_store.specs.Making.{Makes};

use box_state::{Mailbox, PlanFault};
use kit::{Addr, Memory};
use mailbox_model::Change;
use outside::{Place, StateFault};
use state_image::Position;
use std::alloc::Global;
use tail_journal::Group;

/// Where nothing was followed yet.
const FIRST_POSITION: Position = Position {
    count: 0,
    mbox: 0,
    steps: 0,
    lines: 0,
    mbox_trace: [0; 32],
    steps_trace: [0; 32],
};

/// Makes room for a change that is kept at this offset of the tail. `Damaged` comes exactly where the mailbox has no place
/// for it. Takes memory.
fn make_room(mailbox: &mut Mailbox, at: u64, change: &Change) -> Result<(), StateFault>
    ensures same { mailbox.new.mailbox ≡ mailbox.old.mailbox }
    ensures ready { OnOk result (mailbox.new.ready ≡ ready_for change.now) }
    ensures room { OnOk result (full mailbox.old.mailbox change.now ≡ false) }
    ensures cause { IfErr result (λ why. Fails why (made mailbox.old.mailbox ((at, change.now) ∷ []))) }
    ensures no_fault { IfErr result (λ why. why ≢ fault.Disk) }
{
    match mailbox.plan(change) {
        Ok(_) => Ok(mailbox.reserve(change)?),
        Err(PlanFault::Full) => Err(StateFault::Damaged(Place::T, at)),
        Err(PlanFault::Memory) => Err(StateFault::Memory),
    }
}

/// Makes a change that is kept at this offset of the tail. `Damaged` comes exactly where the mailbox has no place for it.
/// Takes memory.
fn make_change(mailbox: &mut Mailbox, at: u64, change: Change) -> Result<(), StateFault>
    requires fits { FitsChange change }
    ensures makes { Makes result mailbox.new.mailbox (made mailbox.old.mailbox ((at, change) ∷ [])) }
    ensures no_fault { IfErr result (λ why. why ≢ fault.Disk) }
{
    make_room(mailbox, at, &change)?;
    mailbox.make(change);
    Ok(())
}

/// Makes the changes of a group, each with its offset in the tail.
fn make_changes(mailbox: &mut Mailbox, changes: Vec<(u64, Change)>) -> Result<(), StateFault>
    requires fits { AllByRecursion (λ change. FitsChange change.1) changes.items }
    ensures makes { Makes result mailbox.new.mailbox (made mailbox.old.mailbox changes.items) }
    ensures no_fault { IfErr result (λ why. why ≢ fault.Disk) }
{
    for (at, change) in changes {
        make_change(mailbox, at, change)?;
    }
    Ok(())
}

/// Makes groups one after the other, and moves the position to that after them.
fn make_groups(
    mailbox: &mut Mailbox,
    position: &mut Position,
    groups: Vec<Group>,
) -> Result<(), StateFault>
    requires fit { AllByRecursion FitsApplied (map applied_of groups.items) }
    requires within { IsWithin position.old }
    ensures makes { Makes result (state_of (mailbox.new, position.new))
        (after_groups (state_of (mailbox.old, position.old)) (map applied_of groups.items)) }
    ensures within { OnOk result (IsWithin position.new) }
    ensures no_fault { IfErr result (λ why. why ≢ fault.Disk) }
{
    for group in groups {
        make_changes(mailbox, group.changes)?;
        *position = group.position;
    }
    Ok(())
}

/// What is kept, or where nothing is, the empty mailbox of an address and the first position.
fn begin(
    alloc: Global,
    me: &Addr,
    kept: Option<(Mailbox, Position)>,
) -> Result<(Mailbox, Position), Memory>
    requires position { IfSome kept (λ read. IsPosition read.1) }
    ensures state { IfOk result (λ begun. state_of begun ≡ begins me.now (seen_kept kept)) }
    ensures within { IfOk result (λ begun. IsWithin begun.1) }
{
    match kept {
        Some(kept) => Ok(kept),
        None => Ok((Mailbox::new(alloc, me.copy()?), FIRST_POSITION)),
    }
}

/// The state that stands: what is kept, where anything is, after the groups of the tail. `Damaged` comes exactly where the
/// mailbox has no place for a change of them, with its offset. Takes memory.
pub fn restore(
    alloc: Global,
    me: &Addr,
    kept: Option<(Mailbox, Position)>,
    groups: Vec<Group>,
) -> Result<(Mailbox, Position), StateFault>
    requires position { IfSome kept (λ read. IsPosition read.1) }
    requires fit { AllByRecursion FitsApplied (map applied_of groups.items) }
    ensures gives { Gives state_of result
        (stand_of me.now (Ok (record { kept = seen_kept kept; groups = map applied_of groups.items }))) }
    ensures within { IfOk result (λ stood. IsWithin stood.1) }
    ensures comes { IfOk result (λ stood.
        ComesOf me.now (record { kept = seen_kept kept; groups = map applied_of groups.items }) stood.0.mailbox) }
    ensures no_fault { IfErr result (λ why. why ≢ fault.Disk) }
{
    let (mut mailbox, mut position) = begin(alloc, me, kept)?;
    mailbox.keeps_rules();
    make_groups(&mut mailbox, &mut position, groups)?;
    Ok((mailbox, position))
}
