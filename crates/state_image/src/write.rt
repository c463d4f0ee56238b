//! Images, written.
ghost use Rattle.std.specs.Prelude.{◌≡◌, ◌<◌, ◌≤◌, ◌+◌, ◌^◌, ◌++◌, IfOk, OnOk, flat_map, length, true, IsTrue, Ok, sum_by};
ghost use Rattle.kit.specs.Addresses.{is_addr};
ghost use Rattle.card_type.specs.Records as records;
ghost use Rattle.mailbox_model.specs.Mailbox.{card_at, IsMailbox};
ghost use Rattle.state_image.specs.Images.{image, image_of, counts_of, counts_written, position_spelled, traces_spelled, held_spelled, numbers_spelled, item_spelled, names_spelled, counts_spelled, cards_of, cards_in};

use crate::fault_code::code_of;
use crate::position::Position;
use crate::read::NAME;
use box_state::{Held, Item, Mailbox};
use card_record::{Written, write_block, write_count, write_record};
use kit::{Memory, Steps};
use std::alloc::Global;
use std::sync::ledger::Ledger;

/// Appends the numbers of a position.
///
/// By the clause `wide` its offsets have 64 bits, as their type says.
fn push_places(out: &mut Vec<u8>, position: &Position) -> Result<(), Memory>
    ensures text { OnOk result (out.new.items ≡ out.old.items ++ counts_written (counts_of position.now)) }
    ensures wide { (position.now.mbox < 2 ^ 64) × (position.now.steps < 2 ^ 64) }
{
    let Position {
        count,
        mbox,
        steps,
        lines,
        mbox_trace: _,
        steps_trace: _,
    } = *position;
    count.write(out)?;
    mbox.write(out)?;
    steps.write(out)?;
    lines.write(out)
}

/// Appends the traces of a position, of 32 bytes each, as their type says.
fn push_traces(out: &mut Vec<u8>, position: &Position) -> Result<(), Memory>
    ensures text { OnOk result (out.new.items ≡ out.old.items ++ traces_spelled true (position.now.mbox_trace, position.now.steps_trace)) }
    ensures traces { (length position.now.mbox_trace ≡ 32) × (length position.now.steps_trace ≡ 32) }
{
    out.extend_from_slice(&position.mbox_trace)?;
    out.extend_from_slice(&position.steps_trace)?;
    Ok(())
}

/// Appends a position.
fn push_position(out: &mut Vec<u8>, position: &Position) -> Result<(), Memory>
    ensures text { OnOk result (out.new.items ≡ out.old.items ++ position_spelled true position.now) }
    ensures wide { OnOk result ((position.now.mbox < 2 ^ 64) × (position.now.steps < 2 ^ 64)) }
    ensures traces { OnOk result ((length position.now.mbox_trace ≡ 32) × (length position.now.steps_trace ≡ 32)) }
{
    push_places(out, position)?;
    push_traces(out, position)
}

/// Appends what an item holds: a card is read from the mailbox.
fn push_held<L: Ledger>(
    out: &mut Vec<u8>,
    mailbox: &Mailbox,
    item: &Item,
    steps: &mut Steps<L>,
) -> Result<(), Memory>
    ensures text { OnOk result (out.new.items ≡ out.old.items ++ held_spelled item.now.held (card_at mailbox.now.mailbox item.now.uid)) }
    ensures cost { steps.new ≡ steps.old + cards_of item.now }
{
    match item.held {
        Held::Fault(fault) => {
            out.push(code_of(fault))?;
            Ok(())
        }
        // Every item that holds a card has one, so nothing is left out.
        Held::Card => match mailbox.card(item.uid, steps) {
            Some(card) => {
                out.push(0)?;
                write_record(out, card)
            }
            None => Ok(()),
        },
    }
}

/// Appends the numbers of an item.
fn push_numbers(out: &mut Vec<u8>, item: &Item) -> Result<(), Memory>
    ensures { OnOk result (out.new.items ≡ out.old.items ++ numbers_spelled item.now) }
{
    item.uid.write(out)?;
    item.arrival.write(out)?;
    item.seen.write(out)
}

/// Appends an item with its card.
fn push_item<L: Ledger>(
    out: &mut Vec<u8>,
    mailbox: &Mailbox,
    item: &Item,
    steps: &mut Steps<L>,
) -> Result<(), Memory>
    ensures text { OnOk result (out.new.items ≡ out.old.items ++ item_spelled mailbox.now.mailbox item.now) }
    ensures cost { OnOk result (steps.new ≡ steps.old + cards_of item.now) }
    ensures most { steps.new ≤ steps.old + cards_of item.now }
{
    push_numbers(out, item)?;
    push_held(out, mailbox, item, steps)
}

/// Appends items with their cards.
fn push_items<L: Ledger>(
    out: &mut Vec<u8>,
    mailbox: &Mailbox,
    items: &[Item],
    steps: &mut Steps<L>,
) -> Result<(), Memory>
    ensures text { OnOk result (out.new.items ≡ out.old.items ++ flat_map (item_spelled mailbox.now.mailbox) items.now) }
    ensures cost { OnOk result (steps.new ≡ steps.old + sum_by cards_of items.now) }
    ensures most { steps.new ≤ steps.old + sum_by cards_of items.now }
{
    for item in items {
        push_item(out, mailbox, item, steps)?;
    }
    Ok(())
}

/// Appends the own address and the position.
fn push_names(out: &mut Vec<u8>, mailbox: &Mailbox, position: &Position) -> Result<(), Memory>
    ensures text { OnOk result (out.new.items ≡ out.old.items ++ names_spelled mailbox.now.mailbox position.now) }
    ensures rules { IsMailbox mailbox.now.mailbox }
    ensures me { IsTrue (is_addr mailbox.now.mailbox.me) }
    ensures wide { OnOk result ((position.now.mbox < 2 ^ 64) × (position.now.steps < 2 ^ 64)) }
    ensures traces { OnOk result ((length position.now.mbox_trace ≡ 32) × (length position.now.steps_trace ≡ 32)) }
{
    write_block(out, mailbox.me().bytes())?;
    push_position(out, position)?;
    Ok(())
}

/// Appends the numbers of a mailbox, and that of its items.
fn push_counts(out: &mut Vec<u8>, mailbox: &Mailbox) -> Result<(), Memory>
    ensures { OnOk result (out.new.items ≡ out.old.items ++ counts_spelled mailbox.now.mailbox) }
{
    mailbox.now().write(out)?;
    mailbox.next_uid().write(out)?;
    write_count(out, mailbox.items().len())
}

/// The image of a mailbox and a position. Reads each kept card once: the steps are those of the cards that were read. Takes
/// memory; `Err` only when it runs out.
pub fn write_image<L: Ledger>(
    alloc: Global,
    mailbox: &Mailbox,
    position: Position,
    steps: &mut Steps<L>,
) -> Result<Vec<u8>, Memory>
    requires some { 1 ≤ position.count }
    requires few { position.count ≤ 2 ^ 62 }
    requires lines { position.lines ≤ position.steps }
    ensures image { IfOk result (λ written. written.items ≡ image mailbox.now.mailbox position) }
    ensures reads_back { IfOk result (λ written. image_of written.items ≡ Ok (mailbox.now.mailbox, position)) }
    ensures cost { OnOk result (steps.new ≡ steps.old + cards_in mailbox.now.mailbox) }
    ensures most { steps.new ≤ steps.old + cards_in mailbox.now.mailbox }
{
    let mut image = Vec::from_slice(alloc, NAME)?;
    push_names(&mut image, mailbox, &position)?;
    push_counts(&mut image, mailbox)?;
    push_items(&mut image, mailbox, mailbox.items(), steps)?;
    Ok(image)
}
