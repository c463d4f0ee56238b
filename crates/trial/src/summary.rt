//! What a mailbox shows, in numbers.
ghost use Rattle.std.specs.Prelude.{◌≡◌, ◌<◌, ◌≤◌, ◌+◌, ◌^◌, true, is_some, length, IfOk, string_bytes};
ghost use Rattle.mailbox_model.specs.ChatList.{list_page};
ghost use Rattle.mailbox_model.specs.Pages.{page, page_of};
ghost use Rattle.indexes.specs.Costs.{list_cost, page_cost};
ghost use Rattle.trial.specs.Costs.{pages_cost, summary_cost};
ghost use Rattle.trial.specs.Summaries.{summary_of, summary_text};

use card_type::ChatKey;
use engine::{AskFault, Engine, ListPage, ListRow};
use kit::{Memory, Steps};
use mailbox_model::{a_mailbox_is_bounded, list_has_each_chat};
use std::alloc::Global;
use std::sync::ledger::Ledger;

/// What a mailbox shows, in numbers.
#[derive(Clone, Copy)]
pub struct Summary {
    /// How many chats the list has.
    pub chats: u64,
    /// How many rows the pages of these show.
    pub shown: u64,
    /// How many of those rows are received and unseen.
    pub fresh: u64,
}

/// The list of an engine.
fn list_of<L: Ledger>(engine: &Engine, steps: &mut Steps<L>) -> Result<ListPage, Memory>
    ensures page { IfOk result (λ found. found ≡ list_page engine.now.mailbox) }
    ensures cost { steps.new ≤ steps.old + list_cost engine.now.mailbox }
{
    // An engine is stale only where memory ran out before, and a list is refused for nothing else.
    engine.list(steps).map_err(|_| Memory)
}

/// How many rows the page of a chat in the list shows.
fn shown_in<L: Ledger>(engine: &Engine, key: &ChatKey, steps: &mut Steps<L>) -> Result<u64, Memory>
    requires there { is_some (page engine.now.mailbox key.now) ≡ true }
    ensures count { IfOk result (λ count. count ≡ length (page_of engine.now.mailbox key.now).rows) }
    ensures cost { steps.new ≤ steps.old + page_cost engine.now.mailbox key.now }
{
    match engine.chat(key, steps) {
        Ok(page) => Ok(page.rows.len() as u64),
        // An engine is stale only where memory ran out before.
        Err(AskFault::Stale | AskFault::Memory) => Err(Memory),
        Err(AskFault::NoChat | AskFault::NoApp) => unreachable!(),
    }
}

/// How many of the rows of a chat are fresh.
fn fresh_in(row: &ListRow) -> u64
    ensures count { result ≡ row.now.fresh }
    ensures small { result < 2 ^ 32 }
{
    u64::from(row.fresh)
}

/// What the mailbox of an engine shows. Takes memory; `Err` only when it runs out.
pub fn summary_of<L: Ledger>(engine: &Engine, steps: &mut Steps<L>) -> Result<Summary, Memory>
    ensures summary { IfOk result (λ summary. summary ≡ summary_of engine.now.mailbox) }
    ensures cost { steps.new ≤ steps.old + summary_cost engine.now.mailbox }
{
    let list = list_of(engine, steps)?;
    count_pages(engine, &list, steps)
}

/// What a mailbox with this list shows.
fn count_pages<L: Ledger>(
    engine: &Engine,
    list: &ListPage,
    steps: &mut Steps<L>,
) -> Result<Summary, Memory>
    requires list { list.now ≡ list_page engine.now.mailbox }
    ensures summary { IfOk result (λ summary. summary ≡ summary_of engine.now.mailbox) }
    ensures cost { steps.new ≤ steps.old + pages_cost engine.now.mailbox }
{
    // A mailbox has no more than 65,536 mails, and so its list and its pages no more rows.
    engine.keeps_rules();
    a_mailbox_is_bounded();
    list_has_each_chat();
    let mut shown = 0;
    let mut fresh = 0;
    for row in list.rows.as_slice() {
        shown += shown_in(engine, &row.key, steps)?;
        fresh += fresh_in(row);
    }
    Ok(Summary {
        chats: list.rows.len() as u64,
        shown,
        fresh,
    })
}

/// The line of a summary. Takes memory; `Err` only when it runs out.
pub fn summary_text(alloc: Global, number: u64, summary: Summary) -> Result<String, Memory>
    ensures { IfOk result (λ text. string_bytes text ≡ summary_text number summary) }
{
    let Summary {
        chats,
        shown,
        fresh,
    } = summary;
    let mut text = String::new(alloc);
    write!(
        text,
        "trial {number}: 2000 mails, {chats} chats, {shown} shown, {fresh} fresh\n"
    )?;
    Ok(text)
}
