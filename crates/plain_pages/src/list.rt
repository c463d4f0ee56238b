//! The list of chats.
use crate::stop::Stop;
use crate::values::text;
use box_state::Mailbox;
use card_type::ChatKey;
use chat_view::body_of;
use lists::Items;
use mailbox_model::{ChatPage, FaultRow, Held, Item, ListPage, ListRow, Mark, Row};
use std::alloc::Global;
use std::cmp::Reverse;

/// How many rows are new.
fn fresh_among(rows: &[Row]) -> u32 {
    let mut fresh: u32 = 0;
    for row in rows {
        if row.mark == Mark::New {
            fresh = fresh.saturating_add(1);
        }
    }
    fresh
}

/// The row of a chat in the list.
fn list_row(alloc: Global, page: &ChatPage) -> Result<ListRow, Stop> {
    let last = page.rows.as_slice().last();
    let body = match last {
        Some(row) => body_of(alloc, row)?,
        None => text(alloc, "")?,
    };
    Ok(ListRow {
        key: page.key.copy()?,
        name: page.name.copy()?,
        fresh: fresh_among(page.rows.as_slice()),
        time: last.map(|row| row.date),
        body,
    })
}

/// What the list is ordered by: the date of the last row, the latest first and none last, and then the key.
type Dated = (Reverse<Option<u64>>, ChatKey);

/// The keys of these pages, in the order of the list.
fn dated(alloc: Global, pages: &[ChatPage]) -> Result<Vec<Dated>, Stop> {
    let mut dated = Vec::new(alloc);
    for page in pages {
        let date = page.rows.as_slice().last().map(|row| row.date);
        dated.push((Reverse(date), page.key.copy()?))?;
    }
    dated.sort()?;
    Ok(dated)
}

/// Adds the row of the chat with a key.
fn push_row(
    alloc: Global,
    rows: &mut Items<ListRow>,
    pages: &[ChatPage],
    key: &ChatKey,
) -> Result<(), Stop> {
    for page in pages {
        if page.key == *key {
            rows.push(list_row(alloc, page)?)?;
        }
    }
    Ok(())
}

/// The rows of the list.
fn list_rows(alloc: Global, pages: &[ChatPage]) -> Result<Items<ListRow>, Stop> {
    let mut rows = Items::new(alloc);
    for (_, key) in dated(alloc, pages)? {
        push_row(alloc, &mut rows, pages, &key)?;
    }
    Ok(rows)
}

/// The mails without a card.
fn faults_of(alloc: Global, items: &[Item]) -> Result<Items<FaultRow>, Stop> {
    let mut faults = Items::new(alloc);
    for item in items {
        if let Held::Fault(fault) = item.held {
            faults.push(FaultRow {
                uid: item.uid,
                fault,
            })?;
        }
    }
    Ok(faults)
}

/// The list.
pub fn list_of(alloc: Global, mailbox: &Mailbox, pages: &[ChatPage]) -> Result<ListPage, Stop> {
    Ok(ListPage {
        rows: list_rows(alloc, pages)?,
        faults: faults_of(alloc, mailbox.items())?,
    })
}
