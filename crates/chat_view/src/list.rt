//! The row of a chat in the list.
ghost use Rattle.std.specs.Prelude.{◌≡◌, IfOk, [], unwrap_or, option_copied};
ghost use Rattle.std.specs.Option.{option_map_or};
ghost use Rattle.mailbox_model.specs.Bodies.{body};
ghost use Rattle.mailbox_model.specs.ChatList.{list_row_by};
ghost use Rattle.mailbox_model.specs.Names.{name_by};

use crate::state::ChatState;
use crate::text::{body_of, page_name};
use kit::{Memory, Text};
use mailbox_model::{ListRow, Row};
use std::alloc::Global;

/// The body of a row, and an empty text where there is none.
fn body_or_empty(alloc: Global, row: Option<&Row>) -> Result<Text, Memory>
    ensures { IfOk result (λ text. text ≡ option_map_or body (option_copied row.entry) []) }
{
    match row {
        Some(row) => body_of(alloc, row),
        None => Ok(Text::from(String::new(alloc))),
    }
}

/// The row of a chat in the list, where `last` is its last row that is shown and `contact` the name of the contact with
/// whom it is, if there are such. Takes memory; `Err` only when it runs out.
pub fn chat_row(
    alloc: Global,
    state: &ChatState,
    last: Option<&Row>,
    contact: Option<&Text>,
) -> Result<ListRow, Memory>
    ensures { IfOk result (λ row. row ≡ list_row_by state.now.key (name_by state.now.key state.now.roster (unwrap_or (option_copied contact.entry))) state.now.fresh (option_copied last.entry)) }
{
    Ok(ListRow {
        key: state.key.copy()?,
        name: page_name(alloc, &state.key, &state.roster, contact)?,
        fresh: state.fresh,
        time: last.map(|row| row.date),
        body: body_or_empty(alloc, last)?,
    })
}
