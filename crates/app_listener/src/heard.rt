//! What a listener is told.
ghost use Rattle.std.specs.Prelude.{◌≡◌, map, IfOk};
ghost use Rattle.std.specs.List.{common_prefix_len};
ghost use Rattle.app_listener.specs.Hearing.{is_origin, origin};

use kit::Memory;
use lists::Items;
use mailbox_model::UpdateRow;
use std::alloc::Global;

/// What a listener is told of its app.
#[derive(Debug, Drop)]
pub struct Heard {
    /// The serial up to which the rows that it was told of before still stand: those over it are to be forgotten.
    pub back_to: u32,
    /// The number of updates of the app, wanted or not.
    pub max: u32,
    /// The wanted updates with a serial over `back_to`, in mail order.
    pub rows: Items<UpdateRow>,
}

/// Where an update comes from. No two updates of an app have one origin.
#[derive(Clone, Copy, Debug, PartialEq, Eq)]
pub struct Origin {
    /// The number in the mailbox of the mail that brought it.
    pub uid: u32,
    /// Its index among the updates of that mail, from 0 on.
    pub part: u32,
}

impl Origin {
    /// The origin of an update.
    fn of(row: &UpdateRow) -> Self
        ensures { result ≡ origin row.now }
    {
        Origin {
            uid: row.uid,
            part: row.part,
        }
    }
}

/// The origins of these updates, in their order.
pub(crate) fn origins(alloc: Global, rows: &[UpdateRow]) -> Result<Items<Origin>, Memory>
    ensures { IfOk result (λ origins. origins ≡ map origin rows.now) }
{
    let mut origins = Items::new(alloc);
    for row in rows {
        origins.push(Origin::of(row))?;
    }
    Ok(origins)
}

/// How many of the first updates are those whose origins were heard of, in the same order.
pub(crate) fn count_unmoved(heard: &[Origin], rows: &[UpdateRow]) -> usize
    ensures { result ≡ common_prefix_len is_origin heard.now rows.now }
{
    let mut count = 0;
    for (origin, row) in heard.iter().zip(rows) {
        if *origin != Origin::of(row) {
            return count;
        }
        count += 1;
    }
    count
}

/// A copy of an update.
pub(crate) fn copy_of(row: &UpdateRow) -> Result<UpdateRow, Memory>
    ensures { IfOk result (λ copy. copy ≡ row.now) }
{
    Ok(UpdateRow {
        serial: row.serial,
        uid: row.uid,
        part: row.part,
        from: row.from.copy()?,
        update: row.update.copy()?,
    })
}
