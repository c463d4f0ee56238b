//! A listener on the updates of an app.
ghost use Rattle.std.specs.Prelude.{◌||◌, not, is_some};

use app_listener::{Heard, Listener, Test};
use chat_print::print_updates;
use engine::{AskFault, Engine};
use kit::{Id, Steps};
use mailbox_model::UpdateRow;
use outside::MemorySink;
use plain_pages::Stop;
use scripts::add_number;
use std::alloc::Global;
use std::sync::ledger::Ledger;

/// No updates here have more bytes.
const ROOM: usize = 65_536;

/// Which updates a listener wants: all, or only those that have an info.
#[derive(Clone, Copy)]
pub struct Wants {
    pub info: bool,
}

impl Test for Wants {
    ghost wanted = { λ wants row. not wants.info || is_some row.update.info };

    fn wants(&self, row: &UpdateRow) -> bool {
        !self.info || row.update.info.is_some()
    }
}

/// A listener on the app with this id that wants these updates over a serial.
pub fn listener_on(
    alloc: Global,
    id: &[u8],
    from_serial: u32,
    wants: Wants,
) -> Result<Listener<Wants>, Stop> {
    match Id::read(alloc, id)? {
        Some(id) => Ok(Listener::new(alloc, id, from_serial, wants)),
        None => Err(Stop::NoValue),
    }
}

/// Says `back_to`, `max`, and the serials of the updates.
fn add_serials(said: &mut Vec<u8>, alloc: Global, heard: &Heard) -> Result<(), Stop> {
    said.extend_from_slice(b"back to ")?;
    add_number(said, alloc, u64::from(heard.back_to))?;
    said.extend_from_slice(b" of ")?;
    add_number(said, alloc, u64::from(heard.max))?;
    said.push(b':')?;
    for row in heard.rows.as_slice() {
        said.push(b' ')?;
        add_number(said, alloc, u64::from(row.serial))?;
    }
    said.push(b'\n')?;
    Ok(())
}

/// Says the updates.
fn add_updates(said: &mut Vec<u8>, alloc: Global, heard: &Heard) -> Result<(), Stop> {
    let mut out = MemorySink::new(alloc, ROOM, Vec::new(alloc))?;
    match print_updates(alloc, heard.rows.as_slice(), heard.max, &mut out) {
        Ok(()) => Ok(said.extend_from_slice(out.bytes())?),
        Err(_) => Err(Stop::NoRule),
    }
}

/// Says what is told to a listener.
pub fn add_heard<L: Ledger>(
    said: &mut Vec<u8>,
    alloc: Global,
    listener: &mut Listener<Wants>,
    engine: &Engine,
    steps: &mut Steps<L>,
) -> Result<(), Stop> {
    match listener.hear(engine, steps) {
        Ok(heard) => {
            add_serials(said, alloc, &heard)?;
            add_updates(said, alloc, &heard)
        }
        Err(AskFault::NoApp | AskFault::NoChat) => Ok(said.extend_from_slice(b"no such app\n")?),
        Err(AskFault::Stale | AskFault::Memory) => Err(Stop::Memory),
    }
}
