//! The first mails of a trial mailbox.
use box_maker::box_bytes;
use kit::{Addr, Memory};
use scripts::first_line;
use std::alloc::Global;

/// How many mails a trial mailbox has.
const MAILS: u32 = 2_000;

/// So many of the first mails of the trial mailbox with a number, as an mbox: to me@x.org and others.
pub fn first_mails(alloc: Global, number: u64, count: u64) -> Result<Vec<u8>, Memory> {
    match Addr::read(alloc, b"me@x.org")? {
        Some(me) => first_of(alloc, &box_bytes(alloc, number, MAILS, &me)?, count),
        None => Ok(Vec::new(alloc)),
    }
}

/// The lines of an mbox before that of the separator after so many mails.
fn first_of(alloc: Global, mbox: &[u8], count: u64) -> Result<Vec<u8>, Memory> {
    let mut first = Vec::new(alloc);
    let mut rest = mbox;
    let mut begun: u64 = 0;
    for _ in 0..mbox.len() {
        let (line, after) = first_line(rest);
        rest = after;
        begun = begun.saturating_add(u64::from(line.starts_with(b"From ")));
        if count < begun {
            break;
        }
        first.extend_from_slice(line)?;
        first.push(b'\n')?;
        if rest.is_empty() {
            break;
        }
    }
    Ok(first)
}
