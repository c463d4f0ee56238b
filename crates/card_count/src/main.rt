//! A program to measure the readers by: it reads each mail of `box.mbox` in the working folder to its card, and prints
//! how many mails there are and what their cards weigh in all.
#![tactic(auto)]

use card_type::weight;
use chat_card::read_card;
use mboxrd::{MboxReader, Taken};
use outside::FileSource;
use std::alloc::Global;
use std::process::ExitCode;
use std::rt::Files;

const MBOX: &str = "box.mbox";

const CHUNK_LEN: usize = 65_536;

/// The weight of the card of a mail; 0 where it has none.
fn weight_of(alloc: Global, mail: &[u8]) -> u64 {
    match read_card(alloc, 1, mail) {
        Ok(card) => weight(&card),
        Err(_) => 0,
    }
}

/// How many mails the mbox has, and what their cards weigh in all; none where it can't be read to its end.
fn count<R: Files + AllocGlobal>(rt: &R) -> Option<(u64, u64)> {
    let alloc = rt.alloc();
    let mut mbox = FileSource::open(rt, MBOX).ok()?;
    let mut reader = MboxReader::new(alloc, CHUNK_LEN, u64::MAX).ok()?;
    let mut total: u64 = 0;
    for mails in 0..u64::MAX {
        let Taken::Mail(mail) = reader.next(alloc, &mut mbox).ok()? else {
            return Some((mails, total));
        };
        total = total.saturating_add(weight_of(alloc, &mail));
    }
    None
}

fn main(rt: HostRuntime) -> ExitCode {
    match count(&rt) {
        Some((mails, total)) if println!(rt; "{mails} {total}").is_ok() => ExitCode::SUCCESS,
        _ => ExitCode::FAILURE,
    }
}
