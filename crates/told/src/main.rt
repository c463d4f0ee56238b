//! The program `told`: it plays scripts of mails that come, go and are seen, and prints each script with what the mailbox
//! shows then, what listeners are told, and whether engines in trials answer alike.
#![tactic(auto)]

mod changes;
mod compare;
mod drawn_trial;
mod listening;
mod mailbox_trial;
mod pages;
mod pair;
mod play;
mod report;
mod turns;

use crate::play::{Stage, play};
use plain_pages::Stop;
use std::io::Write;
use std::process::ExitCode;
use std::rt::{Env, Files};
use std::{env, fs, io};

/// What comes of the scripts that the arguments name, one after the other, or `None` where one can't be read or played.
fn played<R: Files + Env + AllocGlobal>(rt: &R) -> Option<Vec<u8>> {
    let mut said = Vec::new(rt.alloc());
    let mut stage = Stage::new(rt.alloc());
    for name in env::args(rt).ok()?.skip(1) {
        let script = fs::read(rt, name.as_str()).ok()?;
        play(&mut said, rt.alloc(), &mut stage, &script).ok()?;
    }
    Some(said)
}

fn main(rt: HostRuntime) -> ExitCode {
    match played(&rt) {
        Some(said) if io::writer(&rt).write_all(&said).is_ok() => ExitCode::SUCCESS,
        _ => ExitCode::FAILURE,
    }
}
