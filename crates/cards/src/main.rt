//! The program `cards`: it plays scripts of what the readers of a mail are given, and prints each script with what they
//! give. `written` writes a mail from the card of another one, and reads it back.
//!
//! A line of a script is a command and its input, as `date 1 May 2024 10:00`. A command that stands alone takes the lines
//! up to a dot as its input. In an input on the same line `\n`, `\r`, `\t`, `\\` and `\` with two digits are bytes that
//! would not print, and `\*` is the text that `begin`, `add` and `each` put together. `chunks`, `budget`, `fail` and
//! `skip` say how the readers of files are tried. A line that begins with `#` says what the cases after it show.
#![tactic(auto)]

mod bodies;
mod boxes;
mod card;
mod headers;
mod play;
mod reading;
mod shown;
mod stage;
mod steps;
mod texts;
mod trees;
mod types;
mod updates;
mod values;
mod written;

use crate::play::play;
use crate::stage::Stage;
use std::io::Write;
use std::process::ExitCode;
use std::rt::{Env, Files};
use std::{env, fs, io};

/// What comes of the scripts that the arguments name, one after the other, or `None` where one can't be read.
fn played<R: Files + Env + AllocGlobal>(rt: &R) -> Option<Vec<u8>> {
    let mut said = Vec::new(rt.alloc());
    for name in env::args(rt).ok()?.skip(1) {
        let script = fs::read(rt, name.as_str()).ok()?;
        let mut stage = Stage::new(rt.alloc());
        play(&mut said, rt.alloc(), &mut stage, &script).ok()?;
    }
    Some(said)
}

fn main(rt: HostRuntime) -> ExitCode {
    match played(&rt) {
        Some(said) if io::writer(&rt).write_all(&said).is_ok() => ExitCode::SUCCESS,
        _ => ExitCode::FAILURE,
    }
}
