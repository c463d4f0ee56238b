//! The program `rows`: it plays scripts of runs over devices in memory, and prints each script with what comes of it.
//!
//! A line of a script is empty, a comment after `#`, or one of these commands. A TEXT is written as `scripts::unescaped` reads
//! it, and so is each of the WORDS of a run. A PLACE is A, B or T.
//!
//! - `mail NAME`, and lines up to a dot: a mail, for all scripts that follow.
//! - `mbox NAME ..`: the mbox of these mails. `trial NUMBER COUNT`: the first mails of that trial mailbox. `chain COUNT`: mails
//!   to three people of which each answers the next one. `cut mbox SIZE`. `steps TEXT`: the steps file. `remove steps`: there is none.
//! - `each mbox|steps FIRST LAST STEP TEXT`: adds the text for each of these numbers, which stands in place of each `%`.
//! - `clock MOMENT`: what the clock tells. `piece SIZE`: how many bytes of the mbox and of the steps file are taken at once at
//!   most; 0 for any number. `fail mbox|steps|put CALL`: a call that fails in the next run.
//! - `shelf`: one in which nothing is kept. `fail shelf CALL`, `stop shelf CALL`: the same contents, and a call that fails, or all
//!   from one on. `crash old|new|ones`: what a crash leaves.
//! - `fields`, and lines up to two dots: what a place is made of by `keep PLACE`, `add PLACE` after what it has, and
//!   `slot PLACE NUMBER`, each with `FIELD TEXT` where one field is something else.
//! - `patch PLACE OFFSET TEXT`, `cut PLACE SIZE`, `copy PLACE PLACE`: other changes of what is kept.
//! - `run WORDS`: a run over the shelf. `anew WORDS`: one where nothing is kept. `hollow SIZE TEXT WORDS`: one over a shelf that
//!   keeps nothing, and whose B tells that size and begins so.
//! - `kept PLACE`: the bytes there. `calls`: those of the shelf.
//! - `stops FIRST LAST WORDS`: runs that are stopped at each of these calls, each with those over what the crashes leave.
//! - `fails mbox|steps|shelf|put FIRST LAST WORDS`: runs of which each of these calls fails, each with one that is made again over
//!   what it kept. Of puts it also says what was put and kept, beside what the run puts and keeps of which none fails.
//! - `cuts PLACE FIRST LAST WORDS`, `heads NUMBER FIRST LAST WORDS`: runs over each of these sizes of a place, or of the fields in
//!   a slot with that number.
#![tactic(auto)]

mod chain;
mod disk;
mod ends;
mod failing;
mod hollow;
mod kept;
mod loops;
mod play;
mod runs;
mod stage;
mod trial_mails;

use crate::play::play;
use crate::stage::Stage;
use std::io::Write;
use std::process::ExitCode;
use std::rt::{Env, Files};
use std::{env, fs, io};

/// What comes of the scripts that the arguments name, one after the other, or `None` where one can't be read.
fn played<R: Files + Env + AllocGlobal>(rt: &R) -> Option<Vec<u8>> {
    let mut said = Vec::new(rt.alloc());
    let mut stage = Stage::new(rt.alloc());
    for name in env::args(rt).ok()?.skip(1) {
        let script = fs::read(rt, name.as_str()).ok()?;
        play(&mut said, rt.alloc(), &mut stage, &script).ok()?;
    }
    Some(said)
}

fn main(rt: HostRuntime) -> ExitCode {
    match played(&rt) {
        Some(said) if io::writer(&rt).write_all(&said).is_ok() => ExitCode::SUCCESS,
        _ => ExitCode::FAILURE,
    }
}
