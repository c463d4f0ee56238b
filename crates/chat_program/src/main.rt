//! The program `chats`: it follows the mailbox in the working folder and prints its chats.
#![tactic(auto)]

ghost use Rattle.std.specs.Prelude.{◌≡◌, ◌<◌};

use follow::{Status, run};
use kit::{Memory, Steps, Text};
use outside::{FileSink, FileSource, RealClock};
use shelves::FileShelf;
use std::io::ErrorKind;
use std::marker::Brand;
use std::process::ExitCode;
use std::rt::{Clock, Env, Files};
use std::sync::ledger::{Blank, Ledger};
use std::{env, fs};

const MBOX: &str = "box.mbox";

const STEPS: &str = "box.steps";

/// The files of what is kept: two slots and a tail.
const SLOT_A: &str = "box.a";

const SLOT_B: &str = "box.b";

const TAIL: &str = "box.tail";

const NULL: &str = "/dev/null";

/// The words after the program's name. Where one of them is no text there are none, which is no command.
fn words<R: Env + AllocGlobal>(rt: &R) -> Result<Vec<Text>, Memory> {
    let mut words = Vec::new(rt.alloc());
    let args = match env::args(rt) {
        Ok(args) => args,
        Err(fault) if fault.kind() == ErrorKind::OutOfMemory => return Err(Memory),
        Err(_) => return Ok(words),
    };
    for word in args.skip(1) {
        words.push(Text::from(word))?;
    }
    Ok(words)
}

/// A file in which nothing is, to stand where a standard descriptor is closed.
fn open_null<R: Files>(rt: &R) -> Result<R::File, Memory> {
    match fs::open(rt, NULL) {
        Ok(file) => Ok(file),
        Err(_) => Err(Memory),
    }
}

/// The steps file, if it is there. Where that can't be known, a source of which each call fails.
fn steps_file<R: Files>(rt: &R) -> Result<Option<FileSource<'_, R>>, Memory> {
    match fs::exists(rt, STEPS) {
        Ok(false) => Ok(None),
        Ok(true) => Ok(Some(FileSource::open(rt, STEPS)?)),
        Err(_) => Ok(Some(FileSource::broken())),
    }
}

/// Makes the devices and runs the words over them. A file is opened at the first call of its device, so words that follow no
/// mailbox open none.
///
/// `Memory` comes where there is none for the words or the devices.
fn start<R: Files + Env + Clock + Print + AllocGlobal, L: Ledger>(
    rt: &R,
    blank: Blank,
) -> Result<Status, Memory>
    requires name { blank.name ≡ L.name }
    requires whole { blank.parts ≡ L.parts }
    requires some { 0 < blank.parts }
{
    let mut count = Steps::<L>::open(blank);
    let words = words(rt)?;
    let mut mbox = FileSource::open(rt, MBOX)?;
    let mut steps = steps_file(rt)?;
    let mut shelf = FileShelf::open(rt, SLOT_A, SLOT_B, TAIL)?;
    let mut clock = RealClock::new(rt);
    let mut out = FileSink::stdout(rt)?;
    Ok(run(
        rt.alloc(),
        words.as_slice(),
        &mut mbox,
        steps.as_mut(),
        &mut shelf,
        &mut clock,
        &mut out,
        &mut count,
    ))
}

/// Starts while `/dev/null` is held three times.
///
/// What is opened gets the lowest free descriptor, so then no file of ours stands on descriptor 0, 1 or 2: where the program
/// is started with one of them closed, the answer still goes into no file. `Memory` comes where `/dev/null` can't be opened
/// too.
fn start_apart<R: Files + Env + Clock + Print + AllocGlobal, L: Ledger>(
    rt: &R,
    blank: Blank,
) -> Result<Status, Memory>
    requires name { blank.name ≡ L.name }
    requires whole { blank.parts ≡ L.parts }
    requires some { 0 < blank.parts }
{
    let _input = open_null(rt)?;
    let _output = open_null(rt)?;
    let _errors = open_null(rt)?;
    start::<R, L>(rt, blank)
}

fn main(rt: HostRuntime) -> ExitCode {
    let status = match start_apart::<HostRuntime, Brand>(&rt, Blank::new(1)) {
        Ok(status) => status,
        Err(Memory) => Status::Memory,
    };
    ExitCode::from(status.code())
}
