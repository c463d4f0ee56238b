//! Playing a script: each of its lines is said, but those of mails, with what comes of it. A line that begins with `#` is a
//! comment. The commands are:
//!
//! - `mail NAME`: keeps the lines that follow, up to one that is only a dot, as a mail;
//! - `me ADDRESS`: begins anew with the empty mailbox of an address;
//! - `next NAMES`, `expunge UIDS`, `seen UIDS` and `at MOMENT`: make changes, and say `full` where there is no place for one;
//! - `plan CHANGE`: says what a change does to the present cards, and makes it; `many COUNT CHANGE` makes it so many times;
//! - `list`, `chat KEY`, `contacts` and `updates ID`: print a page; `items` and `count` say what items there are;
//! - `listen SERIAL ID` and `infos SERIAL ID`: have a listener listen to all updates of an app over a serial, or to those
//!   with an info, and `hear` says what it is told then;
//! - `trial NUMBER MAILS CHANGES` and `drawn FIRST STRIDE`: say how trials go, each after a line `me`.
ghost use Rattle.std.specs.Prelude.{◌≡◌, ◌<◌};

use crate::changes::{Named, change_of, small_number};
use crate::drawn_trial::add_drawn_trial;
use crate::listening::{Wants, add_heard, listener_on};
use crate::mailbox_trial::{Trial, add_trial};
use crate::pages::{add_answer, question_of};
use crate::pair::Pair;
use crate::turns::{add_count, add_items, add_plan};
use app_listener::Listener;
use kit::{Addr, Steps};
use plain_pages::Stop;
use scripts::{block, first_line, first_word};
use std::alloc::Global;
use std::marker::Brand;
use std::mem;
use std::sync::ledger::{Blank, Ledger};

/// The mails of the scripts, and the listener of one.
#[derive(Drop)]
pub struct Stage {
    mails: Vec<Named>,
    listener: Option<Listener<Wants>>,
}

impl Stage {
    /// A stage with no mails and no listener.
    pub fn new(alloc: Global) -> Stage {
        Stage {
            mails: Vec::new(alloc),
            listener: None,
        }
    }
}

/// Two engines over the empty mailbox of the address that a word writes.
fn pair_of(alloc: Global, word: &[u8]) -> Result<Pair, Stop> {
    match Addr::read(alloc, word)? {
        Some(me) => Ok(Pair::new(alloc, me)?),
        None => Err(Stop::NoValue),
    }
}

/// Makes the change that a command names with a word, after what it would do is said, if that is asked for.
fn make<L: Ledger>(
    said: &mut Vec<u8>,
    alloc: Global,
    mails: &[Named],
    pair: &mut Pair,
    is_planned: bool,
    command: &[u8],
    word: &[u8],
    steps: &mut Steps<L>,
) -> Result<(), Stop> {
    let uid = pair.kept.mailbox().next_uid();
    let Some(change) = change_of(alloc, mails, uid, command, word)? else {
        return Err(Stop::NoValue);
    };
    if is_planned {
        add_plan(said, alloc, pair.kept.mailbox(), &change)?;
    }
    if !pair.make(change, steps)? {
        said.extend_from_slice(b"full\n")?;
    }
    Ok(())
}

/// Makes a change with each of the words of a line.
fn make_each<L: Ledger>(
    said: &mut Vec<u8>,
    alloc: Global,
    mails: &[Named],
    pair: &mut Pair,
    is_planned: bool,
    line: &[u8],
    steps: &mut Steps<L>,
) -> Result<(), Stop> {
    let (command, words) = first_word(line);
    for word in words.split(|&byte| byte == b' ') {
        make(said, alloc, mails, pair, is_planned, command, word, steps)?;
    }
    Ok(())
}

/// Makes the change of a line so many times.
fn make_many<L: Ledger>(
    said: &mut Vec<u8>,
    alloc: Global,
    mails: &[Named],
    pair: &mut Pair,
    words: &[u8],
    steps: &mut Steps<L>,
) -> Result<(), Stop> {
    let (times, line) = first_word(words);
    for _ in 0..small_number(times) {
        make_each(said, alloc, mails, pair, false, line, steps)?;
    }
    Ok(())
}

/// Has a listener listen over a serial, on the app with an id.
fn listen(alloc: Global, stage: &mut Stage, words: &[u8], info: bool) -> Result<(), Stop> {
    let (serial, id) = first_word(words);
    let wants = Wants { info };
    let listener = listener_on(alloc, id, small_number(serial), wants)?;
    stage.listener = Some(listener);
    Ok(())
}

/// Says what is told to the listener, if there is one.
fn hear<L: Ledger>(
    said: &mut Vec<u8>,
    alloc: Global,
    stage: &mut Stage,
    pair: &Pair,
    steps: &mut Steps<L>,
) -> Result<(), Stop> {
    match &mut stage.listener {
        Some(listener) => add_heard(said, alloc, listener, &pair.kept, steps),
        None => Err(Stop::NoValue),
    }
}

/// Says how the trial goes that a command names with two or three numbers.
fn try_out<L: Ledger>(
    said: &mut Vec<u8>,
    alloc: Global,
    pair: &mut Pair,
    command: &[u8],
    words: &[u8],
    steps: &mut Steps<L>,
) -> Result<(), Stop> {
    let (first, rest) = first_word(words);
    let (second, third) = first_word(rest);
    let (first, second) = (small_number(first), small_number(second));
    if command == b"drawn".as_slice() {
        return add_drawn_trial(said, alloc, pair, first, second, steps);
    }
    let trial = Trial {
        number: first,
        mails: second,
        changes: small_number(third),
    };
    add_trial(said, alloc, pair, trial, steps)
}

/// Says the answer to what a command asks for, if it asks for something.
fn ask<L: Ledger>(
    said: &mut Vec<u8>,
    alloc: Global,
    pair: &mut Pair,
    command: &[u8],
    word: &[u8],
    steps: &mut Steps<L>,
) -> Result<(), Stop> {
    match question_of(alloc, command, word)? {
        Some(question) => add_answer(said, alloc, pair, &question, steps),
        None => Ok(()),
    }
}

/// Says which items there are, how many, or the answer to what a command asks for.
fn show<L: Ledger>(
    said: &mut Vec<u8>,
    alloc: Global,
    pair: &mut Pair,
    command: &[u8],
    word: &[u8],
    steps: &mut Steps<L>,
) -> Result<(), Stop> {
    match command {
        b"items" => Ok(add_items(said, alloc, pair.kept.mailbox().items())?),
        b"count" => Ok(add_count(said, alloc, pair.kept.count())?),
        _ => ask(said, alloc, pair, command, word, steps),
    }
}

/// Begins anew with the empty mailbox of the address that a word writes. The memory of the engines goes back with the process.
fn begin(alloc: Global, pair: &mut Pair, word: &[u8]) -> Result<(), Stop> {
    let empty = pair_of(alloc, word)?;
    mem::forget(mem::replace(pair, empty));
    Ok(())
}

/// Does what a line says, and says what comes of it.
fn obey<L: Ledger>(
    said: &mut Vec<u8>,
    alloc: Global,
    stage: &mut Stage,
    pair: &mut Pair,
    line: &[u8],
    steps: &mut Steps<L>,
) -> Result<(), Stop> {
    let (command, words) = first_word(line);
    match command {
        b"me" => begin(alloc, pair, words),
        b"next" | b"expunge" | b"seen" | b"at" => {
            make_each(said, alloc, &stage.mails, pair, false, line, steps)
        }
        b"plan" => make_each(said, alloc, &stage.mails, pair, true, words, steps),
        b"many" => make_many(said, alloc, &stage.mails, pair, words, steps),
        b"listen" => listen(alloc, stage, words, false),
        b"infos" => listen(alloc, stage, words, true),
        b"hear" => hear(said, alloc, stage, pair, steps),
        b"trial" | b"drawn" => try_out(said, alloc, pair, command, words, steps),
        _ => show(said, alloc, pair, command, words, steps),
    }
}

/// Says a line of the script: a comment as it is, and others after `> `.
fn add_script_line(said: &mut Vec<u8>, line: &[u8]) -> Result<(), Stop> {
    if !line.starts_with(b"#") {
        said.extend_from_slice(b"> ")?;
    }
    said.extend_from_slice(line)?;
    said.push(b'\n')?;
    Ok(())
}

/// Keeps a mail under a name.
fn keep(alloc: Global, stage: &mut Stage, name: &[u8], mail: Vec<u8>) -> Result<(), Stop> {
    let name = name.to_vec(alloc)?;
    Ok(stage.mails.push(Named { name, mail })?)
}

/// Plays the first line of what is left of a script, with the lines of a mail that follow it. What is left then.
fn play_line<'s, L: Ledger>(
    said: &mut Vec<u8>,
    alloc: Global,
    stage: &mut Stage,
    pair: &mut Pair,
    rest: &'s [u8],
    steps: &mut Steps<L>,
) -> Result<&'s [u8], Stop> {
    let (line, after) = first_line(rest);
    add_script_line(said, line)?;
    let (command, words) = first_word(line);
    if command == b"mail".as_slice() {
        let (mail, after) = block(alloc, after)?;
        keep(alloc, stage, words, mail)?;
        return Ok(after);
    }
    obey(said, alloc, stage, pair, line, steps)?;
    Ok(after)
}

fn play_lines<L: Ledger>(
    said: &mut Vec<u8>,
    alloc: Global,
    stage: &mut Stage,
    pair: &mut Pair,
    script: &[u8],
    steps: &mut Steps<L>,
) -> Result<(), Stop> {
    let mut rest = script;
    for _ in 0..script.len() {
        if rest.is_empty() {
            break;
        }
        rest = play_line(said, alloc, stage, pair, rest, steps)?;
    }
    Ok(())
}

fn play_counted<L: Ledger>(
    said: &mut Vec<u8>,
    alloc: Global,
    stage: &mut Stage,
    script: &[u8],
    blank: Blank,
) -> Result<(), Stop>
    requires name { blank.name ≡ L.name }
    requires whole { blank.parts ≡ L.parts }
    requires some { 0 < blank.parts }
{
    let mut steps = Steps::<L>::open(blank);
    let mut pair = pair_of(alloc, b"me@x.org")?;
    let played = play_lines(said, alloc, stage, &mut pair, script, &mut steps);
    mem::forget(pair);
    played
}

/// Plays a script over the empty mailbox of `me@x.org`.
pub fn play(
    said: &mut Vec<u8>,
    alloc: Global,
    stage: &mut Stage,
    script: &[u8],
) -> Result<(), Stop> {
    play_counted::<Brand>(said, alloc, stage, script, Blank::new(1))
}
