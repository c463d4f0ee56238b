//! The pages that are asked for.
use crate::pair::Pair;
use answers::{AnswerFault, Question, print_answer};
use engine::Engine;
use kit::{Steps, Text};
use outside::MemorySink;
use plain_pages::{Stop, text};
use std::alloc::Global;
use std::str;
use std::sync::ledger::Ledger;

/// No page here has more bytes.
const ROOM: usize = 65_536;

/// The word as a text.
pub fn text_of(alloc: Global, word: &[u8]) -> Result<Text, Stop> {
    match str::from_utf8(word) {
        Ok(word) => text(alloc, word),
        Err(_) => Err(Stop::NoValue),
    }
}

/// What a command asks for, if it asks for something.
pub fn question_of(alloc: Global, command: &[u8], word: &[u8]) -> Result<Option<Question>, Stop> {
    let word = text_of(alloc, word)?;
    Ok(match command {
        b"list" => Some(Question::List),
        b"contacts" => Some(Question::Contacts),
        b"chat" => Some(Question::Chat(word)),
        b"updates" => Some(Question::Updates {
            id: word,
            info: false,
        }),
        _ => None,
    })
}

/// What is said where there is no answer.
fn refusal(why: AnswerFault) -> Result<&'static [u8], Stop> {
    match why {
        AnswerFault::NoChat => Ok(b"no such chat\n"),
        AnswerFault::NoApp => Ok(b"no such app\n"),
        AnswerFault::Write => Err(Stop::NoRule),
        AnswerFault::Memory => Err(Stop::Memory),
    }
}

/// The answer of an engine, as it is printed.
fn answer<L: Ledger>(
    alloc: Global,
    engine: &Engine,
    question: &Question,
    steps: &mut Steps<L>,
) -> Result<Vec<u8>, Stop> {
    let mut out = MemorySink::new(alloc, ROOM, Vec::new(alloc))?;
    match print_answer(alloc, engine, question, &mut out, steps) {
        Ok(()) => Ok(out.bytes().to_vec(alloc)?),
        Err(why) => Ok(refusal(why)?.to_vec(alloc)?),
    }
}

/// Says the answer of the engine that keeps its indexes, and that of the other one too where it is not the same.
pub fn add_answer<L: Ledger>(
    said: &mut Vec<u8>,
    alloc: Global,
    pair: &mut Pair,
    question: &Question,
    steps: &mut Steps<L>,
) -> Result<(), Stop> {
    pair.anew.rebuild(steps)?;
    let kept = answer(alloc, &pair.kept, question, steps)?;
    let anew = answer(alloc, &pair.anew, question, steps)?;
    said.extend_from_slice(&kept)?;
    if kept != anew {
        said.extend_from_slice(b"but with indexes that are built anew:\n")?;
        said.extend_from_slice(&anew)?;
    }
    Ok(())
}
