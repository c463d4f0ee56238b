//! The commands of a script.
use crate::bodies::{add_charset, add_decoded, add_encoding, add_unescaped, add_words};
use crate::boxes::Shown;
use crate::card::{add_card_of, add_weight};
use crate::headers::{add_body, add_date, add_field, add_ids_of, add_people};
use crate::reading::{Reader, add_read};
use crate::shown::add_word;
use crate::stage::{Reading, Stage};
use crate::texts::{add_joined, add_user_text};
use crate::trees::add_tree;
use crate::types::{add_disposition, add_param, add_type};
use crate::updates::{add_receipt, add_updates};
use crate::values::{add_copy, add_line_ends, add_lowered, add_same};
use crate::written::add_written;
use kit::Memory;
use scripts::{block, first_line, first_word, unescaped};
use std::alloc::Global;

/// A command, its argument where it takes one, and its input.
#[derive(Drop)]
struct Command<'a> {
    word: &'a [u8],
    argument: &'a [u8],
    input: Vec<u8>,
}

/// Plays a script: adds each line of it, and after a command what it gives.
pub fn play(
    said: &mut Vec<u8>,
    alloc: Global,
    stage: &mut Stage,
    script: &[u8],
) -> Result<(), Memory> {
    let mut rest = script;
    for _ in 0..script.len() {
        let (line, after) = first_line(rest);
        rest = play_line(said, alloc, stage, line, after)?;
        if rest.is_empty() {
            break;
        }
    }
    Ok(())
}

/// Plays a line, and gives what follows it or the block after it.
fn play_line<'a>(
    said: &mut Vec<u8>,
    alloc: Global,
    stage: &mut Stage,
    line: &[u8],
    after: &'a [u8],
) -> Result<&'a [u8], Memory> {
    said.extend_from_slice(line)?;
    said.push(b'\n')?;
    let (word, rest) = first_word(line);
    if line.is_empty() || word == b"#".as_slice() || stage.set(alloc, word, rest)? {
        return Ok(after);
    }
    let (argument, text) = if takes_argument(word) {
        first_word(rest)
    } else {
        (b"".as_slice(), rest)
    };
    let (input, after) = input_of(alloc, &stage.text, text, after)?;
    let command = Command {
        word,
        argument,
        input,
    };
    answer(said, alloc, &stage.reading, &command)?;
    Ok(after)
}

fn takes_argument(word: &[u8]) -> bool {
    matches!(
        word,
        b"field" | b"param" | b"charset" | b"decode" | b"copy" | b"same"
    )
}

/// The input of a command, and what follows it: the text after the command or, where there is none, the block after
/// its line.
fn input_of<'a>(
    alloc: Global,
    kept: &[u8],
    text: &[u8],
    after: &'a [u8],
) -> Result<(Vec<u8>, &'a [u8]), Memory> {
    if text.is_empty() {
        return block(alloc, after);
    }
    Ok((unescaped(alloc, text, kept)?, after))
}

/// Plays a command that reads its input.
fn answer(
    said: &mut Vec<u8>,
    alloc: Global,
    reading: &Reading,
    command: &Command,
) -> Result<(), Memory> {
    let input = command.input.as_slice();
    match command.word {
        b"box" => add_read(said, alloc, reading, Reader::Box(Shown::Bytes), input),
        b"cards" => add_read(said, alloc, reading, Reader::Box(Shown::Card), input),
        b"steps" => add_read(said, alloc, reading, Reader::Steps, input),
        b"card" => add_card_of(said, alloc, 4, input),
        b"weight" => add_weight(said, alloc, input),
        b"written" => add_written(said, alloc, input),
        b"tree" => add_tree(said, alloc, input),
        b"updates" => add_updates(said, alloc, input),
        b"receipt" => add_receipt(said, alloc, input),
        word => answer_text(said, alloc, word, command.argument, input),
    }
}

/// Plays a command on a header, on the body of a field or on a text.
fn answer_text(
    said: &mut Vec<u8>,
    alloc: Global,
    word: &[u8],
    argument: &[u8],
    input: &[u8],
) -> Result<(), Memory> {
    match word {
        b"field" => add_field(said, alloc, argument, input),
        b"body" => add_body(said, alloc, input),
        b"ids" => add_ids_of(said, alloc, input),
        b"people" => add_people(said, alloc, input),
        b"date" => add_date(said, alloc, input),
        b"words" => add_words(said, alloc, input),
        b"joined" => add_joined(said, alloc, input, false),
        b"delsp" => add_joined(said, alloc, input, true),
        b"unsigned" => add_user_text(said, alloc, input),
        _ => answer_body(said, alloc, word, argument, input),
    }
}

/// Plays a command on the body of a part or on a field that says what it is.
fn answer_body(
    said: &mut Vec<u8>,
    alloc: Global,
    word: &[u8],
    argument: &[u8],
    input: &[u8],
) -> Result<(), Memory> {
    match word {
        b"charset" => add_charset(said, alloc, argument, input),
        b"encoding" => add_encoding(said, input),
        b"decode" => add_decoded(said, alloc, argument, input),
        b"unescape" => add_unescaped(said, alloc, input),
        b"type" => add_type(said, alloc, input),
        b"param" => add_param(said, alloc, argument, input),
        b"disposition" => add_disposition(said, alloc, input),
        _ => answer_value(said, alloc, word, argument, input),
    }
}

/// Plays a command on a value.
fn answer_value(
    said: &mut Vec<u8>,
    alloc: Global,
    word: &[u8],
    argument: &[u8],
    input: &[u8],
) -> Result<(), Memory> {
    match word {
        b"copy" => add_copy(said, alloc, argument, input),
        b"lines" => add_line_ends(said, alloc, input),
        b"lower" => add_lowered(said, alloc, input),
        b"same" => add_same(said, argument, input),
        _ => add_word(said, "no such command"),
    }
}
