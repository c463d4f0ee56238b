//! How a script is played.
use crate::disk::{empty_shelf, next_shelf};
use crate::ends::{add_calls, add_ended, add_sizes};
use crate::failing::add_fails;
use crate::hollow::Hollow;
use crate::kept::place_of;
use crate::loops::{Numbers, add_cuts, add_heads, add_stops};
use crate::runs::{Fails, run_words};
use crate::stage::{Stage, words_of};
use kit::Memory;
use outside::Place;
use scripts::{add_escaped, block, first_line, first_word, number, unescaped};
use shelves::MemoryShelf;
use std::alloc::Global;

/// Says how a run over a shelf goes, and how many bytes are kept then.
fn say_run(
    said: &mut Vec<u8>,
    alloc: Global,
    stage: &Stage,
    shelf: &mut MemoryShelf,
    line: &[u8],
) -> Result<(), Memory> {
    let words = words_of(alloc, line)?;
    let ended = run_words(alloc, &words, &stage.files, stage.fails, shelf)?;
    add_ended(said, alloc, &ended)?;
    add_sizes(said, alloc, shelf)?;
    said.push(b'\n')?;
    Ok(())
}

/// Says how a run goes over a shelf that keeps nothing, whose B tells a size and begins with some bytes.
fn say_hollow(said: &mut Vec<u8>, alloc: Global, stage: &Stage, line: &[u8]) -> Result<(), Memory> {
    let (size, line) = first_word(line);
    let (head, line) = first_word(line);
    let words = words_of(alloc, line)?;
    let mut shelf = Hollow {
        size: number(size),
        head: unescaped(alloc, head, &[])?,
    };
    let ended = run_words(alloc, &words, &stage.files, stage.fails, &mut shelf)?;
    add_ended(said, alloc, &ended)?;
    said.push(b'\n')?;
    Ok(())
}

/// Two numbers at the head of a line, and what follows them.
fn numbers(line: &[u8]) -> (Numbers, &[u8]) {
    let (first, rest) = first_word(line);
    let (last, rest) = first_word(rest);
    let numbers = Numbers {
        first: number(first),
        last: number(last),
    };
    (numbers, rest)
}

/// Says how runs go that are stopped at each of some calls.
fn say_stops(
    said: &mut Vec<u8>,
    alloc: Global,
    stage: &Stage,
    shelf: &MemoryShelf,
    line: &[u8],
) -> Result<(), Memory> {
    let (stops, line) = numbers(line);
    let words = words_of(alloc, line)?;
    add_stops(said, alloc, &words, &stage.files, shelf, stops)
}

/// Says how runs go of which each of some calls of a device fails.
fn say_fails(
    said: &mut Vec<u8>,
    alloc: Global,
    stage: &Stage,
    shelf: &MemoryShelf,
    line: &[u8],
) -> Result<(), Memory> {
    let (device, line) = first_word(line);
    let (calls, line) = numbers(line);
    let words = words_of(alloc, line)?;
    add_fails(said, alloc, &words, &stage.files, shelf, device, calls)
}

/// Says how runs go over a place that is cut to each of some sizes.
fn say_cuts(
    said: &mut Vec<u8>,
    alloc: Global,
    stage: &Stage,
    shelf: &MemoryShelf,
    line: &[u8],
) -> Result<(), Memory> {
    let (place, line) = first_word(line);
    let (sizes, line) = numbers(line);
    let words = words_of(alloc, line)?;
    let place = place_of(place).unwrap_or(Place::T);
    add_cuts(said, alloc, &words, &stage.files, shelf, place, sizes)
}

/// Says how runs go over a slot with the first bytes of the fields, in each of some sizes.
fn say_heads(said: &mut Vec<u8>, alloc: Global, stage: &Stage, line: &[u8]) -> Result<(), Memory> {
    let (slot, line) = first_word(line);
    let (sizes, line) = numbers(line);
    let words = words_of(alloc, line)?;
    let fields = &stage.fields;
    add_heads(
        said,
        alloc,
        &words,
        &stage.files,
        fields,
        number(slot),
        sizes,
    )
}

/// Says what is kept in the place that a word names.
fn say_kept(
    said: &mut Vec<u8>,
    alloc: Global,
    shelf: &MemoryShelf,
    word: &[u8],
) -> Result<(), Memory> {
    match place_of(word) {
        Some(place) => add_escaped(said, alloc, shelf.bytes(place)),
        None => Ok(()),
    }
}

/// Makes a command that says something.
fn say(
    said: &mut Vec<u8>,
    alloc: Global,
    stage: &Stage,
    shelf: &mut MemoryShelf,
    command: &[u8],
    rest: &[u8],
) -> Result<(), Memory> {
    match command {
        b"run" | b"anew" => say_run(said, alloc, stage, shelf, rest),
        b"hollow" => say_hollow(said, alloc, stage, rest),
        b"kept" => say_kept(said, alloc, shelf, rest),
        b"calls" => add_calls(said, alloc, shelf),
        b"stops" => say_stops(said, alloc, stage, shelf, rest),
        b"fails" => say_fails(said, alloc, stage, shelf, rest),
        b"cuts" => say_cuts(said, alloc, stage, shelf, rest),
        b"heads" => say_heads(said, alloc, stage, rest),
        _ => Ok(()),
    }
}

/// Whether there is a command of this name.
fn is_command(command: &[u8]) -> bool {
    matches!(
        command,
        b"mbox" | b"trial" | b"chain" | b"steps" | b"remove" | b"each" | b"cut" | b"piece" | b"fail"
    ) || matches!(
        command,
        b"clock" | b"run" | b"anew" | b"hollow" | b"kept" | b"calls" | b"stops" | b"fails" | b"cuts"
    ) || matches!(
        command,
        b"heads" | b"shelf" | b"stop" | b"crash" | b"copy" | b"keep" | b"add" | b"slot" | b"patch"
    ) || matches!(command, b"" | b"#")
}

/// Makes the command of a line, and says what comes of it. What fails in a run fails in no later one.
fn make(
    said: &mut Vec<u8>,
    alloc: Global,
    stage: &mut Stage,
    shelf: &mut MemoryShelf,
    line: &[u8],
) -> Result<(), Memory> {
    let (command, words) = first_word(line);
    if !is_command(command) {
        said.extend_from_slice(b"no such command\n")?;
    }
    if let Some(next) = next_shelf(alloc, shelf, &stage.fields, command, words)? {
        *shelf = next;
    }
    stage.set(alloc, command, words)?;
    say(said, alloc, stage, shelf, command, words)?;
    if matches!(command, b"run" | b"anew") {
        stage.fails = Fails::NONE;
    }
    Ok(())
}

/// Adds a line of the script. One that is empty or a comment stands as it is.
fn add_line(said: &mut Vec<u8>, line: &[u8]) -> Result<(), Memory> {
    if !line.is_empty() && !line.starts_with(b"#") {
        said.extend_from_slice(b"> ")?;
    }
    said.extend_from_slice(line)?;
    said.push(b'\n')?;
    Ok(())
}

/// Whether a block follows a line with this command.
fn has_block(command: &[u8]) -> bool {
    matches!(command, b"mail" | b"fields")
}

/// Plays a script, and says each of its lines but those of blocks, with what comes of it.
pub fn play(
    said: &mut Vec<u8>,
    alloc: Global,
    stage: &mut Stage,
    script: &[u8],
) -> Result<(), Memory> {
    let mut shelf = empty_shelf(alloc)?;
    stage.clear(alloc);
    let mut rest = script;
    for _ in 0..script.len() {
        let (line, after) = first_line(rest);
        rest = after;
        add_line(said, line)?;
        let (command, words) = first_word(line);
        if has_block(command) {
            let (text, after) = block(alloc, rest)?;
            rest = after;
            stage.set_block(alloc, command, words, text)?;
        } else {
            make(said, alloc, stage, &mut shelf, line)?;
        }
        if rest.is_empty() {
            break;
        }
    }
    Ok(())
}
