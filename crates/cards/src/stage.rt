//! What a script sets up for the commands that follow: a text that is put together, and how readers are tried.
use kit::Memory;
use scripts::{add_numbered, first_word, number, unescaped};
use std::alloc::Global;

/// How a reader of a file is tried.
#[derive(Drop)]
pub struct Reading {
    /// How many bytes it takes at once, each number in a run of its own.
    pub chunk_lens: Vec<u64>,
    /// How many bytes it takes in all.
    pub budget: u64,
    /// Which call of its source fails; 0 for none.
    pub failing_call: u64,
    /// How many bytes it passes over first.
    pub skipped: u64,
}

/// The text that `\*` stands for, and how readers are tried.
#[derive(Drop)]
pub struct Stage {
    pub text: Vec<u8>,
    pub reading: Reading,
}

/// The numbers between the spaces of a line.
fn numbers(alloc: Global, line: &[u8]) -> Result<Vec<u64>, Memory> {
    let mut numbers = Vec::new(alloc);
    for word in line.split(|&byte| byte == b' ') {
        numbers.push(number(word))?;
    }
    Ok(numbers)
}

impl Stage {
    /// A stage with no text, where readers take nothing.
    pub fn new(alloc: Global) -> Stage {
        let reading = Reading {
            chunk_lens: Vec::new(alloc),
            budget: 0,
            failing_call: 0,
            skipped: 0,
        };
        Stage {
            text: Vec::new(alloc),
            reading,
        }
    }

    /// Adds the text that a line writes so many times: `COUNT TEXT`.
    fn add_copies(&mut self, alloc: Global, line: &[u8]) -> Result<(), Memory> {
        let (count, text) = first_word(line);
        let piece = unescaped(alloc, text, &self.text)?;
        for _ in 0..number(count) {
            self.text.extend_from_slice(&piece)?;
        }
        Ok(())
    }

    /// Adds the text that a line writes once for each number, which stands in place of each `%`: `FIRST LAST TEXT`.
    /// Where the first number is the greater one it counts down.
    fn add_each(&mut self, alloc: Global, line: &[u8]) -> Result<(), Memory> {
        let (first, line) = first_word(line);
        let (last, text) = first_word(line);
        let (first, last) = (number(first), number(last));
        let piece = unescaped(alloc, text, &self.text)?;
        for index in 0..first.abs_diff(last).saturating_add(1) {
            let number = if first < last {
                first.saturating_add(index)
            } else {
                first.saturating_sub(index)
            };
            add_numbered(&mut self.text, alloc, &piece, number)?;
        }
        Ok(())
    }

    /// Plays a command that sets up something, and says whether this is one.
    pub fn set(&mut self, alloc: Global, command: &[u8], rest: &[u8]) -> Result<bool, Memory> {
        match command {
            b"begin" => self.text = unescaped(alloc, rest, b"")?,
            b"add" => self.add_copies(alloc, rest)?,
            b"each" => self.add_each(alloc, rest)?,
            b"chunks" => self.reading.chunk_lens = numbers(alloc, rest)?,
            b"budget" => self.reading.budget = number(rest),
            b"fail" => self.reading.failing_call = number(rest),
            b"skip" => self.reading.skipped = number(rest),
            _ => return Ok(false),
        }
        Ok(true)
    }
}
