//! The stage of a script: its mails, the files, the failing calls and the clock of the next run, and the fields of what is kept.
use crate::chain::chain_of;
use crate::runs::{Fails, Files};
use crate::trial_mails::first_mails;
use kit::{Memory, Text};
use scripts::{first_word, number, repeat, unescaped};
use std::alloc::Global;
use std::str;

/// A mail with a name.
#[derive(Drop)]
pub struct Named {
    name: Vec<u8>,
    mail: Vec<u8>,
}

/// The files, the calls that fail in the next run, the mails that an mbox can be made of, and the fields that a place can be
/// made of.
#[derive(Drop)]
pub struct Stage {
    pub files: Files,
    pub fails: Fails,
    pub mails: Vec<Named>,
    pub fields: Vec<Vec<u8>>,
}

/// The words between the spaces of a line, as they are written, of which those that are no text are left out.
pub fn words_of(alloc: Global, line: &[u8]) -> Result<Vec<Text>, Memory> {
    let mut words = Vec::new(alloc);
    if line.is_empty() {
        return Ok(words);
    }
    for word in line.split(|&byte| byte == b' ') {
        let bytes = unescaped(alloc, word, &[])?;
        if let Ok(text) = str::from_utf8(&bytes) {
            words.push(Text::from(String::from_str(alloc, text)?))?;
        }
    }
    Ok(words)
}

/// The mail with this name; one that says that there is none where there is none.
fn mail_of<'a>(mails: &'a [Named], name: &[u8]) -> &'a [u8] {
    match mails.iter().find(|named| named.name.as_slice() == name) {
        Some(named) => &named.mail,
        None => b"no mail of this name\n",
    }
}

/// An mbox of the mails with these names.
fn mbox_of(alloc: Global, mails: &[Named], names: &[u8]) -> Result<Vec<u8>, Memory> {
    let mut mbox = Vec::new(alloc);
    for name in names
        .split(|&byte| byte == b' ')
        .filter(|name| !name.is_empty())
    {
        mbox.extend_from_slice(b"From -\n")?;
        mbox.extend_from_slice(mail_of(mails, name))?;
        mbox.push(b'\n')?;
    }
    Ok(mbox)
}

/// The bytes that the lines of a text write.
fn fields_of(alloc: Global, text: &[u8]) -> Result<Vec<Vec<u8>>, Memory> {
    let mut fields = Vec::new(alloc);
    for line in text.split(|&byte| byte == b'\n') {
        fields.push(unescaped(alloc, line, &[])?)?;
    }
    Ok(fields)
}

/// No files.
fn no_files(alloc: Global) -> Files {
    Files {
        mbox: Vec::new(alloc),
        steps: None,
        piece: 0,
        moment: 0,
    }
}

impl Stage {
    /// A stage with no mails.
    pub fn new(alloc: Global) -> Stage {
        Stage {
            files: no_files(alloc),
            fails: Fails::NONE,
            mails: Vec::new(alloc),
            fields: Vec::new(alloc),
        }
    }

    /// Leaves nothing but the mails.
    pub fn clear(&mut self, alloc: Global) {
        self.files = no_files(alloc);
        self.fails = Fails::NONE;
        self.fields = Vec::new(alloc);
    }

    /// Adds to the mbox or to the steps file what a text writes, for each of some numbers in place of each `%`.
    fn add_each(&mut self, alloc: Global, to: &[u8], words: &[u8]) -> Result<(), Memory> {
        let (first, rest) = first_word(words);
        let (last, rest) = first_word(rest);
        let (step, text) = first_word(rest);
        let (first, last, step) = (number(first), number(last), number(step));
        let text = unescaped(alloc, text, &[])?;
        if to == b"mbox".as_slice() {
            return repeat(&mut self.files.mbox, alloc, &text, first, last, step);
        }
        match &mut self.files.steps {
            Some(steps) => repeat(steps, alloc, &text, first, last, step),
            None => Ok(()),
        }
    }

    /// Makes a command on the files that is one line.
    pub fn set(&mut self, alloc: Global, command: &[u8], rest: &[u8]) -> Result<(), Memory> {
        let (word, more) = first_word(rest);
        match command {
            b"mbox" => self.files.mbox = mbox_of(alloc, &self.mails, rest)?,
            b"chain" => self.files.mbox = chain_of(alloc, number(word))?,
            b"trial" => self.files.mbox = first_mails(alloc, number(word), number(more))?,
            b"steps" => self.files.steps = Some(unescaped(alloc, rest, &[])?),
            b"remove" => self.files.steps = None,
            b"each" => self.add_each(alloc, word, more)?,
            b"cut" if word == b"mbox".as_slice() => self.files.mbox.truncate(number(more) as usize),
            b"piece" => self.files.piece = number(word),
            b"fail" => self.fails.set(word, number(more)),
            b"clock" => self.files.moment = number(word),
            _ => {}
        }
        Ok(())
    }

    /// Makes a command that a block follows.
    pub fn set_block(
        &mut self,
        alloc: Global,
        command: &[u8],
        rest: &[u8],
        text: Vec<u8>,
    ) -> Result<(), Memory> {
        if command == b"mail".as_slice() {
            let name = rest.to_vec(alloc)?;
            self.mails.push(Named { name, mail: text })?;
        } else {
            self.fields = fields_of(alloc, &text)?;
        }
        Ok(())
    }
}
