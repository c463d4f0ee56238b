//! The words of the command line.
ghost use Rattle.std.specs.Prelude.{◌≡◌, ◌≤◌, IfOk, IfSome};
ghost use Rattle.kit.specs.Moments.{last_moment};
ghost use Rattle.std.specs.Char.{is_ascii_digit};
ghost use Rattle.std.specs.List.{list_all};
ghost use Rattle.std.specs.Option.{option_copied};
ghost use Rattle.follow.specs.Words.{is_value, joined, moment_of, moment_if_given, trial_of, sole, own_address};

use answers::Question;
use kit::{Addr, LAST_MOMENT, Memory, Text, number, strip_prefix};
use mail_address::{Person, people};
use std::alloc::Global;

/// What a run is to print.
#[derive(Drop)]
pub enum Command {
    /// The answer to a question on the mailbox that is followed.
    Ask(Question),
    /// The summary of the trial mailbox with this number.
    Trial(u64),
}

/// What the words of a command line ask for.
#[derive(Drop)]
pub struct Request {
    /// The own address.
    pub me: Addr,
    /// The moment of the run in seconds since 1970, where the words give one.
    pub at: Option<u64>,
    /// What is to be printed.
    pub command: Command,
}

/// What the options say, as it is written, and the words after them.
#[derive(Clone, Copy)]
struct Line<'a> {
    me: &'a [u8],
    at: Option<&'a [u8]>,
    rest: Words<'a>,
}

/// Words that are still to be read, from the left.
#[derive(Clone, Copy)]
struct Words<'a> {
    words: &'a [Text],
}

/// Whether a word is a value: one that does not begin with `-`, or `-` alone.
fn is_value(word: &[u8]) -> bool
    ensures { result ≡ is_value word.now }
{
    !word.starts_with(b"-") || word == b"-".as_slice()
}

/// The value that one word gives to an option of this name, as `--name=T`.
fn joined<'a>(name: &[u8], word: &'a [u8]) -> Option<&'a [u8]>
    ensures { option_copied result ≡ joined name.now word.now }
{
    strip_prefix(strip_prefix(word, name)?, b"=")
}

/// The moment that 1 to 12 digits write, if it is one from 1970 to 9999.
fn moment_of(word: &[u8]) -> Option<u64>
    ensures value { result ≡ moment_of word.now }
    ensures bound { IfSome result (λ moment. moment ≤ last_moment) }
{
    number(1, 12, word).filter(|moment| *moment <= LAST_MOMENT)
}

fn are_digits(word: &[u8]) -> bool
    ensures { result ≡ list_all is_ascii_digit word.now }
{
    word.iter().all(|b| b.is_ascii_digit())
}

/// The number of a trial that 1 to 20 digits write, if it is below 2^64.
fn trial_of(word: &Text) -> Option<u64>
    ensures { result ≡ trial_of word.now }
{
    let word = word.as_str();
    if word.len() > 20 || !are_digits(word.as_bytes()) {
        return None;
    }
    word.parse().ok()
}

/// The moment of an option's word: none where there is no option, and an outer none where the word is no moment.
fn moment_if_given(word: Option<&[u8]>) -> Option<Option<u64>>
    ensures value { result ≡ moment_if_given (option_copied word.entry) }
    ensures bound { IfSome result (λ at. IfSome at (λ moment. moment ≤ last_moment)) }
{
    match word {
        Some(word) => Some(Some(moment_of(word)?)),
        None => Some(None),
    }
}

/// The address of the person, if there is one and no other.
fn sole(persons: &[Person]) -> Result<Option<Addr>, Memory>
    ensures { IfOk result (λ found. found ≡ sole persons.now) }
{
    match persons {
        [person] => Ok(Some(person.addr.copy()?)),
        _ => Ok(None),
    }
}

/// The address of the person that a word names, if it names one and no other.
fn own_address(alloc: Global, word: &[u8]) -> Result<Option<Addr>, Memory>
    ensures { IfOk result (λ read. read ≡ own_address word.now) }
{
    sole(&people(alloc, word)?)
}

impl<'a> Words<'a> {
    ghost use Rattle.std.specs.Prelude.{◌≡◌, option_map};
    ghost use Rattle.follow.specs.Words.{value_at, option_at, line_of};
    ghost use Rattle.follow.specs.Views.{written};

    /// The value that is first, and the words after it.
    fn value(self) -> Option<(&'a [u8], Words<'a>)>
        ensures { option_map (λ p. (p.0.now, p.1.words.now)) result ≡ value_at self.entry.words.now }
    {
        match self.words {
            [word, words @ ..] if is_value(word.bytes()) => Some((word.bytes(), Words { words })),
            _ => None,
        }
    }

    /// The value of an option of this name that is first, as `--name=T` or as `--name V`, and the words after it.
    fn option(self, name: &[u8]) -> Option<(&'a [u8], Words<'a>)>
        ensures { option_map (λ p. (p.0.now, p.1.words.now)) result ≡ option_at name.now self.entry.words.now }
    {
        let [word, words @ ..] = self.words else {
            return None;
        };
        let rest = Words { words };
        if word.bytes() == name {
            return rest.value();
        }
        Some((joined(name, word.bytes())?, rest))
    }

    /// The options, which are first: `--me`, and `--at` on either side of it or not at all.
    fn line(self) -> Option<Line<'a>>
        ensures { option_map written result ≡ line_of self.entry.words.now }
    {
        if let Some((at, rest)) = self.option(b"--at") {
            let (me, rest) = rest.option(b"--me")?;
            return Some(Line {
                me,
                at: Some(at),
                rest,
            });
        }
        let (me, rest) = self.option(b"--me")?;
        match rest.option(b"--at") {
            Some((at, rest)) => Some(Line {
                me,
                at: Some(at),
                rest,
            }),
            None => Some(Line { me, at: None, rest }),
        }
    }
}

impl Command {
    ghost use Rattle.std.specs.Prelude.{◌≡◌, IfOk};
    ghost use Rattle.follow.specs.Words.{of_name, of_value, of_info, command_of};

    /// The command that is its name alone.
    fn of_name(name: &Text) -> Option<Command>
        ensures { result ≡ of_name name.now }
    {
        match name.as_str() {
            "list" => Some(Command::Ask(Question::List)),
            "contacts" => Some(Command::Ask(Question::Contacts)),
            _ => None,
        }
    }

    /// The command that is a name and a value.
    fn of_value(name: &Text, value: &Text) -> Result<Option<Command>, Memory>
        ensures { IfOk result (λ read. read ≡ of_value name.now value.now) }
    {
        Ok(match name.as_str() {
            "chat" => Some(Command::Ask(Question::Chat(value.copy()?))),
            "updates" => Some(Command::Ask(Question::Updates {
                id: value.copy()?,
                info: false,
            })),
            "trial" => trial_of(value).map(Command::Trial),
            _ => None,
        })
    }

    /// The command `updates` with two words after it, of which one is `--info`.
    fn of_info(a: &Text, b: &Text) -> Result<Option<Command>, Memory>
        ensures { IfOk result (λ read. read ≡ of_info a.now b.now) }
    {
        let id = if a.as_str() == "--info" {
            b
        } else if b.as_str() == "--info" {
            a
        } else {
            return Ok(None);
        };
        if !is_value(id.bytes()) {
            return Ok(None);
        }
        Ok(Some(Command::Ask(Question::Updates {
            id: id.copy()?,
            info: true,
        })))
    }

    /// The command that the words are. Takes memory; `Err` only when it runs out.
    fn read(words: &[Text]) -> Result<Option<Command>, Memory>
        ensures { IfOk result (λ read. read ≡ command_of words.now) }
    {
        match words {
            [name] => Ok(Command::of_name(name)),
            [name, value] if is_value(value.bytes()) => Command::of_value(name, value),
            [name, a, b] if name.as_str() == "updates" => Command::of_info(a, b),
            _ => Ok(None),
        }
    }
}

impl Request {
    ghost use Rattle.std.specs.Prelude.{◌≡◌, ◌≤◌, IfOk, IfSome};
    ghost use Rattle.kit.specs.Moments.{last_moment};
    ghost use Rattle.follow.specs.Words.{request};

    /// What the words of a command line ask for; none where they are not those of a command. Takes memory;
    /// `Err` only when it runs out.
    pub fn read(alloc: Global, words: &[Text]) -> Result<Option<Request>, Memory>
        ensures value { IfOk result (λ read. read ≡ request words.now) }
        ensures bound { IfOk result (λ read. IfSome read (λ r. IfSome r.at (λ at. at ≤ last_moment))) }
    {
        let Some(line) = (Words { words }).line() else {
            return Ok(None);
        };
        let Some(at) = moment_if_given(line.at) else {
            return Ok(None);
        };
        let Some(me) = own_address(alloc, line.me)? else {
            return Ok(None);
        };
        let Some(command) = Command::read(line.rest.words)? else {
            return Ok(None);
        };
        Ok(Some(Request { me, at, command }))
    }
}
