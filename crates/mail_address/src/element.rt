//! What is kept of an element while its tokens are read.
ghost use Rattle.std.specs.Prelude.{◌≡◌, ◌++◌, [], false, IfOk, OnOk, MatchOption, option_map};
ghost use Rattle.encoded_words.specs.Runs.{decode_words};
ghost use Rattle.mail_address.specs.People.{begins_joint, ends_joint, is_joint, token_text};
ghost use Rattle.mail_address.specs.States.{address_with, after_word, ended, name_at, next, next_before, next_after, next_inside, next_later, nothing, person_at, put, start};
ghost use Rattle.mail_address.specs.Tokens.{unquoted};
ghost use Rattle.mail_address.specs.Views.{atoms, seen, state};

use crate::person::Person;
use crate::token::{Token, without_first};
use encoded_words::decode_words;
use kit::{Addr, Memory, begins_quoted_pair};
use std::alloc::Global;

/// Whether a word that begins or ends with this byte may be beside another in an address.
fn is_joint(byte: u8) -> bool
    ensures { result ≡ is_joint byte }
{
    byte == b'.' || byte == b'@'
}

fn begins_joint(bytes: &[u8]) -> bool
    ensures { result ≡ begins_joint bytes.now }
{
    match bytes {
        [first, ..] => is_joint(*first),
        [] => false,
    }
}

fn ends_joint(bytes: &[u8]) -> bool
    ensures { result ≡ ends_joint bytes.now }
{
    match bytes {
        [.., last] => is_joint(*last),
        [] => false,
    }
}

/// Appends the text of the inside of a quoted string.
fn push_unquoted(out: &mut Vec<u8>, inside: &[u8]) -> Result<(), Memory>
    ensures { OnOk result (out.new.items ≡ out.old.items ++ unquoted false inside.now) }
{
    let mut escaped = false;
    for byte in inside {
        escaped = begins_quoted_pair(escaped, *byte);
        if !escaped {
            out.push(*byte)?;
        }
    }
    Ok(())
}

/// Appends the text of a word.
fn push_word(out: &mut Vec<u8>, word: &Token) -> Result<(), Memory>
    ensures { OnOk result (out.new.items ≡ out.old.items ++ token_text (seen word.now)) }
{
    match word {
        Token::Atom(bytes) => out.extend_from_slice(bytes)?,
        Token::Quoted(inside) => push_unquoted(out, inside)?,
        _ => (),
    }
    Ok(())
}

/// The tokens of an address, put together.
#[derive(Drop)]
struct Joined {
    bytes: Vec<u8>,
    /// Whether they are atoms, of which each joins the one before it.
    whole: bool,
    /// Whether any atom joins the last of them.
    free: bool,
}

impl Joined {
    fn new(alloc: Global) -> Self
        ensures { atoms result ≡ nothing }
    {
        Joined {
            bytes: Vec::new(alloc),
            whole: true,
            free: true,
        }
    }

    fn clear(&mut self)
        ensures { atoms self.new ≡ nothing }
    {
        self.bytes.clear();
        self.whole = true;
        self.free = true;
    }

    fn put(&mut self, token: &Token) -> Result<(), Memory>
        ensures { OnOk result (atoms self.new ≡ put (atoms self.old) (seen token.now)) }
    {
        if let Token::Atom(bytes) = token {
            self.bytes.extend_from_slice(bytes)?;
            self.whole = self.whole && (self.free || begins_joint(bytes));
            self.free = ends_joint(bytes);
        } else {
            self.whole = false;
        }
        Ok(())
    }

    /// The address that they are.
    fn address(&self, alloc: Global) -> Result<Option<Addr>, Memory>
        ensures { IfOk result (λ address. address ≡ address_with (atoms self.now) []) }
    {
        if !self.whole {
            return Ok(None);
        }
        Addr::read(alloc, &self.bytes)
    }
}

/// Where in an element a token is.
#[derive(Clone, Copy)]
pub enum Position {
    /// Before any angle.
    BeforeAngle,
    /// In its first angle.
    InAngle,
    /// After its first angle.
    AfterAngle,
    /// In an angle after the first one.
    InLaterAngle,
}

/// An element of a list, as far as it was read.
#[derive(Drop)]
pub struct Element {
    position: Position,
    /// The tokens of the address: those of the first angle after its last colon, or all where there is no angle.
    address: Joined,
    /// The texts of the words before the first angle, with a space before each.
    name: Vec<u8>,
}

impl Element {
    /// An element of which nothing was read.
    pub fn new(alloc: Global) -> Self
        ensures { state result ≡ start }
    {
        Element {
            position: Position::BeforeAngle,
            address: Joined::new(alloc),
            name: Vec::new(alloc),
        }
    }

    fn clear(&mut self)
        ensures { state self.new ≡ start }
    {
        self.position = Position::BeforeAngle;
        self.address.clear();
        self.name.clear();
    }

    fn name(&self) -> &[u8]
        ensures { result.now ≡ name_at self.now.position self.now.name.items }
    {
        match self.position {
            Position::BeforeAngle => &[],
            _ => without_first(&self.name),
        }
    }

    /// The person that the element names, if it ends here.
    pub fn person(&self, alloc: Global) -> Result<Option<Person>, Memory>
        ensures { IfOk result (λ person. person ≡ person_at (state self.now)) }
    {
        let Some(addr) = self.address.address(alloc)? else {
            return Ok(None);
        };
        let name = decode_words(alloc, self.name())?;
        Ok(Some(Person { addr, name }))
    }

    /// The person that the element names, if the token ends it.
    pub fn ended(&self, alloc: Global, token: &Token) -> Result<Option<Person>, Memory>
        ensures { IfOk result (λ person. person ≡ ended (state self.now) (seen token.now)) }
    {
        match (self.position, token) {
            (Position::BeforeAngle | Position::AfterAngle, Token::End) => self.person(alloc),
            _ => Ok(None),
        }
    }

    fn take_word(&mut self, word: &Token) -> Result<(), Memory>
        requires { self.old.position ≡ Position.BeforeAngle }
        ensures { OnOk result (state self.new ≡ after_word (state self.old) (seen word.now)) }
    {
        self.address.put(word)?;
        self.name.push(b' ')?;
        push_word(&mut self.name, word)
    }

    fn take_before(&mut self, token: &Token) -> Result<(), Memory>
        requires { self.old.position ≡ Position.BeforeAngle }
        ensures { OnOk result (state self.new ≡ next_before (state self.old) (seen token.now)) }
    {
        match token {
            Token::Atom(_) | Token::Quoted(_) => self.take_word(token)?,
            Token::Colon | Token::End => self.clear(),
            Token::Open => {
                self.position = Position::InAngle;
                self.address.clear();
            }
            Token::Close => (),
        }
        Ok(())
    }

    fn take_inside(&mut self, token: &Token) -> Result<(), Memory>
        requires { self.old.position ≡ Position.InAngle }
        ensures { OnOk result (state self.new ≡ next_inside (state self.old) (seen token.now)) }
    {
        match token {
            Token::Close => self.position = Position::AfterAngle,
            Token::Colon => self.address.clear(),
            _ => self.address.put(token)?,
        }
        Ok(())
    }

    fn take_after(&mut self, token: &Token)
        requires { self.old.position ≡ Position.AfterAngle }
        ensures { state self.new ≡ next_after (state self.old) (seen token.now) }
    {
        match token {
            Token::End | Token::Colon => self.clear(),
            Token::Open => self.position = Position::InLaterAngle,
            _ => (),
        }
    }

    fn take_later(&mut self, token: &Token)
        requires { self.old.position ≡ Position.InLaterAngle }
        ensures { state self.new ≡ next_later (state self.old) (seen token.now) }
    {
        if let Token::Close = token {
            self.position = Position::AfterAngle;
        }
    }

    /// Takes the next token, after which the next element may begin.
    pub fn take(&mut self, token: &Token) -> Result<(), Memory>
        ensures { OnOk result (state self.new ≡ next (state self.old) (seen token.now)) }
    {
        match self.position {
            Position::BeforeAngle => self.take_before(token)?,
            Position::InAngle => self.take_inside(token)?,
            Position::AfterAngle => self.take_after(token),
            Position::InLaterAngle => self.take_later(token),
        }
        Ok(())
    }
}
