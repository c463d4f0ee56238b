//! The tokens of a body.
ghost use Rattle.std.specs.Prelude.{◌≡◌, ◌==◌, ◌<◌, ◌≤◌, ◌^◌, false, [], ◌∷◌, IfSome, IsFalse, IsTrue, MatchOption, length, position, option_map, slice_index};
ghost use Rattle.std.specs.List.{cons_option};
ghost use Rattle.mail_address.specs.States.{without_first};
ghost use Rattle.mail_address.specs.Tokens.{comment_len, ends_atom, mark, quoted_len, tokens};
ghost use Rattle.mail_address.specs.Views.{seen};

use kit::{begins_quoted_pair, depth_after, is_white};

/// A token, borrowed from the body (RFC 5322, section 3.2).
#[derive(Clone, Copy)]
pub enum Token<'a> {
    /// An atom, or a domain literal with its brackets.
    Atom(&'a [u8]),
    /// What is between the quotes of a quoted string, with its backslashes.
    Quoted(&'a [u8]),
    /// `<`
    Open,
    /// `>`
    Close,
    /// `:`
    Colon,
    /// The end of an element: `,` or `;`.
    End,
}

/// How many bytes a comment takes after its `(`.
fn comment_len(bytes: &[u8]) -> usize
    ensures value { result ≡ comment_len 1 false bytes.now }
    ensures bound { result ≤ length bytes.now }
{
    let mut depth = 1;
    let mut escaped = false;
    for (at, byte) in bytes.iter().enumerate() {
        depth = depth_after(depth, escaped, *byte);
        if depth == 0 {
            return at + 1;
        }
        escaped = begins_quoted_pair(escaped, *byte);
    }
    bytes.len()
}

/// How many bytes precede the `"` that closes a quoted string.
fn quoted_len(bytes: &[u8]) -> usize
    ensures value { result ≡ quoted_len false bytes.now }
    ensures bound { result ≤ length bytes.now }
{
    let mut escaped = false;
    for (at, byte) in bytes.iter().enumerate() {
        if !escaped && *byte == b'"' {
            return at;
        }
        escaped = begins_quoted_pair(escaped, *byte);
    }
    bytes.len()
}

/// The bytes without their first.
pub fn without_first(bytes: &[u8]) -> &[u8]
    ensures value { result.now ≡ without_first bytes.now }
    ensures bound { length result.now ≤ length bytes.now }
{
    match bytes {
        [_, rest @ ..] => rest,
        [] => bytes,
    }
}

/// What bytes begin with: a token, or white space or a comment, which are none.
#[derive(Clone, Copy)]
struct Lexeme<'a> {
    token: Option<Token<'a>>,
    rest: &'a [u8],
}

fn comment(after: &[u8]) -> Lexeme<'_>
    ensures tokens { tokens (40 ∷ after.now) ≡ cons_option (option_map seen result.token) (tokens result.rest.now) }
    ensures bound { length result.rest.now ≤ length after.now }
{
    Lexeme {
        token: None,
        rest: &after[comment_len(after)..],
    }
}

fn quoted(after: &[u8]) -> Lexeme<'_>
    ensures tokens { tokens (34 ∷ after.now) ≡ cons_option (option_map seen result.token) (tokens result.rest.now) }
    ensures bound { length result.rest.now ≤ length after.now }
{
    let (inside, rest) = after.split_at(quoted_len(after));
    Lexeme {
        token: Some(Token::Quoted(inside)),
        rest: without_first(rest),
    }
}

fn bracket_offset(bytes: &[u8]) -> Option<usize>
    ensures value { result ≡ position (λ b. b == 93) bytes.now }
    ensures bound { IfSome result (λ at. at < length bytes.now) }
{
    bytes.iter().position(|b| *b == b']')
}

fn literal(bytes: &[u8]) -> Lexeme<'_>
    requires { slice_index bytes.now 0 ≡ 91 }
    ensures tokens { tokens bytes.now ≡ cons_option (option_map seen result.token) (tokens result.rest.now) }
    ensures bound { length result.rest.now < length bytes.now }
{
    let end = match bracket_offset(bytes) {
        Some(at) => at + 1,
        None => bytes.len(),
    };
    let (literal, rest) = bytes.split_at(end);
    Lexeme {
        token: Some(Token::Atom(literal)),
        rest,
    }
}

fn ends_atom(byte: u8) -> bool
    ensures { result ≡ ends_atom byte }
{
    is_white(byte) || b"(\"[<>:,;".contains(&byte)
}

fn atom_end(bytes: &[u8]) -> Option<usize>
    ensures value { result ≡ position ends_atom bytes.now }
    ensures bound { IfSome result (λ at. at < length bytes.now) }
{
    bytes.iter().position(|b| ends_atom(*b))
}

fn atom(bytes: &[u8]) -> Lexeme<'_>
    requires some { 0 < length bytes.now }
    requires first { IsFalse (ends_atom (slice_index bytes.now 0)) }
    ensures tokens { tokens bytes.now ≡ cons_option (option_map seen result.token) (tokens result.rest.now) }
    ensures bound { length result.rest.now < length bytes.now }
{
    let (atom, rest) = bytes.split_at(atom_end(bytes).unwrap_or(bytes.len()));
    Lexeme {
        token: Some(Token::Atom(atom)),
        rest,
    }
}

/// The token that a byte is which ends an atom.
fn mark(byte: u8) -> Option<Token<'static>>
    ensures { option_map seen result ≡ mark byte }
{
    match byte {
        b'<' => Some(Token::Open),
        b'>' => Some(Token::Close),
        b':' => Some(Token::Colon),
        b',' | b';' => Some(Token::End),
        _ => None,
    }
}

fn first_lexeme(bytes: &[u8]) -> Option<Lexeme<'_>>
    ensures { MatchOption result (tokens bytes.now ≡ [])
        (λ l. (tokens bytes.now ≡ cons_option (option_map seen l.token) (tokens l.rest.now)) × (length l.rest.now < length bytes.now)) }
{
    let lexeme = match bytes {
        [] => return None,
        [b'(', after @ ..] => comment(after),
        [b'"', after @ ..] => quoted(after),
        [b'[', ..] => literal(bytes),
        [first, after @ ..] if ends_atom(*first) => Lexeme {
            token: mark(*first),
            rest: after,
        },
        _ => atom(bytes),
    };
    Some(lexeme)
}

/// The first token of bytes, and what follows it: `None` exactly where no token does.
pub fn next_token(bytes: &[u8]) -> Option<(Token<'_>, &[u8])>
    ensures { MatchOption result (tokens bytes.now ≡ [])
        (λ p. (tokens bytes.now ≡ seen p.0 ∷ tokens p.1.now) × (length p.1.now < length bytes.now)) }
{
    let mut rest = bytes;
    while let Some(lexeme) = first_lexeme(rest) {
        rest = lexeme.rest;
        if let Some(token) = lexeme.token {
            return Some((token, rest));
        }
    }
    None
}
