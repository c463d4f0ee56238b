//! Parameters and their full names, which are held together.
ghost use Rattle.std.specs.Prelude.{◌≡◌, ◌∷◌, [], IfOk, IfSome, MatchOption, length};
ghost use Rattle.std.specs.Str.{IsUtf8};
ghost use Rattle.std.specs.String.{string_bytes};
ghost use Rattle.mime_fields.specs.RawParams.{name_of, raw_params};
ghost use Rattle.mime_fields.specs.Views.{AreNamed, names_text, params_in, under};

use crate::raw_param::{name_of, next_param};
use crate::segment::Segments;
use kit::{Memory, trim};
use std::alloc::Global;

/// The full names of the parameters in the body of a field, in small letters, one after the other.
pub fn names_in(alloc: Global, body: &[u8]) -> Result<String, Memory>
    ensures { IfOk result (λ names. string_bytes names ≡ names_text (raw_params body.now)) }
{
    let mut names = String::new(alloc);
    let mut left = Segments::further(body);
    while let Some((raw_param, rest)) = next_param(left) {
        names.push_str(name_of(alloc, raw_param.name)?.as_str())?;
        left = rest;
    }
    Ok(names)
}

/// How many bytes the full name has that precedes a `=`. Takes no memory where the name is ASCII.
fn name_len(alloc: Global, text: &[u8]) -> Result<usize, Memory>
    ensures len { IfOk result (λ len. len ≡ length (name_of text.now)) }
    ensures utf8 { IfOk result (λ len. IsUtf8 (name_of text.now)) }
{
    let name = trim(text);
    if name.is_ascii() {
        return Ok(name.len());
    }
    Ok(name_of(alloc, text)?.as_str().len())
}

/// The parameters of a field that are still to be read, from the left.
#[derive(Clone, Copy)]
pub struct NamedParams<'a> {
    /// Their full names, one after the other.
    names: &'a str,
    /// The segments that hold them.
    left: Segments<'a>,
}

impl<'a> NamedParams<'a> {
    /// The parameters in a body, of which these are the names.
    pub fn new(names: &'a str, body: &'a [u8]) -> Self
        requires { names.now ≡ names_text (raw_params body.now) }
        ensures params { params_in result.left ≡ raw_params body.now }
        ensures named { AreNamed result }
    {
        NamedParams {
            names,
            left: Segments::further(body),
        }
    }

    /// The full name of the first of them, what follows its `=`, and those after it: `None` exactly where none is left.
    pub fn split_first(self, alloc: Global) -> Result<Option<(&'a str, &'a [u8], Self)>, Memory>
        requires { AreNamed self }
        ensures params { IfOk result (λ next. MatchOption next (params_in self.entry.left ≡ [])
            (λ p. params_in self.entry.left ≡ under p.0.now p.1.now ∷ params_in p.2.left)) }
        ensures named { IfOk result (λ next. IfSome next (λ p. AreNamed p.2)) }
    {
        let Some((raw_param, left)) = next_param(self.left) else {
            return Ok(None);
        };
        let len = name_len(alloc, raw_param.name)?;
        let (name, names) = self.names.split_at(len);
        Ok(Some((name, raw_param.value, NamedParams { names, left })))
    }
}
