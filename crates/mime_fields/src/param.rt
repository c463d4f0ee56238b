//! Parameters.
ghost use Rattle.std.specs.Prelude.{◌≡◌, ◌++◌, ◌∷◌, ℕ, List, [], IfOk, OnOk, bytes_eq, if◌then◌else◌, true};
ghost use Rattle.mime_fields.specs.Params.{base_name, names_of, params, value_in};
ghost use Rattle.mime_fields.specs.RawParams.{raw_params};
ghost use Rattle.mime_fields.specs.Views.{known, names_text, shown_names};

use crate::named::{NamedParams, names_in};
use crate::section::{param_value, values_in};
use kit::{Memory, Text};
use std::alloc::Global;
use std::collections::BTreeSet;

/// A parameter of a content type (RFC 2045, section 5.1).
#[derive(Debug, Drop)]
pub struct Param {
    /// The name in small letters and without a `*`, of any length, also empty.
    pub name: Text,
    /// The value, decoded, of any length.
    pub value: Text,
}

/// The name of the parameter that a full name is of.
fn base_name(name: &str) -> &str
    ensures { result.now ≡ base_name name.now }
{
    match name.split_once('*') {
        Some((base, _section)) => base,
        None => name,
    }
}

/// Puts a name after the others, if it is not yet seen.
fn push_new<'a>(
    names: &mut Vec<&'a str>,
    seen: &mut BTreeSet<&'a str>,
    name: &'a str,
) -> Result<(), Memory>
    ensures seen { OnOk result ((q : List ℕ) → known seen.new q ≡ (if bytes_eq name.now q then true else known seen.old q)) }
    ensures names { OnOk result (shown_names names.new.items
        ≡ (if known seen.old name.now then shown_names names.old.items else shown_names names.old.items ++ name.now ∷ [])) }
{
    if seen.insert(name)? {
        names.push(name)?;
    }
    Ok(())
}

/// The names of the parameters, each once, in the order in which they first come, by the full names of all.
fn names_of<'a>(alloc: Global, names: &'a str, body: &'a [u8]) -> Result<Vec<&'a str>, Memory>
    requires { names.now ≡ names_text (raw_params body.now) }
    ensures { IfOk result (λ names. shown_names names.items ≡ names_of (raw_params body.now)) }
{
    let mut found = Vec::new(alloc);
    let mut seen = BTreeSet::new(alloc);
    let mut left = NamedParams::new(names, body);
    while let Some((name, _value, rest)) = left.split_first(alloc)? {
        push_new(&mut found, &mut seen, base_name(name))?;
        left = rest;
    }
    Ok(found)
}

/// The parameters in the body of a field that have a value, each once, in the order in which their names first come.
pub fn params(alloc: Global, body: &[u8]) -> Result<Vec<Param>, Memory>
    ensures { IfOk result (λ found. found.items ≡ params (raw_params body.now)) }
{
    let full_names = names_in(alloc, body)?;
    let names = names_of(alloc, full_names.as_str(), body)?;
    let values = values_in(alloc, b"", full_names.as_str(), body)?;
    let mut found = Vec::new(alloc);
    for name in names {
        if let Some(value) = param_value(alloc, &values, name)? {
            let name = Text::from(String::from_str(alloc, name)?);
            found.push(Param { name, value })?;
        }
    }
    Ok(found)
}

/// The value of the parameter of a name in the body of a field.
pub fn value_in(alloc: Global, body: &[u8], name: &str) -> Result<Option<Text>, Memory>
    ensures { IfOk result (λ value. value ≡ value_in (raw_params body.now) name.now) }
{
    let names = names_in(alloc, body)?;
    let values = values_in(alloc, name.as_bytes(), names.as_str(), body)?;
    param_value(alloc, &values, name)
}
