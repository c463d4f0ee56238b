//! What an app is given.
ghost use Rattle.std.specs.Prelude.{◌≡◌, IfOk, IsTrue, option_map};
ghost use Rattle.serde_json.specs.View.{view, items_view, members_view};
ghost use Rattle.serde_json.specs.Written.{has_float, items_have_float, members_have_float};
ghost use Rattle.card_type.specs.Rules.{is_nonempty_payload, is_utf8_payload};
ghost use Rattle.part_read.specs.Updates.{payload};

use crate::text::text_from;
use card_type::Payload;
use kit::Memory;
use serde_json::{Map, Value};
use std::alloc::Global;

/// Whether a number in the value, at any depth, is no whole number of 64 bits, as serde_json reads it. Takes no memory,
/// and a call for each level, of which a value that was read has at most 127.
#[cycle(has_float)]
fn has_float(value: &Value) -> bool
    ensures { result ≡ has_float (view value.now) }
{
    match value {
        Value::Null | Value::Bool(_) | Value::String(_) => false,
        Value::Number(number) => number.is_f64(),
        Value::Array(items) => items_have_float(items),
        Value::Object(members) => members_have_float(members),
    }
}

#[cycle(has_float)]
fn items_have_float(items: &Vec<Value>) -> bool
    ensures { result ≡ items_have_float (items_view items.now.items) }
{
    for item in items {
        if has_float(item) {
            return true;
        }
    }
    false
}

#[cycle(has_float)]
fn members_have_float(members: &Map<String, Value>) -> bool
    ensures { result ≡ members_have_float (members_view members.now.entries) }
{
    for (_name, member) in members.iter() {
        if has_float(member) {
            return true;
        }
    }
    false
}

/// What an app is given of a value, which may be missing. Takes memory; `Err` only when it runs out.
pub fn payload(alloc: Global, value: Option<&Value>) -> Result<Payload, Memory>
    ensures value { IfOk result (λ read. read ≡ payload (option_map (λ v. view v.now) value.entry)) }
    ensures utf8 { IfOk result (λ read. IsTrue (is_utf8_payload read)) }
    ensures nonempty { IfOk result (λ read. IsTrue (is_nonempty_payload read)) }
{
    let Some(value) = value else {
        return Ok(Payload::Absent);
    };
    if has_float(value) {
        return Ok(Payload::Hidden);
    }
    Ok(Payload::Json(text_from(value.to_string(alloc)?)))
}
