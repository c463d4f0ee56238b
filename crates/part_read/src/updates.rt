//! Updates of an app.
ghost use Rattle.std.specs.Prelude.{◌≡◌, ◌≢◌, IfOk, IfErr, IsTrue, Ok, Err, Some, None, option_map};
ghost use Rattle.std.specs.List.{list_all};
ghost use Rattle.std.specs.Str.{is_utf8};
ghost use Rattle.serde_json.specs.View.{view, items_view};
ghost use Rattle.card_type.specs.Rules.{where_some, is_update};
ghost use Rattle.part_read.specs.Views.{are_objects};
ghost use Rattle.part_read.specs.Updates.{json, list_in, text_at, update, updates_of, updates};

use crate::fault::UpdateFault;
use crate::payload::payload;
use crate::text::text_from;
use card_type::Update;
use kit::{Memory, Text};
use lists::Items;
use serde_json::Value;
use std::alloc::Global;
use std::mem;

fn json(alloc: Global, bytes: &[u8]) -> Result<Value, UpdateFault>
    ensures ok { IfOk result (λ value. json bytes.now ≡ Some (view value)) }
    ensures err { IfErr result (λ fault. fault ≢ UpdateFault.Memory → (fault ≡ UpdateFault.NoJson) × (json bytes.now ≡ None)) }
{
    Ok(Value::from_slice(alloc, bytes)?)
}

fn text_at(alloc: Global, object: &Value, name: &str) -> Result<Option<Text>, Memory>
    ensures value { IfOk result (λ read. read ≡ text_at name.now (view object.now)) }
    ensures rule { IfOk result (λ read. IsTrue (where_some is_utf8 read)) }
{
    let Some(text) = object.get(name).and_then(Value::as_str) else {
        return Ok(None);
    };
    Ok(Some(text_from(String::from_str(alloc, text)?)))
}

fn update(alloc: Global, object: &Value) -> Result<Update, Memory>
    ensures value { IfOk result (λ read. read ≡ update (view object.now)) }
    ensures rule { IfOk result (λ read. IsTrue (is_update read)) }
{
    Ok(Update {
        payload: payload(alloc, object.get("payload"))?,
        info: text_at(alloc, object, "info")?,
        document: text_at(alloc, object, "document")?,
        summary: text_at(alloc, object, "summary")?,
    })
}

/// Whether each value is an object.
fn are_objects(values: &[Value]) -> bool
    ensures { result ≡ are_objects (items_view values.now) }
{
    for value in values {
        if !value.is_object() {
            return false;
        }
    }
    true
}

/// The updates of a list, if it is one of objects. Each object is let go once its update is made.
fn updates_of(alloc: Global, values: Vec<Value>) -> Result<Option<Items<Update>>, Memory>
    ensures value { IfOk result (λ read. read ≡ updates_of (items_view values.items)) }
    ensures rule { IfOk result (λ read. IsTrue (where_some (list_all is_update) read)) }
{
    if !are_objects(&values) {
        return Ok(None);
    }
    let mut found = Items::new(alloc);
    for value in values {
        found.push(update(alloc, &value)?)?;
    }
    Ok(Some(found))
}

/// Takes the list at `updates` out of an object.
fn take_list(alloc: Global, value: &mut Value) -> Option<Vec<Value>>
    ensures { option_map (λ values. items_view values.items) result ≡ list_in (view value.old) }
{
    let list = value.get_mut("updates")?.as_array_mut()?;
    Some(mem::replace(list, Vec::new(alloc)))
}

/// Reads the updates of an app from a value of JSON (RFC 8259): an object whose member `updates` is a list of objects,
/// each of which is an update. Any bytes of any length may be given. Takes memory.
///
/// Of each object the member `payload` is what the app is given, as a text without white space that has the members of
/// each object in byte order of their names. It is `Hidden` where a number in it, at any depth, is no whole number of
/// 64 bits, and `Absent` where there is no such member; `null` is a payload as any other. The members `info`,
/// `document` and `summary` are kept where they are strings. Other members are passed over. Of members with one name
/// the last one counts.
///
/// `NoJson` comes only where the bytes are not UTF-8 or not JSON; a value that nests deeper than 127, or has a number
/// that is too large for a float, is not JSON here. `NoList` comes only where the value is not such an object, and
/// `Memory` only when memory runs out.
pub fn read_updates(alloc: Global, bytes: &[u8]) -> Result<Items<Update>, UpdateFault>
    ensures ok { IfOk result (λ read. updates bytes.now ≡ Ok read) }
    ensures err { IfErr result (λ fault. fault ≢ UpdateFault.Memory → updates bytes.now ≡ Err fault) }
    ensures rules { IfOk result (λ read. IsTrue (list_all is_update read)) }
{
    let mut value = json(alloc, bytes)?;
    let values = take_list(alloc, &mut value).ok_or(UpdateFault::NoList)?;
    let read = updates_of(alloc, values)?;
    read.ok_or(UpdateFault::NoList)
}
