//! The texts of keys.
ghost use Rattle.std.specs.Prelude.{◌≡◌, ◌≢◌, Some, IfOk, IfSome, IfNone, IsTrue};
ghost use Rattle.std.specs.Char.{is_ascii_uppercase};
ghost use Rattle.std.specs.List.{list_any};
ghost use Rattle.kit.specs.Addresses.{is_addr};
ghost use Rattle.kit.specs.Reading.{read_as};
ghost use Rattle.card_type.specs.declared.key.ChatKey.{ChatKey as Key};
ghost use Rattle.card_type.specs.KeyTexts.{key_prefix, key_text, is_key};

use crate::group_id::GroupId;
use crate::key::ChatKey;
use kit::{Addr, Id, Memory, Text, strip_prefix};
use std::alloc::Global;
use std::str;

fn has_capital(bytes: &[u8]) -> bool
    ensures { result ≡ list_any is_ascii_uppercase bytes.now }
{
    bytes.iter().any(|b| b.is_ascii_uppercase())
}

/// The bytes as an address, where they are one without a change: `Addr::read` makes letters small.
fn read_addr(alloc: Global, bytes: &[u8]) -> Result<Option<Addr>, Memory>
    ensures { IfOk result (λ read. read ≡ read_as is_addr bytes.now) }
{
    if has_capital(bytes) {
        return Ok(None);
    }
    Addr::read(alloc, bytes)
}

impl ChatKey {
    fn prefix(&self) -> &str
        ensures { result.now ≡ key_prefix self.now }
    {
        match self {
            ChatKey::SelfChat => "self",
            ChatKey::Single(_) => "single:",
            ChatKey::Group(_) => "group:",
            ChatKey::Thread(_) => "thread:",
        }
    }

    /// The text of the key: `self`, `single:` and the address, `group:` and the id, or `thread:` and the id.
    /// Takes memory; `Err` only when it runs out.
    pub fn text(&self, alloc: Global) -> Result<Text, Memory>
        ensures { IfOk result (λ text. text ≡ key_text self.now) }
    {
        let mut text = String::from_str(alloc, self.prefix())?;
        text.push_str(str::from_utf8(self.bytes()).unwrap())?;
        Ok(Text::from(text))
    }

    /// The key of which the bytes are the text: `None` exactly where they are the text of no key. Takes memory;
    /// `Err` only when it runs out.
    pub fn read(alloc: Global, bytes: &[u8]) -> Result<Option<Self>, Memory>
        ensures text { IfOk result (λ read. IfSome read (λ key. key_text key ≡ bytes.now)) }
        ensures back { IfOk result (λ read. (key : Key) → IsTrue (is_key key) → key_text key ≡ bytes.now → read ≡ Some key) }
        ensures none { IfOk result (λ read. IfNone read ((key : Key) → IsTrue (is_key key) → key_text key ≢ bytes.now)) }
    {
        if bytes == b"self".as_slice() {
            return Ok(Some(ChatKey::SelfChat));
        }
        if let Some(rest) = strip_prefix(bytes, b"single:") {
            return Ok(read_addr(alloc, rest)?.map(ChatKey::Single));
        }
        if let Some(rest) = strip_prefix(bytes, b"group:") {
            return Ok(GroupId::read(alloc, rest)?.map(ChatKey::Group));
        }
        if let Some(rest) = strip_prefix(bytes, b"thread:") {
            return Ok(Id::read(alloc, rest)?.map(ChatKey::Thread));
        }
        Ok(None)
    }
}
