ghost use Rattle.std.specs.Prelude.{◌≡◌, ◌≤◌, Some, IfOk, length};
ghost use Rattle.json.specs.Json.{document};
ghost use Rattle.json.specs.Strict.{HasUniqueKeys};
ghost use Rattle.json.specs.Value.{value_view, items_view};
ghost use Rattle.als_keys.specs.Wanting.{natural_in, key_from, key_in, each_key, keys_in, IsKeys};

use crate::numbers::number;
use als_record::Key;
use json::{Error, Scratch, Value};
use std::alloc::{AllocFailed, Global};

/// The most keys of one read: as many as one transaction may set.
const MOST: usize = 600;

/// Why no keys are read from a text.
#[derive(Clone, Copy, Debug, PartialEq, Eq)]
pub enum Unasked {
    /// An allocation failed.
    Memory,
    /// It names none, or too many.
    NoKeys,
}

impl<T: Drop> From<AllocFailed<T>> for Unasked {
    fn from(_refused: AllocFailed<T>) -> Unasked {
        Unasked::Memory
    }
}

impl From<Error> for Unasked {
    fn from(error: Error) -> Unasked {
        match error {
            Error::OutOfMemory => Unasked::Memory,
            Error::DuplicateKey | Error::Invalid | Error::TooLong => Unasked::NoKeys,
        }
    }
}

/// Reads the keys that a text names, in their order.
pub fn keys_of(alloc: Global, text: &[u8]) -> Result<Vec<Key>, Unasked>
    ensures { IfOk result (λ keys. IsKeys text.now keys.items) }
{
    let mut scratch = Scratch::new(alloc);
    let value = parse(alloc, text, &mut scratch)?;
    let keys = keys_in(alloc, &value)?;
    Ok(keys)
}

/// Parses a text as JSON, in which no object has a name twice.
fn parse<'a>(alloc: Global, text: &'a [u8], scratch: &'a mut Scratch) -> Result<Value<'a>, Unasked>
    ensures found { IfOk result (λ v. document text.now ≡ Some (value_view v)) }
    ensures unique { IfOk result (λ v. HasUniqueKeys (value_view v)) }
{
    let text = match std::str::from_utf8(text) {
        Ok(text) => text,
        Err(_) => return Err(Unasked::NoKeys),
    };
    let value = Value::parse_strict(alloc, text, scratch)?;
    Ok(value)
}

/// Reads the keys of a value.
fn keys_in(alloc: Global, value: &Value<'_>) -> Result<Vec<Key>, Unasked>
    ensures found { IfOk result (λ keys. keys_in (value_view value.now) ≡ Some keys.items) }
    ensures few { IfOk result (λ keys. length keys.items ≤ 600) }
{
    let Value::Object(members) = value else {
        return Err(Unasked::NoKeys);
    };
    if members.len() != 1 {
        return Err(Unasked::NoKeys);
    }
    match value.get("keys") {
        Some(Value::Array(items)) if items.len() <= MOST => each_key(alloc, items.as_slice()),
        _ => Err(Unasked::NoKeys),
    }
}

/// Reads each key of a list.
fn each_key(alloc: Global, items: &[Value<'_>]) -> Result<Vec<Key>, Unasked>
    ensures found { IfOk result (λ keys. each_key (items_view items.now) ≡ Some keys.items) }
    ensures few { IfOk result (λ keys. length keys.items ≤ length items.now) }
{
    let mut keys = Vec::new(alloc);
    for item in items {
        match key_in(item) {
            Some(found) => keys.push(found)?,
            None => return Err(Unasked::NoKeys),
        }
    }
    Ok(keys)
}

/// Reads a key from a value: an array of a page and a slot.
fn key_in(value: &Value<'_>) -> Option<Key>
    ensures { result ≡ key_in (value_view value.now) }
{
    if value.at(2).is_some() {
        return None;
    }
    let page = natural_in(value.at(0)?)?;
    let slot = natural_in(value.at(1)?)?;
    key_from(page, slot)
}

/// The key with this page and slot, if they are in range.
fn key_from(page: u64, slot: u64) -> Option<Key>
    ensures { result ≡ key_from page slot }
{
    if page > 4_294_967_295 || slot > 255 {
        return None;
    }
    Some(Key {
        page: page as u32,
        slot: slot as u8,
    })
}

/// Reads a whole number from a value.
fn natural_in(value: &Value<'_>) -> Option<u64>
    ensures { result ≡ natural_in (value_view value.now) }
{
    number(value.as_number()?.as_bytes())
}
