ghost use Rattle.std.specs.Prelude.{◌≡◌, ◌≤◌, ◌⊎◌, Some, None, IfOk, IfErr};
ghost use Rattle.json.specs.Value.{value_view, items_view};
ghost use Rattle.als_request.specs.Asking.{transaction_beside, all_in, each, ask_in, set_in};
ghost use Rattle.als_request.specs.Asking.{IsRead};
ghost use Rattle.als_request.specs.declared.mistake.Mistake.TheVariants.{Memory};

use crate::members::{ask, member_count, set};
use crate::mistake::Mistake;
use crate::parsing::parse;
use als_writer::{Ask, Set, Transaction};
use json::{Scratch, Value};
use std::alloc::Global;

/// Reads a transaction from a text.
pub fn transaction(alloc: Global, text: &[u8]) -> Result<Transaction, Mistake>
    // What is found is what the text says, in which no object has a name twice.
    ensures found { IfOk result (λ t. IsRead text.now t) }
{
    let mut scratch = Scratch::new(alloc);
    let value = parse(alloc, text, &mut scratch)?;
    asked(alloc, &value, 0)
}

/// Reads a transaction from a value with `extra` more members.
pub(crate) fn asked(alloc: Global, value: &Value<'_>, extra: usize) -> Result<Transaction, Mistake>
    requires { extra ≤ 1 }
    ensures found { IfOk result (λ t. transaction_beside extra (value_view value.now)
        ≡ Some (t.asks.items, t.sets.items)) }
    ensures none { IfErr result (λ m. (m ≡ Memory)
        ⊎ (transaction_beside extra (value_view value.now) ≡ None)) }
{
    let compared = value.get("if");
    let count = if compared.is_some() { 2 } else { 1 };
    if member_count(value) != count + extra {
        return Err(Mistake::Members);
    }
    let asks = match compared {
        Some(items) => asks(alloc, items)?,
        None => Vec::new(alloc),
    };
    match value.get("set") {
        Some(items) => Ok(Transaction {
            asks,
            sets: sets(alloc, items)?,
        }),
        None => Err(Mistake::Members),
    }
}

/// Reads the comparisons of an array.
fn asks(alloc: Global, value: &Value<'_>) -> Result<Vec<Ask>, Mistake>
    ensures found { IfOk result (λ asks. all_in ask_in (value_view value.now)
        ≡ Some asks.items) }
    ensures none { IfErr result (λ m. (m ≡ Memory)
        ⊎ (all_in ask_in (value_view value.now) ≡ None)) }
{
    match value {
        Value::Array(items) => each_ask(alloc, items.as_slice()),
        _ => Err(Mistake::Members),
    }
}

/// Reads each comparison of a list.
fn each_ask(alloc: Global, items: &[Value<'_>]) -> Result<Vec<Ask>, Mistake>
    ensures found { IfOk result (λ asks. each ask_in (items_view items.now)
        ≡ Some asks.items) }
    ensures none { IfErr result (λ m. (m ≡ Memory)
        ⊎ (each ask_in (items_view items.now) ≡ None)) }
{
    let mut asks = Vec::new(alloc);
    for item in items {
        match ask(item) {
            Ok(found) => asks.push(found)?,
            Err(wrong) => return Err(Mistake::If(asks.len().saturating_add(1), wrong)),
        }
    }
    Ok(asks)
}

/// Reads the sets of an array.
fn sets(alloc: Global, value: &Value<'_>) -> Result<Vec<Set>, Mistake>
    ensures found { IfOk result (λ sets. all_in set_in (value_view value.now)
        ≡ Some sets.items) }
    ensures none { IfErr result (λ m. (m ≡ Memory)
        ⊎ (all_in set_in (value_view value.now) ≡ None)) }
{
    match value {
        Value::Array(items) => each_set(alloc, items.as_slice()),
        _ => Err(Mistake::Members),
    }
}

/// Reads each set of a list.
fn each_set(alloc: Global, items: &[Value<'_>]) -> Result<Vec<Set>, Mistake>
    ensures found { IfOk result (λ sets. each set_in (items_view items.now)
        ≡ Some sets.items) }
    ensures none { IfErr result (λ m. (m ≡ Memory)
        ⊎ (each set_in (items_view items.now) ≡ None)) }
{
    let mut sets = Vec::new(alloc);
    for item in items {
        match set(item) {
            Ok(found) => sets.push(found)?,
            Err(wrong) => return Err(Mistake::Set(sets.len().saturating_add(1), wrong)),
        }
    }
    Ok(sets)
}
