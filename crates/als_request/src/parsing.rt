ghost use Rattle.std.specs.Prelude.{IfOk};
ghost use Rattle.json.specs.Value.{value_view};
ghost use Rattle.als_request.specs.Asking.{IsSaid};

use crate::mistake::Mistake;
use json::{Scratch, Value};
use std::alloc::Global;

/// Parses a text as JSON, in which no object has a name twice.
pub(crate) fn parse<'a>(
    alloc: Global,
    text: &'a [u8],
    scratch: &'a mut Scratch,
) -> Result<Value<'a>, Mistake>
    ensures found { IfOk result (λ v. IsSaid text.now (value_view v)) }
{
    let text = match std::str::from_utf8(text) {
        Ok(text) => text,
        Err(_) => return Err(Mistake::NoJson),
    };
    let value = Value::parse_strict(alloc, text, scratch)?;
    Ok(value)
}
