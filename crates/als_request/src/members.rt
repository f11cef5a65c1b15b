ghost use Rattle.std.specs.Prelude.{◌≡◌, Some, None, IfOk, OnErr};
ghost use Rattle.json.specs.Value.{value_view};
ghost use Rattle.als_request.specs.Asking.{member_count, ask_in, set_in};

use crate::mistake::Wrong;
use crate::parts::{image, key, natural};
use als_record::Lsn;
use als_writer::{Ask, Set};
use json::Value;

/// The number of members of an object, 0 for any other value.
pub(crate) fn member_count(value: &Value<'_>) -> usize
    ensures { result ≡ member_count (value_view value.now) }
{
    match value {
        Value::Object(members) => members.len(),
        _ => 0,
    }
}

/// Reads one comparison.
pub(crate) fn ask(value: &Value<'_>) -> Result<Ask, Wrong>
    ensures found { IfOk result (λ a. ask_in (value_view value.now) ≡ Some a) }
    ensures none { OnErr result (ask_in (value_view value.now) ≡ None) }
{
    if member_count(value) != 2 {
        return Err(Wrong::Members);
    }
    let at = value.get("key").ok_or(Wrong::Members)?;
    let key = key(at).ok_or(Wrong::Key)?;
    if let Some(wanted) = value.get("is") {
        let image = image(wanted).ok_or(Wrong::Value)?;
        return Ok(Ask::Is { key, image });
    }
    let since = value.get("unchanged_since").ok_or(Wrong::Members)?;
    let since = Lsn(natural(since).ok_or(Wrong::Lsn)?);
    Ok(Ask::Unchanged { key, since })
}

/// Reads one set.
pub(crate) fn set(value: &Value<'_>) -> Result<Set, Wrong>
    ensures found { IfOk result (λ s. set_in (value_view value.now) ≡ Some s) }
    ensures none { OnErr result (set_in (value_view value.now) ≡ None) }
{
    if member_count(value) != 2 {
        return Err(Wrong::Members);
    }
    let at = value.get("key").ok_or(Wrong::Members)?;
    let key = key(at).ok_or(Wrong::Key)?;
    let to = value.get("to").ok_or(Wrong::Members)?;
    let image = image(to).ok_or(Wrong::Value)?;
    Ok(Set { key, image })
}
