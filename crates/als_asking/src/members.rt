ghost use Rattle.std.specs.Prelude.{◌≡◌, OnOk, ◌++◌, ◌∷◌, [], codes, decimal};
ghost use Rattle.json.specs.Token.{begin_array, key, number};
ghost use Rattle.als_asking.specs.Telling.{number_tokens, string_tokens, key_tokens, value_tokens};
ghost use Rattle.als_asking.specs.Telling.{truth_tokens};

use als_record::{KeptImage, Key};
use json::Writer;
use std::alloc::{AllocError, Global};

/// Writes a member that is a number.
pub(crate) fn number(text: &mut Writer, name: &str, value: u64) -> Result<(), AllocError>
    ensures tokens { OnOk result (text.new.tokens ≡ text.old.tokens ++ number_tokens name.now value) }
    ensures before { OnOk result (text.new.before ≡ text.old.before) }
{
    text.key(name)?;
    text.u64(value)?;
    Ok(())
}

/// Writes a member that is a text.
pub(crate) fn string(text: &mut Writer, name: &str, value: &str) -> Result<(), AllocError>
    ensures tokens { OnOk result (text.new.tokens ≡ text.old.tokens ++ string_tokens name.now value.now) }
    ensures before { OnOk result (text.new.before ≡ text.old.before) }
{
    text.key(name)?;
    text.string(value)?;
    Ok(())
}

/// Writes a member that is true or false.
pub(crate) fn truth(text: &mut Writer, name: &str, value: bool) -> Result<(), AllocError>
    ensures tokens { OnOk result (text.new.tokens ≡ text.old.tokens ++ truth_tokens name.now value) }
    ensures before { OnOk result (text.new.before ≡ text.old.before) }
{
    text.key(name)?;
    text.boolean(value)?;
    Ok(())
}

/// Writes the member of a key: an array of its page and its slot.
pub(crate) fn key(text: &mut Writer, at: Key) -> Result<(), AllocError>
    ensures tokens { OnOk result (text.new.tokens ≡ text.old.tokens ++ key_tokens at) }
    ensures before { OnOk result (text.new.before ≡ text.old.before) }
{
    begin_key(text)?;
    numbers(text, at)?;
    text.end_array()?;
    Ok(())
}

/// Writes the name of the member, and the opening bracket of its array.
fn begin_key(text: &mut Writer) -> Result<(), AllocError>
    ensures tokens { OnOk result (text.new.tokens ≡ text.old.tokens ++ key (codes "key") ∷ begin_array ∷ []) }
    ensures before { OnOk result (text.new.before ≡ text.old.before) }
{
    text.key("key")?;
    text.begin_array()?;
    Ok(())
}

/// Writes the page and the slot of a key.
fn numbers(text: &mut Writer, at: Key) -> Result<(), AllocError>
    ensures tokens { OnOk result (text.new.tokens ≡ text.old.tokens ++ number (decimal at.page) ∷ number (decimal at.slot) ∷ []) }
    ensures before { OnOk result (text.new.before ≡ text.old.before) }
{
    text.u64(u64::from(at.page))?;
    text.u64(u64::from(at.slot))?;
    Ok(())
}

/// Writes the member of a value: lower case hexadecimal digits, or null.
pub(crate) fn value(alloc: Global, text: &mut Writer, now: &KeptImage) -> Result<(), AllocError>
    ensures tokens { OnOk result (text.new.tokens ≡ text.old.tokens ++ value_tokens now.now) }
    ensures before { OnOk result (text.new.before ≡ text.old.before) }
{
    text.key("value")?;
    match now.shown().bytes {
        Some(bytes) => {
            let digits = hex::encode(alloc, bytes)?;
            text.string(&digits)?;
        }
        None => text.null()?,
    }
    Ok(())
}
