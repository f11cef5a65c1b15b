ghost use Rattle.std.specs.Prelude.{◌≡◌, OnOk, ◌++◌, ◌∷◌, [], codes, flat_map};
ghost use Rattle.json.specs.Token.{begin_array, key};
ghost use Rattle.als_asking.specs.Telling.{unmet_tokens, failing_tokens};

use crate::members::{key, value};
use als_writer::{Failing, Unmet};
use json::Writer;
use std::alloc::{AllocError, Global};

/// Writes the member of the comparisons that failed: an array of them.
pub(crate) fn failing_members(
    alloc: Global,
    text: &mut Writer,
    failing: &Failing,
) -> Result<(), AllocError>
    ensures tokens { OnOk result (text.new.tokens ≡ text.old.tokens ++ failing_tokens failing.now) }
    ensures before { OnOk result (text.new.before ≡ text.old.before) }
{
    begin_failing(text)?;
    write_shown(alloc, text, failing.shown())?;
    text.end_array()?;
    Ok(())
}

/// Writes the name of the member, and the opening bracket of its array.
fn begin_failing(text: &mut Writer) -> Result<(), AllocError>
    ensures tokens { OnOk result (text.new.tokens ≡ text.old.tokens ++ key (codes "not_as_asked") ∷ begin_array ∷ []) }
    ensures before { OnOk result (text.new.before ≡ text.old.before) }
{
    text.key("not_as_asked")?;
    text.begin_array()?;
    Ok(())
}

/// Writes the items of the array.
fn write_shown(alloc: Global, text: &mut Writer, shown: &[Unmet]) -> Result<(), AllocError>
    ensures tokens { OnOk result (text.new.tokens ≡ text.old.tokens ++ flat_map unmet_tokens shown.now) }
    ensures before { OnOk result (text.new.before ≡ text.old.before) }
{
    for i in 0..shown.len() {
        write_unmet(alloc, text, &shown[i])?;
    }
    Ok(())
}

/// Writes the object of a comparison that failed: its key, and the value of that now.
fn write_unmet(alloc: Global, text: &mut Writer, unmet: &Unmet) -> Result<(), AllocError>
    ensures tokens { OnOk result (text.new.tokens ≡ text.old.tokens ++ unmet_tokens unmet.now) }
    ensures before { OnOk result (text.new.before ≡ text.old.before) }
{
    text.begin_object()?;
    key(text, unmet.key)?;
    value(alloc, text, &unmet.image)?;
    text.end_object()?;
    Ok(())
}
