ghost use Rattle.std.specs.Prelude.{◌≡◌, OnOk, ◌++◌};
ghost use Rattle.als_report.specs.Followers.{number_tokens};
ghost use Rattle.als_report.specs.Texts.{member_tokens};

use json::Writer;
use std::alloc::AllocError;

/// Writes a member of a JSON object: a number, or null for None.
pub(crate) fn member(text: &mut Writer, name: &str, value: Option<u64>) -> Result<(), AllocError>
    ensures tokens { OnOk result
        (text.new.tokens ≡ text.old.tokens ++ member_tokens name.now value) }
    ensures before { OnOk result (text.new.before ≡ text.old.before) }
{
    text.key(name)?;
    match value {
        Some(value) => text.u64(value)?,
        None => text.null()?,
    }
    Ok(())
}

/// Writes a member that is a number.
pub(crate) fn number(text: &mut Writer, name: &str, value: u64) -> Result<(), AllocError>
    ensures tokens { OnOk result
        (text.new.tokens ≡ text.old.tokens ++ number_tokens name.now value) }
    ensures before { OnOk result (text.new.before ≡ text.old.before) }
{
    text.key(name)?;
    text.u64(value)?;
    Ok(())
}
