ghost use Rattle.std.specs.Prelude.{◌≡◌, IfOk, OnOk, ◌++◌, flat_map};
ghost use Rattle.json.specs.Print.{print};
ghost use Rattle.als_asking.specs.Telling.{doubt_tokens, doubts_tokens};

use crate::doubt::Doubt;
use crate::members::number;
use json::Writer;
use std::alloc::{AllocError, Global};

/// The text of the transactions in doubt.
#[tactic(auto, using(crate::proofs::TextLaws::printed))]
pub(crate) fn doubts_text(alloc: Global, doubts: &[Doubt]) -> Result<Vec<u8>, AllocError>
    ensures { IfOk result (λ text. text.items ≡ print (doubts_tokens doubts.now)) }
{
    let mut text = Writer::new(Vec::new(alloc));
    write_doubts(&mut text, doubts)?;
    Ok(text.into_inner())
}

/// Writes the array of transactions in doubt.
fn write_doubts(text: &mut Writer, doubts: &[Doubt]) -> Result<(), AllocError>
    ensures tokens { OnOk result (text.new.tokens ≡ text.old.tokens ++ doubts_tokens doubts.now) }
    ensures before { OnOk result (text.new.before ≡ text.old.before) }
{
    text.begin_array()?;
    write_each(text, doubts)?;
    text.end_array()?;
    Ok(())
}

/// Writes the items of the array.
fn write_each(text: &mut Writer, doubts: &[Doubt]) -> Result<(), AllocError>
    ensures tokens { OnOk result (text.new.tokens ≡ text.old.tokens ++ flat_map doubt_tokens doubts.now) }
    ensures before { OnOk result (text.new.before ≡ text.old.before) }
{
    for i in 0..doubts.len() {
        write_doubt(text, doubts[i])?;
    }
    Ok(())
}

/// Writes the object of a transaction in doubt.
fn write_doubt(text: &mut Writer, doubt: Doubt) -> Result<(), AllocError>
    ensures tokens { OnOk result (text.new.tokens ≡ text.old.tokens ++ doubt_tokens doubt) }
    ensures before { OnOk result (text.new.before ≡ text.old.before) }
{
    text.begin_object()?;
    number(text, "trans", u64::from(doubt.trans.0))?;
    number(text, "lsn", doubt.lsn.0)?;
    text.end_object()?;
    Ok(())
}
