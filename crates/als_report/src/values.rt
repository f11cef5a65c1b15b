ghost use Rattle.std.specs.Prelude.{◌≡◌, IfOk, OnOk, ◌++◌, ◌∷◌, [], codes, Some};
ghost use Rattle.json.specs.Token.{key};
ghost use Rattle.json.specs.Print.{print};
ghost use Rattle.als_report.specs.Texts.{image_token, value_tokens};

use crate::members::member;
use als_record::Image;
use als_view::Answer;
use json::Writer;
use std::alloc::{AllocError, Global};

/// An answer as JSON: the value in lower case hexadecimal, or null; the number of published commits; the
/// LSN of the last one.
#[tactic(auto, using(crate::proofs::TextLaws::printed))]
pub fn value_text(alloc: Global, answer: &Answer) -> Result<Vec<u8>, AllocError>
    ensures { IfOk result (λ text. text.items ≡ print (value_tokens answer.now)) }
{
    let mut text = Writer::new(Vec::new(alloc));
    write_value(alloc, &mut text, answer)?;
    Ok(text.into_inner())
}

/// Writes the object of an answer.
fn write_value(alloc: Global, text: &mut Writer, answer: &Answer) -> Result<(), AllocError>
    ensures tokens { OnOk result (text.new.tokens ≡ text.old.tokens ++ value_tokens answer.now) }
    ensures before { OnOk result (text.new.before ≡ text.old.before) }
{
    text.begin_object()?;
    image(alloc, text, &answer.value)?;
    member(text, "commits", Some(answer.commits))?;
    member(text, "lsn", Some(answer.lsn.0))?;
    text.end_object()?;
    Ok(())
}

/// Writes the value of a key, as a member of an object.
fn image(alloc: Global, text: &mut Writer, image: &Image) -> Result<(), AllocError>
    ensures tokens { OnOk result
        (text.new.tokens ≡ text.old.tokens ++ key (codes "value") ∷ image_token image.now ∷ []) }
    ensures before { OnOk result (text.new.before ≡ text.old.before) }
{
    text.key("value")?;
    bare_image(alloc, text, image)?;
    Ok(())
}

/// Writes an image in lower case hexadecimal, or null.
pub(crate) fn bare_image(alloc: Global, text: &mut Writer, image: &Image) -> Result<(), AllocError>
    ensures tokens { OnOk result
        (text.new.tokens ≡ text.old.tokens ++ image_token image.now ∷ []) }
    ensures before { OnOk result (text.new.before ≡ text.old.before) }
{
    match image {
        Some(bytes) => {
            let digits = hex::encode(alloc, bytes.as_slice())?;
            text.string(&digits)?;
        }
        None => text.null()?,
    }
    Ok(())
}
