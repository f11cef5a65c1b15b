ghost use Rattle.std.specs.Prelude.{◌≡◌, IfOk, OnOk, ◌++◌, map, Some};
ghost use Rattle.json.specs.Print.{print};
ghost use Rattle.als_report.specs.Texts.{image_token, images_tokens, many_tokens};

use crate::members::member;
use crate::values::bare_image;
use als_record::KeptImage;
use als_view::Many;
use json::Writer;
use std::alloc::{AllocError, Global};

/// An answer of many keys as JSON: the values in the keys' order, each in lower case hexadecimal or null;
/// the number of published commits; the LSN of the last one.
#[tactic(auto, using(crate::proofs::TextLaws::printed))]
pub fn many_text(alloc: Global, many: &Many) -> Result<Vec<u8>, AllocError>
    ensures { IfOk result (λ text. text.items ≡ print (many_tokens many.now)) }
{
    let mut text = Writer::new(Vec::new(alloc));
    write_many(alloc, &mut text, many)?;
    Ok(text.into_inner())
}

/// Writes the object of an answer.
fn write_many(alloc: Global, text: &mut Writer, many: &Many) -> Result<(), AllocError>
    ensures tokens { OnOk result (text.new.tokens ≡ text.old.tokens ++ many_tokens many.now) }
    ensures before { OnOk result (text.new.before ≡ text.old.before) }
{
    text.begin_object()?;
    write_images(alloc, text, many.images.as_slice())?;
    member(text, "commits", Some(many.commits))?;
    member(text, "lsn", Some(many.lsn.0))?;
    text.end_object()?;
    Ok(())
}

/// Writes the array of the images.
fn write_images(alloc: Global, text: &mut Writer, images: &[KeptImage]) -> Result<(), AllocError>
    ensures tokens { OnOk result (text.new.tokens ≡ text.old.tokens ++ images_tokens images.now) }
    ensures before { OnOk result (text.new.before ≡ text.old.before) }
{
    text.key("values")?;
    text.begin_array()?;
    write_each(alloc, text, images)?;
    text.end_array()?;
    Ok(())
}

/// Writes the items of the array.
fn write_each(alloc: Global, text: &mut Writer, images: &[KeptImage]) -> Result<(), AllocError>
    ensures tokens { OnOk result
        (text.new.tokens ≡ text.old.tokens ++ map image_token images.now) }
    ensures before { OnOk result (text.new.before ≡ text.old.before) }
{
    for i in 0..images.len() {
        let image = images[i].image();
        bare_image(alloc, text, &image)?;
    }
    Ok(())
}
