ghost use Rattle.std.specs.Prelude.{◌≡◌, IfOk, OnOk, ◌++◌};
ghost use Rattle.json.specs.Print.{print};
ghost use Rattle.als_report.specs.Texts.{error_tokens, why_unread};

use crate::unread::Unread;
use json::Writer;
use std::alloc::{AllocError, Global};

/// Why a key was not read, as JSON.
pub fn unread_text(alloc: Global, why: Unread) -> Result<Vec<u8>, AllocError>
    ensures { IfOk result (λ text. text.items ≡ print (error_tokens (why_unread why))) }
{
    error_text(alloc, why_unread(why))
}

/// Why a key was not read: the fault's number and name, or that the commit is not published yet.
fn why_unread(why: Unread) -> &'static str
    ensures { result.now ≡ why_unread why }
{
    match why {
        Unread::Warming => "35 Warming: no commits are published yet",
        Unread::Stopped => "31 Stopped: the view has ended",
        Unread::Older(_) => "the commit that Als-At-Least names is not published yet",
        Unread::NoSuchKey => "the database has no such page or slot",
        Unread::Memory => "no memory for the values",
    }
}

/// A JSON object that says what is wrong.
#[tactic(auto, using(crate::proofs::TextLaws::printed))]
pub fn error_text(alloc: Global, why: &str) -> Result<Vec<u8>, AllocError>
    ensures { IfOk result (λ text. text.items ≡ print (error_tokens why.now)) }
{
    let mut text = Writer::new(Vec::new(alloc));
    write_error(&mut text, why)?;
    Ok(text.into_inner())
}

/// Writes the object of an error.
fn write_error(text: &mut Writer, why: &str) -> Result<(), AllocError>
    ensures tokens { OnOk result (text.new.tokens ≡ text.old.tokens ++ error_tokens why.now) }
    ensures before { OnOk result (text.new.before ≡ text.old.before) }
{
    text.begin_object()?;
    text.key("error")?;
    text.string(why)?;
    text.end_object()?;
    Ok(())
}
