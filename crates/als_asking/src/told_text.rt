ghost use Rattle.std.specs.Prelude.{◌≡◌, IfOk, OnOk, ◌++◌, flat_map};
ghost use Rattle.json.specs.Print.{print};
ghost use Rattle.als_asking.specs.Telling.{one_tokens, item_tokens, each_tokens, why_denied, HasText};

use crate::decision_text::decision_text;
use crate::denied::Denied;
use crate::doubt_text::doubts_text;
use crate::members::number;
use crate::outcome::Outcome;
use crate::outcome_text::outcome_members;
use crate::told::{Told, status_of_outcome};
use als_report::error_text;
use json::Writer;
use std::alloc::{AllocError, Global};

/// The text of an answer to a request.
#[tactic(auto, unfolding(crate::specs::Telling::HasText))]
pub(crate) fn told_text(alloc: Global, told: &Told) -> Result<Vec<u8>, AllocError>
    ensures { IfOk result (λ text. HasText told.now text.items) }
{
    match told {
        Told::One(outcome) => one_text(alloc, outcome),
        Told::Each(outcomes) => each_text(alloc, outcomes.as_slice()),
        Told::Decision {
            trans,
            verdict,
            outcome,
        } => decision_text(alloc, *trans, *verdict, outcome),
        Told::InDoubt(doubts) => doubts_text(alloc, doubts.as_slice()),
        Told::Unread(why) => {
            let why = format!(in alloc; "{why}")?;
            error_text(alloc, why.as_str())
        }
        Told::Denied(why) => error_text(alloc, why_denied(*why)),
    }
}

/// The text of one outcome.
#[tactic(auto, using(crate::proofs::TextLaws::printed))]
fn one_text(alloc: Global, outcome: &Outcome) -> Result<Vec<u8>, AllocError>
    ensures { IfOk result (λ text. text.items ≡ print (one_tokens outcome.now)) }
{
    let mut text = Writer::new(Vec::new(alloc));
    write_one(alloc, &mut text, outcome)?;
    Ok(text.into_inner())
}

/// Writes the object of one outcome.
fn write_one(alloc: Global, text: &mut Writer, outcome: &Outcome) -> Result<(), AllocError>
    ensures tokens { OnOk result (text.new.tokens ≡ text.old.tokens ++ one_tokens outcome.now) }
    ensures before { OnOk result (text.new.before ≡ text.old.before) }
{
    text.begin_object()?;
    outcome_members(alloc, text, outcome)?;
    text.end_object()?;
    Ok(())
}

/// The text of an array of outcomes.
#[tactic(auto, using(crate::proofs::TextLaws::printed))]
fn each_text(alloc: Global, outcomes: &[Outcome]) -> Result<Vec<u8>, AllocError>
    ensures { IfOk result (λ text. text.items ≡ print (each_tokens outcomes.now)) }
{
    let mut text = Writer::new(Vec::new(alloc));
    write_each(alloc, &mut text, outcomes)?;
    Ok(text.into_inner())
}

/// Writes an array of outcomes.
fn write_each(alloc: Global, text: &mut Writer, outcomes: &[Outcome]) -> Result<(), AllocError>
    ensures tokens { OnOk result (text.new.tokens ≡ text.old.tokens ++ each_tokens outcomes.now) }
    ensures before { OnOk result (text.new.before ≡ text.old.before) }
{
    text.begin_array()?;
    write_items(alloc, text, outcomes)?;
    text.end_array()?;
    Ok(())
}

/// Writes the items of an array.
fn write_items(alloc: Global, text: &mut Writer, outcomes: &[Outcome]) -> Result<(), AllocError>
    ensures tokens { OnOk result (text.new.tokens ≡ text.old.tokens ++ flat_map item_tokens outcomes.now) }
    ensures before { OnOk result (text.new.before ≡ text.old.before) }
{
    for i in 0..outcomes.len() {
        write_item(alloc, text, &outcomes[i])?;
    }
    Ok(())
}

/// Writes the object of an outcome in an array, with its status.
fn write_item(alloc: Global, text: &mut Writer, outcome: &Outcome) -> Result<(), AllocError>
    ensures tokens { OnOk result (text.new.tokens ≡ text.old.tokens ++ item_tokens outcome.now) }
    ensures before { OnOk result (text.new.before ≡ text.old.before) }
{
    text.begin_object()?;
    let status = status_of_outcome(outcome);
    number(text, "status", u64::from(status.as_u16()))?;
    outcome_members(alloc, text, outcome)?;
    text.end_object()?;
    Ok(())
}

/// Why a request may not commit, in words.
fn why_denied(why: Denied) -> &'static str
    ensures { result.now ≡ why_denied why }
{
    match why {
        Denied::Host => "this node has no such host: localhost, 127.0.0.1, [::1]",
        Denied::Method => "transactions are committed by POST",
        Denied::NoRead => "transactions in doubt are read by GET",
        Denied::Page => "a page of a browser may not commit",
        Denied::NoToken => "a commit brings the token: Authorization: Bearer TOKEN",
        Denied::OtherToken => "this is not the token",
        Denied::Early => {
            "35 Warming: too few standbys have acknowledged the log with which this primary began"
        }
        Denied::Unheard => {
            "too few standbys have answered this primary of late: another node may have been taken over"
        }
    }
}
