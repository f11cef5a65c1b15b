ghost use Rattle.std.specs.Prelude.{◌≡◌, OnOk, ◌++◌};
ghost use Rattle.als_asking.specs.Telling.{written_tokens, fault_tokens, flaw_tokens, flaw_key, why_flaw};
ghost use Rattle.als_asking.specs.Telling.{kind_or, refusal_tokens, unknown_tokens};
ghost use Rattle.als_asking.specs.Telling.{not_begun_tokens};
ghost use Rattle.als_asking.specs.Telling.{outcome_tokens};
ghost use Rattle.als_writer.specs.Refusing.{fault_of, fault_undecided};

use crate::failing_text::failing_members;
use crate::members::{key, number, string, truth};
use crate::outcome::Outcome;
use als_fault::FaultKind;
use als_writer::{Flaw, NotDecided, Refusal, Written};
use json::Writer;
use std::alloc::{AllocError, Global};

/// Writes the members of an outcome.
#[tactic(auto, unfolding(crate::specs::Telling::outcome_tokens))]
pub(crate) fn outcome_members(
    alloc: Global,
    text: &mut Writer,
    outcome: &Outcome,
) -> Result<(), AllocError>
    ensures tokens { OnOk result (text.new.tokens ≡ text.old.tokens ++ outcome_tokens outcome.now) }
    ensures before { OnOk result (text.new.before ≡ text.old.before) }
{
    match outcome {
        Outcome::Committed(written) | Outcome::Decided(written) => {
            written_members(text, written)?;
        }
        Outcome::Prepared(written) => {
            written_members(text, written)?;
            truth(text, "prepared", true)?;
        }
        Outcome::Refused(refusal) => refusal_members(alloc, text, refusal)?,
        Outcome::Unknown(written) => {
            unknown_member(text)?;
            written_members(text, written)?;
        }
        Outcome::NotDecided(why) => fault_members(text, kind_undecided(why))?,
        Outcome::NotBegun => not_begun_members(text)?,
        Outcome::Lost => unknown_member(text)?,
    }
    Ok(())
}

/// Writes that a restart may find it or not.
fn unknown_member(text: &mut Writer) -> Result<(), AllocError>
    ensures tokens { OnOk result (text.new.tokens ≡ text.old.tokens ++ unknown_tokens) }
    ensures before { OnOk result (text.new.before ≡ text.old.before) }
{
    truth(text, "unknown", true)
}

/// Writes that nothing was begun. No fault has a number for that.
fn not_begun_members(text: &mut Writer) -> Result<(), AllocError>
    ensures tokens { OnOk result (text.new.tokens ≡ text.old.tokens ++ not_begun_tokens) }
    ensures before { OnOk result (text.new.before ≡ text.old.before) }
{
    string(text, "name", "NotBegun")
}

/// Writes what is in the log: the TransID, and the LSN of the record that says so.
pub(crate) fn written_members(text: &mut Writer, written: &Written) -> Result<(), AllocError>
    ensures tokens { OnOk result (text.new.tokens ≡ text.old.tokens ++ written_tokens written.now) }
    ensures before { OnOk result (text.new.before ≡ text.old.before) }
{
    number(text, "trans", u64::from(written.trans.0))?;
    number(text, "lsn", written.lsn.0)?;
    Ok(())
}

/// Writes why nothing is committed.
fn refusal_members(alloc: Global, text: &mut Writer, refusal: &Refusal) -> Result<(), AllocError>
    ensures tokens { OnOk result (text.new.tokens ≡ text.old.tokens ++ refusal_tokens refusal.now) }
    ensures before { OnOk result (text.new.before ≡ text.old.before) }
{
    match refusal {
        Refusal::Invalid(flaw) => flaw_members(text, *flaw)?,
        Refusal::Held { by, .. } => number(text, "held_by", u64::from(by.0))?,
        Refusal::NotAsAsked { failing } => failing_members(alloc, text, failing)?,
        _ => fault_members(text, kind_of(refusal))?,
    }
    Ok(())
}

/// The fault of a refusal. A log that is not tidy is not drained.
fn kind_of(refusal: &Refusal) -> FaultKind
    ensures { result ≡ kind_or (fault_of refusal.now) }
{
    match refusal.fault() {
        Some(fault) => fault.kind(),
        None => FaultKind::NotDrained,
    }
}

/// The fault for which a transaction is not decided. A log that is not tidy is not drained.
fn kind_undecided(why: &NotDecided) -> FaultKind
    ensures { result ≡ kind_or (fault_undecided why.now) }
{
    match why.fault() {
        Some(fault) => fault.kind(),
        None => FaultKind::NotDrained,
    }
}

/// Writes the number and the name of a fault.
#[tactic(auto, unfolding(crate::specs::Telling::fault_tokens))]
fn fault_members(text: &mut Writer, kind: FaultKind) -> Result<(), AllocError>
    ensures tokens { OnOk result (text.new.tokens ≡ text.old.tokens ++ fault_tokens kind) }
    ensures before { OnOk result (text.new.before ≡ text.old.before) }
{
    number(text, "refused", u64::from(kind.number()))?;
    string(text, "name", kind.name())?;
    Ok(())
}

/// Writes what is wrong with a transaction, and with which key.
fn flaw_members(text: &mut Writer, flaw: Flaw) -> Result<(), AllocError>
    ensures tokens { OnOk result (text.new.tokens ≡ text.old.tokens ++ flaw_tokens flaw) }
    ensures before { OnOk result (text.new.before ≡ text.old.before) }
{
    string(text, "error", why_flaw(flaw))?;
    flaw_key(text, flaw)?;
    Ok(())
}

/// What is wrong with a transaction, in words.
fn why_flaw(flaw: Flaw) -> &'static str
    ensures { result.now ≡ why_flaw flaw }
{
    match flaw {
        Flaw::NoSet => "it sets no key",
        Flaw::TooLong => "it has more than 600 sets or more than 600 comparisons",
        Flaw::KeyTwice { .. } => "it sets a key twice",
        Flaw::NoSuchKey { .. } => "the database has no such key",
    }
}

/// Writes the key that is wrong, if it is one.
fn flaw_key(text: &mut Writer, flaw: Flaw) -> Result<(), AllocError>
    ensures tokens { OnOk result (text.new.tokens ≡ text.old.tokens ++ flaw_key flaw) }
    ensures before { OnOk result (text.new.before ≡ text.old.before) }
{
    match flaw {
        Flaw::NoSet | Flaw::TooLong => {}
        Flaw::KeyTwice { key: at } | Flaw::NoSuchKey { key: at } => key(text, at)?,
    }
    Ok(())
}
