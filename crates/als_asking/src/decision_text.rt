ghost use Rattle.std.specs.Prelude.{◌≡◌, IfOk, OnOk, ◌++◌};
ghost use Rattle.json.specs.Print.{print};
ghost use Rattle.als_asking.specs.Telling.{decision_tokens, decision_members, commits_by, undoubted_tokens};

use crate::members::{number, string, truth};
use crate::outcome::Outcome;
use crate::outcome_text::{outcome_members, written_members};
use als_engine::Decision;
use als_record::TransId;
use als_writer::NotDecided;
use json::Writer;
use std::alloc::{AllocError, Global};

/// The text of a decision.
#[tactic(auto, using(crate::proofs::TextLaws::printed))]
pub(crate) fn decision_text(
    alloc: Global,
    trans: TransId,
    verdict: Decision,
    outcome: &Outcome,
) -> Result<Vec<u8>, AllocError>
    ensures { IfOk result (λ text. text.items ≡ print (decision_tokens trans verdict outcome.now)) }
{
    let mut text = Writer::new(Vec::new(alloc));
    write_decision(alloc, &mut text, trans, verdict, outcome)?;
    Ok(text.into_inner())
}

/// Writes the object of a decision.
fn write_decision(
    alloc: Global,
    text: &mut Writer,
    trans: TransId,
    verdict: Decision,
    outcome: &Outcome,
) -> Result<(), AllocError>
    ensures tokens { OnOk result (text.new.tokens ≡ text.old.tokens ++ decision_tokens trans verdict outcome.now) }
    ensures before { OnOk result (text.new.before ≡ text.old.before) }
{
    text.begin_object()?;
    write_members(alloc, text, trans, verdict, outcome)?;
    text.end_object()?;
    Ok(())
}

/// Writes the members of a decision.
#[tactic(auto, unfolding(crate::specs::Telling::decision_members))]
fn write_members(
    alloc: Global,
    text: &mut Writer,
    trans: TransId,
    verdict: Decision,
    outcome: &Outcome,
) -> Result<(), AllocError>
    ensures tokens { OnOk result (text.new.tokens ≡ text.old.tokens ++ decision_members trans verdict outcome.now) }
    ensures before { OnOk result (text.new.before ≡ text.old.before) }
{
    match outcome {
        Outcome::Decided(written) => {
            written_members(text, written)?;
            truth(text, "committed", commits_by(verdict))?;
        }
        Outcome::NotDecided(NotDecided::NotInDoubt) => undoubted_members(text, trans)?,
        _ => outcome_members(alloc, text, outcome)?,
    }
    Ok(())
}

/// Writes that a transaction is not in doubt.
fn undoubted_members(text: &mut Writer, trans: TransId) -> Result<(), AllocError>
    ensures tokens { OnOk result (text.new.tokens ≡ text.old.tokens ++ undoubted_tokens trans) }
    ensures before { OnOk result (text.new.before ≡ text.old.before) }
{
    string(text, "error", "not in doubt")?;
    number(text, "trans", u64::from(trans.0))?;
    Ok(())
}

/// Whether a decision commits.
fn commits_by(verdict: Decision) -> bool
    ensures { result ≡ commits_by verdict }
{
    match verdict {
        Decision::Commit => true,
        Decision::Rollback => false,
    }
}
