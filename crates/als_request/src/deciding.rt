ghost use Rattle.std.specs.Prelude.{◌≡◌, Some, None, IfOk, OnErr};
ghost use Rattle.json.specs.Value.{value_view};
ghost use Rattle.als_request.specs.Deciding.{trans_from, verdict_of, trans_in, decision_in};
ghost use Rattle.als_request.specs.Deciding.{IsDecision};

use crate::members::member_count;
use crate::mistake::Mistake;
use crate::parsing::parse;
use crate::parts::natural;
use als_engine::Decision;
use als_record::TransId;
use json::{Scratch, Value};
use std::alloc::Global;

/// Reads a decision from a text: of which transaction, and whether it commits.
pub fn decision(alloc: Global, text: &[u8]) -> Result<(TransId, Decision), Mistake>
    // What is found is what the text says, in which no object has a name twice.
    ensures found { IfOk result (λ d. IsDecision text.now d) }
{
    let mut scratch = Scratch::new(alloc);
    let value = parse(alloc, text, &mut scratch)?;
    decided(&value)
}

/// Reads a decision from a value.
pub(crate) fn decided(value: &Value<'_>) -> Result<(TransId, Decision), Mistake>
    ensures found { IfOk result (λ d. decision_in (value_view value.now) ≡ Some d) }
    ensures none { OnErr result (decision_in (value_view value.now) ≡ None) }
{
    if member_count(value) != 2 {
        return Err(Mistake::Decision);
    }
    let trans = value.get("trans").ok_or(Mistake::Decision)?;
    let trans = trans_in(trans).ok_or(Mistake::Trans)?;
    let commit = value.get("commit").ok_or(Mistake::Decision)?;
    let commit = commit.as_bool().ok_or(Mistake::Verdict)?;
    Ok((trans, verdict_of(commit)))
}

/// Reads a TransID from a value.
fn trans_in(value: &Value<'_>) -> Option<TransId>
    ensures { result ≡ trans_in (value_view value.now) }
{
    trans_from(natural(value)?)
}

/// The TransID with this number. 0 is not one.
fn trans_from(number: u64) -> Option<TransId>
    ensures { result ≡ trans_from number }
{
    if number < 1 || number > 4_294_967_295 {
        return None;
    }
    Some(TransId(number as u32))
}

/// Reads whether a transaction commits.
fn verdict_of(commits: bool) -> Decision
    ensures { result ≡ verdict_of commits }
{
    if commits {
        Decision::Commit
    } else {
        Decision::Rollback
    }
}
