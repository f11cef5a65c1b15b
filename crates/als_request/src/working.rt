ghost use Rattle.std.specs.Prelude.{◌≡◌, ◌⊎◌, Some, None, IfOk, IfErr};
ghost use Rattle.json.specs.Value.{value_view};
ghost use Rattle.als_request.specs.Working.{work_in, prepared_in, decided_in, meant, IsWork};
ghost use Rattle.als_request.specs.declared.mistake.Mistake.TheVariants.{Memory};

use crate::deciding::decided;
use crate::members::member_count;
use crate::mistake::Mistake;
use crate::parsing::parse;
use crate::reading::asked;
use als_writer::Work;
use json::{Scratch, Value};
use std::alloc::Global;

/// Reads what a text asks for: a transaction that commits, one that prepares, or a decision.
///
///     {"if":[..],"set":[..]}
///     {"prepare":true,"if":[..],"set":[..]}
///     {"decide":{"trans":T,"commit":true}}
pub fn work(alloc: Global, text: &[u8]) -> Result<Work, Mistake>
    // What is found is what the text says, in which no object has a name twice.
    ensures found { IfOk result (λ w. IsWork text.now w) }
{
    let mut scratch = Scratch::new(alloc);
    let value = parse(alloc, text, &mut scratch)?;
    wanted(alloc, &value)
}

/// Reads what a value asks for.
fn wanted(alloc: Global, value: &Value<'_>) -> Result<Work, Mistake>
    ensures found { IfOk result (λ w. work_in (value_view value.now) ≡ Some (meant w)) }
    ensures none { IfErr result (λ m. (m ≡ Memory)
        ⊎ (work_in (value_view value.now) ≡ None)) }
{
    if let Some(decision) = value.get("decide") {
        return to_decide(value, decision);
    }
    if let Some(flag) = value.get("prepare") {
        return to_prepare(alloc, value, flag);
    }
    Ok(Work::Commit(asked(alloc, value, 0)?))
}

/// Reads the decision of a value with the member `decide`.
fn to_decide(value: &Value<'_>, decision: &Value<'_>) -> Result<Work, Mistake>
    ensures found { IfOk result (λ w. decided_in (value_view value.now) (value_view decision.now)
        ≡ Some (meant w)) }
    ensures none { IfErr result (λ m. (m ≡ Memory)
        ⊎ (decided_in (value_view value.now) (value_view decision.now) ≡ None)) }
{
    if member_count(value) != 1 {
        return Err(Mistake::Alone);
    }
    let (trans, verdict) = decided(decision)?;
    Ok(Work::Decide { trans, verdict })
}

/// Reads the transaction of a value with the member `prepare`.
fn to_prepare(alloc: Global, value: &Value<'_>, flag: &Value<'_>) -> Result<Work, Mistake>
    ensures found { IfOk result (λ w. prepared_in (value_view value.now) (value_view flag.now)
        ≡ Some (meant w)) }
    ensures none { IfErr result (λ m. (m ≡ Memory)
        ⊎ (prepared_in (value_view value.now) (value_view flag.now) ≡ None)) }
{
    match flag.as_bool() {
        Some(true) => Ok(Work::Prepare(asked(alloc, value, 1)?)),
        _ => Err(Mistake::Prepare),
    }
}
