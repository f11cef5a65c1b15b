// Whether records are judged on.
ghost use Rattle.std.specs.Prelude.{◌≡◌, ℕ, true, List};
ghost use Rattle.als_record.specs.declared.record.Record.{Record as AnyRecord};
ghost use Rattle.als_validator.specs.Validated.{IsValidatorOf, judges};
ghost use Rattle.als_reopen.specs.Taken.{follows};

use als_ckpt::Phase;
use als_validator::Validator;

/// What this phase needs of a validator: a log that was sealed takes its own tail alone, and no
/// record is judged any more.
pub(crate) fn kept_for(validator: Validator, phase: Phase) -> Validator
    requires { judges validator ≡ true }
    ensures known { (pages : ℕ) (log : List AnyRecord) → IsValidatorOf pages validator log
        → IsValidatorOf pages result log }
    ensures judging { judges result ≡ follows phase }
{
    let mut kept = validator;
    match phase {
        Phase::Following => {}
        Phase::Sealed | Phase::Primary => kept.seal(),
    }
    kept
}
