// The commits of a log's records, on their way to the readers.
ghost use Rattle.std.specs.Prelude.{◌≡◌, ℕ, true, List, [], ◌∷◌, ◌++◌, None, OnOk};
ghost use Rattle.als_record.specs.declared.record.Record.{Record as AnyRecord};
ghost use Rattle.als_record.specs.Commits.{commits_of};
ghost use Rattle.als_record.specs.LogText.{end_of};
ghost use Rattle.als_record.specs.Shown.{shown};
ghost use Rattle.als_record.specs.Spelling.{IsRecord};
ghost use Rattle.als_record.specs.Validity.{IsValidLog, first_bad};
ghost use Rattle.als_validator.specs.Validated.{IsValidatorOf, judges};

use als_commits::Waiting;
use als_record::RecordView;
use als_validator::Validator;
use std::alloc::{AllocError, Global};

/// Lets the commit that the next record of the log makes, if it makes one, wait for the readers.
/// The validator does not know of the record yet.
///
/// An `Err`: an allocation failed.
#[inline(always)]
pub(crate) fn take_commit(
    alloc: Global,
    waiting: &mut Waiting,
    validator: &Validator,
    logged: &RecordView<'_>,
) -> Result<(), AllocError>
    requires { judges validator.now ≡ true }
    ensures waits { OnOk result ((pages : ℕ) (front : List AnyRecord)
        → IsValidatorOf pages validator.now front → IsValidLog pages front
        → IsRecord pages (shown logged.now) → logged.now.lsn.0 ≡ end_of front
        → first_bad front (shown logged.now) ≡ None
        → waiting.old.queued ≡ commits_of front
        → waiting.new.queued ≡ commits_of (front ++ shown logged.now ∷ [])) }
{
    let Ok(made) = validator.commit_of(alloc, logged) else {
        return Err(AllocError);
    };
    waiting.make_room(&made)?;
    waiting.take(made);
    Ok(())
}
