// One record is judged, and the commit that it makes waits.
ghost use Rattle.std.specs.Prelude.{◌≡◌, ℕ, true, List, ◌∷◌, ◌++◌, [], None, OnOk, OnErr};
ghost use Rattle.als_record.specs.declared.record.Record.{Record};
ghost use Rattle.als_record.specs.Shown.{shown};
ghost use Rattle.als_record.specs.Spelling.{IsRecord};
ghost use Rattle.als_record.specs.LogText.{end_of};
ghost use Rattle.als_record.specs.Validity.{first_bad, IsValidLog};
ghost use Rattle.als_validator.specs.Validated.{IsValidatorOf, HasRoom, judges};
ghost use Rattle.als_published_log.specs.Keeping.{IsKept, IsSameView};

use crate::fault::Fault;
use als_record::RecordView;
use als_validator::Validator;
use als_view::View;
use std::alloc::Global;

/// Judges a record that is next in a log, and queues the commit that it makes, if it makes one. At
/// an `Err` the log is that of before.
pub(crate) fn hold(
    alloc: Global,
    validator: &mut Validator,
    view: &mut View,
    logged: &RecordView<'_>,
) -> Result<(), Fault>
    requires { judges validator.old ≡ true }
    ensures same { IsSameView view.old view.new }
    ensures judging { judges validator.new ≡ true }
    ensures ok { OnOk result ((pages : ℕ) (log : List Record) → IsRecord pages (shown logged.now)
        → logged.now.lsn.0 ≡ end_of log → IsKept pages log validator.old view.old
        → IsKept pages (log ++ (shown logged.now) ∷ []) validator.new view.new) }
    ensures err { OnErr result ((pages : ℕ) (log : List Record)
        → IsKept pages log validator.old view.old → IsKept pages log validator.new view.new) }
{
    judge(validator, logged)?;
    let found = match validator.commit_of(alloc, logged) {
        Ok(found) => found,
        Err(_) => return Err(Fault::Memory),
    };
    view.make_room(&found)?;
    reserve(validator)?;
    validator.admit(logged);
    view.take(found);
    Ok(())
}

/// Whether a record may follow the log.
fn judge(validator: &Validator, logged: &RecordView<'_>) -> Result<(), Fault>
    requires { judges validator.now ≡ true }
    ensures { OnOk result ((pages : ℕ) (log : List Record) → IsValidatorOf pages validator.now log
        → IsValidLog pages log → IsRecord pages (shown logged.now)
        → first_bad log (shown logged.now) ≡ None) }
{
    match validator.check(logged) {
        Ok(()) => Ok(()),
        Err(_) => Err(Fault::Invalid),
    }
}

/// Room for one more record.
fn reserve(validator: &mut Validator) -> Result<(), Fault>
    ensures ok { OnOk result (HasRoom validator.new) }
    ensures kept { (pages : ℕ) (log : List Record) → IsValidatorOf pages validator.old log
        → IsValidatorOf pages validator.new log }
    ensures judging { judges validator.new ≡ judges validator.old }
{
    match validator.reserve() {
        Ok(()) => Ok(()),
        Err(_) => Err(Fault::Memory),
    }
}
