ghost use Rattle.std.specs.Prelude.{◌≡◌, ℕ, true, List, None, OnOk, IfErr};
ghost use Rattle.als_record.specs.declared.record.Record.{Record as AnyRecord};
ghost use Rattle.als_record.specs.Spelling.{IsRecord, spelling};
ghost use Rattle.als_record.specs.LogText.{end_of};
ghost use Rattle.als_record.specs.Shown.{shown};
ghost use Rattle.als_record.specs.Validity.{IsValidLog, first_bad};
ghost use Rattle.als_validator.specs.Validated.{IsValidatorOf, judges};
ghost use Rattle.als_lookback.specs.Refusals.{IsOfTaker};

use crate::fault::Fault;
use als_record::RecordView;
use als_validator::Validator;
use std::alloc::Global;

/// What takes the records of a log one after another, each as it lies in the bytes that were read.
pub trait TakeRecord {
    /// Behind these records, this one was taken.
    ghost took: { Self → List AnyRecord → AnyRecord → Self → Type 0 };

    /// Takes a record that may follow the log of which this is the validator, with its bytes. The
    /// validator does not know of the record yet.
    fn take(
        &mut self,
        alloc: Global,
        validator: &Validator,
        logged: &RecordView<'_>,
        bytes: &[u8],
    ) -> Result<(), Fault>
        requires judging { judges validator.now ≡ true }
        ensures ok { OnOk result ((pages : ℕ) (log : List AnyRecord)
            → IsValidatorOf pages validator.now log → IsValidLog pages log
            → IsRecord pages (shown logged.now) → logged.now.lsn.0 ≡ end_of log
            → first_bad log (shown logged.now) ≡ None
            → bytes.now ≡ spelling (shown logged.now)
            → took self.old log (shown logged.now) self.new) }
        ensures fails { IfErr result IsOfTaker };
}
