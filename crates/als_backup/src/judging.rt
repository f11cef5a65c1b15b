ghost use Rattle.std.specs.Prelude.{◌≡◌, None, Ok, OnOk, IfErr};
ghost use Rattle.als_record.specs.Validity.{IsValidLog};
ghost use Rattle.als_lookback.specs.declared.until.Until.TheVariants.{End};
ghost use Rattle.als_lookback.specs.Judged.{reading_of};
ghost use Rattle.als_lookback.specs.Refusals.{RefusesIn};
ghost use Rattle.als_backup.specs.Texts.{held_in};

use crate::passing::Passing;
use als_lookback::{Fault as LookFault, Judge, Until};
use std::alloc::Global;

/// Judges each whole record of what has come. What is left then is less than one.
///
/// Shape: the bytes are no record. Invalid: it may not follow. Memory: an allocation failed.
pub(crate) fn judge_whole(alloc: Global, judge: &mut Judge) -> Result<(), LookFault>
    ensures text { held_in judge.new ≡ held_in judge.old }
    ensures pages { judge.new.pages ≡ judge.old.pages }
    ensures valid { IsValidLog judge.old.pages judge.old.log
        → IsValidLog judge.new.pages judge.new.log }
    ensures whole { OnOk result (reading_of judge.new ≡ Ok None) }
    ensures fails { IfErr result (RefusesIn End judge.new) }
{
    for _ in 0..u64::MAX {
        match judge.hand_to(alloc, Until::End, &mut Passing) {
            Ok(true) => {}
            Ok(false) => return Ok(()),
            Err(LookFault::Cut) => return Ok(()),
            Err(fault) => return Err(fault),
        }
    }
    Err(LookFault::Stream)
}
