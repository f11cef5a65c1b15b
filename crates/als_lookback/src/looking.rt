ghost use Rattle.std.specs.Prelude.{◌≡◌, ℕ, List, Option, OnOk, IfOk, IfErr};
ghost use Rattle.als_record.specs.Validity.{IsValidLog};
ghost use Rattle.als_lookback.specs.Fronts.{EndsWithin};
ghost use Rattle.als_lookback.specs.Readings.{Reads, HasStopped};
ghost use Rattle.als_lookback.specs.Refusals.{RefusesLook};
ghost use Rattle.als_lookback.specs.Seen.{LooksBack, IsSeenOf};
ghost use Rattle.als_lookback.specs.Standing.{LooksOver};

use crate::cutting::check_begins;
use crate::fault::Fault;
use crate::reading::Reading;
use crate::seen::Seen;
use crate::standing::Standing;
use crate::until::Until;
use std::alloc::Global;
use std::io::Read;

/// What the commits of a log left up to the last record that a look takes.
///
/// InHeader, PastEnd: no record ends there. BadHeader, Shape, Invalid, Cut: the text is none of a log
/// up to there. Stream: the reader failed. Memory: an allocation failed.
pub fn look_back<R: Read + Drop>(alloc: Global, reader: R, until: Until) -> Result<Seen, Fault>
    ensures sees { IfOk result (LooksBack (R.remaining reader) until) }
    ensures fails { IfErr result (RefusesLook (R.remaining reader) until) }
{
    let (seen, standing) = look_over(alloc, reader, until)?;
    drop(standing);
    Ok(seen)
}

/// The same, and what that front of the log leaves open where it ends.
///
/// As `look_back`.
pub fn look_over<R: Read + Drop>(
    alloc: Global,
    reader: R,
    until: Until,
) -> Result<(Seen, Standing), Fault>
    ensures sees { IfOk result (λ past. LooksOver (R.remaining reader) until past.0 past.1) }
    ensures fails { IfErr result (RefusesLook (R.remaining reader) until) }
{
    check_begins(until)?;
    let mut reading = Reading::new(alloc, reader)?;
    let mut seen = Seen::new(alloc, reading.pages())?;
    look_on(&mut reading, until, &mut seen)?;
    let standing = reading.standing()?;
    Ok((seen, standing))
}

/// Takes the commits of the records that a look takes.
fn look_on<R: Read>(reading: &mut Reading<R>, until: Until, seen: &mut Seen) -> Result<(), Fault>
    requires within { EndsWithin until reading.old.log }
    ensures ok { OnOk result (HasStopped until reading.new × EndsWithin until reading.new.log
        × ((pages : ℕ) → IsSeenOf seen.old pages reading.old.log
        → IsSeenOf seen.new pages reading.new.log)) }
    ensures same { reading.new.pages ≡ reading.old.pages }
    ensures valid { OnOk result (IsValidLog reading.new.pages reading.new.log) }
    ensures text { OnOk result ((text : Option (List ℕ)) → Reads text reading.old
        → Reads text reading.new) }
    ensures err { IfErr result (λ fault. (text : Option (List ℕ)) → Reads text reading.old
        → RefusesLook text until fault) }
{
    let _ = reading.end();
    for _ in 0..u64::MAX {
        let more = reading.take_next(until, seen)?;
        if !more {
            return Ok(());
        }
    }
    Err(Fault::Stream)
}
