ghost use Rattle.std.specs.Prelude.{◌≡◌, ℕ, List, [], Option, IfOk, IfErr};
ghost use Rattle.als_lookback.specs.Readings.{Reads};
ghost use Rattle.als_lookback.specs.Seen.{CommitsAt, RefusesFind};

use crate::fault::Fault;
use crate::reading::Reading;
use crate::taking::TakeRecord;
use crate::until::Until;
use als_record::{BodyView, Lsn, RecordView, TransId};
use als_validator::Validator;
use std::alloc::Global;
use std::io::Read;

/// Where a transaction committed, as far as a log was read.
#[derive(Clone, Copy)]
struct Finding {
    trans: TransId,
    found: Option<Lsn>,
}

impl TakeRecord for Finding {
    ghost use Rattle.als_lookback.specs.Seen.{Finds};

    ghost took = { λ s log r t. Finds s.trans.0 t.trans.0 s.found t.found r };

    fn take(
        &mut self,
        _alloc: Global,
        _validator: &Validator,
        logged: &RecordView<'_>,
        _bytes: &[u8],
    ) -> Result<(), Fault> {
        if matches!(logged.body, BodyView::Commit) && logged.trans.0 == self.trans.0 {
            self.found = Some(logged.lsn);
        }
        Ok(())
    }
}

/// The LSN of a transaction's commit record, at which the log in front of it ends.
///
/// NoCommit: there is none, and the log is sound. BadHeader, Shape, Invalid, Cut: the text is none of
/// a log, before there is one. Stream: the reader failed. Memory: an allocation failed.
pub fn find_commit<R: Read + Drop>(alloc: Global, reader: R, trans: TransId) -> Result<Lsn, Fault>
    ensures finds { IfOk result (λ lsn. CommitsAt (R.remaining reader) trans.0 lsn.0) }
    ensures fails { IfErr result (RefusesFind (R.remaining reader) trans.0) }
{
    let mut reading = Reading::new(alloc, reader)?;
    let lsn = find_in(&mut reading, trans)?;
    Ok(lsn)
}

/// Where the first commit record of a transaction stands, in a log of which no record was taken.
fn find_in<R: Read>(reading: &mut Reading<R>, trans: TransId) -> Result<Lsn, Fault>
    requires start { reading.old.log ≡ [] }
    ensures found { IfOk result (λ lsn. (text : Option (List ℕ)) → Reads text reading.old
        → CommitsAt text trans.0 lsn.0) }
    ensures err { IfErr result (λ fault. (text : Option (List ℕ)) → Reads text reading.old
        → RefusesFind text trans.0 fault) }
{
    let _ = reading.end();
    let mut finding = Finding { trans, found: None };
    for _ in 0..u64::MAX {
        let more = reading.take_next(Until::End, &mut finding)?;
        if let Some(lsn) = finding.found {
            return Ok(lsn);
        }
        if !more {
            return Err(Fault::NoCommit);
        }
    }
    Err(Fault::Stream)
}
