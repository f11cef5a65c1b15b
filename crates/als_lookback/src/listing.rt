ghost use Rattle.std.specs.Prelude.{IfErr};
ghost use Rattle.als_lookback.specs.Refusals.{IsOfTaker};

use crate::fault::Fault;
use crate::reading::Reading;
use crate::taking::TakeRecord;
use crate::until::Until;
use als_commits::Commit;
use als_record::RecordView;
use als_validator::Validator;
use std::alloc::Global;
use std::io::{Read, Write};

/// Writes a line for each commit.
#[derive(Drop)]
struct Listing<W: Write> {
    writer: W,
}

impl<W: Write> TakeRecord for Listing<W> {
    ghost use Rattle.std.specs.Prelude.{⊤};

    ghost took = { λ s log r t. ⊤ };

    fn take(
        &mut self,
        alloc: Global,
        validator: &Validator,
        logged: &RecordView<'_>,
        _bytes: &[u8],
    ) -> Result<(), Fault> {
        if let Some(commit) = validator.commit_of(alloc, logged)? {
            list(&commit, &mut self.writer)?;
        }
        Ok(())
    }
}

/// The commit's LSN, its transaction, and the key of each of its writes that survives, in order.
fn list<W: Write>(commit: &Commit, writer: &mut W) -> Result<(), Fault>
    ensures { IfErr result IsOfTaker }
{
    write!(writer, "{} trans={}", commit.lsn.0, commit.trans.0)?;
    let mut left = commit.writes.left();
    for _ in 0..commit.writes.len() {
        if let Some(write) = left.next() {
            write!(writer, " {}/{}", write.key.page, write.key.slot)?;
        }
    }
    writeln!(writer)?;
    Ok(())
}

/// Writes a line for each commit of a log, as it is read.
pub(crate) fn list_commits<R: Read + Drop, W: Write + Drop>(
    alloc: Global,
    reader: R,
    writer: W,
) -> Result<(), Fault> {
    let mut reading = Reading::new(alloc, reader)?;
    let mut listing = Listing { writer };
    for _ in 0..u64::MAX {
        let more = reading.take_next(Until::End, &mut listing)?;
        if !more {
            return Ok(());
        }
    }
    Err(Fault::Stream)
}
