ghost use Rattle.std.specs.Prelude.{◌≡◌, ℕ, ◌+◌, ◌≤◌, List, ◌++◌, Option, IfOk, IfErr, OnOk, IsTrue};
ghost use Rattle.std.specs.List.{AllByRecursion};
ghost use Rattle.std.specs.Io.KnownBytes.{Appends};
ghost use Rattle.als_record.specs.declared.record.Record.{Record as AnyRecord};
ghost use Rattle.als_record.specs.declared.trans_id.TransId.{TransId as AnyTrans};
ghost use Rattle.als_record.specs.Spelling.{IsKey};
ghost use Rattle.als_record.specs.LogText.{log_text, end_of};
ghost use Rattle.als_record.specs.Transactions.{greatest_trans};
ghost use Rattle.als_record.specs.Validity.{is_valid};
ghost use Rattle.als_writing.specs.Writing.{is_new};
ghost use Rattle.als_renew.specs.declared.fault.Fault.TheVariants.{InDoubt};
ghost use Rattle.als_renew.specs.Carried.{MayCarry, HasNow, WritesDoubt, WritesDoubts};
ghost use Rattle.als_renew.specs.Carried.{AreCarriable, IsUncarriable};
ghost use Rattle.als_renew.specs.Refusals.{IsOfOutput};

use crate::beginning::put;
use crate::doubt::spell_doubt;
use crate::fault::Fault;
use crate::reached::Reached;
use als_lookback::{Doubt, Seen};
use als_record::{Lsn, TRANSACTION_LIMIT};
use std::alloc::Global;
use std::io::Write;

/// That all transactions in doubt of a database with so many pages can be carried on.
///
/// InDoubt: the number of this one is that of a page's transaction, or 256 are in doubt.
pub(crate) fn check_carriable(doubts: &[Doubt], pages: u32) -> Result<(), Fault>
    ensures ok { OnOk result (AreCarriable pages doubts.now) }
    ensures err { IfErr result (λ fault. (trans : AnyTrans) × (fault ≡ InDoubt trans)
        × IsUncarriable pages doubts.now trans) }
{
    for i in 0..doubts.len() {
        let trans = doubts[i].trans();
        if trans.0 <= pages {
            return Err(Fault::InDoubt { trans });
        }
        if i + 1 >= TRANSACTION_LIMIT {
            return Err(Fault::InDoubt { trans });
        }
    }
    Ok(())
}

/// Writes a transaction in doubt behind a log that ends there, and answers how far the log is written then.
fn write_doubt<W: Write>(
    alloc: Global,
    now: &mut Seen,
    doubt: &Doubt,
    end: Lsn,
    writer: &mut W,
) -> Result<Reached, Fault>
    ensures ok { IfOk result (λ to. (pages : ℕ) (log : List AnyRecord) → IsTrue (is_valid log)
        → end.0 ≡ end_of log → IsTrue (is_new log doubt.now.trans)
        → AllByRecursion (λ w. IsKey pages w.key) doubt.now.writes → HasNow now.old pages log
        → WritesDoubt pages doubt.now log (W.contents writer.old) (W.contents writer.new) to.end.0
        now.new) }
    ensures greatest { IfOk result (λ to. to.greatest.0 ≡ doubt.now.trans) }
    ensures most { IfOk result (λ to. to.end.0 ≤ 2147484000) }
    ensures fails { IfErr result IsOfOutput }
{
    let spelled = spell_doubt(alloc, now, doubt, end)?;
    put(&spelled.piece, writer)?;
    let end = spelled.end;
    let greatest = doubt.trans();
    Ok(Reached { end, greatest })
}

/// Writes transactions in doubt behind a log that is written so far, of which these are the images now, and
/// answers how far it is written then. The images are those behind them.
pub(crate) fn write_doubts<W: Write>(
    alloc: Global,
    now: &mut Seen,
    doubts: &[Doubt],
    from: Reached,
    writer: &mut W,
) -> Result<Reached, Fault>
    ensures ok { IfOk result (λ to. (pages : ℕ) (log : List AnyRecord)
        → (before : Option (List ℕ)) → IsTrue (is_valid log) → MayCarry pages log doubts.now
        → HasNow now.old pages log → from.end.0 ≡ end_of log
        → from.greatest.0 ≡ greatest_trans log
        → Appends before (W.contents writer.old) (log_text pages log)
        → WritesDoubts pages log doubts.now before (W.contents writer.new) to.greatest.0 to.end.0) }
    ensures most { IfOk result (λ to. to.end.0 ≤ from.end.0 + 2147484000) }
    ensures fails { IfErr result IsOfOutput }
{
    let mut reached = from;
    for i in 0..doubts.len() {
        let next = write_doubt(alloc, now, &doubts[i], reached.end, writer)?;
        reached = next;
    }
    Ok(reached)
}
