ghost use Rattle.std.specs.Prelude.{◌≡◌, ℕ, ◌<◌, ◌≤◌, ◌++◌, IsTrue, List, [], OnOk, IfOk, IfErr};
ghost use Rattle.std.specs.Prelude.{vec_len, vec_capacity, length, if◌then◌else◌};
ghost use Rattle.als_record.specs.declared.record.Record.{Record as AnyRecord};
ghost use Rattle.als_record.specs.Transactions.{is_unended, surviving, to_undo};
ghost use Rattle.als_record.specs.UndoChain.{undone_at, undo_chain, backwards};
ghost use Rattle.als_record.specs.Validity.{is_valid};
ghost use Rattle.als_analysis.specs.Noted.{IsTableOf};
ghost use Rattle.als_takeover.specs.Next.{CannotRead, CannotCollect};

use crate::chain::{let_go, next_of};
use als_analysis::TransTable;
use als_disk::BlockDisk;
use als_log::{Fault, LocalLog};
use als_record::{Body, Lsn, Record, TransId};
use std::alloc::Global;

/// Takes an update, and passes over any other record. It takes no memory.
fn take(updates: &mut Vec<Record>, found: Record)
    requires { vec_len updates.old < vec_capacity updates.old }
    ensures items { updates.new.items ≡ updates.old.items ++ undone_at found found.body }
    ensures capacity { vec_capacity updates.new ≡ vec_capacity updates.old }
{
    match &found.body {
        Body::Update { .. } => updates.push_reserved(found),
        _ => let_go(found),
    }
}

/// Walks an undo chain from an LSN on, until it has met as many updates as there are.
fn walk<D: BlockDisk>(
    log: &mut LocalLog<D>,
    from: u64,
    count: usize,
    updates: &mut Vec<Record>,
) -> Result<(), Fault>
    requires none { updates.old.items ≡ [] }
    requires room { count ≤ vec_capacity updates.old }
    ensures found { (t : ℕ) → IsTrue (is_valid log.old.log)
        → undo_chain from (backwards log.old.log t) ≡ to_undo log.old.log t
        → length (to_undo log.old.log t) ≡ count
        → OnOk result (updates.new.items ≡ to_undo log.old.log t) }
    ensures same { OnOk result (log.new ≡ log.old) }
    ensures err { (t : ℕ) → IsTrue (is_valid log.old.log)
        → undo_chain from (backwards log.old.log t) ≡ to_undo log.old.log t
        → length (to_undo log.old.log t) ≡ count
        → IfErr result (λ e. CannotRead e log.old log.new) }
{
    let mut here = from;
    'walk: while updates.len() < count {
        let looked = log.record(Lsn(here))?;
        match looked {
            None => return Ok(()),
            Some(found) => {
                let next = next_of(&found);
                // The chains of a valid log go down.
                if here <= next {
                    return Ok(());
                }
                take(updates, found);
                here = next;
            }
        }
    }
    Ok(())
}

/// The updates of an unended transaction that no compensation has undone, in order, read from the
/// log along the transaction's undo chain; none for any other transaction.
///
/// `Device`: a read of the device failed. `Memory`: an allocation failed, and nothing has changed.
pub fn survivors<D: BlockDisk>(
    alloc: Global,
    table: &TransTable,
    log: &mut LocalLog<D>,
    trans: TransId,
) -> Result<Vec<Record>, Fault>
    ensures ok { IsTrue (is_valid log.old.log) → IsTableOf table.now log.old.log
        → IfOk result (λ updates. updates.items ≡ (if is_unended log.old.log trans.0
        then surviving log.old.log trans.0 else [])) }
    ensures same { OnOk result (log.new ≡ log.old) }
    ensures err { IsTrue (is_valid log.old.log) → IsTableOf table.now log.old.log
        → IfErr result (λ e. CannotCollect e log.old log.new) }
{
    // For the prover alone: what always holds of the log.
    let _ = log.end();
    match table.open_of(trans) {
        None => Ok(Vec::new(alloc)),
        Some(kept) => {
            let count = kept.left() as usize;
            let mut updates = Vec::with_capacity(alloc, count)?;
            walk(log, kept.row().undo_next.0, count, &mut updates)?;
            updates.reverse();
            Ok(updates)
        }
    }
}
