ghost use Rattle.std.specs.Prelude.{◌≡◌, IfOk, filter, map};
ghost use Rattle.als_record.specs.Table.{is_prepared};
ghost use Rattle.als_primary.specs.Doubts.{is_doubt, doubt_of, doubts_of};

use als_asking::Doubt;
use als_engine::Events;
use als_record::{TransactionRow, TransactionState};
use als_report::Board;
use std::alloc::{AllocError, Global};
use std::sync::atomic::{AtomicBool, Ordering};
use std::sync::{Mutex, Wait};

/// The transactions in doubt, as the leader last saw them. The threads that serve requests read them.
#[derive(Drop)]
pub(crate) struct Doubts {
    alloc: Global,
    /// By rising TransID. None: there was no memory for them.
    found: Mutex<Option<Vec<Doubt>>>,
    /// Whether some may have come or gone since.
    is_old: AtomicBool,
}

impl Doubts {
    /// Nothing was looked at yet.
    pub fn new(alloc: Global) -> Doubts {
        Doubts {
            alloc,
            found: Mutex::new(None),
            is_old: AtomicBool::new(true),
        }
    }

    /// Notes that some may come or go from now on.
    pub fn note(&self) {
        self.is_old.store(true, Ordering::SeqCst);
    }

    /// Looks them up in the engine, if some may have come or gone.
    pub fn look<R: Wait, E: Events>(&self, rt: &R, engine: &E, board: &Board) {
        if !self.is_old.swap(false, Ordering::SeqCst) {
            return;
        }
        let found = found_in(self.alloc, engine);
        match &found {
            Some(found) => board.set_in_doubt(found.len() as u64),
            None => self.note(),
        }
        *self.found.lock(rt) = found;
    }

    /// A copy of them. None: there is no memory for the copy, or there was none for them.
    pub fn copy<R: Wait>(&self, rt: &R) -> Option<Vec<Doubt>> {
        let found = self.found.lock(rt);
        let Some(found) = &*found else {
            return None;
        };
        found.as_slice().to_vec(self.alloc).ok()
    }
}

/// The transactions in doubt of an engine. None: there is no memory for them.
fn found_in<E: Events>(alloc: Global, engine: &E) -> Option<Vec<Doubt>> {
    let rows = engine.table(alloc).ok()?;
    doubts_of(alloc, rows.as_slice()).ok()
}

/// The transactions in doubt of a table, in its order.
fn doubts_of(alloc: Global, rows: &[TransactionRow]) -> Result<Vec<Doubt>, AllocError>
    ensures { IfOk result (λ found. found.items ≡ doubts_of rows.now) }
{
    let mut found = Vec::new(alloc);
    for i in 0..rows.len() {
        if is_doubt(&rows[i]) {
            found.push(doubt_of(&rows[i]))?;
        }
    }
    Ok(found)
}

/// Whether a row's transaction is in doubt.
fn is_doubt(row: &TransactionRow) -> bool
    ensures { result ≡ is_doubt row.now }
{
    match row.state {
        TransactionState::Prepared => true,
        TransactionState::Active | TransactionState::Committed | TransactionState::RollingBack => {
            false
        }
    }
}

/// The TransID and the last LSN of a row.
fn doubt_of(row: &TransactionRow) -> Doubt
    ensures { result ≡ doubt_of row.now }
{
    Doubt {
        trans: row.trans,
        lsn: row.last,
    }
}
