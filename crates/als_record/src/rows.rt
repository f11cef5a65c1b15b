ghost use Rattle.std.specs.Prelude.{◌≡◌, ◌<◌, ◌≤◌, ◌^◌, [], ◌∷◌, ◌++◌, length, OnOk, OnErr, IfOk};

use crate::limits::{PAGE_LIMIT, TRANSACTION_LIMIT};
use crate::lsn::Lsn;
use crate::trans_id::TransId;
use std::alloc::{AllocError, Global};
use std::marker::Model;

/// A row of the transaction table as an end_chkpt record carries it: numbers that nobody checks.
#[derive(Clone, Copy, Debug, PartialEq, Eq)]
pub struct LoggedTransaction {
    pub trans: TransId,
    pub state: u8,
    pub last: Lsn,
    pub undo_next: Lsn,
}

/// A row of the dirty page table as an end_chkpt record carries it: numbers that nobody checks.
#[derive(Clone, Copy, Debug, PartialEq, Eq)]
pub struct LoggedPage {
    pub page: u32,
    pub rec_lsn: Lsn,
}

/// The transaction rows of an end_chkpt record: at most 256.
pub struct TransactionRows {
    rows: Vec<LoggedTransaction>,
}

// Written out: a derived drop is proved wherever rows are dropped, this one only here.
impl Drop for TransactionRows {
    fn drop(self) {
        let TransactionRows { rows } = self;
        drop(rows);
    }
}

impl Model for TransactionRows {
    ghost use Rattle.std.specs.Prelude.{List, length, ◌≤◌};
    ghost use Rattle.als_record.specs.declared.rows.LoggedTransaction.{LoggedTransaction};

    ghost Value = { List LoggedTransaction };

    ghost view = { λ r. r.rows.items };

    ghost invariant = { λ r. length r.rows.items ≤ 256 };
}

impl TransactionRows {
    pub const LIMIT: usize = TRANSACTION_LIMIT;

    /// No rows.
    pub fn new(alloc: Global) -> Self
        ensures { result ≡ [] }
    {
        TransactionRows {
            rows: Vec::new(alloc),
        }
    }

    /// No rows, with room for `count`.
    pub fn with_capacity(alloc: Global, count: usize) -> Result<Self, AllocError>
        ensures { IfOk result (λ r. r ≡ []) }
    {
        let rows = Vec::with_capacity(alloc, count)?;
        Ok(TransactionRows { rows })
    }

    /// Adds a row.
    pub fn push(&mut self, row: LoggedTransaction) -> Result<(), AllocError>
        requires { length self.old < 256 }
        ensures ok { OnOk result (self.new ≡ self.old ++ row ∷ []) }
        ensures err { OnErr result (self.new ≡ self.old) }
    {
        self.rows.push(row)?;
        Ok(())
    }

    /// The same rows again.
    pub(crate) fn copy(&self, alloc: Global) -> Result<Self, AllocError>
        ensures { IfOk result (λ rows. rows ≡ self.now) }
    {
        let rows = Vec::from_slice(alloc, self.rows.as_slice())?;
        Ok(TransactionRows { rows })
    }

    /// The rows in order.
    pub fn as_slice(&self) -> &[LoggedTransaction]
        ensures value { result.now ≡ self.now }
        ensures limit { length self.now ≤ 256 }
    {
        self.rows.as_slice()
    }
}

/// The dirty page rows of an end_chkpt record: at most 4,096.
pub struct PageRows {
    rows: Vec<LoggedPage>,
}

// Written out: a derived drop is proved wherever rows are dropped, this one only here.
impl Drop for PageRows {
    fn drop(self) {
        let PageRows { rows } = self;
        drop(rows);
    }
}

impl Model for PageRows {
    ghost use Rattle.std.specs.Prelude.{List, length, ◌≤◌};
    ghost use Rattle.als_record.specs.declared.rows.LoggedPage.{LoggedPage};

    ghost Value = { List LoggedPage };

    ghost view = { λ r. r.rows.items };

    ghost invariant = { λ r. length r.rows.items ≤ 4096 };
}

impl PageRows {
    pub const LIMIT: usize = PAGE_LIMIT;

    /// No rows.
    pub fn new(alloc: Global) -> Self
        ensures { result ≡ [] }
    {
        PageRows {
            rows: Vec::new(alloc),
        }
    }

    /// No rows, with room for `count`.
    pub fn with_capacity(alloc: Global, count: usize) -> Result<Self, AllocError>
        ensures { IfOk result (λ r. r ≡ []) }
    {
        let rows = Vec::with_capacity(alloc, count)?;
        Ok(PageRows { rows })
    }

    /// Adds a row.
    pub fn push(&mut self, row: LoggedPage) -> Result<(), AllocError>
        requires { length self.old < 4096 }
        ensures ok { OnOk result (self.new ≡ self.old ++ row ∷ []) }
        ensures err { OnErr result (self.new ≡ self.old) }
    {
        self.rows.push(row)?;
        Ok(())
    }

    /// The same rows again.
    pub(crate) fn copy(&self, alloc: Global) -> Result<Self, AllocError>
        ensures { IfOk result (λ rows. rows ≡ self.now) }
    {
        let rows = Vec::from_slice(alloc, self.rows.as_slice())?;
        Ok(PageRows { rows })
    }

    /// The rows in order.
    pub fn as_slice(&self) -> &[LoggedPage]
        ensures value { result.now ≡ self.now }
        ensures limit { length self.now ≤ 4096 }
    {
        self.rows.as_slice()
    }
}
