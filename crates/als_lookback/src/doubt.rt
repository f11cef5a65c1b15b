ghost use Rattle.std.specs.Prelude.{◌≡◌, ℕ, true, List, [], ◌∷◌, ◌++◌, IfOk, OnOk, IsTrue};
ghost use Rattle.std.specs.Prelude.{if◌then◌else◌};
ghost use Rattle.als_record.specs.declared.record.Record.{Record as AnyRecord};
ghost use Rattle.als_record.specs.Table.{is_prepared};
ghost use Rattle.als_record.specs.Transactions.{is_unended};
ghost use Rattle.als_validator.specs.Validated.{IsValidatorOf, judges};
ghost use Rattle.als_lookback.specs.Doubts.{doubt_in, doubts_in};

use als_commits::{Commit, Writes};
use als_record::{Lsn, TransId, TransactionRow, TransactionState};
use als_validator::Validator;
use std::alloc::{AllocError, Global};
use std::marker::Model;

/// A transaction in doubt: it prepared, and is neither committed nor rolled back.
pub struct Doubt {
    /// The commit that a decision would make of it, whose place in the log is not known.
    commit: Commit,
}

// Written out: a derived drop is proved wherever it is dropped, this one only here.
impl Drop for Doubt {
    fn drop(self) {
        let Doubt { commit } = self;
        drop(commit);
    }
}

impl Model for Doubt {
    ghost use Rattle.als_lookback.specs.Doubts.{Doubt};

    ghost Value = { Doubt };

    ghost view = { λ d. record { trans = d.commit.trans.0; writes = d.commit.writes } };
}

impl Doubt {
    /// Its number.
    pub fn trans(&self) -> TransId
        ensures { result.0 ≡ self.now.trans }
    {
        self.commit.trans
    }

    /// What it wrote and did not undo, in order.
    pub fn writes(&self) -> &Writes
        ensures { result.now ≡ self.now.writes }
    {
        &self.commit.writes
    }
}

/// Whether a transaction in this state is in doubt.
fn is_doubt(state: TransactionState) -> bool
    ensures { result ≡ is_prepared state }
{
    match state {
        TransactionState::Prepared => true,
        TransactionState::Active | TransactionState::Committed | TransactionState::RollingBack => {
            false
        }
    }
}

/// An unended transaction of the log of which this is the validator, with what it wrote.
fn doubt_of(alloc: Global, validator: &Validator, trans: TransId) -> Result<Doubt, AllocError>
    requires { judges validator.now ≡ true }
    ensures { IfOk result (λ d. (pages : ℕ) (log : List AnyRecord)
        → IsValidatorOf pages validator.now log → IsTrue (is_unended log trans.0)
        → d ≡ doubt_in log trans.0) }
{
    let survivors = validator.survivors_of(trans);
    let commit = Commit::of(alloc, trans, Lsn(0), survivors)?;
    Ok(Doubt { commit })
}

/// Adds the transaction of a row of the table, where it is in doubt.
fn add_doubt(
    alloc: Global,
    validator: &Validator,
    row: TransactionRow,
    doubts: &mut Vec<Doubt>,
) -> Result<(), AllocError>
    requires { judges validator.now ≡ true }
    ensures { OnOk result ((pages : ℕ) (log : List AnyRecord)
        → IsValidatorOf pages validator.now log → IsTrue (is_unended log row.trans.0)
        → doubts.new.items ≡ doubts.old.items
        ++ (if is_prepared row.state then doubt_in log row.trans.0 ∷ [] else [])) }
{
    if !is_doubt(row.state) {
        return Ok(());
    }
    let doubt = doubt_of(alloc, validator, row.trans)?;
    doubts.push(doubt)?;
    Ok(())
}

/// The transactions in doubt of the log of which this is the validator, in rising TransID.
pub(crate) fn doubts_of(alloc: Global, validator: &Validator) -> Result<Vec<Doubt>, AllocError>
    requires { judges validator.now ≡ true }
    ensures { IfOk result (λ doubts. (pages : ℕ) (log : List AnyRecord)
        → IsValidatorOf pages validator.now log → doubts.items ≡ doubts_in log) }
{
    let rows = validator.rows();
    let mut doubts = Vec::new(alloc);
    for i in 0..rows.len() {
        add_doubt(alloc, validator, rows[i].row(), &mut doubts)?;
    }
    Ok(doubts)
}
