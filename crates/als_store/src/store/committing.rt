ghost use Rattle.std.specs.Prelude.{◌≡◌, ℕ, [], ◌∷◌, ◌++◌, None, option_to_list, true, false};
ghost use Rattle.std.specs.Prelude.{IsTrue, IsOk, OnOk, IfOk, IfErr, if◌then◌else◌};
ghost use Rattle.als_record.specs.declared.record.Body.TheVariants.{Commit as CommitBody};
ghost use Rattle.als_record.specs.Spelling.{IsRecord};
ghost use Rattle.als_record.specs.LogText.{end_of};
ghost use Rattle.als_record.specs.Shown.{shown, shown_body};
ghost use Rattle.als_record.specs.Tail.{decision};
ghost use Rattle.als_record.specs.Transactions.{is_commit, is_in_doubt, is_unended, surviving};
ghost use Rattle.als_record.specs.Commits.{commits_of};
ghost use Rattle.als_record.specs.Validity.{first_bad, is_valid};
ghost use Rattle.als_validator.specs.Validated.{IsValidatorOf};
ghost use Rattle.als_commits.specs.Committing.{writes_in};
ghost use Rattle.als_store.specs.Faults.{of_log};
ghost use Rattle.als_store.specs.Takeover.{is_following, CannotCollect, NotCollected};
ghost use Rattle.als_store.specs.declared.fault.Fault.TheVariants as fault;

use super::Store;
use crate::fault::Fault;
use als_commits::{Commit, GatheredWrites, Writes};
use als_disk::BlockDisk;
use als_log::{Fault as LogFault, LocalLog};
use als_record::{Body, ImageView, Record, RecordView, TransId};
use als_takeover::survivors;
use als_validator::Validator;
use std::alloc::{AllocError, Global};

/// What updates write, in order.
fn writes_of(alloc: Global, updates: &[Record]) -> Result<Writes, AllocError>
    ensures { IfOk result (λ writes. writes ≡ writes_in updates.now) }
{
    let mut gathered = GatheredWrites::with_room(alloc, updates.len())?;
    for update in updates {
        if let Body::Update { key, after, .. } = &update.body {
            gathered.add(*key, &ImageView::of(after))?;
        }
    }
    let writes = gathered.share()?;
    Ok(writes)
}

/// The store's fault for a fault of the log.
fn fault_of(fault: LogFault) -> Fault
    ensures { result ≡ of_log fault }
{
    match fault {
        LogFault::NothingToDo => Fault::NothingToDo,
        LogFault::LogFull => Fault::LogFull,
        LogFault::Device => Fault::Device,
        LogFault::Memory => Fault::Memory,
    }
}

/// Lets records go: their drop is proved here alone.
fn let_go(_updates: Vec<Record>) {}

/// The updates that survive of an unended transaction, read from the log along its undo chain.
fn collect<D: BlockDisk>(
    alloc: Global,
    validator: &Validator,
    log: &mut LocalLog<D>,
    trans: TransId,
) -> Result<Vec<Record>, Fault>
    ensures ok { (pages : ℕ) → IsTrue (is_valid log.old.log)
        → IsValidatorOf pages validator.now log.old.log
        → IfOk result (λ updates. updates.items ≡ (if is_unended log.old.log trans.0
        then surviving log.old.log trans.0 else [])) }
    ensures same { OnOk result (log.new ≡ log.old) }
    ensures err { (pages : ℕ) → IsTrue (is_valid log.old.log)
        → IsValidatorOf pages validator.now log.old.log
        → IfErr result (λ f. CannotCollect f log.old log.new) }
{
    match survivors(alloc, validator.table(), log, trans) {
        Ok(updates) => Ok(updates),
        Err(fault) => Err(fault_of(fault)),
    }
}

/// The commit that a commit record of a transaction in doubt would make at the log's end.
fn commit_at<D: BlockDisk>(
    alloc: Global,
    validator: &Validator,
    log: &mut LocalLog<D>,
    trans: TransId,
) -> Result<Commit, Fault>
    ensures ok { (pages : ℕ) → IsTrue (is_valid log.old.log)
        → IsValidatorOf pages validator.now log.old.log
        → is_in_doubt log.old.log trans.0 ≡ true
        → IfOk result (λ made. commits_of (log.old.log
        ++ decision log.old.log trans.0 CommitBody ∷ [])
        ≡ commits_of log.old.log ++ made ∷ []) }
    ensures same { OnOk result (log.new ≡ log.old) }
    ensures err { (pages : ℕ) → IsTrue (is_valid log.old.log)
        → IsValidatorOf pages validator.now log.old.log
        → IfErr result (λ f. CannotCollect f log.old log.new) }
{
    let lsn = log.end();
    let updates = collect(alloc, validator, log, trans)?;
    let written = writes_of(alloc, updates.as_slice());
    let_go(updates);
    match written {
        Ok(writes) => Ok(Commit { trans, lsn, writes }),
        Err(_) => Err(Fault::Memory),
    }
}

impl<D: BlockDisk> Store<D> {
    /// The commit that a record makes, with what survives of its transaction: asked before the
    /// record is held. `None`: it is no commit record, or may not follow the log. Memory: a growth
    /// was refused, for what a commit writes alone. Once the log is sealed, only transactions in
    /// doubt can commit: see `commit_decided`.
    pub fn commit_of(&self, alloc: Global, logged: &RecordView<'_>) -> Result<Option<Commit>, Fault>
        requires fits { IsRecord self.now.stored.pages (shown logged.now) }
        requires at { logged.now.lsn.0 ≡ end_of self.now.stored.log }
        requires following { is_following self.now.stored ≡ true }
        // Of a record that may follow: the commits of the log with it are those of the log and this
        // one, if there is one.
        ensures ok { IfOk result (λ found. first_bad self.now.stored.log (shown logged.now) ≡ None
            → commits_of (self.now.stored.log ++ shown logged.now ∷ [])
            ≡ commits_of self.now.stored.log
            ++ option_to_list found) }
        ensures err { IfErr result (λ f. (f ≡ fault.Memory)
            × (first_bad self.now.stored.log (shown logged.now) ≡ None)) }
        ensures reserved { is_commit (shown_body logged.now.body) ≡ false → IsOk result }
    {
        match self.validator.commit_of(alloc, logged) {
            Ok(found) => Ok(found),
            Err(_) => Err(Fault::Memory),
        }
    }

    /// The commit that a commit record of a transaction in doubt would make, with what survives of
    /// it: asked before the transaction is resolved. What it writes is read from the log, along its
    /// undo chain. Nothing but the count of failures changes.
    ///
    /// Memory: an allocation failed. Device: the log device failed in a read.
    pub fn commit_decided(&mut self, alloc: Global, trans: TransId) -> Result<Commit, Fault>
        requires { is_in_doubt self.old.stored.log trans.0 ≡ true }
        ensures ok { IfOk result (λ made. commits_of (self.old.stored.log
            ++ decision self.old.stored.log trans.0 CommitBody ∷ [])
            ≡ commits_of self.old.stored.log ++ made ∷ []) }
        ensures same { OnOk result (self.new ≡ self.old) }
        ensures err { IfErr result (λ f. NotCollected self.old.stored f self.new.stored) }
    {
        match commit_at(alloc, &self.validator, &mut self.log, trans) {
            Ok(made) => Ok(made),
            Err(fault) => Err(fault),
        }
    }
}
