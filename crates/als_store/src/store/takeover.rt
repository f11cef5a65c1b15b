ghost use Rattle.std.specs.Prelude.{◌≡◌, ℕ, ◌≤◌, ◌+◌, true, false, IsTrue, List, [], ◌∷◌, ◌++◌};
ghost use Rattle.std.specs.Prelude.{IfOk, IfErr, OnOk, IsOk, not};
ghost use Rattle.std.specs.Result.{IsErrOf};
ghost use Rattle.als_record.specs.declared.record.Record.{Record as AnyRecord};
ghost use Rattle.als_record.specs.Spelling.{record_len, IsRecord};
ghost use Rattle.als_record.specs.LogText.{end_of};
ghost use Rattle.als_record.specs.Shown.{shown};
ghost use Rattle.std.specs.List.{list_any};
ghost use Rattle.als_record.specs.Transactions.{is_unended, is_in_doubt, last_lsn};
ghost use Rattle.als_record.specs.Table.{is_prepared};
ghost use Rattle.als_record.specs.Tail.{tail_of, is_undone, decision};
ghost use Rattle.als_analysis.specs.declared.open_row.OpenRow.{OpenRow as AnyRow};
ghost use Rattle.als_store.specs.Stored.{newest, with_records};
ghost use Rattle.als_store.specs.Spare.{HasSpare};
ghost use Rattle.als_store.specs.Warm.{WasWarm};
ghost use Rattle.als_record.specs.Validity.{is_valid};
ghost use Rattle.als_validator.specs.Validated.{IsValidatorOf};
ghost use Rattle.als_log.specs.Local.{HasRoomFor};
ghost use Rattle.als_log.specs.Outcomes.{ReadFails};
ghost use Rattle.als_takeover.specs.Next.{first_of};
ghost use Rattle.als_store.specs.declared.fault.Fault.TheVariants as fault;
ghost use Rattle.als_store.specs.Takeover.{is_following, is_primary, is_drained};
ghost use Rattle.als_store.specs.Takeover.{IsUnderTakeover, IsFinished, WritesState, BreaksState};
ghost use Rattle.als_store.specs.Takeover.{TakesSeal, sealed_state, finished_state};
ghost use Rattle.als_store.specs.Takeover.{UndoesOne, NotUndone};
ghost use Rattle.als_epochs.specs.Histories.{Takes};
ghost use Rattle.als_store.specs.Takeover.{HasRoomToUndo, HasRoomToResolve};
ghost use Rattle.als_store.specs.Takeover.{ComesNext, Resolves, decision_body};

use super::{Store, admit, make_room, reserve_after, route_change};
use crate::decision::Decision;
use crate::fault::Fault;
use als_analysis::OpenRow;
use als_ckpt::{ControlState, Phase};
use als_disk::BlockDisk;
use als_epochs::History;
use als_log::LocalLog;
use als_pool::{change_can_follow, pool_ends_below};
use als_record::{Body, Lsn, Record, RecordView, TransId, TransactionState, encoded_len};
use als_takeover::next_undo;
use als_validator::Validator;

/// The next record of the log's tail, read from the log. Device: the device failed in a read.
fn next_of_tail<D: BlockDisk>(
    validator: &Validator,
    log: &mut LocalLog<D>,
) -> Result<Option<Record>, Fault>
    ensures next { (pages : ℕ) → IsTrue (is_valid log.old.log)
        → IsValidatorOf pages validator.now log.old.log
        → IfOk result (λ next. next ≡ first_of (tail_of log.old.log)) }
    ensures same { OnOk result (log.new ≡ log.old) }
    ensures err { (pages : ℕ) → IsTrue (is_valid log.old.log)
        → IsValidatorOf pages validator.now log.old.log
        → IfErr result (λ f. (f ≡ fault.Device) × ReadFails log.old log.new) }
{
    match next_undo(validator.table(), log) {
        Ok(next) => Ok(next),
        Err(_) => Err(Fault::Device),
    }
}

/// Lets a record go: its drop is proved here alone.
fn let_go(_logged: Record) {}

/// Whether a transaction in this state is in doubt.
fn does_wait(state: TransactionState) -> bool
    ensures { result ≡ is_prepared state }
{
    match state {
        TransactionState::Prepared => true,
        TransactionState::Active | TransactionState::Committed | TransactionState::RollingBack => {
            false
        }
    }
}

/// Whether one of these transactions is not in doubt.
fn has_other(rows: &[OpenRow]) -> bool
    ensures { result ≡ list_any (λ (o : AnyRow). not (is_prepared o.row.state)) rows.now }
{
    rows.iter().any(|kept| !does_wait(kept.row().state))
}

/// Something of the log's tail is left to append: an unended transaction is not in doubt.
fn has_tail(validator: &Validator) -> bool
    ensures { (pages : ℕ) (log : List AnyRecord) → IsValidatorOf pages validator.now log
        → result ≡ not (is_undone log) }
{
    has_other(validator.rows())
}

/// Whether a transaction is in doubt.
fn is_in_doubt(validator: &Validator, trans: TransId) -> bool
    ensures { (pages : ℕ) (log : List AnyRecord) → IsValidatorOf pages validator.now log
        → result ≡ is_in_doubt log trans.0 }
{
    match validator.table().open_of(trans) {
        Some(kept) => does_wait(kept.row().state),
        None => false,
    }
}

/// The last record of an unended transaction.
fn last_of(validator: &Validator, trans: TransId) -> Lsn
    ensures { (pages : ℕ) (log : List AnyRecord) → IsValidatorOf pages validator.now log
        → is_unended log trans.0 ≡ true → result.0 ≡ last_lsn log trans.0 }
{
    match validator.table().open_of(trans) {
        Some(kept) => kept.row().last,
        None => Lsn(0),
    }
}

/// The body of the record that decides.
fn body_of(verdict: Decision) -> Body
    ensures { result ≡ decision_body verdict }
{
    match verdict {
        Decision::Commit => Body::Commit,
        Decision::Rollback => Body::Rollback,
    }
}

/// The record at the log's end that decides a transaction in doubt.
fn decided_by(validator: &Validator, end: Lsn, trans: TransId, verdict: Decision) -> Record
    ensures { (pages : ℕ) (log : List AnyRecord) → IsValidatorOf pages validator.now log
        → is_in_doubt log trans.0 ≡ true → end.0 ≡ end_of log
        → result ≡ decision log trans.0 (decision_body verdict) }
{
    Record {
        lsn: end,
        prev: last_of(validator, trans),
        trans,
        body: body_of(verdict),
    }
}

/// The length of a record that is seen too.
fn len_made(logged: &Record, _seen: &RecordView<'_>) -> usize
    requires { shown _seen.now ≡ logged.now }
    ensures { result ≡ record_len (shown _seen.now) }
{
    encoded_len(logged)
}

/// Appends a record, seen too, for which there is room on the device and in memory.
fn append_made<D: BlockDisk>(
    log: &mut LocalLog<D>,
    logged: &Record,
    _seen: &RecordView<'_>,
    reserve_after: u64,
)
    requires same { shown _seen.now ≡ logged.now }
    requires fits { IsRecord log.old.pages (shown _seen.now) }
    requires place { _seen.now.lsn.0 ≡ end_of log.old.log }
    requires device { HasRoomFor log.old (record_len (shown _seen.now)) reserve_after }
    requires memory { record_len (shown _seen.now) ≤ log.old.room }
    ensures { log.new ≡ record log.old {
      log = log.old.log ++ shown _seen.now ∷ [];
      room = log.new.room;
    } }
{
    match log.append(logged, reserve_after) {
        Ok(()) => {}
        Err(_) => unreachable!(),
    }
}

/// The history of a control state, with one seal more.
fn grown(newest: ControlState, seal: Lsn) -> History
    requires { Takes newest.history seal.0 }
    ensures { result ≡ newest.history ++ seal.0 ∷ [] }
{
    let mut history = newest.history;
    history.push(seal);
    history
}

impl<D: BlockDisk> Store<D> {
    /// The log still follows its source: it was not sealed.
    pub fn is_following(&self) -> bool
        ensures is { result ≡ is_following self.now.stored }
        // What each control state that a crash may leave says of the log, if the devices were sound
        // when the store was made.
        ensures taken { WasWarm self.now.stored → IsUnderTakeover self.now.stored }
    {
        match self.control.newest().phase {
            Phase::Following => true,
            Phase::Sealed | Phase::Primary => false,
        }
    }

    /// The takeover is done.
    pub fn is_primary(&self) -> bool
        ensures is { result ≡ is_primary self.now.stored }
        // Then, until a transaction in doubt is decided, the transaction table is closed, and each
        // slot of each page has what a takeover of the sealed log keeps; and afterwards, where
        // nothing of a tail is left and no change waits for redo, what one of the whole log keeps.
        // Unless the store is recovering, or the devices were not sound when it was made.
        ensures finished { WasWarm self.now.stored → self.now.stored.recovering ≡ false
            → is_primary self.now.stored ≡ true → IsFinished self.now.stored }
    {
        match self.control.newest().phase {
            Phase::Primary => true,
            Phase::Following | Phase::Sealed => false,
        }
    }

    /// Nothing of the tail is left to append, no change waits for redo, and the whole log is
    /// acknowledged.
    pub fn is_drained(&self) -> bool
        ensures { result ≡ is_drained self.now.stored }
    {
        if has_tail(&self.validator) {
            return false;
        }
        if self.pool.waiting() > 0 {
            return false;
        }
        self.log.end().0 <= self.control.acknowledged().0
    }

    /// Whether the log follows its source, was sealed, or is taken over.
    pub fn phase(&self) -> Phase
        ensures { result ≡ (newest self.now.stored).phase }
    {
        self.control.newest().phase
    }

    /// Something of the log's tail is left to append: an unended transaction is not in doubt.
    pub fn has_tail(&self) -> bool
        ensures { result ≡ not (is_undone self.now.stored.log) }
    {
        has_tail(&self.validator)
    }

    /// A transaction is in doubt: it is prepared, and neither committed nor rolled back.
    pub fn is_in_doubt(&self, trans: TransId) -> bool
        ensures { result ≡ is_in_doubt self.now.stored.log trans.0 }
    {
        is_in_doubt(&self.validator, trans)
    }

    /// The end of the last record that was wholly written at the log's last sync.
    pub fn synced(&self) -> Lsn
        ensures { result.0 ≡ self.now.stored.synced }
    {
        self.log.synced()
    }

    /// Seals the log, which is synced up to its end: writes the control block with phase Sealed,
    /// with the log's end as its mark and its seal, and with the history that goes on with this
    /// seal, by one write of the control device. From then on the log takes only its own tail, and once the takeover has ended the decisions of
    /// `resolve`. What judging records needs is dropped. It takes no memory and no room of the log.
    ///
    /// Device: the device failed, and the state may have been written or not.
    pub fn seal(&mut self) -> Result<(), Fault>
        requires whole { self.old.stored.broken ≡ false }
        requires following { is_following self.old.stored ≡ true }
        requires synced { end_of self.old.stored.log ≤ self.old.stored.synced }
        requires takes { TakesSeal self.old.stored }
        ensures ok { OnOk result (WritesState
            (sealed_state self.old.stored) self.old.stored self.new.stored) }
        ensures err { IfErr result (λ f. (f ≡ fault.Device)
            × BreaksState (sealed_state self.old.stored) self.old.stored self.new.stored) }
        ensures rises { (newest self.old.stored).mark.0 ≤ end_of self.old.stored.log }
    {
        let end = self.log.end();
        let history = grown(self.control.newest(), end);
        self.validator.seal();
        match self.control.write_phase(Phase::Sealed, end, end, history) {
            Ok(()) => Ok(()),
            Err(_) => {
                self.broken = true;
                Err(Fault::Device)
            }
        }
    }

    /// Holds the next record of the tail of a log that was sealed, and answers its LSN: also of the
    /// tail that a decision leaves after the takeover. NothingToDo: nothing of the tail is left to
    /// append. Memory: an allocation failed, in a part that had no room for the record; nothing has
    /// changed. Device: the log device failed in a read; nothing but the count of failures has
    /// changed. The log device has room for the whole tail.
    pub fn undo_one(&mut self) -> Result<Lsn, Fault>
        requires sealed { is_following self.old.stored ≡ false }
        ensures ok { IfOk result (λ lsn. UndoesOne self.old.stored lsn self.new.stored) }
        ensures err { IfErr result (λ f. NotUndone self.old.stored f self.new.stored) }
        ensures reserved { HasRoomToUndo self.old.stored self.old.spare
            → IsErrOf result fault.Memory → ⊥ }
    {
        // For the prover alone: what always holds of the log and of the control block.
        let _ = self.log.end();
        let _ = self.control.newest();
        match next_of_tail(&self.validator, &mut self.log) {
            Ok(Some(logged)) => {
                let lsn = logged.lsn;
                let held = self.hold_next(&logged, &logged.view());
                let_go(logged);
                match held {
                    Ok(()) => Ok(lsn),
                    Err(fault) => Err(fault),
                }
            }
            Ok(None) => Err(Fault::NothingToDo),
            Err(fault) => Err(fault),
        }
    }

    /// Commits or rolls back a transaction that is in doubt, once the takeover has ended: holds its
    /// commit or rollback record, and answers that record's LSN. What a rollback undoes, and the end
    /// of either, is then the tail that `undo_one` appends. The log device has room for all of it.
    ///
    /// Memory: an allocation failed, in a part that had no room for the record; nothing has
    /// changed.
    pub fn resolve(&mut self, trans: TransId, verdict: Decision) -> Result<Lsn, Fault>
        requires primary { is_primary self.old.stored ≡ true }
        requires doubt { is_in_doubt self.old.stored.log trans.0 ≡ true }
        ensures ok { IfOk result (λ lsn. Resolves self.old.stored trans.0 verdict lsn
            self.new.stored) }
        ensures err { IfErr result (λ f. (f ≡ fault.Memory)
            × (self.new.stored ≡ self.old.stored)) }
        ensures reserved { HasRoomToResolve self.old.stored trans.0 verdict self.old.spare
            → IsOk result }
    {
        // For the prover alone: what always holds of the control block.
        let _ = self.control.newest();
        let lsn = self.log.end();
        let logged = decided_by(&self.validator, lsn, trans, verdict);
        let held = self.hold_next(&logged, &logged.view());
        let_go(logged);
        match held {
            Ok(()) => Ok(lsn),
            Err(fault) => Err(fault),
        }
    }

    /// Holds a record that may come next, which is seen too: of the tail, or a decision. Memory: an
    /// allocation failed, and nothing has changed.
    fn hold_next(&mut self, logged: &Record, seen: &RecordView<'_>) -> Result<(), Fault>
        requires same { shown seen.now ≡ logged.now }
        requires next { ComesNext self.old.stored (shown seen.now) }
        requires fits { IsRecord self.old.stored.pages (shown seen.now) }
        requires at { seen.now.lsn.0 ≡ end_of self.old.stored.log }
        ensures ok { OnOk result
            (self.new.stored ≡ with_records self.old.stored (shown seen.now ∷ [])) }
        ensures err { IfErr result (λ f. (f ≡ fault.Memory)
            × (self.new.stored ≡ self.old.stored)) }
        ensures reserved { HasSpare self.old.spare (shown seen.now) → IsOk result }
    {
        // For the prover alone: what always holds of the log and of the control block.
        let _ = self.log.end();
        let _ = self.control.newest();
        let reserve_after = reserve_after(&self.validator, seen);
        let len = len_made(logged, seen);
        make_room(
            &mut self.log,
            &mut self.validator,
            &mut self.pool,
            seen,
            len,
        )?;
        admit(&mut self.validator, seen);
        change_can_follow();
        pool_ends_below();
        route_change(&mut self.pool, seen);
        append_made(&mut self.log, logged, seen, reserve_after);
        self.count.note(seen);
        Ok(())
    }

    /// Ends the takeover of a sealed log whose tail is held and acknowledged: writes the control
    /// block with phase Primary, by one write of the control device. It takes no memory and no room
    /// of the log.
    ///
    /// Device: the device failed, and the state may have been written or not.
    pub fn finish(&mut self) -> Result<(), Fault>
        requires whole { self.old.stored.broken ≡ false }
        requires sealed { is_following self.old.stored ≡ false }
        requires unfinished { is_primary self.old.stored ≡ false }
        requires drained { is_drained self.old.stored ≡ true }
        ensures ok { OnOk result (WritesState
            (finished_state self.old.stored) self.old.stored self.new.stored) }
        ensures err { IfErr result (λ f. (f ≡ fault.Device)
            × BreaksState (finished_state self.old.stored) self.old.stored self.new.stored) }
    {
        // For the prover alone: what always holds of the log.
        let _ = self.log.end();
        let newest = self.control.newest();
        match self
            .control
            .write_phase(Phase::Primary, newest.mark, newest.seal, newest.history)
        {
            Ok(()) => Ok(()),
            Err(_) => {
                self.broken = true;
                Err(Fault::Device)
            }
        }
    }
}
