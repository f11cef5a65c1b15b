ghost use Rattle.std.specs.Prelude.{◌≡◌, ◌<◌, ℕ, List, [], ◌∷◌, ◌++◌, None, true, false};
ghost use Rattle.std.specs.Prelude.{vec_len, vec_capacity, OnOk, OnErr, IfOk, IfErr, IsOk, MatchOption};
ghost use Rattle.std.specs.Prelude.{IsTrue};
ghost use Rattle.als_record.specs.declared.record.Body.{Body as AnyBody};
ghost use Rattle.als_record.specs.declared.record.Record.{Record};
ghost use Rattle.als_record.specs.Shown.{shown, shown_body, shown_image};
ghost use Rattle.als_record.specs.Spelling.{IsRecord, IsKey};
ghost use Rattle.als_record.specs.Transactions.{is_unended, greatest_trans};
ghost use Rattle.als_record.specs.Validity.{first_bad, open_checkpoint, is_valid, IsValidLog};
ghost use Rattle.als_analysis.specs.Noted.{IsTableOf, StandsAt};
ghost use Rattle.als_validator.specs.declared.fault.Fault.TheVariants.{Memory};
ghost use Rattle.als_validator.specs.Keys.{AreKeysOf};
ghost use Rattle.als_validator.specs.KeysNow.{TellsOfKey};
ghost use Rattle.als_validator.specs.Lists.{AreSurvivorsOf, survivors_in};
ghost use Rattle.als_validator.specs.Seen.{AreCommitted};
ghost use Rattle.als_validator.specs.Validated.{IsJudgingOf, MayNote, may_note};

use crate::ahead::glance_ahead;
use crate::causes::{
    holder_of, is_bad_checkpoint, is_bad_prev, is_old, is_one_too_many, is_stale,
    is_wrong_compensation, is_wrong_state, is_wrong_undo_next,
};
use crate::fault::Fault;
use crate::key_now::{KeyNow, key_now};
use crate::key_state::KeyState;
use crate::keys::{note_change, note_update, unwritten_keys};
use crate::past::past_of;
use crate::survivors::Survivors;
use als_analysis::TransTable;
use als_record::{BodyView, Cause, ImageView, KeptUpdate, Key, Lsn, RecordView, TransId};
use std::alloc::Global;

/// What is kept of a valid log to judge records and for nothing else: the surviving updates, what
/// each key has and who may hold it, and the transactions that have committed. A sealed log needs
/// none of it.
pub(crate) struct Judging {
    survivors: Survivors,
    keys: Vec<KeyState>,
    // Asked only of a checkpoint's record, which may not name one of these.
    committed: Vec<TransId>,
    // What was read ahead, which says nothing: it is kept so that it is read.
    glanced: u64,
}

// Written out: a derived drop is proved wherever it is dropped, this one only here.
impl Drop for Judging {
    fn drop(self) {
        let Judging {
            survivors,
            keys,
            committed,
            glanced: _,
        } = self;
        drop(survivors);
        drop(keys);
        drop(committed);
    }
}

/// Notes a commit.
fn note_commit(committed: &mut Vec<TransId>, logged: &RecordView<'_>)
    requires { vec_len committed.old < vec_capacity committed.old }
    ensures { (log : List Record) → AreCommitted committed.old.items log
        → AreCommitted committed.new.items (log ++ (shown logged.now) ∷ []) }
{
    match &logged.body {
        BodyView::Commit => committed.push_reserved(logged.trans),
        _ => {}
    }
}

/// Room for one more commit. An `Err` changes nothing.
#[inline(always)]
fn reserve_one(committed: &mut Vec<TransId>) -> Result<(), Fault>
    ensures items { committed.new.items ≡ committed.old.items }
    ensures ok { OnOk result (vec_len committed.new < vec_capacity committed.new) }
    ensures err { IfErr result (λ e. e ≡ Memory) }
    ensures reserved { vec_len committed.old < vec_capacity committed.old → IsOk result }
{
    if committed.len() < committed.capacity() {
        return Ok(());
    }
    committed.reserve(1)?;
    Ok(())
}

impl Judging {
    /// What judges a record behind the empty log of a database with this many pages. It takes the
    /// room for all that is kept of keys.
    pub(crate) fn new(alloc: Global, pages: u32) -> Result<Judging, Fault>
        ensures ok { IfOk result (λ j. IsJudgingOf pages j []) }
        ensures err { IfErr result (λ e. e ≡ Memory) }
    {
        Ok(Judging {
            survivors: Survivors::new(alloc),
            keys: unwritten_keys(alloc, pages)?,
            committed: Vec::new(alloc),
            glanced: 0,
        })
    }

    /// The first cause for which a record may not follow the log of this table, greatest TransID
    /// and open begin_chkpt.
    pub(crate) fn first_cause(
        &self,
        table: &TransTable,
        greatest: TransId,
        begun: Lsn,
        logged: &RecordView<'_>,
    ) -> Option<Cause>
        ensures { (pages : ℕ) (log : List Record) → IsJudgingOf pages self.now log
            → IsTableOf table.now log → greatest.0 ≡ greatest_trans log
            → begun.0 ≡ open_checkpoint log → IsValidLog pages log
            → IsRecord pages (shown logged.now) → result ≡ first_bad log (shown logged.now) }
    {
        let past = past_of(table, &self.survivors, logged.trans);
        if is_bad_prev(&past, logged) {
            return Some(Cause::BadPrev);
        }
        if is_old(&past, greatest, logged) {
            return Some(Cause::OldTransaction);
        }
        if is_wrong_state(&past, self.committed.as_slice(), logged) {
            return Some(Cause::WrongState);
        }
        if is_wrong_undo_next(&past, logged) {
            return Some(Cause::WrongUndoNext);
        }
        if is_wrong_compensation(&past, logged) {
            return Some(Cause::WrongCompensation);
        }
        if let Some(by) = holder_of(self.keys.as_slice(), table, logged) {
            return Some(Cause::RecordHeld { by });
        }
        if is_stale(self.keys.as_slice(), logged) {
            return Some(Cause::BeforeImage);
        }
        if is_one_too_many(&past, table.rows().len(), logged) {
            return Some(Cause::TooManyTransactions);
        }
        if is_bad_checkpoint(begun, logged) {
            return Some(Cause::BadCheckpoint);
        }
        None
    }

    /// Makes room for one more record, whatever it is: the next `note` takes no memory. What is
    /// kept stays as it is.
    #[inline(always)]
    pub(crate) fn reserve(&mut self) -> Result<(), Fault>
        ensures ok { OnOk result (MayNote self.new) }
        ensures err { IfErr result (λ e. e ≡ Memory) }
        ensures kept { (pages : ℕ) (log : List Record) → IsJudgingOf pages self.old log
            → IsJudgingOf pages self.new log }
        ensures reserved { MayNote self.old → IsOk result }
    {
        self.survivors.reserve()?;
        reserve_one(&mut self.committed)
    }

    /// Notes a record that may follow the log: what is kept is that of the log with the record. Its
    /// transaction has its row at this place, or none.
    pub(crate) fn note(&mut self, place: Option<usize>, logged: &RecordView<'_>)
        requires { MayNote self.old }
        ensures { (pages : ℕ) (log : List Record) → IsJudgingOf pages self.old log
            → IsValidLog pages (log ++ (shown logged.now) ∷ [])
            → MatchOption place (is_unended log logged.now.trans.0
            ≡ false) (λ at. StandsAt log logged.now.trans.0 at)
            → IsJudgingOf pages self.new (log ++ (shown logged.now) ∷ []) }
    {
        self.survivors.note(place, logged);
        note_change(self.keys.as_mut_slice(), logged);
        note_commit(&mut self.committed, logged);
    }

    /// Notes an update that may follow the log, which has this key and these images: what is kept
    /// is that of the log with it. The row of its transaction stands at this place.
    #[inline(always)]
    pub(crate) fn note_update(
        &mut self,
        at: usize,
        logged: &RecordView<'_>,
        key: Key,
        before: &ImageView<'_>,
        after: &ImageView<'_>,
    )
        requires room { MayNote self.old }
        requires shows { shown_body logged.now.body
            ≡ AnyBody.Update key (shown_image before.now) (shown_image after.now) }
        ensures { (pages : ℕ) (log : List Record) → IsJudgingOf pages self.old log
            → IsValidLog pages (log ++ (shown logged.now) ∷ [])
            → StandsAt log logged.now.trans.0 at
            → IsJudgingOf pages self.new (log ++ (shown logged.now) ∷ []) }
    {
        self.survivors.note_update(at, logged, key, before, after);
        note_update(self.keys.as_mut_slice(), logged, key, after);
    }

    /// Reads what is kept of the keys that the records at the front of these bytes seem to write.
    /// It answers how many bytes these records seem to have.
    pub(crate) fn look_ahead(&mut self, bytes: &[u8]) -> usize
        ensures kept { (pages : ℕ) (log : List Record) → IsJudgingOf pages self.old log
            → IsJudgingOf pages self.new log }
        ensures room { may_note self.new ≡ may_note self.old }
    {
        let (len, seen) = glance_ahead(self.keys.as_slice(), bytes);
        self.glanced ^= seen;
        len
    }

    /// The updates of an unended transaction of this table that no compensation has undone, in
    /// order; none for any other.
    pub(crate) fn survivors_of(&self, table: &TransTable, trans: TransId) -> &[KeptUpdate]
        ensures { (log : List Record) → AreSurvivorsOf self.now.survivors log
            → IsTableOf table.now log → result.now ≡ survivors_in log trans.0 }
    {
        match table.place(trans) {
            Some(at) => self.survivors.at(at),
            None => &[],
        }
    }

    /// What a key of the database has now, and which transaction of this table holds it.
    pub(crate) fn key_now(&self, table: &TransTable, key: Key) -> Option<KeyNow>
        ensures { (pages : ℕ) (log : List Record) → IsJudgingOf pages self.now log
            → IsTableOf table.now log → IsTrue (is_valid log) → IsKey pages key
            → MatchOption result (true ≡ false) (λ told. TellsOfKey log key told) }
    {
        key_now(self.keys.as_slice(), table, key)
    }
}
