ghost use Rattle.std.specs.Prelude.{◌≡◌, ℕ, ◌<◌, true, false, List, [], ◌∷◌, ◌++◌, length, vec_len};
ghost use Rattle.std.specs.Prelude.{vec_capacity, slice_index_or, slice_set, OnOk, OnErr, IsOk, IsTrue};
ghost use Rattle.std.specs.Prelude.{MatchOption};
ghost use Rattle.std.specs.List.{remove, All};
ghost use Rattle.als_record.specs.declared.record.Body.{Body as AnyBody};
ghost use Rattle.als_record.specs.declared.record.Record.{Record};
ghost use Rattle.als_record.specs.Transactions.{is_transactional, is_unended};
ghost use Rattle.als_record.specs.Shown.{shown, shown_body, shown_image};
ghost use Rattle.als_record.specs.Validity.{may_follow};
ghost use Rattle.als_analysis.specs.Noted.{StandsAt};
ghost use Rattle.als_validator.specs.Lists.{left_after, MakesRoom, AreSurvivorsOf};

use crate::causes::{is_end_record, is_transaction_record};
use crate::updates::Updates;
use als_record::{ImageView, KeptUpdate, Key, RecordView};
use std::alloc::{AllocError, Global};
use std::marker::Model;

/// The surviving updates of each unended transaction, in the order of the rows of the transaction
/// table. Feed makes no device read, so the validator keeps copies of them.
pub(crate) struct Survivors {
    alloc: Global,
    lists: Vec<Updates>,
    spares: Vec<Updates>,
    // The one transaction that may be without room.
    tight: usize,
    has_room: bool,
}

// Written out: a derived drop is proved wherever survivors are dropped, this one only here.
impl Drop for Survivors {
    fn drop(self) {
        let Survivors {
            alloc: _,
            lists,
            spares,
            tight: _,
            has_room: _,
        } = self;
        drop(lists);
        drop(spares);
    }
}

impl Model for Survivors {
    ghost use Rattle.std.specs.Prelude.{vec_capacity};
    ghost use Rattle.als_validator.specs.Lists.{Lists, lists_of, AreKept};

    ghost Value = { Lists };

    ghost view = { λ s. record { lists = lists_of s.lists.items; has_room = s.has_room } };

    ghost invariant = { λ s. AreKept s.lists.items s.spares.items s.tight s.has_room
        (vec_capacity s.lists) };
}

/// Keeps what an ended transaction had allocated for another one, where there is a place.
fn keep_spare(spares: &mut Vec<Updates>, ended: Updates)
    requires { All (λ o. 0 < o.room) spares.old.items }
    ensures { All (λ o. 0 < o.room) spares.new.items }
{
    if spares.len() < spares.capacity() && ended.has_room() {
        spares.push_reserved(ended);
    }
}

/// A spare for a new transaction.
fn make_spare(spares: &mut Vec<Updates>, alloc: Global) -> Result<(), AllocError>
    requires { All (λ o. 0 < o.room) spares.old.items }
    ensures all { All (λ o. 0 < o.room) spares.new.items }
    ensures ok { OnOk result (0 < vec_len spares.new) }
{
    if spares.is_empty() {
        spares.push(Updates::spare(alloc)?)?;
    }
    Ok(())
}

/// Room for one more update of the transaction at this place, if there is one.
fn make_room(lists: &mut Vec<Updates>, at: usize) -> Result<(), AllocError>
    ensures capacity { vec_capacity lists.new ≡ vec_capacity lists.old }
    ensures ok { OnOk result (MakesRoom lists.old.items lists.new.items at) }
    ensures err { OnErr result (lists.new.items ≡ lists.old.items) }
{
    if at >= lists.len() {
        return Ok(());
    }
    let entry = &mut lists[at];
    entry.reserve()?;
    Ok(())
}

impl Survivors {
    /// Those of the empty log.
    pub(crate) fn new(alloc: Global) -> Self
        ensures { AreSurvivorsOf result [] }
    {
        Survivors {
            alloc,
            lists: Vec::new(alloc),
            spares: Vec::new(alloc),
            tight: 0,
            has_room: false,
        }
    }

    /// Makes room for one more record, whatever it is: after an `Ok` the next `note` takes no
    /// memory. An `Err` changes nothing.
    #[inline(always)]
    pub(crate) fn reserve(&mut self) -> Result<(), AllocError>
        ensures ok { OnOk result (self.new ≡ record self.old { has_room = true }) }
        ensures err { OnErr result (self.new ≡ self.old) }
        ensures reserved { self.old.has_room ≡ true → IsOk result }
    {
        if self.has_room {
            return Ok(());
        }
        self.grow()
    }

    // The same where there may be no room. It is not inlined where a record is fed.
    #[inline(never)]
    fn grow(&mut self) -> Result<(), AllocError>
        requires { self.old.has_room ≡ false }
        ensures ok { OnOk result (self.new ≡ record self.old { has_room = true }) }
        ensures err { OnErr result (self.new ≡ self.old) }
    {
        self.lists.reserve(1)?;
        make_spare(&mut self.spares, self.alloc)?;
        make_room(&mut self.lists, self.tight)?;
        self.has_room = true;
        Ok(())
    }

    /// Those of the transaction at this place.
    pub(crate) fn at(&self, place: usize) -> &[KeptUpdate]
        ensures { result.now ≡ slice_index_or self.now.lists place [] }
    {
        match self.lists.get(place) {
            Some(updates) => updates.as_slice(),
            None => &[],
        }
    }

    /// Another record of the transaction at this place.
    fn extend(&mut self, at: usize, logged: &RecordView<'_>)
        requires room { self.old.has_room ≡ true }
        requires within { at < length self.old.lists }
        ensures { (d : List Record)
            → self.new.lists ≡ slice_set self.old.lists at
            (left_after (slice_index_or self.old.lists at d) (shown logged.now)
            (shown_body logged.now.body)) }
    {
        let entry = &mut self.lists[at];
        entry.extend(logged);
        // The one thing that the record may have used up is the room of its transaction.
        self.has_room = entry.has_room();
        self.tight = at;
    }

    /// An update of the transaction at this place.
    #[inline(always)]
    fn push(
        &mut self,
        at: usize,
        logged: &RecordView<'_>,
        key: Key,
        before: &ImageView<'_>,
        after: &ImageView<'_>,
    )
        requires room { self.old.has_room ≡ true }
        requires within { at < length self.old.lists }
        requires shows { shown_body logged.now.body
            ≡ AnyBody.Update key (shown_image before.now) (shown_image after.now) }
        ensures { (d : List Record)
            → self.new.lists ≡ slice_set self.old.lists at
            (left_after (slice_index_or self.old.lists at d) (shown logged.now)
            (shown_body logged.now.body)) }
    {
        let entry = &mut self.lists[at];
        entry.push(logged, key, before, after);
        // The one thing that the update may have used up is the room of its transaction.
        self.has_room = entry.has_room();
        self.tight = at;
    }

    /// The end of the transaction at this place.
    fn close(&mut self, at: usize)
        requires room { self.old.has_room ≡ true }
        requires within { at < length self.old.lists }
        ensures { self.new.lists ≡ remove self.old.lists at }
    {
        let ended = self.lists.remove(at);
        self.has_room = false;
        keep_spare(&mut self.spares, ended);
    }

    /// The first record of a transaction.
    fn begin(&mut self, logged: &RecordView<'_>)
        requires { self.old.has_room ≡ true }
        ensures { self.new.lists ≡ self.old.lists
            ++ left_after [] (shown logged.now) (shown_body logged.now.body) ∷ [] }
    {
        match self.spares.pop() {
            Some(mut fresh) => {
                fresh.clear();
                fresh.extend(logged);
                self.tight = self.lists.len();
                self.lists.push_reserved(fresh);
                self.has_room = false;
            }
            // Room for a record is a spare too.
            None => unreachable!(),
        }
    }

    /// A record of the transaction whose row stands at this place.
    fn note_known(&mut self, at: usize, logged: &RecordView<'_>)
        requires room { self.old.has_room ≡ true }
        requires kind { is_transactional (shown_body logged.now.body) ≡ true }
        ensures { (log : List Record) → AreSurvivorsOf self.old log
            → IsTrue (may_follow log (shown logged.now))
            → StandsAt log logged.now.trans.0 at
            → AreSurvivorsOf self.new (log ++ (shown logged.now) ∷ []) }
    {
        if at >= self.lists.len() {
            return;
        }
        if is_end_record(&logged.body) {
            self.close(at);
            return;
        }
        self.extend(at, logged);
    }

    /// Notes an update, which has this key and these images, of the transaction whose row stands at
    /// this place: of one that may follow the log it makes the survivors of the log with it.
    #[inline(always)]
    pub(crate) fn note_update(
        &mut self,
        at: usize,
        logged: &RecordView<'_>,
        key: Key,
        before: &ImageView<'_>,
        after: &ImageView<'_>,
    )
        requires room { self.old.has_room ≡ true }
        requires shows { shown_body logged.now.body
            ≡ AnyBody.Update key (shown_image before.now) (shown_image after.now) }
        ensures { (log : List Record) → AreSurvivorsOf self.old log
            → IsTrue (may_follow log (shown logged.now))
            → StandsAt log logged.now.trans.0 at
            → AreSurvivorsOf self.new (log ++ (shown logged.now) ∷ []) }
    {
        if at >= self.lists.len() {
            return;
        }
        self.push(at, logged, key, before, after);
    }

    /// A record of a transaction without a row.
    fn note_new(&mut self, logged: &RecordView<'_>)
        requires room { self.old.has_room ≡ true }
        requires kind { is_transactional (shown_body logged.now.body) ≡ true }
        ensures { (log : List Record) → AreSurvivorsOf self.old log
            → IsTrue (may_follow log (shown logged.now))
            → is_unended log logged.now.trans.0 ≡ false
            → AreSurvivorsOf self.new (log ++ (shown logged.now) ∷ []) }
    {
        if is_end_record(&logged.body) {
            return;
        }
        self.begin(logged);
    }

    /// Notes a record of the transaction whose row stands at this place, or which has none: of a
    /// record that may follow the log it makes the survivors of the log with it.
    pub(crate) fn note(&mut self, place: Option<usize>, logged: &RecordView<'_>)
        requires { self.old.has_room ≡ true }
        ensures { (log : List Record) → AreSurvivorsOf self.old log
            → IsTrue (may_follow log (shown logged.now))
            → MatchOption place (is_unended log logged.now.trans.0
            ≡ false) (λ at. StandsAt log logged.now.trans.0 at)
            → AreSurvivorsOf self.new (log ++ (shown logged.now) ∷ []) }
    {
        if !is_transaction_record(&logged.body) {
            return;
        }
        match place {
            Some(at) => self.note_known(at, logged),
            None => self.note_new(logged),
        }
    }
}
