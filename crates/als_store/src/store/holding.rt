ghost use Rattle.std.specs.Prelude.{◌≡◌, ℕ, ◌<◌, ◌≤◌, ◌^◌, List, [], ◌∷◌, ◌++◌, length, None};
ghost use Rattle.std.specs.Prelude.{true, IfErr, IfSome, IsOk, OnOk, OnErr, Err};
ghost use Rattle.std.specs.Result.{IsErrOf};
ghost use Rattle.als_log.specs.Local.{HasRoomFor};
ghost use Rattle.als_pool.specs.Bounds.{EndsBelow};
ghost use Rattle.als_pool.specs.Images.{IsPoolOf};
ghost use Rattle.als_pool.specs.Outcomes.{HasPlace, CanRoute};
ghost use Rattle.als_record.specs.declared.record.Record.{Record as AnyRecord};
ghost use Rattle.als_record.specs.LogText.{end_of, IsLog};
ghost use Rattle.als_record.specs.Pages.{change_of};
ghost use Rattle.als_record.specs.Shown.{shown};
ghost use Rattle.als_record.specs.Spelling.{spelling, record_len, IsRecord};
ghost use Rattle.als_record.specs.Tail.{reserve_of};
ghost use Rattle.als_record.specs.Validity.{first_bad, IsValidLog};
ghost use Rattle.als_store.specs.declared.fault.Fault.TheVariants as fault;
ghost use Rattle.als_store.specs.Parts.{spare_of};
ghost use Rattle.als_store.specs.Spare.{HasSpare};
ghost use Rattle.als_store.specs.Stored.{with_records, routed, IsRefused, IsTooLong, judgement_of};
ghost use Rattle.als_store.specs.Takeover.{is_following};
ghost use Rattle.als_validator.specs.Validated.{IsValidatorOf, HasRoom, judges};

use super::Store;
use crate::fault::Fault;
use als_disk::BlockDisk;
use als_log::LocalLog;
use als_pool::{Pool, change_can_follow, other_records_pass, pool_ends_below};
use als_record::{BodyView, Record, RecordView, encoded_len};
use als_validator::{Fault as Refusal, Validator};

/// Room for what a record changes, if anything, behind what its page waits for. An `Err` changes
/// nothing.
fn reserve_change<D: BlockDisk>(pool: &mut Pool<D>, logged: &RecordView<'_>) -> Result<(), Fault>
    requires { IfSome (change_of (shown logged.now))
        (λ c. c.key.page < length pool.old.pool.waits) }
    ensures same { pool.new.pool ≡ pool.old.pool }
    ensures ok { OnOk result
        (IfSome (change_of (shown logged.now)) (λ c. HasPlace pool.new.room c.key.page)) }
    ensures err { IfErr result (λ f. f ≡ fault.Memory) }
    ensures reserved { IfSome (change_of (shown logged.now))
        (λ c. HasPlace pool.old.room c.key.page) → IsOk result }
{
    match &logged.body {
        BodyView::Update { key, .. } | BodyView::Compensation { key, .. } => {
            match pool.reserve(key.page) {
                Ok(()) => Ok(()),
                Err(_) => Err(Fault::Memory),
            }
        }
        _ => Ok(()),
    }
}

/// Adds what a record changes, if anything, behind what its page waits for. It takes no memory.
pub(super) fn route_change<D: BlockDisk>(pool: &mut Pool<D>, logged: &RecordView<'_>)
    requires can { IfSome (change_of (shown logged.now)) (CanRoute pool.old.pool) }
    requires place { IfSome (change_of (shown logged.now))
        (λ c. HasPlace pool.old.room c.key.page) }
    ensures value { pool.new.pool ≡ routed pool.old.pool (change_of (shown logged.now)) }
    // For every log that the pool is of, it is that of the log with the record.
    ensures keeps { (log : List AnyRecord) (below : ℕ) → IsPoolOf log below pool.old.pool
        → IsLog pool.old.pool.frames.pages (log ++ shown logged.now ∷ [])
        → logged.now.lsn.0 ≡ end_of log
        → IsPoolOf (log ++ shown logged.now ∷ []) below pool.new.pool }
    // For every log below the end of which the pool ends, it ends below that of the log with the
    // record.
    ensures ends { (log : List AnyRecord) → EndsBelow (end_of log) pool.old.pool
        → logged.now.lsn.0 ≡ end_of log
        → EndsBelow (end_of (log ++ shown logged.now ∷ [])) pool.new.pool }
{
    pool_ends_below();
    match logged.change() {
        None => other_records_pass(),
        Some(change) => pool.route(change),
    }
}

/// The first cause why a record may not follow the log, if there is one.
fn judge(validator: &Validator, logged: &RecordView<'_>) -> Result<(), Fault>
    requires { judges validator.now ≡ true }
    ensures { (pages : ℕ) (log : List AnyRecord) → IsValidatorOf pages validator.now log
        → IsValidLog pages log → IsRecord pages (shown logged.now)
        → logged.now.lsn.0 ≡ end_of log
        → result ≡ judgement_of (first_bad log (shown logged.now)) }
{
    match validator.check(logged) {
        Ok(()) => Ok(()),
        Err(Refusal::Invalid(cause)) => Err(Fault::Invalid(cause)),
        Err(Refusal::Memory) => Err(Fault::Memory),
    }
}

/// The reserve of the log with a record that may follow it: what a takeover and then the decisions
/// of transactions in doubt would append.
pub(super) fn reserve_after(validator: &Validator, logged: &RecordView<'_>) -> u64
    ensures { (pages : ℕ) (log : List AnyRecord) → IsValidatorOf pages validator.now log
        → logged.now.lsn.0 ≡ end_of log → first_bad log (shown logged.now) ≡ None
        → end_of (log ++ shown logged.now ∷ []) < 2 ^ 62
        → result ≡ reserve_of (log ++ shown logged.now ∷ []) }
{
    validator.reserve_after(logged)
}

/// Lets the validator take a record that may follow the log.
pub(super) fn admit(validator: &mut Validator, logged: &RecordView<'_>)
    requires { HasRoom validator.old }
    ensures kept { (pages : ℕ) (log : List AnyRecord) → IsValidatorOf pages validator.old log
        → IsValidLog pages (log ++ shown logged.now ∷ [])
        → IsValidatorOf pages validator.new (log ++ shown logged.now ∷ []) }
    ensures judging { judges validator.new ≡ judges validator.old }
{
    validator.admit(logged)
}

/// Room for one more record in the validator.
fn reserve_judgement(validator: &mut Validator) -> Result<(), Fault>
    ensures same { (pages : ℕ) (log : List AnyRecord) → IsValidatorOf pages validator.old log
        → IsValidatorOf pages validator.new log }
    ensures judging { judges validator.new ≡ judges validator.old }
    ensures ok { OnOk result (HasRoom validator.new) }
    ensures err { IfErr result (λ f. f ≡ fault.Memory) }
    ensures reserved { HasRoom validator.old → IsOk result }
{
    match validator.reserve() {
        Ok(()) => Ok(()),
        Err(_) => Err(Fault::Memory),
    }
}

/// Room for so many more bytes in the log. An `Err` changes nothing.
fn reserve_bytes<D: BlockDisk>(log: &mut LocalLog<D>, len: usize) -> Result<(), Fault>
    ensures same { log.new ≡ record log.old { room = log.new.room } }
    ensures ok { OnOk result (len ≤ log.new.room) }
    ensures err { IfErr result (λ f. f ≡ fault.Memory) }
    ensures reserved { len ≤ log.old.room → IsOk result }
{
    match log.reserve(len) {
        Ok(()) => Ok(()),
        Err(_) => Err(Fault::Memory),
    }
}

/// Room for a record in all parts that it changes. Memory is wanted only where one of them has no
/// room for it yet.
pub(super) fn make_room<D: BlockDisk>(
    log: &mut LocalLog<D>,
    validator: &mut Validator,
    pool: &mut Pool<D>,
    logged: &RecordView<'_>,
    len: usize,
) -> Result<(), Fault>
    requires inside { IfSome (change_of (shown logged.now))
        (λ c. c.key.page < length pool.old.pool.waits) }
    requires len { len ≡ record_len (shown logged.now) }
    ensures log { log.new ≡ record log.old { room = log.new.room } }
    ensures validator { (pages : ℕ) (log : List AnyRecord) → IsValidatorOf pages validator.old log
        → IsValidatorOf pages validator.new log }
    ensures judging { judges validator.new ≡ judges validator.old }
    ensures pages { pool.new.pool ≡ pool.old.pool }
    ensures ok { OnOk result
        (HasSpare (spare_of log.new validator.new pool.new.room) (shown logged.now)) }
    ensures err { IfErr result (λ f. f ≡ fault.Memory) }
    ensures reserved { HasSpare (spare_of log.old validator.old pool.old.room) (shown logged.now)
        → IsOk result }
{
    reserve_bytes(log, len)?;
    reserve_judgement(validator)?;
    reserve_change(pool, logged)?;
    Ok(())
}

/// The length of a record, of which these are the bytes.
#[inline(always)]
fn len_of(_logged: &RecordView<'_>, bytes: &[u8]) -> usize
    requires { bytes.now ≡ spelling (shown _logged.now) }
    ensures { result ≡ record_len (shown _logged.now) }
{
    bytes.len()
}

/// Appends a record for which there is room on the device and in memory.
#[inline(always)]
fn append<D: BlockDisk>(
    log: &mut LocalLog<D>,
    logged: &RecordView<'_>,
    bytes: &[u8],
    reserve_after: u64,
)
    requires fits { IsRecord log.old.pages (shown logged.now) }
    requires place { logged.now.lsn.0 ≡ end_of log.old.log }
    requires spelled { bytes.now ≡ spelling (shown logged.now) }
    requires device { HasRoomFor log.old (record_len (shown logged.now)) reserve_after }
    requires memory { record_len (shown logged.now) ≤ log.old.room }
    ensures { log.new ≡ record log.old {
      log = log.old.log ++ shown logged.now ∷ [];
      room = log.new.room;
    } }
{
    match log.append_spelled(logged, bytes, reserve_after) {
        Ok(()) => {}
        Err(_) => unreachable!(),
    }
}

impl<D: BlockDisk> Store<D> {
    /// Makes room for a record that stands at the log's end, in all parts that it changes: it can
    /// then be held with no memory. Memory: an allocation failed, in a part that had no room for
    /// the record.
    pub fn reserve(&mut self, logged: &Record) -> Result<(), Fault>
        requires fits { IsRecord self.old.stored.pages logged.now }
        requires at { logged.now.lsn.0 ≡ end_of self.old.stored.log }
        ensures same { self.new.stored ≡ self.old.stored }
        ensures ok { OnOk result (HasSpare self.new.spare logged.now) }
        ensures err { IfErr result (λ f. f ≡ fault.Memory) }
        ensures reserved { HasSpare self.old.spare logged.now → IsOk result }
    {
        let len = encoded_len(logged);
        make_room(
            &mut self.log,
            &mut self.validator,
            &mut self.pool,
            &logged.view(),
            len,
        )?;
        Ok(())
    }

    /// Reads what is kept of the keys that the next records seem to write, so that it is at hand
    /// when they are held: 32 records at most. It answers how many bytes these seem to have, 0
    /// where there is none. The bytes may be any, and nothing is judged. It takes no memory.
    pub fn look_ahead(&mut self, bytes: &[u8]) -> usize
        ensures same { self.new.stored ≡ self.old.stored }
        ensures spare { (r : AnyRecord) → HasSpare self.old.spare r → HasSpare self.new.spare r }
    {
        self.validator.look_ahead(bytes)
    }

    /// Holds a record that stands at the log's end, of which these are the bytes. It is refused for
    /// the first cause why it may not follow the log, else by LogFull where the log device has no
    /// room for it and for the reserve of the log with it, and by Memory where a growth is refused.
    /// An `Err` changes nothing. A log that was sealed takes no more records.
    #[inline(always)]
    pub fn admit(&mut self, logged: &RecordView<'_>, bytes: &[u8]) -> Result<(), Fault>
        requires fits { IsRecord self.old.stored.pages (shown logged.now) }
        requires at { logged.now.lsn.0 ≡ end_of self.old.stored.log }
        requires spelled { bytes.now ≡ spelling (shown logged.now) }
        requires following { is_following self.old.stored ≡ true }
        ensures ok { OnOk result ((first_bad self.old.stored.log (shown logged.now) ≡ None)
            × (self.new.stored ≡ with_records self.old.stored (shown logged.now ∷ []))) }
        ensures err { OnErr result (self.new.stored ≡ self.old.stored) }
        ensures cause { IfErr result (IsRefused self.old.stored (shown logged.now)) }
        ensures full { first_bad self.old.stored.log (shown logged.now) ≡ None
            → IsTooLong self.old.stored (shown logged.now) → result ≡ Err fault.LogFull }
        // Memory is wanted only for a record that may follow, and only where a part has no room for
        // it yet.
        ensures reserved { HasSpare self.old.spare (shown logged.now)
            → IsErrOf result fault.Memory → ⊥ }
        ensures wanted { IsErrOf result fault.Memory
            → first_bad self.old.stored.log (shown logged.now) ≡ None }
    {
        judge(&self.validator, logged)?;
        // For the prover alone: what always holds of the log.
        let _ = self.log.end();
        let reserve_after = reserve_after(&self.validator, logged);
        let len = len_of(logged, bytes);
        if !self.log.fits(len as u64, reserve_after) {
            return Err(Fault::LogFull);
        }
        make_room(
            &mut self.log,
            &mut self.validator,
            &mut self.pool,
            logged,
            len,
        )?;
        admit(&mut self.validator, logged);
        change_can_follow();
        pool_ends_below();
        route_change(&mut self.pool, logged);
        append(&mut self.log, logged, bytes, reserve_after);
        self.count.note(logged);
        Ok(())
    }
}
