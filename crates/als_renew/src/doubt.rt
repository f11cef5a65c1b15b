ghost use Rattle.std.specs.Prelude.{◌≡◌, ℕ, ◌≤◌, List, [], ◌∷◌, ◌++◌, map, IfOk, IfErr, OnOk, IsTrue};
ghost use Rattle.std.specs.List.{AllByRecursion};
ghost use Rattle.als_record.specs.declared.record.Record.{Record as AnyRecord};
ghost use Rattle.als_record.specs.Spelling.{IsKey, spelling};
ghost use Rattle.als_record.specs.LogText.{end_of};
ghost use Rattle.als_record.specs.Validity.{is_valid};
ghost use Rattle.als_writing.specs.Placing.{IsPlaceOf, SoFar};
ghost use Rattle.als_writing.specs.Writing.{Writes as AWrite, record_for, moved, is_new};
ghost use Rattle.als_renew.specs.Carried.{HasNow, SpellsDoubt};
ghost use Rattle.als_renew.specs.Refusals.{IsOfOutput};

use crate::fault::Fault;
use crate::page::{Spelled, value_len};
use als_commits::{Write, Writes};
use als_folder::LOG_LIMIT;
use als_lookback::{Doubt, Fault as LookFault, Seen};
use als_record::{Body, Lsn};
use als_writing::Place;
use std::alloc::Global;

/// Spells a transaction in doubt once more, behind a log that ends there and of which these are the images
/// now: an update for each write, and the prepare record. The images are those behind them.
///
/// Stream: the log is longer than the largest one.
pub(crate) fn spell_doubt(
    alloc: Global,
    now: &mut Seen,
    doubt: &Doubt,
    end: Lsn,
) -> Result<Spelled, Fault>
    ensures piece { IfOk result (λ s. (pages : ℕ) (log : List AnyRecord) → IsTrue (is_valid log)
        → end.0 ≡ end_of log → IsTrue (is_new log doubt.now.trans)
        → AllByRecursion (λ w. IsKey pages w.key) doubt.now.writes → HasNow now.old pages log
        → SpellsDoubt pages doubt.now log s.piece.items s.end.0 now.new) }
    ensures most { IfOk result (λ s. s.end.0 ≤ 2147484000) }
    ensures fails { IfErr result IsOfOutput }
{
    let mut place = Place::first(end, doubt.trans());
    let mut piece = Vec::new(alloc);
    spell_writes(now, doubt.writes(), &mut place, &mut piece)?;
    check_room(place.end)?;
    place.spell(Body::Prepare, &mut piece)?;
    Ok(Spelled {
        piece,
        end: place.end,
    })
}

/// Spells an update for each write, in order.
fn spell_writes(
    now: &mut Seen,
    writes: &Writes,
    place: &mut Place,
    piece: &mut Vec<u8>,
) -> Result<(), Fault>
    requires empty { piece.old.items ≡ [] }
    ensures spelled { OnOk result ((pages : ℕ) (log : List AnyRecord) → IsPlaceOf place.old log
        → AllByRecursion (λ w. IsKey pages w.key) writes.now → HasNow now.old pages log
        → SoFar log place.old.trans.0 (map AWrite writes.now) piece.new.items place.new
        × HasNow now.new pages (log ++ moved log place.old.trans.0 (map AWrite writes.now))) }
    ensures trans { OnOk result (place.new.trans ≡ place.old.trans) }
    ensures fails { IfErr result IsOfOutput }
{
    let mut left = writes.left();
    for _ in 0..writes.len() {
        match left.next() {
            Some(write) => spell_write(now, &write, place, piece)?,
            None => {}
        }
    }
    Ok(())
}

/// Spells an update of a key. What the key has becomes what it gets.
fn spell_write(
    now: &mut Seen,
    write: &Write,
    place: &mut Place,
    piece: &mut Vec<u8>,
) -> Result<(), Fault>
    ensures spelled { OnOk result ((pages : ℕ) (log : List AnyRecord) → IsPlaceOf place.old log
        → IsKey pages write.now.key → HasNow now.old pages log
        → (piece.new.items ≡ piece.old.items
        ++ spelling (record_for log place.old.trans.0 (AWrite write.now)))
        × IsPlaceOf place.new (log ++ record_for log place.old.trans.0 (AWrite write.now) ∷ [])
        × HasNow now.new pages (log ++ record_for log place.old.trans.0 (AWrite write.now) ∷ [])) }
    ensures trans { OnOk result (place.new.trans ≡ place.old.trans) }
    ensures fails { IfErr result IsOfOutput }
{
    check_room(place.end)?;
    let key = write.key;
    let before = now.value(key);
    let after = write.after.image();
    let _ = value_len(&before);
    let _ = value_len(&after);
    now.put(write);
    place.spell(Body::Update { key, before, after }, piece)?;
    Ok(())
}

/// That a log which ends there takes one more record. Stream: it is longer than the largest one.
fn check_room(end: Lsn) -> Result<(), Fault>
    ensures ok { OnOk result (end.0 ≤ 2147483648) }
    ensures err { IfErr result IsOfOutput }
{
    if end.0 > LOG_LIMIT {
        return Err(Fault::Look(LookFault::Stream));
    }
    Ok(())
}
