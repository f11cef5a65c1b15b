ghost use Rattle.std.specs.Prelude.{◌≡◌, ℕ, ◌+◌, ◌*◌, ◌<◌, ◌≤◌, ◌^◌, List, ◌++◌, length, IfOk};
ghost use Rattle.als_record.specs.declared.record.Record.{Record as AnyRecord};
ghost use Rattle.als_record.specs.Spelling.{body_len};
ghost use Rattle.als_record.specs.declared.record.Body.TheVariants.{Update};
ghost use Rattle.als_record.specs.LogText.{spellings, end_of};
ghost use Rattle.als_writing.specs.Writing.{updates};
ghost use Rattle.als_writing.specs.Placing.{IsPlaceOf};
ghost use Rattle.als_writer.specs.Closing.{records_for};
ghost use Rattle.als_writer.specs.Placing.{AreBefores};
ghost use Rattle.als_writer.specs.Checking.{AreApart};

use crate::closing::Closing;
use crate::set::Set;
use als_record::{Body, Fault, KeptImage, Lsn};
use als_writing::Place;
use std::alloc::Global;

/// The records of a transaction as bytes of the log.
#[derive(Drop)]
pub(crate) struct Spelled {
    pub piece: Vec<u8>,
    /// The LSN of the commit record, or of the prepare record.
    pub lsn: Lsn,
    /// Where the last record ends.
    pub end: Lsn,
}

/// Spells a transaction behind the log: an update for each set, which has this image before it, and
/// the records by which it closes. `Err`: no memory.
pub(crate) fn spell(
    alloc: Global,
    start: Place,
    sets: &[Set],
    befores: &[KeptImage],
    closing: Closing,
) -> Result<Spelled, Fault>
    requires same { length befores.now ≡ length sets.now }
    requires few { length sets.now ≤ 600 }
    requires room { start.end.0 + 97 * length sets.now + 56 < 2 ^ 64 }
    ensures piece { (log : List AnyRecord) → IsPlaceOf start log
        → AreBefores log sets.now befores.now → AreApart sets.now
        → IfOk result (λ s. s.piece.items
        ≡ spellings (records_for closing log start.trans.0 sets.now)) }
    ensures lsn { (log : List AnyRecord) → IsPlaceOf start log
        → AreBefores log sets.now befores.now → AreApart sets.now
        → IfOk result (λ s. s.lsn.0 ≡ end_of (log ++ updates log start.trans.0 sets.now)) }
    ensures end { (log : List AnyRecord) → IsPlaceOf start log
        → AreBefores log sets.now befores.now → AreApart sets.now
        → IfOk result (λ s. s.end.0
        ≡ end_of (log ++ records_for closing log start.trans.0 sets.now)) }
{
    let mut place = start;
    let mut piece = Vec::with_capacity(alloc, 97 * sets.len() + 56)?;
    for i in 0..sets.len() {
        let body = update_of(&sets[i], &befores[i]);
        place.spell(body, &mut piece)?;
    }
    let lsn = place.end;
    match closing {
        Closing::Commit => {
            place.spell(Body::Commit, &mut piece)?;
            place.spell(Body::End, &mut piece)?;
            Ok(Spelled {
                piece,
                lsn,
                end: place.end,
            })
        }
        Closing::Prepare => {
            place.spell(Body::Prepare, &mut piece)?;
            Ok(Spelled {
                piece,
                lsn,
                end: place.end,
            })
        }
    }
}

/// What the update of a set says.
fn update_of(set: &Set, before: &KeptImage) -> Body
    ensures says { result ≡ Update set.now.key before.now set.now.after }
    ensures most { body_len result ≤ 69 }
{
    Body::Update {
        key: set.key,
        before: before.image(),
        after: set.image.image(),
    }
}
