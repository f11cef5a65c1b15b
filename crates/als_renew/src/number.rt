ghost use Rattle.std.specs.Prelude.{◌≡◌, ◌+◌, ◌<◌, ◌^◌, List, IfOk, IfErr, IsTrue};
ghost use Rattle.als_record.specs.declared.record.Record.{Record as AnyRecord};
ghost use Rattle.als_record.specs.LogText.{end_of};
ghost use Rattle.als_record.specs.Validity.{is_valid};
ghost use Rattle.als_writing.specs.Writing.{is_new};
ghost use Rattle.als_renew.specs.Closing.{SpellsNumber};
ghost use Rattle.als_renew.specs.Refusals.{IsOfOutput};

use crate::fault::Fault;
use crate::page::Spelled;
use als_record::{Body, Lsn, TransId};
use als_writing::Place;
use std::alloc::Global;

/// The bytes of a commit and of an end.
const LENGTH: usize = 56;

/// Spells a transaction of this number that writes nothing, behind a log that ends there.
pub(crate) fn spell_number(alloc: Global, trans: TransId, end: Lsn) -> Result<Spelled, Fault>
    requires room { end.0 + 56 < 2 ^ 64 }
    ensures piece { (log : List AnyRecord) → IsTrue (is_valid log) → end.0 ≡ end_of log
        → IsTrue (is_new log trans.0) → IfOk result (λ s.
        SpellsNumber trans.0 log s.piece.items s.end.0) }
    ensures fails { IfErr result IsOfOutput }
{
    let mut place = Place::first(end, trans);
    let mut piece = Vec::with_capacity(alloc, LENGTH)?;
    place.spell(Body::Commit, &mut piece)?;
    place.spell(Body::End, &mut piece)?;
    Ok(Spelled {
        piece,
        end: place.end,
    })
}
