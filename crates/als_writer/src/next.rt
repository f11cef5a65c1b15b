ghost use Rattle.std.specs.Prelude.{◌≡◌, true, [], ◌++◌, IfOk, IfErr, OnOk, OnErr};
ghost use Rattle.als_record.specs.Spelling.{spelling};
ghost use Rattle.als_writer.specs.declared.refusal.Refusal.TheVariants.{Memory};
ghost use Rattle.als_engine.specs.Machine.{Keeps};
ghost use Rattle.als_writer.specs.Feeding.{IsNext, TakesNext, NextRefused};

use crate::refusal::Refusal;
use als_engine::{Fault, Writes};
use als_record::{Record, encode};
use std::alloc::Global;

/// Feeds one record that may follow, and for which there is room.
#[tactic(auto, using(als_engine::proofs::KeepLaws::keeps_equal))]
pub(crate) fn feed_record<E: Writes>(
    alloc: Global,
    engine: &mut E,
    next: &Record,
) -> Result<(), Refusal>
    ensures done { OnOk result (E.alone → IsNext (E.machine engine.old) next.now
        → TakesNext (E.machine engine.old) next.now (E.machine engine.new)) }
    ensures same { OnErr result (E.alone → IsNext (E.machine engine.old) next.now
        → E.machine engine.new ≡ E.machine engine.old) }
    ensures refused { IfErr result (λ r. E.alone → IsNext (E.machine engine.old) next.now
        → NextRefused (E.machine engine.old) r) }
    ensures keeps { E.alone → Keeps (E.machine engine.old) (E.machine engine.new) }
    ensures book { E.book engine.new ≡ E.book engine.old }
{
    let piece = piece_of(alloc, next)?;
    // For the prover alone: what always holds of the log, and of its room.
    let _ = engine.status();
    let _ = engine.writing();
    match engine.feed(&piece) {
        Ok(_) => Ok(()),
        Err(refusal) => match refusal.fault {
            Fault::Memory => {
                // It is held all the same.
                if refusal.records > 0 {
                    return Ok(());
                }
                Err(Refusal::Memory { owed: true })
            }
            fault => Err(Refusal::State(fault)),
        },
    }
}

/// The bytes of one record.
fn piece_of(alloc: Global, logged: &Record) -> Result<Vec<u8>, Refusal>
    ensures spelled { IfOk result (λ piece. piece.items ≡ [] ++ spelling logged.now) }
    ensures memory { IfErr result (λ r. r ≡ Memory true) }
{
    let mut piece = Vec::new(alloc);
    match encode(logged, &mut piece) {
        Ok(()) => Ok(piece),
        Err(_) => Err(Refusal::Memory { owed: true }),
    }
}
