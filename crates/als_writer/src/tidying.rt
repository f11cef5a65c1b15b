ghost use Rattle.std.specs.Prelude.{◌≡◌, ℕ, List, OnOk, OnErr};
ghost use Rattle.als_engine.specs.Machine.{Keeps};
ghost use Rattle.als_writer.specs.Changes.{AreBounds};
ghost use Rattle.als_writer.specs.Tidying.{Tidied, NotTidied};

use crate::next::feed_record;
use crate::refusal::Refusal;
use als_engine::Writes;
use std::alloc::Global;

/// Writes what is owed to the log: after a stop in the middle of a transaction its end, or the
/// compensations of its updates and the end. A part of a record that waits is dropped first. One
/// call after each start of a writer, and after each `Memory` and `Untidy`.
pub fn tidy<E: Writes>(alloc: Global, engine: &mut E) -> Result<(), Refusal>
    // The log is the old one and all that was owed. No commit came, and nothing is owed.
    ensures done { OnOk result (E.alone → Tidied (E.machine engine.old) (E.machine engine.new)) }
    // The log is the old one and a front of what was owed.
    ensures refused { OnErr result (E.alone
        → NotTidied (E.machine engine.old) (E.machine engine.new)) }
    // What bounds the last commits still does.
    ensures bounds { (bounds : List ℕ) → E.alone
        → AreBounds bounds (E.machine engine.old).held.pages (E.machine engine.old).held.log
        → AreBounds bounds (E.machine engine.new).held.pages (E.machine engine.new).held.log }
    ensures keeps { E.alone → Keeps (E.machine engine.old) (E.machine engine.new) }
    ensures book { E.book engine.new ≡ E.book engine.old }
{
    if let Err(fault) = engine.resync() {
        return Err(Refusal::State(fault));
    }
    for _ in 0..u64::MAX {
        match engine.next_of_tail() {
            Ok(Some(owed)) => feed_record(alloc, engine, &owed)?,
            Ok(None) => return Ok(()),
            Err(fault) => return Err(Refusal::State(fault)),
        }
    }
    Err(Refusal::Memory { owed: true })
}
