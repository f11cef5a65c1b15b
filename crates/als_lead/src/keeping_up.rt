ghost use Rattle.std.specs.Prelude.{◌≡◌};
ghost use Rattle.als_lead.specs.Going.{Stays, Publishes};

use crate::forcing::sync_control;
use crate::upkeep::Upkeep;
use als_drive::drain;
use als_engine::{Events, Fault};
use als_record::Lsn;
use std::sync::Wait;

/// The most pages that one `keep_up` writes.
const PAGES_EACH: u32 = 64;

/// The upkeep of a primary. Between two groups its pages are redone. After every `each` log bytes the dirty
/// pages are written, some after each group, and then a checkpoint is taken, so that a restart has little
/// to redo.
#[derive(Drop)]
pub struct PrimaryUpkeep<'a, R: Wait> {
    /// The runtime, by which publishing waits for readers.
    rt: &'a R,
    /// The log bytes from one checkpoint to the next. 0: none is taken.
    each: u64,
    /// Where the log ends when the next one is due.
    due: u64,
    /// The first page that is not written yet for the checkpoint that is due.
    from: u32,
}

impl<'a, R: Wait> PrimaryUpkeep<'a, R> {
    /// The upkeep of a primary whose log ends there, with a checkpoint after every `each` bytes of log, or
    /// none for 0.
    pub fn new(rt: &'a R, each: u64, end: Lsn) -> PrimaryUpkeep<'a, R> {
        PrimaryUpkeep {
            rt,
            each,
            due: end.0.saturating_add(each),
            from: 0,
        }
    }

    /// Writes the next pages of the checkpoint that is due, and takes it once all are written.
    #[tactic(auto, using(crate::proofs::Going::stays_trans))]
    fn go_on<E: Events>(&mut self, engine: &mut E, end: Lsn) -> Result<(), Fault>
        ensures stays { E.alone → Stays (E.machine engine.old) (E.machine engine.new) }
        ensures book { E.book engine.new ≡ E.book engine.old }
    {
        match flush_pages(engine, self.from)? {
            Some(page) => self.from = page,
            None => {
                sync_pages(engine)?;
                checkpoint(engine)?;
                self.from = 0;
                self.due = end.0.saturating_add(self.each);
            }
        }
        Ok(())
    }
}

impl<R: Wait> Upkeep for PrimaryUpkeep<'_, R> {
    // Nobody else has to hold the log.
    ghost confirmed = { λ upkeep n. Unit {0} };

    ghost missed = { λ upkeep n. ⊥ };

    ghost failed = { λ upkeep f. ⊥ };

    #[tactic(auto, using(crate::proofs::Going::publishes_view))]
    fn publish<E: Events>(&mut self, engine: &mut E) -> Result<(), Fault> {
        match engine.publish_view(self.rt) {
            Ok(()) => Ok(()),
            Err(Fault::NothingToDo) => Ok(()),
            Err(fault) => Err(fault),
        }
    }

    #[tactic(auto, using(crate::proofs::Going::stays_trans, crate::proofs::Going::stays_redoes))]
    fn keep_up<E: Events>(&mut self, engine: &mut E) -> Result<(), Fault> {
        drain(engine)?;
        let end = engine.status().end;
        if self.each > 0 && end.0 >= self.due {
            self.go_on(engine, end)?;
        }
        Ok(())
    }

    fn confirm(&mut self, _end: Lsn) -> Result<bool, Fault> {
        Ok(true)
    }

    fn has_confirmed(&mut self, _end: Lsn) -> Result<bool, Fault> {
        Ok(true)
    }
}

/// Writes the next dirty pages from there on, and returns where to go on. None: no dirty page is left.
#[tactic(auto, using(crate::proofs::Going::stays_refl, crate::proofs::Going::stays_trans))]
fn flush_pages<E: Events>(engine: &mut E, from: u32) -> Result<Option<u32>, Fault>
    ensures stays { E.alone → Stays (E.machine engine.old) (E.machine engine.new) }
    ensures book { E.book engine.new ≡ E.book engine.old }
{
    let mut next = from;
    for _ in 0..PAGES_EACH {
        let Some(row) = engine.dirty(next) else {
            return Ok(None);
        };
        flush_page(engine, row.page)?;
        next = row.page.saturating_add(1);
    }
    Ok(Some(next))
}

/// Writes a dirty page to its block, unless its image was written before.
#[tactic(auto, using(crate::proofs::Going::stays_flush))]
fn flush_page<E: Events>(engine: &mut E, page: u32) -> Result<(), Fault>
    ensures stays { E.alone → Stays (E.machine engine.old) (E.machine engine.new) }
    ensures book { E.book engine.new ≡ E.book engine.old }
{
    match engine.flush(page) {
        Ok(()) => Ok(()),
        Err(Fault::NothingToDo) => Ok(()),
        Err(fault) => Err(fault),
    }
}

/// Syncs the pages' device.
#[tactic(auto, using(crate::proofs::Going::stays_sync_pages))]
fn sync_pages<E: Events>(engine: &mut E) -> Result<(), Fault>
    ensures stays { E.alone → Stays (E.machine engine.old) (E.machine engine.new) }
    ensures book { E.book engine.new ≡ E.book engine.old }
{
    match engine.sync_pages() {
        Ok(()) => Ok(()),
        Err(fault) => Err(fault),
    }
}

/// Writes one checkpoint, publishes it, and makes that certain to survive a crash.
#[tactic(auto, using(crate::proofs::Going::stays_trans))]
fn checkpoint<E: Events>(engine: &mut E) -> Result<(), Fault>
    ensures stays { E.alone → Stays (E.machine engine.old) (E.machine engine.new) }
    ensures book { E.book engine.new ≡ E.book engine.old }
{
    begin(engine)?;
    write_blocks(engine)?;
    sync_control(engine)?;
    publish_checkpoint(engine)?;
    sync_control(engine)
}

/// Begins a checkpoint.
#[tactic(auto, using(crate::proofs::Going::stays_ckpt_begin))]
fn begin<E: Events>(engine: &mut E) -> Result<(), Fault>
    ensures stays { E.alone → Stays (E.machine engine.old) (E.machine engine.new) }
    ensures book { E.book engine.new ≡ E.book engine.old }
{
    match engine.ckpt_begin() {
        Ok(()) => Ok(()),
        Err(fault) => Err(fault),
    }
}

/// Writes each block of the checkpoint that is begun.
#[tactic(auto, using(crate::proofs::Going::stays_refl, crate::proofs::Going::stays_trans))]
fn write_blocks<E: Events>(engine: &mut E) -> Result<(), Fault>
    ensures stays { E.alone → Stays (E.machine engine.old) (E.machine engine.new) }
    ensures book { E.book engine.new ≡ E.book engine.old }
{
    for _ in 0..u64::MAX {
        let is_written = write_block(engine)?;
        if !is_written {
            return Ok(());
        }
    }
    Err(Fault::CkptBusy)
}

/// Writes the next block of the checkpoint. Returns whether there was one.
#[tactic(auto, using(crate::proofs::Going::stays_ckpt_block))]
fn write_block<E: Events>(engine: &mut E) -> Result<bool, Fault>
    ensures stays { E.alone → Stays (E.machine engine.old) (E.machine engine.new) }
    ensures book { E.book engine.new ≡ E.book engine.old }
{
    match engine.ckpt_block() {
        Ok(()) => Ok(true),
        Err(Fault::NothingToDo) => Ok(false),
        Err(fault) => Err(fault),
    }
}

/// Publishes the checkpoint.
#[tactic(auto, using(crate::proofs::Going::stays_ckpt_publish))]
fn publish_checkpoint<E: Events>(engine: &mut E) -> Result<(), Fault>
    ensures stays { E.alone → Stays (E.machine engine.old) (E.machine engine.new) }
    ensures book { E.book engine.new ≡ E.book engine.old }
{
    match engine.ckpt_publish() {
        Ok(()) => Ok(()),
        Err(fault) => Err(fault),
    }
}
