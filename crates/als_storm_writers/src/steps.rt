use crate::stop::Stop;
use als_drive::drain;
use als_engine::{Events, Fault};

/// The steps of a writer before the power is cut.
#[derive(Clone, Copy, Debug)]
pub struct Steps {
    left: u64,
}

impl Steps {
    /// As many as these.
    pub fn new(count: u64) -> Steps {
        Steps { left: count }
    }

    /// Takes one step, or the power is cut.
    pub fn take(&mut self) -> Result<(), Stop> {
        if self.left == 0 {
            return Err(Stop::Cut);
        }
        self.left -= 1;
        Ok(())
    }
}

/// An event that may have nothing to do.
fn passed(answer: Result<(), Fault>) -> Result<(), Stop> {
    match answer {
        Ok(()) | Err(Fault::NothingToDo) => Ok(()),
        Err(fault) => Err(Stop::from(fault)),
    }
}

/// Makes the whole log durable.
pub fn force<E: Events>(engine: &mut E, steps: &mut Steps) -> Result<(), Stop> {
    for _ in 0..u64::MAX {
        steps.take()?;
        match engine.log_write() {
            Ok(()) => {}
            Err(Fault::NothingToDo) => break,
            Err(fault) => return Err(Stop::from(fault)),
        }
    }
    acknowledge(engine, steps)
}

/// Makes one more block of the log durable. A transaction of which it has a part may be cut there.
pub fn force_block<E: Events>(engine: &mut E, steps: &mut Steps) -> Result<(), Stop> {
    steps.take()?;
    passed(engine.log_write())?;
    acknowledge(engine, steps)
}

/// Makes what is written of the log durable.
fn acknowledge<E: Events>(engine: &mut E, steps: &mut Steps) -> Result<(), Stop> {
    steps.take()?;
    engine.log_sync()?;
    steps.take()?;
    passed(engine.mark_write())?;
    steps.take()?;
    engine.ctl_sync()?;
    Ok(())
}

/// Redoes what waits, writes the pages and takes a checkpoint. The log was forced.
pub fn keep_up<E: Events>(engine: &mut E, steps: &mut Steps) -> Result<(), Stop> {
    steps.take()?;
    drain(engine)?;
    flush_pages(engine, steps)?;
    steps.take()?;
    engine.sync_pages()?;
    checkpoint(engine, steps)
}

/// Writes each dirty page to its block.
fn flush_pages<E: Events>(engine: &mut E, steps: &mut Steps) -> Result<(), Stop> {
    let mut from = 0;
    for _ in 0..engine.pages() {
        let Some(row) = engine.dirty(from) else {
            break;
        };
        steps.take()?;
        passed(engine.flush(row.page))?;
        from = row.page.saturating_add(1);
    }
    Ok(())
}

/// Writes a checkpoint and publishes it.
fn checkpoint<E: Events>(engine: &mut E, steps: &mut Steps) -> Result<(), Stop> {
    steps.take()?;
    engine.ckpt_begin()?;
    for _ in 0..u64::MAX {
        steps.take()?;
        match engine.ckpt_block() {
            Ok(()) => {}
            Err(Fault::NothingToDo) => break,
            Err(fault) => return Err(Stop::from(fault)),
        }
    }
    steps.take()?;
    engine.ctl_sync()?;
    steps.take()?;
    engine.ckpt_publish()?;
    steps.take()?;
    engine.ctl_sync()?;
    Ok(())
}
