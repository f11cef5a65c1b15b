ghost use Rattle.std.specs.Prelude.{◌≡◌, IfSome};
ghost use Rattle.als_view.specs.Views.{book_of};
ghost use Rattle.als_engine.specs.Readers.{AreReaders};

use als_disk::{BlockDisk, FailingDisk, Fuse, MemDisk, Restart};
use als_engine::{Config, Disks, Engine, Events, Reader};
use std::alloc::Global;
use std::sync::Wait;

/// A standby of four pages with one reader.
pub(crate) const CONFIG: Config = Config {
    pages: 4,
    frames: 4,
    pending: 1000,
    readers: 1,
};

/// An update of 0/0 to `aa` at 16, its commit at 52 and its end at 80.
pub(crate) const TEXT: [u8; 92] = [
    0, 0, 0, 36, 1, 0, 0, 0, 0, 0, 0, 0, 0, 0, 0, 16, 0, 0, 0, 0, 0, 0, 0, 0, 0, 0, 0, 1, 0, 0, 0,
    0, 0, 255, 1, 170, 0, 0, 0, 28, 3, 0, 0, 0, 0, 0, 0, 0, 0, 0, 0, 52, 0, 0, 0, 0, 0, 0, 0, 16,
    0, 0, 0, 1, 0, 0, 0, 28, 5, 0, 0, 0, 0, 0, 0, 0, 0, 0, 0, 80, 0, 0, 0, 0, 0, 0, 0, 52, 0, 0, 0,
    1,
];

/// An update of 0/0 to `aa` at 16, one of 1/0 to `bb` at 52, their commit at 88 and its end at 116.
pub(crate) const TWO_PAGES: [u8; 128] = [
    0, 0, 0, 36, 1, 0, 0, 0, 0, 0, 0, 0, 0, 0, 0, 16, 0, 0, 0, 0, 0, 0, 0, 0, 0, 0, 0, 1, 0, 0, 0,
    0, 0, 255, 1, 170, 0, 0, 0, 36, 1, 0, 0, 0, 0, 0, 0, 0, 0, 0, 0, 52, 0, 0, 0, 0, 0, 0, 0, 16,
    0, 0, 0, 1, 0, 0, 0, 1, 0, 255, 1, 187, 0, 0, 0, 28, 3, 0, 0, 0, 0, 0, 0, 0, 0, 0, 0, 88, 0, 0,
    0, 0, 0, 0, 0, 52, 0, 0, 0, 1, 0, 0, 0, 28, 5, 0, 0, 0, 0, 0, 0, 0, 0, 0, 0, 116, 0, 0, 0, 0,
    0, 0, 0, 88, 0, 0, 0, 1,
];

/// A device that can fail. `None`: allocation failed.
fn device(alloc: Global, blocks: u64) -> Option<FailingDisk<MemDisk>> {
    let fuse = Fuse::new(alloc).ok()?;
    Some(FailingDisk::new(MemDisk::new(alloc, blocks), fuse))
}

/// A standby of four pages with nothing in it. `None`: allocation failed.
pub(crate) fn standby<R: Wait>(rt: &R, alloc: Global) -> Option<Engine<FailingDisk<MemDisk>>> {
    let (engine, _) = standby_with(rt, alloc, 8, CONFIG)?;
    Some(engine)
}

/// A standby with nothing in it, and its readers. Its log device has so many blocks.
pub(crate) fn standby_with<R: Wait>(
    rt: &R,
    alloc: Global,
    blocks: u64,
    config: Config,
) -> Option<(Engine<FailingDisk<MemDisk>>, Vec<Reader>)>
    ensures { IfSome result (λ made. AreReaders made.0.book config.pages made.1.items) }
{
    let disks = Disks {
        log: device(alloc, blocks)?,
        control: device(alloc, 321)?,
        pages: device(alloc, config.pages)?,
    };
    match Engine::format(alloc, rt, disks, config) {
        Ok(made) => Some(made),
        Err(_) => None,
    }
}

/// Acknowledges a log of at most eight blocks.
pub(crate) fn force<E: Events>(events: &mut E) -> Option<()>
    ensures { E.book events.new ≡ E.book events.old }
{
    for _ in 0..8 {
        if events.log_write().is_err() {
            break;
        }
    }
    events.log_sync().ok()?;
    events.mark_write().ok()?;
    events.ctl_sync().ok()?;
    Some(())
}

/// The standby once more, opened over what it left, with its reader.
fn opened<D: BlockDisk + Drop, R: Wait>(
    rt: &R,
    alloc: Global,
    engine: Engine<D>,
) -> Option<(Engine<D>, Reader)>
    ensures { IfSome result (λ made. book_of made.1 ≡ made.0.book) }
{
    let disks = engine.into_disks(rt);
    let Ok((engine, mut readers)) = Engine::open(alloc, rt, disks, CONFIG) else {
        return None;
    };
    match readers.pop() {
        Some(reader) => Some((engine, reader)),
        None => None,
    }
}

/// A standby of four pages that was opened over the log of one change, all of it acknowledged.
pub(crate) fn restarted<R: Wait>(
    rt: &R,
    alloc: Global,
) -> Option<(Engine<FailingDisk<MemDisk>>, Reader)>
    ensures { IfSome result (λ made. book_of made.1 ≡ made.0.book) }
{
    let mut engine = standby(rt, alloc)?;
    engine.feed(&TEXT).ok()?;
    force(&mut engine)?;
    opened(rt, alloc, engine)
}

/// What a crash leaves of a standby, opened, with its reader. The crash drops all that is not synced.
pub(crate) fn crashed<D: Restart + Drop, R: Wait>(
    rt: &R,
    alloc: Global,
    engine: Engine<D>,
) -> Option<(Engine<D>, Reader)>
    ensures { IfSome result (λ made. book_of made.1 ≡ made.0.book) }
{
    let (disks, _) = engine.crash(rt, &[]);
    let Ok((engine, mut readers)) = Engine::open(alloc, rt, disks, CONFIG) else {
        return None;
    };
    match readers.pop() {
        Some(reader) => Some((engine, reader)),
        None => None,
    }
}
