ghost use Rattle.std.specs.Prelude.{◌<◌};

// A recovery, and its end.
mod recovery;
// What a writer asks.
mod writer;

use crate::common::{CONFIG, TEXT, devices_in_memory};
use als_disk::{BlockDisk, FailingDisk, Fuse, MemDisk};
use als_engine::{Config, Disks, Engine, Fault, Fed, FeedFault, Reply, State, Status, Step};
use als_record::Lsn;
use std::alloc::{AllocError, Global};
use std::process::Abort;
use std::sync::Wait;

/// An update of 0/0 to `aa` at 16, its commit at 52 and its end at 80.
fn text() -> [u8; 92] {
    let mut records = [0; 92];
    records.copy_from_slice(&TEXT[16..]);
    records
}

/// Updates of 0/0 to 0/5 by one transaction, from 16 on, each with a value of one byte.
fn six_short() -> [u8; 216] {
    [
        0, 0, 0, 36, 1, 0, 0, 0, 0, 0, 0, 0, 0, 0, 0, 16, 0, 0, 0, 0, 0, 0, 0, 0, 0, 0, 0, 1, 0, 0,
        0, 0, 0, 255, 1, 160, 0, 0, 0, 36, 1, 0, 0, 0, 0, 0, 0, 0, 0, 0, 0, 52, 0, 0, 0, 0, 0, 0,
        0, 16, 0, 0, 0, 1, 0, 0, 0, 0, 1, 255, 1, 161, 0, 0, 0, 36, 1, 0, 0, 0, 0, 0, 0, 0, 0, 0,
        0, 88, 0, 0, 0, 0, 0, 0, 0, 52, 0, 0, 0, 1, 0, 0, 0, 0, 2, 255, 1, 162, 0, 0, 0, 36, 1, 0,
        0, 0, 0, 0, 0, 0, 0, 0, 0, 124, 0, 0, 0, 0, 0, 0, 0, 88, 0, 0, 0, 1, 0, 0, 0, 0, 3, 255, 1,
        163, 0, 0, 0, 36, 1, 0, 0, 0, 0, 0, 0, 0, 0, 0, 0, 160, 0, 0, 0, 0, 0, 0, 0, 124, 0, 0, 0,
        1, 0, 0, 0, 0, 4, 255, 1, 164, 0, 0, 0, 36, 1, 0, 0, 0, 0, 0, 0, 0, 0, 0, 0, 196, 0, 0, 0,
        0, 0, 0, 0, 160, 0, 0, 0, 1, 0, 0, 0, 0, 5, 255, 1, 165,
    ]
}

/// The same, but that the sixth has a value of two bytes.
fn six_long() -> [u8; 217] {
    [
        0, 0, 0, 36, 1, 0, 0, 0, 0, 0, 0, 0, 0, 0, 0, 16, 0, 0, 0, 0, 0, 0, 0, 0, 0, 0, 0, 1, 0, 0,
        0, 0, 0, 255, 1, 160, 0, 0, 0, 36, 1, 0, 0, 0, 0, 0, 0, 0, 0, 0, 0, 52, 0, 0, 0, 0, 0, 0,
        0, 16, 0, 0, 0, 1, 0, 0, 0, 0, 1, 255, 1, 161, 0, 0, 0, 36, 1, 0, 0, 0, 0, 0, 0, 0, 0, 0,
        0, 88, 0, 0, 0, 0, 0, 0, 0, 52, 0, 0, 0, 1, 0, 0, 0, 0, 2, 255, 1, 162, 0, 0, 0, 36, 1, 0,
        0, 0, 0, 0, 0, 0, 0, 0, 0, 124, 0, 0, 0, 0, 0, 0, 0, 88, 0, 0, 0, 1, 0, 0, 0, 0, 3, 255, 1,
        163, 0, 0, 0, 36, 1, 0, 0, 0, 0, 0, 0, 0, 0, 0, 0, 160, 0, 0, 0, 0, 0, 0, 0, 124, 0, 0, 0,
        1, 0, 0, 0, 0, 4, 255, 1, 164, 0, 0, 0, 37, 1, 0, 0, 0, 0, 0, 0, 0, 0, 0, 0, 196, 0, 0, 0,
        0, 0, 0, 0, 160, 0, 0, 0, 1, 0, 0, 0, 0, 5, 255, 2, 165, 166,
    ]
}

/// A call that no device comes to.
const NEVER: u64 = 1_000_000;

type Disk = FailingDisk<MemDisk>;

/// What makes the log device and the control device fail.
#[derive(Drop)]
struct Fuses {
    log: Fuse,
    control: Fuse,
}

/// New devices, of which the log's has so many blocks.
fn devices(alloc: Global, blocks: u64) -> Result<(Disks<Disk>, Fuses), AllocError> {
    let log = Fuse::new(alloc)?;
    let control = Fuse::new(alloc)?;
    let pages = Fuse::new(alloc)?;
    let disks = Disks {
        log: FailingDisk::new(MemDisk::new(alloc, blocks), log.clone()?),
        control: FailingDisk::new(MemDisk::new(alloc, 321), control.clone()?),
        pages: FailingDisk::new(MemDisk::new(alloc, 4), pages),
    };
    Ok((disks, Fuses { log, control }))
}

/// A standby over new devices. `None`: allocation failed.
fn standby<R: Wait>(rt: &R, alloc: Global, blocks: u64) -> Option<(Engine<Disk>, Fuses)> {
    let (disks, fuses) = devices(alloc, blocks).ok()?;
    let (engine, _) = Engine::format(alloc, rt, disks, CONFIG).ok()?;
    Some((engine, fuses))
}

/// A standby after these steps. None: a reply is another one than is wanted, as where memory was
/// refused.
fn replies_are<R: Wait>(
    rt: &R,
    engine: Engine<Disk>,
    steps: &[Step],
    wanted: &[Reply],
) -> Option<Engine<Disk>> {
    let mut engine = engine;
    for (i, step) in steps.iter().enumerate() {
        let reply = engine.step(rt, step);
        if wanted.get(i) != Some(&reply) {
            return None;
        }
    }
    Some(engine)
}

/// Bytes that are no record, in the room of a partial record that was dropped: their refusal takes
/// no memory.
fn refuses_with_no_memory<R: Wait + Abort>(rt: &R, alloc: Global) -> bool {
    let Some((mut engine, _)) = standby(rt, alloc, 8) else {
        return false;
    };
    let partial = [
        0, 0, 0, 36, 1, 0, 0, 0, 0, 0, 0, 0, 0, 0, 0, 16, 0, 0, 0, 0, 0, 0, 0, 0, 0, 0, 0, 1, 0, 0,
    ];
    if engine.feed(&partial).is_err() {
        assert!(rt; engine.feed(&partial).is_ok());
    }
    assert!(rt; engine.resync().is_ok());
    match engine.feed(&[0; 28]) {
        Ok(_) => panic!(rt; "bytes that are no record were taken"),
        Err(refusal) => assert!(rt; refusal.fault == Fault::BadLength),
    }
    match engine.feed(&partial) {
        Ok(_) => panic!(rt; "an engine that refuses has taken bytes"),
        Err(refusal) => assert!(rt; refusal.fault == Fault::BadLength),
    }
    true
}

#[test]
fn a_refusal_takes_no_memory(rt: HostRuntime) {
    assert!(rt; refuses_with_no_memory(&rt, rt.alloc()) || refuses_with_no_memory(&rt, rt.alloc()));
}

/// The log is written and synced, then marked and acknowledged, each where there is something to
/// do.
fn acknowledges<R: Wait + Abort>(rt: &R, alloc: Global) -> bool {
    let Some((engine, _)) = standby(rt, alloc, 8) else {
        return false;
    };
    let text = text();
    let steps = [
        Step::Feed(&text),
        Step::MarkWrite,
        Step::LogWrite,
        Step::LogWrite,
        Step::MarkWrite,
        Step::LogSync,
        Step::MarkWrite,
        Step::ControlSync,
        Step::Recall(0),
        Step::Resync,
        Step::Recall(9),
    ];
    let wanted = [
        Reply::Fed(Fed {
            taken: 92,
            records: 3,
        }),
        Reply::Refused(Fault::NothingToDo),
        Reply::Done,
        Reply::Refused(Fault::NothingToDo),
        Reply::Refused(Fault::NothingToDo),
        Reply::Done,
        Reply::Done,
        Reply::Acknowledged(Lsn(108)),
        Reply::Refused(Fault::NothingToDo),
        Reply::Done,
        Reply::Refused(Fault::NothingToDo),
    ];
    let Some(mut engine) = replies_are(rt, engine, &steps, &wanted) else {
        return false;
    };
    assert!(rt; engine.status().acknowledged == Lsn(108));
    let (Ok(commit), Ok(nothing)) = (engine.record_at(Lsn(52)), engine.record_at(Lsn(53))) else {
        return false;
    };
    assert!(rt; commit.is_some());
    assert!(rt; nothing.is_none());
    assert!(rt; engine.into_disks(rt).log.blocks() == 8);
    true
}

#[test]
fn what_is_stored_is_acknowledged(rt: HostRuntime) {
    assert!(rt; acknowledges(&rt, rt.alloc()) || acknowledges(&rt, rt.alloc()));
}

/// The log device's or the control device's next call but so many fails. Then each event is
/// refused, and the queries go on.
fn stops<R: Wait + Abort>(rt: &R, alloc: Global, log: u64, control: u64, wanted: &[Reply]) -> bool
    requires log { 0 < log }
    requires control { 0 < control }
{
    let Some((engine, fuses)) = standby(rt, alloc, 8) else {
        return false;
    };
    fuses.log.fail_at(log);
    fuses.control.fail_at(control);
    let text = text();
    let steps = [
        Step::Feed(&text[..63]),
        Step::LogWrite,
        Step::LogSync,
        Step::MarkWrite,
        Step::ControlSync,
        Step::Feed(&text[63..]),
        Step::Resync,
        Step::Recall(0),
        Step::LogWrite,
        Step::LogSync,
        Step::MarkWrite,
        Step::ControlSync,
    ];
    let Some(engine) = replies_are(rt, engine, &steps, wanted) else {
        return false;
    };
    let status = engine.status();
    assert!(rt; status.state == State::Stopped);
    assert!(rt; status.end == Lsn(52));
    assert!(rt; status.partial == 27);
    assert!(rt; status.acknowledged == Lsn(16));
    assert!(rt; status.pending == 1);
    assert!(rt; engine.table().len() == 1);
    assert!(rt; engine.next_pending(0) == Some(0));
    true
}

#[test]
fn a_failed_write_or_sync_stops_the_engine(rt: HostRuntime) {
    let failed = Reply::Refused(Fault::Device);
    let stopped = Reply::Refused(Fault::Stopped);
    let mut wanted = [stopped; 12];
    wanted[0] = Reply::Fed(Fed {
        taken: 63,
        records: 1,
    });
    wanted[5] = Reply::FeedRefused(FeedFault {
        taken: 0,
        records: 0,
        fault: Fault::Stopped,
    });
    let calls = [(1, NEVER), (2, NEVER), (NEVER, 1), (NEVER, 2)];
    for event in 0..4 {
        let (log, control) = calls[event];
        wanted[event + 1] = failed;
        let alloc = rt.alloc();
        assert!(rt;
            stops(&rt, alloc, log, control, &wanted) || stops(&rt, alloc, log, control, &wanted)
        );
        wanted[event + 1] = Reply::Done;
    }
}

/// Devices of which these calls fail are formatted so. False also where allocation failed.
fn formats_so<R: Wait>(
    rt: &R,
    alloc: Global,
    log: u64,
    control: u64,
    wanted: Result<Status, Fault>,
) -> bool
    requires log { 0 < log }
    requires control { 0 < control }
{
    let Ok((disks, fuses)) = devices(alloc, 8) else {
        return false;
    };
    fuses.log.fail_at(log);
    fuses.control.fail_at(control);
    match Engine::format(alloc, rt, disks, CONFIG) {
        Ok((engine, _)) => wanted == Ok(engine.status()),
        Err(refused) => wanted == Err(refused.fault),
    }
}

#[test]
fn a_format_whose_device_fails_is_refused(rt: HostRuntime) {
    let new = Status {
        state: State::Following,
        end: Lsn(16),
        partial: 0,
        acknowledged: Lsn(16),
        pending: 0,
        leases: 0,
    };
    let failed = Err(Fault::Device);
    let worlds = [
        (1, NEVER, failed),
        (2, NEVER, failed),
        (NEVER, 1, failed),
        (NEVER, 2, failed),
        (NEVER, 3, failed),
        (NEVER, 4, failed),
        (3, 5, Ok(new)),
    ];
    for (log, control, wanted) in worlds {
        let alloc = rt.alloc();
        assert!(rt;
            formats_so(&rt, alloc, log, control, wanted)
                || formats_so(&rt, alloc, log, control, wanted)
        );
    }
}

/// How new devices with so many blocks each are refused. `None`: allocation failed, or they were
/// not.
fn refused<R: Wait>(
    rt: &R,
    alloc: Global,
    config: Config,
    log: u64,
    control: u64,
    pages: u64,
) -> Option<Fault> {
    let disks = Disks {
        log: MemDisk::new(alloc, log),
        control: MemDisk::new(alloc, control),
        pages: MemDisk::new(alloc, pages),
    };
    match Engine::format(alloc, rt, disks, config) {
        Ok(_) => None,
        Err(refused) => Some(refused.fault),
    }
}

#[test]
fn worlds_out_of_range_are_refused(rt: HostRuntime) {
    for pages in [0, 4097, u64::MAX] {
        let config = Config { pages, ..CONFIG };
        assert!(rt; refused(&rt, rt.alloc(), config, 8, 321, 4096) == Some(Fault::BadConfig));
    }
    for (log, control, pages) in [(0, 321, 4), (4_194_305, 321, 4), (8, 320, 4), (8, 321, 3)] {
        assert!(rt;
            refused(&rt, rt.alloc(), CONFIG, log, control, pages) == Some(Fault::BadConfig)
        );
    }
}
