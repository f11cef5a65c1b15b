use crate::logs::{FRAME, frames, log};
use crate::sessions::follow_with;
use crate::standbys::{Fuses, failing, standby};
use als_engine::{Events, State};
use als_follow::Followed;
use als_sample_logs::FIRST;
use std::alloc::Global;
use std::process::Abort;
use std::sync::Wait;
use std::thread::Threads;

/// One of a standby's devices.
#[derive(Clone, Copy)]
enum Part {
    Log,
    Control,
    Pages,
}

impl Part {
    /// Makes that call of this device fail, counted from 1 for the next one.
    fn fail_at(self, fuses: &Fuses, call: u64) {
        let fuse = match self {
            Part::Log => &fuses.log,
            Part::Control => &fuses.control,
            Part::Pages => &fuses.pages,
        };
        fuse.fail_at(call.max(1));
    }
}

/// Follows half of a log in one thread, so that each page is in its frame and none is read any more.
/// Then a session over the rest with four workers, in which a write or a sync fails: the number of
/// the fault that ends it. `None`: allocation failed.
fn fault_of<R: Threads + Wait + Sync + Abort>(
    rt: &R,
    alloc: Global,
    text: &[u8],
    part: Part,
    call: u64,
) -> Option<u32> {
    let (disks, fuses) = failing(alloc)?;
    let (engine, _reader) = standby(rt, alloc, disks)?;
    let told = Vec::new(alloc);
    let sent = frames(alloc, text.get(..10 * FRAME)?, FIRST)?;
    let Followed {
        engine,
        reader: _,
        writer: told,
        ended,
    } = follow_with(rt, alloc, engine, 0, sent.as_slice(), told);
    ended?.ok()?;
    let sent = frames(alloc, text, engine.status().end.0 as usize)?;
    part.fail_at(&fuses, call);
    let Followed {
        engine,
        reader: _,
        writer: told,
        ended,
    } = follow_with(rt, alloc, engine, 4, sent.as_slice(), told);
    drop(told);
    let fault = ended?.err()?;
    assert!(rt; engine.status().state == State::Stopped);
    Some(fault.number())
}

/// The first refusal is that of the device, whichever thread met it. The others are stopped by it.
fn fail<R: Threads + Wait + Sync + Abort>(rt: &R, alloc: Global) -> Option<()> {
    let text = log(alloc)?;
    for (part, call) in [
        (Part::Log, 1),
        (Part::Log, 40),
        (Part::Control, 1),
        (Part::Control, 2),
        (Part::Control, 10),
        (Part::Pages, 1),
        (Part::Pages, 16),
    ] {
        // Device.
        let fault = fault_of(rt, alloc, text.as_slice(), part, call)?;
        assert!(rt; fault == 30, "at call {call}");
    }
    Some(())
}

#[test]
fn a_device_that_fails_ends_all_threads(rt: HostRuntime) {
    let alloc = rt.alloc();
    assert!(rt; fail(&rt, alloc).is_some() || fail(&rt, alloc).is_some());
}
