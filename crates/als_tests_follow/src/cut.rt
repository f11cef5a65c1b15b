use crate::logs::{FRAME, frames, log};
use crate::sessions::{Left, follow_with, is_quiet};
use crate::standbys::{failing, standby};
use als_engine::Events;
use als_follow::Followed;
use als_operate::Fault;
use als_sample_logs::FIRST;
use als_ship::Fault as SessionFault;
use std::alloc::Global;
use std::process::Abort;
use std::sync::Wait;
use std::thread::Threads;

/// The stream ends within the tenth frame. A frame's head has 17 bytes, and the history in front of them
/// 5.
const CUT: usize = 5 + 9 * (17 + FRAME) + 1000;

/// A session that is cut, and one that goes on where it ended, with so many workers each. `None`:
/// they ended otherwise, as where allocation fails.
fn in_two<R: Threads + Wait + Sync + Abort>(
    rt: &R,
    alloc: Global,
    text: &[u8],
    first: usize,
    second: usize,
) -> Option<Left> {
    let sent = frames(alloc, text, FIRST)?;
    let (disks, _fuses) = failing(alloc)?;
    let (engine, reader) = standby(rt, alloc, disks)?;
    let told = Vec::new(alloc);
    let stream = sent.as_slice().get(..CUT)?;
    let Followed {
        engine,
        reader: _,
        writer: told,
        ended,
    } = follow_with(rt, alloc, engine, first, stream, told);
    if ended? != Err(Fault::Session(SessionFault::Cut)) || !is_quiet(&engine) {
        return None;
    }
    let end = engine.status().end.0;
    // The nine whole frames are held, and the last answer says so.
    assert!(rt; end > 8 * FRAME as u64);
    assert!(rt; told.as_slice().ends_with(&end.to_be_bytes()));
    let sent = frames(alloc, text, end as usize)?;
    let Followed {
        engine,
        reader: _,
        writer: told,
        ended,
    } = follow_with(rt, alloc, engine, second, sent.as_slice(), told);
    drop(told);
    ended?.ok()?;
    if !is_quiet(&engine) {
        return None;
    }
    Left::of(rt, alloc, engine, reader)
}

/// A session that is cut leaves all that it acknowledged, and the next one goes on there, with other
/// workers.
fn go_on<R: Threads + Wait + Sync + Abort>(rt: &R, alloc: Global) -> Option<()> {
    let text = log(alloc)?;
    let one = in_two(rt, alloc, text.as_slice(), 0, 0)?;
    for (first, second) in [(4, 1), (1, 4), (4, 0)] {
        let other = in_two(rt, alloc, text.as_slice(), first, second)?;
        assert!(rt; other.is_same(&one), "with {first} workers, then {second}");
    }
    Some(())
}

#[test]
fn a_cut_session_is_put_away_and_goes_on(rt: HostRuntime) {
    let alloc = rt.alloc();
    assert!(rt; go_on(&rt, alloc).is_some() || go_on(&rt, alloc).is_some());
}
