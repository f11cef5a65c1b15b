use super::script::{STEPS, script};
use super::standby::{opened, standby, stands, take};
use super::takeover::takes_over;
use super::text::TEXT;
use std::alloc::Global;
use std::process::Abort;
use std::sync::Wait;

/// Picks for the blocks that have more than one candidate.
const PICKS: [[u8; 3]; 12] = [
    [0, 0, 0],
    [0, 0, 1],
    [0, 1, 0],
    [0, 1, 1],
    [1, 0, 0],
    [1, 0, 1],
    [1, 1, 0],
    [1, 1, 1],
    [0, 2, 0],
    [0, 2, 1],
    [1, 2, 0],
    [255, 255, 255],
];

/// A standby is crashed after so many steps, with these picks. None: allocation failed.
fn survives<R: Wait + Abort>(rt: &R, alloc: Global, taken: usize, picks: &[u8]) -> Option<()> {
    let mut engine = standby(rt, alloc, 8)?;
    let steps = script(&TEXT);
    take(rt, &mut engine, steps.get(..taken)?)?;
    let acknowledged = engine.status().acknowledged;
    let (disks, _) = engine.crash(rt, picks);
    let mut engine = opened(rt, alloc, disks)?;
    stands(rt, alloc, &mut engine, acknowledged)?;
    takes_over(rt, &mut engine)
}

#[test]
fn what_was_acknowledged_stands_after_each_crash(rt: HostRuntime) {
    for taken in 0..=STEPS {
        for picks in &PICKS {
            let alloc = rt.alloc();
            assert!(rt;
                survives(&rt, alloc, taken, picks).is_some()
                    || survives(&rt, alloc, taken, picks).is_some()
            );
        }
    }
}
