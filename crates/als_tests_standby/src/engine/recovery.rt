// What a crash leaves of the control block.
use super::*;

/// The end of the log after a crash with these picks, of a standby whose mark is written and not
/// synced. None: allocation failed.
fn end_after<R: Wait + Abort>(rt: &R, alloc: Global, picks: &[u8]) -> Option<u64> {
    let (mut engine, _) = Engine::format(alloc, rt, devices_in_memory(alloc), CONFIG).ok()?;
    engine.feed(&text()).ok()?;
    engine.log_write().ok()?;
    engine.log_sync().ok()?;
    engine.mark_write().ok()?;
    let (disks, used) = engine.crash(rt, picks);
    assert!(rt; used == picks.len().min(1));
    let (engine, _) = Engine::open(alloc, rt, disks, CONFIG).ok()?;
    Some(engine.status().end.0)
}

/// The old state of the control block, or the new one. None: allocation failed.
fn picks_choose<R: Wait + Abort>(rt: &R, alloc: Global) -> Option<()> {
    assert!(rt; end_after(rt, alloc, &[])? == 16);
    assert!(rt; end_after(rt, alloc, &[0])? == 16);
    assert!(rt; end_after(rt, alloc, &[1])? == 108);
    Some(())
}

#[test]
fn a_crash_leaves_the_control_state_that_its_pick_names(rt: HostRuntime) {
    assert!(rt; picks_choose(&rt, rt.alloc()).is_some() || picks_choose(&rt, rt.alloc()).is_some());
}
