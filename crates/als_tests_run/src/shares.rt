ghost use Rattle.std.specs.Prelude.{◌≡◌, IfSome, Some, true, false};
ghost use Rattle.als_share.specs.Reaching.{Reaches, ReachesFrom};
ghost use Rattle.als_share.specs.Ledgers.{AreNamed};

use crate::standbys::{TEXT, standby};
use als_engine::{Decision, Events, Fault, State};
use als_record::{Lsn, TransId};
use als_share::{
    Acknowledger, Blanks, Counts, Handle, Ledgers, Settled, Share, Shared, settle, share,
};
use als_ship::Voucher;
use std::alloc::Global;
use std::marker::Brand;
use std::sync::Wait;
use std::thread;
use std::thread::Threads;

/// One thread takes the log in pieces of seven bytes, and acknowledges it.
fn follow<L: Ledgers, E: Events, R: Wait>(
    rt: &R,
    shared: &Shared<L, E>,
    mine: Share<L>,
    acknowledger: Acknowledger<L>,
) -> (Share<L>, Acknowledger<L>) {
    let mut handle = Handle::new(rt, shared, mine);
    for piece in TEXT.chunks(7) {
        let _ = handle.feed(piece);
    }
    let _ = handle.log_write();
    let _ = handle.log_sync();
    let _ = handle.mark_write();
    let mut acknowledger = acknowledger;
    let _ = acknowledger.acknowledge(&mut handle);
    (handle.end(), acknowledger)
}

/// Another one lends page 0, redoes it without the lock, and gives it.
fn redo<L: Ledgers, E: Events, R: Wait>(rt: &R, shared: &Shared<L, E>, mine: Share<L>) -> Share<L> {
    let mut handle = Handle::new(rt, shared, mine);
    for _ in 0..100 {
        if let Ok(mut lease) = handle.lend(0) {
            lease.redo_next();
            let _ = handle.give(lease);
        }
    }
    handle.end()
}

/// Two threads drive an engine by a handle each.
fn drive<L: Ledgers + Send + Sync, E: Counts + Send + Drop, R: Threads + Wait + Sync>(
    rt: &R,
    alloc: Global,
    engine: E,
    blanks: Blanks,
) -> Option<E>
    requires start { L.start ≡ Some (E.machine engine) }
    requires book { L.book ≡ E.book engine }
    requires names { AreNamed L.names blanks.names }
    requires parts { (blanks.parts ≡ L.shares) × (L.shares ≡ 2) }
    requires takes_over { L.takes_over ≡ true }
    ensures { IfSome result (λ settled. E.alone → ReachesFrom L.start (E.machine settled)) }
{
    let (shared, mut shares, acknowledger) = share::<L, E>(alloc, engine, 2, blanks, true).ok()?;
    let one = shares.pop()?;
    let other = shares.pop()?;
    let lent = &shared;
    let ((one, acknowledger), other) = thread::join(
        rt,
        move || follow(rt, lent, one, acknowledger),
        move || redo(rt, lent, other),
    );
    shares.push(other).ok()?;
    let Settled { engine, touched: _ } = settle(shared, one, shares, acknowledger);
    Some(engine)
}

/// The same, over ledgers that are picked here. What comes back is reached from what went in.
fn driven<E: Counts + Send + Drop, R: Threads + Wait + Sync>(
    rt: &R,
    alloc: Global,
    engine: E,
) -> Option<E>
    ensures { IfSome result (λ settled. E.alone → Reaches (E.machine engine) (E.machine settled)) }
{
    drive::<Brand, E, R>(rt, alloc, engine, Blanks::new(2))
}

/// The events of a takeover, by a handle that may make none. Whether all are refused, and leave the
/// engine untouched.
fn refuse<L: Ledgers, E: Counts + Drop, R: Wait>(
    rt: &R,
    alloc: Global,
    engine: E,
    blanks: Blanks,
) -> Option<(E, bool)>
    requires start { L.start ≡ Some (E.machine engine) }
    requires book { L.book ≡ E.book engine }
    requires names { AreNamed L.names blanks.names }
    requires parts { (blanks.parts ≡ L.shares) × (L.shares ≡ 1) }
    requires takes_over { L.takes_over ≡ false }
{
    let (shared, mut shares, acknowledger) = share::<L, E>(alloc, engine, 1, blanks, false).ok()?;
    let mut handle = Handle::new(rt, &shared, shares.pop()?);
    let refused = handle.seal() == Err(Fault::NothingToDo)
        && handle.undo_one() == Err(Fault::NothingToDo)
        && handle.resolve(TransId(1), Decision::Commit) == Err(Fault::NothingToDo)
        && handle.finish() == Err(Fault::NothingToDo);
    let mine = handle.end();
    let Settled { engine, touched } = settle(shared, mine, shares, acknowledger);
    Some((engine, refused && !touched))
}

/// The same, over ledgers that are picked here.
fn refused<E: Counts + Drop, R: Wait>(rt: &R, alloc: Global, engine: E) -> Option<(E, bool)> {
    refuse::<Brand, E, R>(rt, alloc, engine, Blanks::new(1))
}

/// Whether the log is held and acknowledged, and its one change redone or waiting.
fn has_all<E: Events>(engine: &E) -> bool {
    let status = engine.status();
    status.state == State::Following
        && status.end == Lsn(108)
        && status.acknowledged == Lsn(108)
        && status.pending <= 1
        && status.leases == 0
}

/// Whether a new standby that handles drove has all. `None`: allocation failed.
fn is_driven<R: Threads + Wait + Sync>(rt: &R, alloc: Global) -> Option<bool> {
    let engine = standby(rt, alloc)?;
    let engine = driven(rt, alloc, engine)?;
    Some(has_all(&engine))
}

#[test]
fn handles_drive_one_engine(rt: HostRuntime) {
    let alloc = rt.alloc();
    assert!(rt; is_driven(&rt, alloc) == Some(true) || is_driven(&rt, alloc) == Some(true));
}

/// Whether a handle that follows is refused each event of a takeover, and leaves the engine following. `None`:
/// allocation failed.
fn takes_nothing_over<R: Wait>(rt: &R, alloc: Global) -> Option<bool> {
    let engine = standby(rt, alloc)?;
    let (engine, refused) = refused(rt, alloc, engine)?;
    Some(refused && engine.status().state == State::Following)
}

#[test]
fn a_handle_that_follows_takes_nothing_over(rt: HostRuntime) {
    let alloc = rt.alloc();
    assert!(rt;
        takes_nothing_over(&rt, alloc) == Some(true) || takes_nothing_over(&rt, alloc) == Some(true)
    );
}
